//! The names, in the order of their bytes.
ghost use Rattle.std.specs.Prelude.{◌≡◌, ◌<◌, ◌^◌, ◌++◌, ◌||◌, ℕ, List, [], Some, None, OnOk, OnErr, IfOk, IfSome, option_map, is_some, is_none, filter};
ghost use Rattle.std.specs.List.{list_any};
ghost use Rattle.std.specs.BTreeMap.{IsOrdered};
ghost use Rattle.std.specs.FinMap as map;
ghost use Rattle.lsm_disk.specs.Names.{Folder_node, File_node, path_cmp, under, inside, is_occupied, renamed, renamed_to, moved_entries};
ghost use Rattle.lsm_disk.specs.Listing.{listing, listed, listed_name, kind_by, with_entry};
ghost use Rattle.lsm_nametable.specs.Target.{node_of};
ghost use Rattle.lsm_nametable.specs.Table.{shown, table_of, with_name, taken_along, put_all, HasSome};

use crate::places::{after_folder, in_folder, is_one_part};
use lsm_disk::{Entry, Kind};
use lsm_names::Path;
use std::alloc::{AllocError, Global};
use std::collections::BTreeMap;
use std::marker::Model;

/// What a name leads to: a folder, or the file of this number.
#[derive(Clone, Copy)]
pub enum Target {
    Folder,
    File(usize),
}

/// What stands under each name.
#[derive(Drop)]
pub struct NameTable {
    entries: BTreeMap<Vec<u8>, Target>,
}

impl Model for NameTable {
    ghost use Rattle.lsm_disk.specs.Names.{Names};
    ghost use Rattle.lsm_disk.specs.Codes.{coded_names};

    ghost Value = { Names };

    ghost coded = { coded_names };

    ghost use Rattle.lsm_nametable.specs.Table.{table_of};

    ghost view = { λ t. table_of t.entries.entries };
}

impl NameTable {
    pub fn new(alloc: Global) -> NameTable
        ensures { result ≡ map.empty }
    {
        NameTable {
            entries: BTreeMap::new(alloc),
        }
    }

    pub fn get(&self, path: &[u8]) -> Option<Target>
        ensures { option_map node_of result ≡ map.get self.now path.now }
    {
        self.entries.get(path).copied()
    }

    /// How many names there are.
    pub fn len(&self) -> usize
        ensures len { result ≡ map.len self.now }
        ensures small { result < 2 ^ 63 }
    {
        self.entries.len()
    }

    pub fn insert(&mut self, path: Vec<u8>, target: Target) -> Result<(), AllocError>
        ensures ok { OnOk result (self.new ≡ map.insert self.old path.items (node_of target)) }
        ensures err { OnErr result (self.new ≡ self.old) }
    {
        self.entries.insert(path, target)?;
        Ok(())
    }

    /// Takes a name away, and gives its bytes.
    pub fn take(&mut self, path: &[u8]) -> Option<Vec<u8>>
        ensures names { self.new ≡ map.remove self.old path.now }
        ensures key { IfSome result (λ key. key.items ≡ path.now) }
        ensures found { is_some result ≡ is_some (map.get self.old path.now) }
    {
        match self.entries.remove_entry(path) {
            Some((key, _)) => Some(key),
            None => None,
        }
    }

    /// A file goes to a free name, or to the place of what has it.
    pub fn move_file(&mut self, from: &[u8], to: Vec<u8>, id: usize) -> Result<(), AllocError>
        requires { map.get self.old from.now ≡ Some (File_node id) }
        ensures ok { OnOk result (self.new ≡ map.insert (map.remove self.old from.now) to.items (File_node id)) }
        ensures err { OnErr result (self.new ≡ self.old) }
    {
        if from == to.as_slice() {
            return Ok(());
        }
        self.entries.insert(to, Target::File(id))?;
        let _ = self.entries.remove(from);
        Ok(())
    }

    /// A folder goes to a free name, with all that is inside. Where memory is wanted nothing has
    /// moved.
    pub fn move_folder(&mut self, alloc: Global, from: &[u8], to: &[u8]) -> Result<(), AllocError>
        requires { (rest : List ℕ) → under [] rest ≡ Some rest → map.get self.old (to.now ++ rest) ≡ None }
        ensures ok { OnOk result (self.new ≡ renamed from.now to.now (Some Folder_node) self.old) }
        ensures err { OnErr result (self.new ≡ self.old) }
    {
        let moved = moved_names(alloc, &self.entries, from, to)?;
        match insert_all(&mut self.entries, moved) {
            Ok(()) => {
                leave_folder(&mut self.entries, from, to);
                Ok(())
            }
            Err(error) => {
                clear_folder(&mut self.entries, to);
                Err(error)
            }
        }
    }

    /// A table in which a folder has moved, whatever stood under the new name.
    pub fn with_moved(&self, alloc: Global, from: &[u8], to: &[u8]) -> Result<NameTable, AllocError>
        ensures { IfOk result (λ moved. moved ≡ renamed from.now to.now (Some Folder_node) self.now) }
    {
        let names = renamed_names(alloc, &self.entries, from, to)?;
        let mut entries = BTreeMap::new(alloc);
        insert_all(&mut entries, names)?;
        Ok(NameTable { entries })
    }

    /// What stands under a name goes to another.
    pub fn rename(
        &mut self,
        alloc: Global,
        from: &[u8],
        to: &[u8],
        target: Target,
    ) -> Result<(), AllocError>
        requires there { map.get self.old from.now ≡ Some (node_of target) }
        requires free { node_of target ≡ Folder_node → (rest : List ℕ) → under [] rest ≡ Some rest
            → map.get self.old (to.now ++ rest) ≡ None }
        ensures ok { OnOk result (self.new ≡ renamed from.now to.now (Some (node_of target)) self.old) }
        ensures err { OnErr result (self.new ≡ self.old) }
    {
        match target {
            Target::Folder => self.move_folder(alloc, from, to),
            Target::File(id) => {
                let name = Vec::from_slice(alloc, to)?;
                self.move_file(from, name, id)
            }
        }
    }

    /// The same names.
    pub fn copy(&self) -> Result<NameTable, AllocError>
        ensures { IfOk result (λ copied. copied ≡ self.now) }
    {
        let entries = self.entries.clone()?;
        Ok(NameTable { entries })
    }

    /// Whether something stands inside the folder.
    pub fn is_occupied(&self, folder: &[u8]) -> bool
        ensures { result ≡ is_occupied self.now folder.now }
    {
        has_inside(&self.entries, folder)
    }

    /// What stands directly in the folder, in the order of bytes.
    pub fn listing(&self, alloc: Global, folder: &[u8]) -> Result<Vec<Entry>, AllocError>
        ensures { IfOk result (λ found. found.items ≡ listing folder.now self.now) }
    {
        listed_in(alloc, &self.entries, folder)
    }
}

fn has_inside(entries: &BTreeMap<Vec<u8>, Target>, folder: &[u8]) -> bool
    ensures answer { result ≡ list_any (λ e. is_some (inside folder.now e.0)) (shown entries.now.entries) }
    ensures ordered { IsOrdered (λ x y. path_cmp x.items y.items) entries.now }
{
    for (key, _target) in entries {
        if in_folder(folder, key.as_slice()).is_some() {
            return true;
        }
    }
    false
}

/// The name that a path has in the folder, where it is one component and the whole is a `Path`.
fn name_in(folder: &[u8], key: &[u8]) -> Option<Path>
    ensures { result ≡ listed_name folder.now key.now }
{
    if !Path::is_path(key) {
        return None;
    }
    let at = in_folder(folder, key)?;
    let rest = key.split_at(at).1;
    if !is_one_part(rest) {
        return None;
    }
    Path::parse(rest).ok()
}

fn kind_of_target(target: Target) -> Kind
    ensures { result ≡ kind_by (node_of target) }
{
    match target {
        Target::Folder => Kind::Folder,
        Target::File(_) => Kind::File,
    }
}

fn push_entry(found: &mut Vec<Entry>, name: Option<Path>, target: Target) -> Result<(), AllocError>
    ensures { OnOk result (found.new.items ≡ found.old.items ++ with_entry name (node_of target) []) }
{
    if let Some(name) = name {
        found.push(Entry {
            name,
            kind: kind_of_target(target),
        })?;
    }
    Ok(())
}

fn listed_in(
    alloc: Global,
    entries: &BTreeMap<Vec<u8>, Target>,
    folder: &[u8],
) -> Result<Vec<Entry>, AllocError>
    ensures listed { IfOk result (λ found. found.items ≡ listed folder.now (shown entries.now.entries)) }
    ensures ordered { OnOk result (IsOrdered (λ x y. path_cmp x.items y.items) entries.now) }
{
    let mut found = Vec::new(alloc);
    for (key, target) in entries {
        push_entry(&mut found, name_in(folder, key.as_slice()), *target)?;
    }
    Ok(found)
}

/// The name that a path has after its folder moved, if it is in the folder.
fn moved_name(
    alloc: Global,
    from: &[u8],
    to: &[u8],
    key: &[u8],
) -> Result<Option<Vec<u8>>, AllocError>
    ensures { IfOk result (λ name. option_map (λ v. v.items) name ≡ option_map (λ rest. to.now ++ rest) (under from.now key.now)) }
{
    let Some(at) = after_folder(from, key) else {
        return Ok(None);
    };
    let mut name = Vec::from_slice(alloc, to)?;
    name.extend_from_slice(key.split_at(at).1)?;
    Ok(Some(name))
}

fn push_moved(
    moved: &mut Vec<(Vec<u8>, Target)>,
    name: Option<Vec<u8>>,
    target: Target,
) -> Result<(), AllocError>
    ensures { OnOk result (shown moved.new.items ≡ shown moved.old.items
        ++ with_name (option_map (λ v. v.items) name) (node_of target) []) }
{
    if let Some(name) = name {
        moved.push((name, target))?;
    }
    Ok(())
}

/// The names that those in the folder have after it moved.
fn moved_names(
    alloc: Global,
    entries: &BTreeMap<Vec<u8>, Target>,
    from: &[u8],
    to: &[u8],
) -> Result<Vec<(Vec<u8>, Target)>, AllocError>
    ensures { IfOk result (λ moved. shown moved.items ≡ taken_along from.now to.now (shown entries.now.entries)) }
{
    let mut moved = Vec::new(alloc);
    for (key, target) in entries {
        let name = moved_name(alloc, from, to, key.as_slice())?;
        push_moved(&mut moved, name, *target)?;
    }
    Ok(moved)
}

/// Inserts all of them, the last one first.
fn insert_all(
    entries: &mut BTreeMap<Vec<u8>, Target>,
    names: Vec<(Vec<u8>, Target)>,
) -> Result<(), AllocError>
    ensures ok { OnOk result (table_of entries.new.entries ≡ put_all (shown names.items) (table_of entries.old.entries)) }
    ensures err { OnErr result (HasSome (shown names.items) (table_of entries.old.entries) (table_of entries.new.entries)) }
{
    let mut moved = names;
    while let Some((name, target)) = moved.pop() {
        entries.insert(name, target)?;
    }
    Ok(())
}

/// Takes away what is in the one folder and not in the other.
fn leave_folder(entries: &mut BTreeMap<Vec<u8>, Target>, from: &[u8], to: &[u8])
    ensures { entries.new.entries ≡ filter (λ e. is_some (under to.now e.0.items) || is_none
        (under from.now e.0.items)) entries.old.entries }
{
    entries.retain(
        |key: &Vec<u8>, _target: &mut Target| -> bool
            ensures answer { result ≡ (is_some (under to.entry.now key.now.items) || is_none (under from.entry.now key.now.items)) }
            ensures same { _target.new ≡ _target.old }
        {
            after_folder(to, key.as_slice()).is_some()
                || after_folder(from, key.as_slice()).is_none()
        },
    );
}

/// Takes away what is in the folder.
fn clear_folder(entries: &mut BTreeMap<Vec<u8>, Target>, folder: &[u8])
    ensures { entries.new.entries ≡ filter (λ e. is_none (under folder.now e.0.items)) entries.old.entries }
{
    entries.retain(
        |key: &Vec<u8>, _target: &mut Target| -> bool
            ensures answer { result ≡ is_none (under folder.entry.now key.now.items) }
            ensures same { _target.new ≡ _target.old }
        { after_folder(folder, key.as_slice()).is_none() },
    );
}

/// The name that a path has after a folder moved.
fn renamed_name(alloc: Global, from: &[u8], to: &[u8], key: &[u8]) -> Result<Vec<u8>, AllocError>
    ensures { IfOk result (λ name. name.items ≡ renamed_to to.now key.now (under from.now key.now)) }
{
    match moved_name(alloc, from, to, key)? {
        Some(name) => Ok(name),
        None => Vec::from_slice(alloc, key),
    }
}

/// All names after a folder moved.
fn renamed_names(
    alloc: Global,
    entries: &BTreeMap<Vec<u8>, Target>,
    from: &[u8],
    to: &[u8],
) -> Result<Vec<(Vec<u8>, Target)>, AllocError>
    ensures names { IfOk result (λ names. shown names.items ≡ moved_entries from.now to.now (shown entries.now.entries)) }
    ensures ordered { OnOk result (IsOrdered (λ x y. path_cmp x.items y.items) entries.now) }
{
    let mut names = Vec::new(alloc);
    for (key, target) in entries {
        let name = renamed_name(alloc, from, to, key.as_slice())?;
        push_moved(&mut names, Some(name), *target)?;
    }
    Ok(names)
}
