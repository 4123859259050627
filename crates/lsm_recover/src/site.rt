//! What an opening finds under its folder's name: nothing, a folder in which a new store may be
//! made, or one that has a store.
ghost use Rattle.std.specs.Prelude.{◌≡◌, ◌+◌, ◌≤◌, IfOk, IfErr, IfSome, IsTrue, is_some, length};
ghost use Rattle.lsm_names.specs.Paths.{is_path};
ghost use Rattle.lsm_disk.specs.Names.{stands};
ghost use Rattle.lsm_disk.specs.State.{state_of, names_now};
ghost use Rattle.lsm_disk.specs.Tree.{TellsLawful};
ghost use Rattle.lsm_recover.specs.declared.errors.FolderError.TheVariants.{DiskFault};
ghost use Rattle.lsm_recover.specs.Listed.{IsListing};
ghost use Rattle.lsm_recover.specs.Site.{AnswersSite, AnswersSiteOf, HasSiteCause, IsNotListed, IsNumbered, are_aside, changed_by, has_current, is_aside, is_aside_by, is_current, is_current_by};

use crate::errors::FolderError;
use crate::known::Known;
use crate::listed::{name_of, names_in, next_number};
use lsm_disk::{Disk, DiskCall, DiskError, Entry, Kind, Listing};
use lsm_names::{FileName, Path};
use std::alloc::Global;

/// What an opening finds under its folder's name.
#[derive(Drop)]
pub enum Site {
    /// Nothing has the name.
    Nothing,
    /// A folder with neither `CURRENT` nor a log nor a table, and with no folder under a file's
    /// name: a new store may be made in it. The names are those of the files that an earlier
    /// opening left, and the next file number is behind theirs, and 1 where there are none.
    Fresh { names: Known, next: u64 },
    /// A folder that has `CURRENT`.
    Store,
}

/// Looks what stands under the name of a store's folder, whose path has at most 130 bytes, and
/// writes nothing. `NoCurrent` says that a folder without `CURRENT` has a log or a table, or a
/// folder under a file's name; where a file has the name, its listing is told as changed.
pub fn find_site<D: Disk>(alloc: Global, disk: &mut D, dir: &Path) -> Result<Site, FolderError>
    requires { length dir.now + 30 ≤ 160 }
    ensures told { (D.seen disk.new).told ≡ (D.seen disk.old).told }

    // Where the disk tells, the answer is what stands there.
    ensures site { IfSome (D.seen disk.old).told (λ story. AnswersSite dir.now story result) }

    // On every disk the names have numbers before the next one, and a refusal has raised its count.
    ensures numbered { IfOk result IsNumbered }
    ensures lawful { TellsLawful (D.seen disk.old) }
    ensures cause { HasSiteCause dir.now (D.seen disk.old) (D.seen disk.new) result }
{
    match is_taken(disk, dir) {
        Ok(true) => match list_taken(disk, dir) {
            Ok(listing) => site_in(alloc, dir, listing.as_slice()),
            Err(error) => Err(error),
        },
        Ok(false) => Ok(Site::Nothing),
        Err(error) => Err(error),
    }
}

// How a refused call on the folder is told: it has changed, but for a fault and want of memory.
fn changed_by(call: DiskCall, dir: &Path, why: DiskError) -> FolderError
    ensures { result ≡ changed_by call dir.now why }
{
    match why {
        DiskError::Fault => FolderError::DiskFault,
        DiskError::NoMemory => FolderError::NoMemory,
        DiskError::NotThere
        | DiskError::Exists
        | DiskError::NoLinks
        | DiskError::NotEmpty
        | DiskError::Short { .. } => FolderError::Changed { call, path: *dir },
    }
}

// Whether anything has the folder's name.
fn is_taken<D: Disk>(disk: &mut D, dir: &Path) -> Result<bool, FolderError>
    ensures told { (D.seen disk.new).told ≡ (D.seen disk.old).told }
    ensures taken { IfOk result (λ taken. IfSome (D.seen disk.old).told (λ story.
        taken ≡ is_some (stands (names_now (state_of story)) dir.now))) }
    ensures refused { IfErr result (λ e. IfSome (D.seen disk.old).told (λ story. e ≡ DiskFault)) }
    ensures lawful { TellsLawful (D.seen disk.old) }
    ensures cause { HasSiteCause dir.now (D.seen disk.old) (D.seen disk.new) result }
{
    match disk.kind(dir) {
        Ok(kind) => Ok(kind.is_some()),
        Err(why) => Err(changed_by(DiskCall::Kind, dir, why)),
    }
}

// What stands in the folder, whose name is taken.
fn list_taken<D: Disk>(disk: &mut D, dir: &Path) -> Result<Listing, FolderError>
    ensures told { (D.seen disk.new).told ≡ (D.seen disk.old).told }
    ensures path { IsTrue (is_path dir.now) }
    ensures folder { IfOk result (λ entries. IfSome (D.seen disk.old).told (λ story. IsListing dir.now story entries)) }
    ensures refused { IfErr result (λ e. IfSome (D.seen disk.old).told (λ story. IsNotListed dir.now story e)) }
    ensures cause { HasSiteCause dir.now (D.seen disk.old) (D.seen disk.new) result }
{
    let _path = dir.as_bytes();
    match disk.list(dir) {
        Ok(listing) => Ok(listing),
        Err(why) => Err(changed_by(DiskCall::List, dir, why)),
    }
}

// What a folder with these entries is to an opening.
fn site_in(alloc: Global, dir: &Path, entries: &[Entry]) -> Result<Site, FolderError>
    ensures site { AnswersSiteOf dir.now entries.now result }
    ensures numbered { IfOk result IsNumbered }
{
    if has_current(entries) {
        return Ok(Site::Store);
    }
    if !are_aside(entries) {
        return Err(FolderError::NoCurrent { dir: *dir });
    }
    let names = names_in(alloc, entries)?;
    let next = next_number(1, entries);
    Ok(Site::Fresh { names, next })
}

// Whether `CURRENT` is among the entries.
#[tactic(auto, unfolding(crate::specs::Site::has_current))]
fn has_current(entries: &[Entry]) -> bool
    ensures { result ≡ has_current entries.now }
{
    for entry in entries {
        if is_current(entry) {
            return true;
        }
    }
    false
}

// Whether a new store may be made beside the entries.
#[tactic(auto, unfolding(crate::specs::Site::are_aside))]
fn are_aside(entries: &[Entry]) -> bool
    ensures { result ≡ are_aside entries.now }
{
    for entry in entries {
        if !is_aside(entry) {
            return false;
        }
    }
    true
}

// Whether an entry is `CURRENT`.
fn is_current(entry: &Entry) -> bool
    ensures { result ≡ is_current entry.now }
{
    is_current_by(name_of(entry.name.as_bytes()), entry.kind)
}

fn is_current_by(name: Option<FileName>, kind: Kind) -> bool
    ensures { result ≡ is_current_by name kind }
{
    match (name, kind) {
        (Some(FileName::Current), Kind::File) => true,
        _ => false,
    }
}

// Whether a new store may be made beside an entry.
fn is_aside(entry: &Entry) -> bool
    ensures { result ≡ is_aside entry.now }
{
    is_aside_by(name_of(entry.name.as_bytes()), entry.kind)
}

fn is_aside_by(name: Option<FileName>, kind: Kind) -> bool
    ensures { result ≡ is_aside_by name kind }
{
    match (name, kind) {
        (None, _) => true,
        (Some(FileName::Manifest(_) | FileName::Temp(_)), Kind::File) => true,
        _ => false,
    }
}
