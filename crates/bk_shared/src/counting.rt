//! The shared files that metas name, each with its checksum and the number of metas that name it.
ghost use Rattle.std.specs.Prelude.{◌≡◌, ◌++◌, ◌∷◌, [], ℕ, List, Option, Some, None, map, OnOk, IfOk, IfErr};
ghost use Rattle.std.specs.List.{All, cons_option};
ghost use Rattle.std.specs.List.Sorted.{IsStrictlyIncreasing};
ghost use Rattle.bk_meta.specs.declared.metas.Meta.{Meta};
ghost use Rattle.bk_meta.specs.Metas.{IsMeta};
ghost use Rattle.bk_shared.specs.SharedLines.{SharedLine, shared_line, lines_of, all_lines, count_of, crc_of, TellsClash};
ghost use Rattle.bk_shared.specs.Keeping.{KeepsLines, CountsShared, with_line};

use crate::errors::SharedError;
use crate::keys::{Key, key_of};
use bk_meta::{BackupFile, Meta, MetaFile};
use lsm_names::SharedName;
use std::alloc::Global;
use std::collections::BTreeMap;

/// What is kept of a shared file: its checksum, and how many metas name it.
#[derive(Clone, Copy)]
struct SharedFile {
    crc: u32,
    count: u32,
}

/// The shared files that some metas name. Their checksums agree.
#[derive(Drop)]
pub struct Shared {
    files: BTreeMap<Key, SharedFile>,
}

impl Shared {
    /// Counts the shared files of the metas of a backup folder, which come by rising identifier. It
    /// takes memory for each shared file, and time `n log n` for `n` file lines.
    ///
    /// A clash is told at the first line, of the metas in their order and within a meta in the
    /// order of its lines, whose checksum isn't the one that an earlier line gave the same file.
    pub fn build(alloc: Global, metas: &[Meta]) -> Result<Shared, SharedError>
        requires rising { IsStrictlyIncreasing (map (λ meta. meta.id) metas.now) }
        requires lawful { All IsMeta metas.now }
        ensures ok { IfOk result (CountsShared metas.now) }
        ensures err { IfErr result (TellsClash (all_lines metas.now)) }
    {
        let mut files = BTreeMap::new(alloc);
        for meta in metas {
            add_meta(&mut files, meta)?;
        }
        Ok(Shared { files })
    }

    /// How many of the metas name the file.
    pub fn count(&self, name: &SharedName) -> u32
        ensures { (metas : List Meta) → CountsShared metas self.now → result ≡ count_of metas name.now }
    {
        match self.files.get(&key_of(name)) {
            Some(file) => file.count,
            None => 0,
        }
    }

    /// The file's CRC32C, unmasked, which each of the metas that name it gives; none where no meta
    /// names it.
    pub fn crc(&self, name: &SharedName) -> Option<u32>
        ensures { (metas : List Meta) → CountsShared metas self.now → result ≡ crc_of metas name.now }
    {
        match self.files.get(&key_of(name)) {
            Some(file) => Some(file.crc),
            None => None,
        }
    }
}

/// Adds the shared files that a meta names.
fn add_meta(files: &mut BTreeMap<Key, SharedFile>, meta: &Meta) -> Result<(), SharedError>
    ensures ok { (lines : List SharedLine) → KeepsLines lines files.old
        → OnOk result (KeepsLines (lines ++ lines_of meta.now) files.new) }
    ensures err { (lines : List SharedLine) → KeepsLines lines files.old
        → IfErr result (TellsClash (lines ++ lines_of meta.now)) }
{
    for file in meta.files.as_slice() {
        add_file(files, meta.id, file)?;
    }
    Ok(())
}

/// Adds a file of this meta, where it is a shared one.
fn add_file(
    files: &mut BTreeMap<Key, SharedFile>,
    id: u32,
    file: &MetaFile,
) -> Result<(), SharedError>
    ensures ok { (lines : List SharedLine) → KeepsLines lines files.old
        → OnOk result (KeepsLines (lines ++ cons_option (shared_line id file.now) []) files.new) }
    ensures err { (lines : List SharedLine) → KeepsLines lines files.old
        → IfErr result (TellsClash (lines ++ cons_option (shared_line id file.now) [])) }
{
    match BackupFile::parse(id, file.path.as_bytes()) {
        Some(BackupFile::Shared(name)) => add_line(files, name, file.crc),
        _ => Ok(()),
    }
}

/// Adds a line that gives a shared file this checksum.
fn add_line(
    files: &mut BTreeMap<Key, SharedFile>,
    name: SharedName,
    crc: u32,
) -> Result<(), SharedError>
    ensures ok { (lines : List SharedLine) → KeepsLines lines files.old
        → OnOk result (KeepsLines (lines ++ record { name = name; crc = crc } ∷ []) files.new) }
    ensures err { (lines : List SharedLine) → KeepsLines lines files.old
        → IfErr result (TellsClash (lines ++ record { name = name; crc = crc } ∷ [])) }
{
    let key = key_of(&name);
    let file = with_line(files.get(&key).copied(), name, crc)?;
    files.insert(key, file)?;
    Ok(())
}

/// What is kept of a file after one more line of it. There are fewer metas than the greatest count.
fn with_line(
    file: Option<SharedFile>,
    name: SharedName,
    crc: u32,
) -> Result<SharedFile, SharedError>
    ensures { result ≡ with_line file name crc }
{
    match file {
        None => Ok(SharedFile { crc, count: 1 }),
        Some(file) => {
            if file.crc != crc {
                return Err(SharedError::SharedClash {
                    name,
                    kept: file.crc,
                    found: crc,
                });
            }
            Ok(SharedFile {
                crc,
                count: file.count.saturating_add(1),
            })
        }
    }
}
