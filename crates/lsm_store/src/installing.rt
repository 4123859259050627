//! Installing the table of a flush: its edit is appended to the manifest, or a new manifest names the table.
ghost use Rattle.std.specs.Prelude.{◌≡◌, ◌≢◌, ◌<◌, ◌≤◌, ◌++◌, true, false, None, OnOk, IfOk, IfErr};
ghost use Rattle.std.specs.FinMap as finmap;
ghost use Rattle.lsm_model.specs.Causes.{table_limit};
ghost use Rattle.lsm_refine.specs.Among.{new_names};
ghost use Rattle.lsm_refine.specs.Caused.{edit_draws, rolls};
ghost use Rattle.lsm_refine.specs.Flushed.{flush_edit};
ghost use Rattle.lsm_store.specs.FlushParts.{AddsTable, HasInstalled, InstallsBy, IsSealed, Refuses, made_at};

use crate::refused::{error_of, halt_of};
use crate::store::Store;
use lsm_bytes::NoMemory;
use lsm_disk::{Disk, DiskCall, DiskRefusal};
use lsm_memtable::MemTable;
use lsm_model::StoreError;
use lsm_names::{FileName, Path};
use lsm_opening::whole_edit;
use lsm_version::{Add, Adds, Drops, Edit, TableInfo, Version};
use std::alloc::Global;

// The next file's number where none is left: one past the last that there is.
const NUMBER_END: u64 = (1 << 56) - 1;

// A manifest of so many bytes or more gets no further edit: a new one takes its place.
const ROLL_LENGTH: u64 = 1 << 20;

impl<D: Disk> Store<D> {
    // Installs the table of the frozen rows, whose file outlives each crash: from then on it is live, and no row is frozen.
    pub(crate) fn install_table(&mut self, info: TableInfo) -> Result<(), StoreError>
        requires open { self.old.halt ≡ None }
        requires sealed { IsSealed self.old info }
        requires few { finmap.len self.old.kept.version < table_limit }
        ensures ok { OnOk result (HasInstalled (edit_draws self.old.kept) self.old self.new) }
        ensures err { IfErr result (λ e. Refuses (edit_draws self.old.kept) e self.old self.new) }
    {
        let last = self.frozen.rows().last_sequence();
        let Ok(edit) = flush_edit(self.alloc, info, self.log, self.next, last) else {
            return Err(StoreError::NoMemory);
        };
        let Ok(version) = self.catalog.with_table(self.alloc, &edit) else {
            return Err(StoreError::NoMemory);
        };
        if self.manifest.len() >= ROLL_LENGTH {
            return self.roll_table(version, last);
        }
        self.append_table(&edit, version, last)
    }

    // Appends the edit that makes this version.
    fn append_table(&mut self, edit: &Edit, version: Version, last: u64) -> Result<(), StoreError>
        requires open { self.old.halt ≡ None }
        requires short { rolls self.old.kept ≡ false }
        requires by { InstallsBy self.old last edit.now version }
        ensures ok { OnOk result (HasInstalled 0 self.old self.new) }
        ensures err { IfErr result (λ e. Refuses 0 e self.old self.new) }
    {
        match self.manifest.append_edit(&mut self.disk, edit) {
            Ok(()) => {
                self.catalog.install(version, self.log, last);
                self.frozen.hold(MemTable::new(self.alloc));
                self.older = None;
                self.older_len = 0;
                Ok(())
            }
            Err(refused) => {
                self.halt = halt_of(&refused);
                Err(error_of(&refused))
            }
        }
    }

    // Makes a new manifest that adds every table of this version. After want of memory the store knows which of its two new
    // files are there.
    fn roll_table(&mut self, version: Version, last: u64) -> Result<(), StoreError>
        requires open { self.old.halt ≡ None }
        requires long { rolls self.old.kept ≡ true }
        requires by { AddsTable self.old last version }
        ensures ok { OnOk result (HasInstalled 1 self.old self.new) }
        ensures err { IfErr result (λ e. Refuses 1 e self.old self.new) }
    {
        // No pin holds `CURRENT`, as the catalog says.
        let _live = self.catalog.version();
        let number = self.next;
        if number >= NUMBER_END {
            return Err(StoreError::NumbersFull { next: number });
        }
        let Ok(edit) = whole_edit(self.alloc, &version, self.log, number + 1, last) else {
            return Err(StoreError::NoMemory);
        };
        let manifest = self.home.file(&FileName::Manifest(number));
        let count = self.known.as_slice().len();
        let Ok(()) = push_names(&mut self.known, number) else {
            return Err(StoreError::NoMemory);
        };
        match self.manifest.roll(&mut self.disk, number, &edit) {
            Ok(()) => {
                self.known.truncate(count + 1);
                self.next = number + 1;
                self.catalog.install(version, self.log, last);
                self.frozen.hold(MemTable::new(self.alloc));
                self.older = None;
                self.older_len = 0;
                Ok(())
            }
            Err(refused) => {
                self.known
                    .truncate(count + made_before(&manifest, &refused));
                self.next = number + 1;
                self.halt = halt_of(&refused);
                Err(error_of(&refused))
            }
        }
    }
}

// The edit that adds the table at level 0, and sets the log number, the next file number and the last sequence.
fn flush_edit(
    alloc: Global,
    info: TableInfo,
    log: u64,
    next: u64,
    last: u64,
) -> Result<Edit, NoMemory>
    ensures { IfOk result (λ edit. edit ≡ flush_edit info log next last) }
{
    let mut adds = Adds::new(alloc);
    adds.push(Add {
        level: 0,
        table: info,
    })?;
    Ok(Edit {
        log: Some(log),
        next: Some(next),
        last: Some(last),
        adds,
        drops: Drops::new(alloc),
    })
}

// How many of the two new files of a roll, of which this is the manifest, were there before the disk call that was refused.
fn made_before(manifest: &Path, refused: &DiskRefusal) -> usize
    ensures here { refused.now.at.path ≡ manifest.now → result ≡ made_at refused.now.at.call true }
    ensures beside { refused.now.at.path ≢ manifest.now → result ≡ made_at refused.now.at.call false }
    ensures few { result ≤ 2 }
{
    made_at(refused.at.call, refused.at.path == *manifest)
}

// So many were there before this call on the manifest, or on the temporary file or `CURRENT`.
fn made_at(call: DiskCall, is_manifest: bool) -> usize
    ensures made { result ≡ made_at call is_manifest }
    ensures few { result ≤ 2 }
{
    match (call, is_manifest) {
        (DiskCall::Create, true) => 0,
        (DiskCall::Create, false) | (DiskCall::Append, true) => 1,
        _ => 2,
    }
}

// The names of the manifest of this number and of its temporary file come to the known ones, or neither.
fn push_names(known: &mut Vec<FileName>, number: u64) -> Result<(), NoMemory>
    ensures ok { OnOk result (known.new.items ≡ known.old.items ++ new_names number) }
    ensures err { IfErr result (λ e. known.new.items ≡ known.old.items) }
{
    let count = known.as_slice().len();
    known.push(FileName::Manifest(number))?;
    let Ok(()) = known.push(FileName::Temp(number)) else {
        known.truncate(count);
        return Err(NoMemory);
    };
    Ok(())
}
