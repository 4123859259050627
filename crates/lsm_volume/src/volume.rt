//! A disk in memory none of whose calls was planned to fail: what it holds, and its record.
ghost use Rattle.std.specs.Prelude.{◌≡◌, ◌+◌, ◌*◌, ◌<◌, ◌≤◌, ◌^◌, Some, IfOk, IfErr, IfSome, length, min, ◌-◌};
ghost use Rattle.lsm_io.specs.Causes.{Rose};
ghost use Rattle.lsm_disk.specs.Names.{stands};
ghost use Rattle.lsm_disk.specs.State.{state_of, names_now, file_now, bytes_of};
ghost use Rattle.lsm_disk.specs.Tree.{TellsLawful};
ghost use Rattle.lsm_disk.specs.Kinds.{kind_of};
ghost use Rattle.lsm_disk.specs.Listing.{listing};
ghost use Rattle.lsm_disk.specs.Viewed.{opened};
ghost use Rattle.lsm_disk.specs.Refusals.{never, no_file, no_folder, no_view};
ghost use Rattle.lsm_disk.specs.Answers.{Answers, TakesNoMemory, HasCause};
ghost use Rattle.lsm_disk.specs.declared.calls.DiskError.TheVariants.{NoMemory};
ghost use Rattle.lsm_volume.specs.Told.{blank_seen};
ghost use Rattle.lsm_volume.specs.Clock.{NeverFaults};
ghost use Rattle.lsm_volume.specs.Crash.{IsCrashOf};
ghost use Rattle.lsm_changes.specs.History.{appended_in};

mod files;
mod names;

use lsm_changes::{History, MemFile, copy_all, cut_all, front_at, len_at};
use lsm_disk::{DiskError, Kind, Listing};
use lsm_names::Path;
use lsm_nametable::{NameTable, Target, find_file, has_folder, standing};
use std::alloc::Global;
use std::marker::Model;

/// The names and files now, those at the start, and the record of the changes between.
#[derive(Drop)]
pub struct Volume {
    alloc: Global,
    links: bool,
    names: NameTable,
    names_synced: bool,
    files: Vec<MemFile>,
    /// How many files have bytes that weren't synced.
    loose: usize,
    first_names: NameTable,
    first_files: Vec<MemFile>,
    history: History,
    faults: u64,
    refusals: u64,
}

impl Model for Volume {
    ghost use Rattle.lsm_disk.specs.State.{Seen};
    ghost use Rattle.lsm_disk.specs.Codes.{coded_seen};
    ghost use Rattle.lsm_changes.specs.Replay.{state_after};
    ghost use Rattle.lsm_volume.specs.Told.{seen_of, start_of, IsTied};
    ghost use Rattle.lsm_volume.specs.Room.{HasRoom};

    ghost Value = { Seen };

    ghost coded = { coded_seen };

    ghost view = { λ m. seen_of (start_of m.links m.first_names m.first_files.items) m.history.log m.faults m.refusals };

    ghost invariant = { λ m. IsTied m.links m.names m.names_synced m.files.items
        (state_after (start_of m.links m.first_names m.first_files.items) m.history.log)
        × HasRoom m.names m.names_synced m.files.items m.loose m.history.room };
}

/// How much room in the record a change wants that makes a name or appends to a file: for the
/// change, and for each unlink, sync and sync of names that may follow.
fn room_for_more(names: usize, loose: usize) -> Result<usize, DiskError>
    requires { names < 2 ^ 63 }
    ensures room { IfOk result (λ room. room ≡ 2 * names + loose + 5) }
    ensures memory { IfErr result (λ e. e ≡ NoMemory) }
{
    let Some(now) = (2 * names).checked_add(loose) else {
        return Err(DiskError::NoMemory);
    };
    match now.checked_add(5) {
        Some(room) => Ok(room),
        None => Err(DiskError::NoMemory),
    }
}

impl Volume {
    pub fn new(alloc: Global, links: bool) -> Volume
        ensures { result ≡ blank_seen links }
    {
        Volume {
            alloc,
            links,
            names: NameTable::new(alloc),
            names_synced: true,
            files: Vec::new(alloc),
            loose: 0,
            first_names: NameTable::new(alloc),
            first_files: Vec::new(alloc),
            history: History::new(alloc),
            faults: 0,
            refusals: 0,
        }
    }

    /// One image, by the number, as a disk in which all is durable.
    pub fn crash(&self, pick: u64) -> Result<Volume, DiskError>
        ensures image { IfOk result (λ crashed. IsCrashOf self.now crashed) }
        ensures memory { IfErr result (λ e. e ≡ NoMemory) }
    {
        let cuts = self.history.cuts();
        let names = self.history.crashed_names(
            self.alloc,
            &self.first_names,
            self.first_files.len(),
            pick % cuts,
        )?;
        let first_names = names.copy()?;
        let files = cut_all(self.alloc, &self.files, pick / cuts)?;
        let first_files = copy_all(self.alloc, &files)?;
        let room = room_for_more(names.len(), 0)?;
        let mut history = History::new(self.alloc);
        history.reserve(room)?;
        Ok(Volume {
            alloc: self.alloc,
            links: self.links,
            names,
            names_synced: true,
            files,
            loose: 0,
            first_names,
            first_files,
            history,
            faults: 0,
            refusals: 0,
        })
    }

    /// How many bytes were appended so far, at most 2^64 - 1.
    pub fn appended(&self) -> u64
        ensures { IfSome self.now.told (λ story. result ≡ min (appended_in story.log) (2 ^ 64 - 1)) }
    {
        self.history.appended()
    }

    /// Counts a fault.
    pub fn count_fault(&mut self)
        ensures told { self.new.told ≡ self.old.told }
        ensures faults { Rose self.old.faults self.new.faults }
        ensures later { self.old.faults ≤ self.new.faults }
        ensures refusals { self.new.refusals ≡ self.old.refusals }
        ensures lawful { TellsLawful self.old }
    {
        self.faults = self.faults.saturating_add(1);
    }

    pub fn kind(&mut self, path: &Path) -> Result<Option<Kind>, DiskError>
        ensures kind { IfOk result (λ kind. IfSome self.old.told (λ story. kind ≡ kind_of (stands (names_now (state_of story)) path.now))) }
        ensures did { self.new.told ≡ self.old.told }
        ensures answer { Answers never self.old result }
        ensures memory { TakesNoMemory result }
        ensures cause { HasCause self.old self.new result }
        ensures fault { NeverFaults result }
        ensures lawful { TellsLawful self.old }
    {
        Ok(match standing(&self.names, path.as_bytes()) {
            None => None,
            Some(Target::Folder) => Some(Kind::Folder),
            Some(Target::File(_)) => Some(Kind::File),
        })
    }

    pub fn list(&mut self, folder: &Path) -> Result<Listing, DiskError>
        ensures listed { IfOk result (λ entries. IfSome self.old.told
            (λ story. entries ≡ listing folder.now (names_now (state_of story)))) }
        ensures did { self.new.told ≡ self.old.told }
        ensures answer { Answers (no_folder folder.now) self.old result }
        ensures cause { HasCause self.old self.new result }
        ensures fault { NeverFaults result }
        ensures lawful { TellsLawful self.old }
    {
        if !has_folder(&self.names, folder.as_bytes()) {
            self.refusals = self.refusals.saturating_add(1);
            return Err(DiskError::NotThere);
        }
        let entries = self.names.listing(self.alloc, folder.as_bytes())?;
        Ok(Listing::of(entries))
    }

    pub fn size(&mut self, path: &Path) -> Result<u64, DiskError>
        ensures size { IfOk result (λ size. IfSome self.old.told (λ story. size ≡ length (bytes_of (file_now path.now (state_of story))))) }
        ensures did { self.new.told ≡ self.old.told }
        ensures answer { Answers (no_file path.now) self.old result }
        ensures memory { TakesNoMemory result }
        ensures cause { HasCause self.old self.new result }
        ensures fault { NeverFaults result }
        ensures lawful { TellsLawful self.old }
    {
        let Some(id) = find_file(&self.names, path.as_bytes()) else {
            self.refusals = self.refusals.saturating_add(1);
            return Err(DiskError::NotThere);
        };
        Ok(len_at(&self.files, id))
    }

    /// The first `len` bytes of a file, for a view.
    pub fn front(&mut self, path: &Path, len: u64) -> Result<Vec<u8>, DiskError>
        ensures bytes { IfOk result (λ bytes. Some bytes.items ≡ (opened path.now len self.old.told).bytes) }
        ensures len { IfOk result (λ bytes. length bytes.items ≡ len) }
        ensures did { self.new.told ≡ self.old.told }
        ensures answer { Answers (no_view path.now len) self.old result }
        ensures cause { HasCause self.old self.new result }
        ensures fault { NeverFaults result }
        ensures lawful { TellsLawful self.old }
    {
        let Some(id) = find_file(&self.names, path.as_bytes()) else {
            self.refusals = self.refusals.saturating_add(1);
            return Err(DiskError::NotThere);
        };
        let found = len_at(&self.files, id);
        if found < len {
            self.refusals = self.refusals.saturating_add(1);
            return Err(DiskError::Short { found });
        }
        let bytes = front_at(self.alloc, &self.files, id, len)?;
        Ok(bytes)
    }
}
