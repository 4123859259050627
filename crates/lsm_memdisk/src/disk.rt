//! The disk in memory, whose calls can be made to fail.
ghost use Rattle.std.specs.Prelude.{◌≡◌, ◌≤◌, ◌<◌, ◌+◌, ◌++◌, ◌∷◌, [], Some, None, IfOk, IfSome, OnOk, OnErr, length, min, take, ◌-◌, ◌^◌};
ghost use Rattle.lsm_io.specs.Causes.{Rose};
ghost use Rattle.lsm_disk.specs.Names.{stands};
ghost use Rattle.lsm_disk.specs.State.{state_of, names_now, file_now, bytes_of, created, folder_made, appended, file_synced, names_synced, linked, renamed_by, unnamed};
ghost use Rattle.lsm_disk.specs.Tree.{TellsLawful};
ghost use Rattle.lsm_disk.specs.Kinds.{kind_of};
ghost use Rattle.lsm_disk.specs.Listing.{listing};
ghost use Rattle.lsm_disk.specs.Viewed.{opened};
ghost use Rattle.lsm_disk.specs.Refusals.{never, no_file, no_folder, no_room, no_link, no_view, no_rename, no_removal};
ghost use Rattle.lsm_disk.specs.Answers.{Did, Appends, Answers, TakesNoMemory, HasCause};
ghost use Rattle.lsm_volume.specs.Told.{blank_seen};
ghost use Rattle.lsm_volume.specs.Crash.{IsCrashOf};
ghost use Rattle.lsm_changes.specs.History.{appended_in};
ghost use Rattle.lsm_memdisk.specs.Plan.{blank_plan, with_fault, with_stop};
ghost use Rattle.lsm_memdisk.specs.Disk.{Follows, Obeys, whole, front, failed, with_plan, with_reads, reads_for, next_view};

use crate::plan::{Effect, Plan, Turn};
use crate::view::MemView;
use lsm_bytes::NoMemory;
use lsm_disk::{Disk, DiskError, Kind, Listing};
use lsm_names::Path;
use lsm_volume::Volume;
use std::alloc::{AllocError, Global};
use std::marker::Model;

/// A disk in memory. It tells what it holds and all images of each moment. Its calls copy
/// neither a file nor the table of names, but that a view is a copy of the bytes that it has and
/// that a folder's move copies the names inside; an append costs what it adds.
///
/// Any call can be made to fail, by its number. Calls are counted from the disk's making, the
/// first as 1, without `close`.
#[derive(Drop)]
pub struct MemDisk {
    alloc: Global,
    volume: Volume,
    plan: Plan,
    opened: u64,
    starts: u64,
    reads: Vec<(u64, u64)>,
}

impl Model for MemDisk {
    ghost use Rattle.lsm_memdisk.specs.Disk.{Shown, coded_disk};

    ghost Value = { Shown };

    ghost coded = { coded_disk };

    ghost view = { λ m. record { disk = m.volume; plan = m.plan; opened = m.opened; starts = m.starts; reads = m.reads.items } };
}

impl MemDisk {
    /// An empty disk: the root alone. `links` says whether it gives a file a second name.
    pub fn new(alloc: Global, links: bool) -> Result<MemDisk, NoMemory>
        ensures blank { IfOk result (λ made. made.disk ≡ blank_seen links) }
        ensures plan { IfOk result (λ made. made.plan ≡ blank_plan) }
        ensures views { IfOk result (λ made. (made.opened ≡ 0) × (made.starts ≡ 0) × (made.reads ≡ [])) }
    {
        Ok(MemDisk {
            alloc,
            volume: Volume::new(alloc, links),
            plan: Plan::new(alloc),
            opened: 0,
            starts: 0,
            reads: Vec::new(alloc),
        })
    }

    /// Lets the call of this number, counted from 1, answer `Fault` with this effect. Of several
    /// entries for one call the last one holds. Where the effect wants memory that isn't there, the
    /// call answers `NoMemory` and nothing is done.
    pub fn fail_at(&mut self, call: u64, effect: Effect) -> Result<(), NoMemory>
        ensures ok { OnOk result (self.new ≡ with_plan (with_fault call effect) self.old) }
        ensures err { OnErr result (self.new ≡ self.old) }
    {
        self.plan.fail_at(call, effect)
    }

    /// Lets every call from this number on answer `Fault` without effect. It goes before the
    /// entries of `fail_at`, and of several the earliest holds.
    pub fn stop_at(&mut self, call: u64)
        ensures { self.new ≡ with_plan (with_stop call) self.old }
    {
        self.plan.stop_at(call);
    }

    /// Lets the view that the successful `open` of this number gives answer `ViewFault` at its
    /// `read_at` of the number `nth`, both counted from 1. A view that was given already stays as
    /// it is.
    pub fn fail_read(&mut self, view: u64, nth: u64) -> Result<(), NoMemory>
        ensures ok { OnOk result (self.new ≡ with_reads (self.old.reads ++ (view, nth) ∷ []) self.old) }
        ensures err { OnErr result (self.new ≡ self.old) }
    {
        self.reads.push((view, nth))?;
        Ok(())
    }

    /// One image, chosen by the number, as a disk in which all is durable and nothing is planned
    /// to fail. The names are those after some of the operations that are pending, and of each
    /// file what was synced and a front of the rest; the number's digits pick the one and then the
    /// others, so that each image is some number as far as a `u64` reaches.
    pub fn crash(&self, pick: u64) -> Result<MemDisk, NoMemory>
        ensures image { IfOk result (λ crashed. IsCrashOf self.now.disk crashed.disk) }
        ensures plan { IfOk result (λ crashed. crashed.plan ≡ blank_plan) }
    {
        let Ok(volume) = self.volume.crash(pick) else {
            return Err(NoMemory);
        };
        Ok(MemDisk {
            alloc: self.alloc,
            volume,
            plan: Plan::new(self.alloc),
            opened: 0,
            starts: 0,
            reads: Vec::new(self.alloc),
        })
    }

    /// How many bytes were appended so far, at most 2^64 - 1.
    pub fn appended(&self) -> u64
        ensures { IfSome self.now.disk.told (λ story. result ≡ min (appended_in story.log) (2 ^ 64 - 1)) }
    {
        self.volume.appended()
    }

    /// How many `read_at` calls at place 0 were made on the views that came back by `close`.
    pub fn starts(&self) -> u64
        ensures { result ≡ self.now.starts }
    {
        self.starts
    }
}

fn push_read(found: &mut Vec<u64>, number: u64, nth: u64, view: u64) -> Result<(), AllocError>
    ensures { OnOk result (found.new.items ≡ found.old.items ++ reads_for view ((number, nth) ∷ [])) }
{
    if number == view {
        found.push(nth)?;
    }
    Ok(())
}

/// The reads of this view that are to fail.
fn reads_of(alloc: Global, reads: &[(u64, u64)], view: u64) -> Result<Vec<u64>, AllocError>
    ensures { IfOk result (λ found. found.items ≡ reads_for view reads.now) }
{
    let mut found = Vec::new(alloc);
    for (number, nth) in reads {
        push_read(&mut found, *number, *nth, view)?;
    }
    Ok(found)
}

/// The first bytes, so many, and all where there are fewer.
fn front_of(bytes: &[u8], len: u64) -> &[u8]
    ensures { result.now ≡ take len bytes.now }
{
    if len < bytes.len() as u64 {
        bytes.split_at(len as usize).0
    } else {
        bytes
    }
}

/// The answer of a call that is made to fail, where this was done or refused. Want of memory comes
/// before the fault.
fn fail(volume: &mut Volume, done: Result<(), DiskError>) -> Result<(), DiskError>
    ensures answer { result ≡ failed done }
    ensures told { volume.new.told ≡ volume.old.told }
    ensures cause { HasCause volume.old volume.new result }
{
    match done {
        Err(DiskError::NoMemory) => Err(DiskError::NoMemory),
        _ => {
            volume.count_fault();
            Err(DiskError::Fault)
        }
    }
}

impl Disk for MemDisk {
    type View = MemView;

    ghost seen = { λ m. m.disk };

    fn kind(&mut self, path: &Path) -> Result<Option<Kind>, DiskError>
        ensures kind { IfOk result (λ kind. IfSome self.old.disk.told
            (λ story. kind ≡ kind_of (stands (names_now (state_of story)) path.now))) }
        ensures did { self.new.disk.told ≡ self.old.disk.told }
        ensures answer { Answers never self.old.disk result }
        ensures memory { TakesNoMemory result }
        ensures cause { HasCause self.old.disk self.new.disk result }
        ensures lawful { TellsLawful self.old.disk }
        ensures follows { Follows self.old self.new result }
    {
        match self.plan.begin() {
            None => self.volume.kind(path),
            Some(_) => {
                self.volume.count_fault();
                Err(DiskError::Fault)
            }
        }
    }

    fn list(&mut self, folder: &Path) -> Result<Listing, DiskError>
        ensures listed { IfOk result (λ entries. IfSome self.old.disk.told
            (λ story. entries ≡ listing folder.now (names_now (state_of story)))) }
        ensures did { self.new.disk.told ≡ self.old.disk.told }
        ensures answer { Answers (no_folder folder.now) self.old.disk result }
        ensures cause { HasCause self.old.disk self.new.disk result }
        ensures lawful { TellsLawful self.old.disk }
        ensures follows { Follows self.old self.new result }
    {
        match self.plan.begin() {
            None => self.volume.list(folder),
            Some(_) => {
                self.volume.count_fault();
                Err(DiskError::Fault)
            }
        }
    }

    fn size(&mut self, path: &Path) -> Result<u64, DiskError>
        ensures size { IfOk result (λ size. IfSome self.old.disk.told
            (λ story. size ≡ length (bytes_of (file_now path.now (state_of story))))) }
        ensures did { self.new.disk.told ≡ self.old.disk.told }
        ensures answer { Answers (no_file path.now) self.old.disk result }
        ensures memory { TakesNoMemory result }
        ensures cause { HasCause self.old.disk self.new.disk result }
        ensures lawful { TellsLawful self.old.disk }
        ensures follows { Follows self.old self.new result }
    {
        match self.plan.begin() {
            None => self.volume.size(path),
            Some(_) => {
                self.volume.count_fault();
                Err(DiskError::Fault)
            }
        }
    }

    fn open(&mut self, path: &Path, len: u64) -> Result<MemView, DiskError>
        ensures view { IfOk result (λ view. view.viewed ≡ opened path.now len self.old.disk.told) }
        ensures fails { IfOk result (λ view. view.fails ≡ reads_for (next_view self.old) self.old.reads) }
        ensures opened { OnOk result (self.new.opened ≡ next_view self.old) }
        ensures did { self.new.disk.told ≡ self.old.disk.told }
        ensures answer { Answers (no_view path.now len) self.old.disk result }
        ensures cause { HasCause self.old.disk self.new.disk result }
        ensures lawful { TellsLawful self.old.disk }
        ensures follows { Follows self.old self.new result }
    {
        match self.plan.begin() {
            None => {
                let bytes = self.volume.front(path, len)?;
                let number = self.opened.saturating_add(1);
                let fails = reads_of(self.alloc, &self.reads, number)?;
                self.opened = number;
                Ok(MemView::new(bytes, fails))
            }
            Some(_) => {
                self.volume.count_fault();
                Err(DiskError::Fault)
            }
        }
    }

    fn close(&mut self, view: MemView)
        ensures did { self.new.disk.told ≡ self.old.disk.told }
        ensures later { self.old.disk.faults ≤ self.new.disk.faults }
        ensures faults { 0 < view.viewed.faults → Rose self.old.disk.faults self.new.disk.faults }
        ensures refusals { self.old.disk.refusals ≤ self.new.disk.refusals }
        ensures starts { self.new.starts ≡ min (self.old.starts + view.starts) (2 ^ 64 - 1) }
        ensures plan { self.new.plan ≡ self.old.plan }
    {
        self.starts = self.starts.saturating_add(view.starts());
        if 0 < view.faults() {
            self.volume.count_fault();
        }
    }

    fn create(&mut self, path: &Path) -> Result<(), DiskError>
        ensures did { Did (created path.now) (no_room path.now) self.old.disk self.new.disk result }
        ensures answer { Answers (no_room path.now) self.old.disk result }
        ensures cause { HasCause self.old.disk self.new.disk result }
        ensures lawful { TellsLawful self.old.disk }
        ensures obeys { Obeys (whole (created path.now)) (no_room path.now) self.old self.new result }
    {
        match self.plan.begin_whole() {
            Turn::Works => self.volume.create(path),
            Turn::Fails => {
                self.volume.count_fault();
                Err(DiskError::Fault)
            }
            Turn::FailsBehind => {
                let done = self.volume.create(path);
                fail(&mut self.volume, done)
            }
        }
    }

    fn append(&mut self, path: &Path, bytes: &[u8]) -> Result<(), DiskError>
        ensures did { Appends path.now bytes.now self.old.disk self.new.disk result }
        ensures answer { Answers (no_file path.now) self.old.disk result }
        ensures cause { HasCause self.old.disk self.new.disk result }
        ensures lawful { TellsLawful self.old.disk }
        ensures obeys { Obeys (front path.now bytes.now) (no_file path.now) self.old self.new result }
    {
        match self.plan.begin() {
            None => self.volume.append(path, bytes),
            Some(Effect::Nothing) => {
                self.volume.count_fault();
                Err(DiskError::Fault)
            }
            Some(Effect::Done) => {
                let done = self.volume.append(path, bytes);
                fail(&mut self.volume, done)
            }
            Some(Effect::Part(len)) => {
                let done = self.volume.append(path, front_of(bytes, len));
                fail(&mut self.volume, done)
            }
        }
    }

    fn sync(&mut self, path: &Path) -> Result<(), DiskError>
        ensures did { Did (file_synced path.now) (no_file path.now) self.old.disk self.new.disk result }
        ensures answer { Answers (no_file path.now) self.old.disk result }
        ensures memory { TakesNoMemory result }
        ensures cause { HasCause self.old.disk self.new.disk result }
        ensures lawful { TellsLawful self.old.disk }
        ensures obeys { Obeys (whole (file_synced path.now)) (no_file path.now) self.old self.new result }
    {
        match self.plan.begin_whole() {
            Turn::Works => self.volume.sync(path),
            Turn::Fails => {
                self.volume.count_fault();
                Err(DiskError::Fault)
            }
            Turn::FailsBehind => {
                let done = self.volume.sync(path);
                fail(&mut self.volume, done)
            }
        }
    }

    fn link(&mut self, from: &Path, to: &Path) -> Result<(), DiskError>
        ensures did { Did (linked from.now to.now) (no_link from.now to.now) self.old.disk self.new.disk result }
        ensures answer { Answers (no_link from.now to.now) self.old.disk result }
        ensures cause { HasCause self.old.disk self.new.disk result }
        ensures lawful { TellsLawful self.old.disk }
        ensures obeys { Obeys (whole (linked from.now to.now)) (no_link from.now to.now) self.old self.new result }
    {
        match self.plan.begin_whole() {
            Turn::Works => self.volume.link(from, to),
            Turn::Fails => {
                self.volume.count_fault();
                Err(DiskError::Fault)
            }
            Turn::FailsBehind => {
                let done = self.volume.link(from, to);
                fail(&mut self.volume, done)
            }
        }
    }

    fn rename(&mut self, from: &Path, to: &Path) -> Result<(), DiskError>
        ensures did { Did (renamed_by from.now to.now) (no_rename from.now to.now) self.old.disk self.new.disk result }
        ensures answer { Answers (no_rename from.now to.now) self.old.disk result }
        ensures cause { HasCause self.old.disk self.new.disk result }
        ensures lawful { TellsLawful self.old.disk }
        ensures obeys { Obeys (whole (renamed_by from.now to.now)) (no_rename from.now to.now) self.old self.new result }
    {
        match self.plan.begin_whole() {
            Turn::Works => self.volume.rename(from, to),
            Turn::Fails => {
                self.volume.count_fault();
                Err(DiskError::Fault)
            }
            Turn::FailsBehind => {
                let done = self.volume.rename(from, to);
                fail(&mut self.volume, done)
            }
        }
    }

    fn unlink(&mut self, path: &Path) -> Result<(), DiskError>
        ensures did { Did (unnamed path.now) (no_file path.now) self.old.disk self.new.disk result }
        ensures answer { Answers (no_file path.now) self.old.disk result }
        ensures memory { TakesNoMemory result }
        ensures cause { HasCause self.old.disk self.new.disk result }
        ensures lawful { TellsLawful self.old.disk }
        ensures obeys { Obeys (whole (unnamed path.now)) (no_file path.now) self.old self.new result }
    {
        match self.plan.begin_whole() {
            Turn::Works => self.volume.unlink(path),
            Turn::Fails => {
                self.volume.count_fault();
                Err(DiskError::Fault)
            }
            Turn::FailsBehind => {
                let done = self.volume.unlink(path);
                fail(&mut self.volume, done)
            }
        }
    }

    fn make_folder(&mut self, path: &Path) -> Result<(), DiskError>
        ensures did { Did (folder_made path.now) (no_room path.now) self.old.disk self.new.disk result }
        ensures answer { Answers (no_room path.now) self.old.disk result }
        ensures cause { HasCause self.old.disk self.new.disk result }
        ensures lawful { TellsLawful self.old.disk }
        ensures obeys { Obeys (whole (folder_made path.now)) (no_room path.now) self.old self.new result }
    {
        match self.plan.begin_whole() {
            Turn::Works => self.volume.make_folder(path),
            Turn::Fails => {
                self.volume.count_fault();
                Err(DiskError::Fault)
            }
            Turn::FailsBehind => {
                let done = self.volume.make_folder(path);
                fail(&mut self.volume, done)
            }
        }
    }

    fn remove_folder(&mut self, path: &Path) -> Result<(), DiskError>
        ensures did { Did (unnamed path.now) (no_removal path.now) self.old.disk self.new.disk result }
        ensures answer { Answers (no_removal path.now) self.old.disk result }
        ensures memory { TakesNoMemory result }
        ensures cause { HasCause self.old.disk self.new.disk result }
        ensures lawful { TellsLawful self.old.disk }
        ensures obeys { Obeys (whole (unnamed path.now)) (no_removal path.now) self.old self.new result }
    {
        match self.plan.begin_whole() {
            Turn::Works => self.volume.remove_folder(path),
            Turn::Fails => {
                self.volume.count_fault();
                Err(DiskError::Fault)
            }
            Turn::FailsBehind => {
                let done = self.volume.remove_folder(path);
                fail(&mut self.volume, done)
            }
        }
    }

    fn sync_names(&mut self) -> Result<(), DiskError>
        ensures did { Did names_synced never self.old.disk self.new.disk result }
        ensures answer { Answers never self.old.disk result }
        ensures memory { TakesNoMemory result }
        ensures cause { HasCause self.old.disk self.new.disk result }
        ensures lawful { TellsLawful self.old.disk }
        ensures obeys { Obeys (whole names_synced) never self.old self.new result }
    {
        match self.plan.begin_whole() {
            Turn::Works => self.volume.sync_names(),
            Turn::Fails => {
                self.volume.count_fault();
                Err(DiskError::Fault)
            }
            Turn::FailsBehind => {
                let done = self.volume.sync_names();
                fail(&mut self.volume, done)
            }
        }
    }
}
