//! The lists of a plain store, and a call for each event, which answers as the abstract store says. The calls have the
//! condition that the lists fit one another; `PlainStore` keeps it for its callers.
ghost use Rattle.std.specs.Prelude.{◌≡◌, ◌≤◌, ◌<◌, ◌+◌, ◌^◌, ◌++◌, ◌∷◌, [], ℕ, List, length, take, nat_le, MatchResult, IfOk, OnOk, OnErr, Bool, false, Some, None, Err, min, sum_by};
ghost use Rattle.std.specs.FinMap as finite;
ghost use Rattle.lsm_rows.specs.Replay.{replayed, sequence_after};
ghost use Rattle.lsm_model.specs.Plain.{state_of, empty_state, IsPlain};
ghost use Rattle.lsm_model.specs.Writes.{Writes, SyncsLog};
ghost use Rattle.lsm_model.specs.Reads.{Gets, Scans, TellsLast, TellsWantsFreeze, Shows, ShowsPin, ReadsPinned};
ghost use Rattle.lsm_model.specs.Upkeep.{Freezes, StepsFlush, BeginsCompaction, StepsCompaction, Deletes};
ghost use Rattle.lsm_model.specs.Pins.{Cuts, ListsFiles, Unpins, Disables, Enables, pinned, unpinned};
ghost use Rattle.lsm_model.specs.Checkpoints.{BeginsCheckpoint, StepsCheckpoint, FinishesCheckpoint, StopsCheckpoint};
ghost use Rattle.lsm_model.specs.States.{shown_at};
ghost use Rattle.lsm_model.specs.Causes.{pin_limit, is_taken};
ghost use Rattle.lsm_model.specs.Steps.{Step};
ghost use Rattle.lsm_model.specs.Refusals.{known_refusal};
ghost use Rattle.lsm_model.specs.declared.events.Event.TheVariants.{Write};

use crate::lookups::{
    PlainFolder, behind, drop_pin, find_folder, find_job, find_pin, front, has_own, is_built,
    less_operations, less_rows, same_name,
};
use crate::{
    Begun, Cut, CutFiles, Deleted, Event, FlushRule, Flushed, Holder, JobStart, LiveFiles, Pin,
    Reply, Shown, Stepped, StoreError, Which,
};
use lsm_bytes::{Bytes, NoMemory};
use lsm_disk::{DiskCall, Halt};
use lsm_names::{FileName, Folder};
use lsm_rows::{Batch, Pairs};
use std::alloc::Global;
use std::collections::LinkedList;

/// The greatest sequence.
const LAST_SEQUENCE: u64 = (1 << 56) - 1;

/// No number of a file is left from here on.
const NUMBER_END: u64 = (1 << 56) - 1;

/// The bytes that stand before a record of a log.
const RECORD_HEADER: u64 = 7;

/// How many pins may live.
const PIN_LIMIT: usize = 64;

/// How many times the deletion of files may be disabled.
const DISABLE_LIMIT: u32 = 1_000_000;

/// The log of a plain store, where one is to be named.
const LOG: FileName = FileName::Log(1);

/// From so many bytes of rows on the active ones should be frozen.
const FREEZE_SIZE: usize = 1_048_576;

/// The accepted batches as a list, which is replayed to answer, and what is kept beside it.
#[derive(Drop)]
pub struct PlainLists {
    alloc: Global,
    own: Folder,
    accepted: Vec<Batch>,
    sequence: u64,
    durable: u64,
    doubtful: Option<Batch>,
    pins: Vec<Pin>,
    greatest_pin: u64,
    pub(crate) folders: Vec<PlainFolder>,
    pub(crate) begun: Option<Folder>,
    disables: u32,
    active: u64,
    frozen: u64,
    active_len: u64,
    frozen_len: u64,
    next: u64,
    pub(crate) halt: Option<Halt>,
}

// One batch more, or the same batches.
fn push_batch(accepted: &mut Vec<Batch>, batch: Batch) -> Result<(), NoMemory>
    ensures ok { OnOk result (accepted.new.items ≡ accepted.old.items ++ batch ∷ []) }
    ensures err { OnErr result (accepted.new.items ≡ accepted.old.items) }
{
    accepted.push(batch)?;
    Ok(())
}

// One folder more, or the same folders.
pub(crate) fn push_folder(
    folders: &mut Vec<PlainFolder>,
    folder: PlainFolder,
) -> Result<(), NoMemory>
    ensures ok { OnOk result (folders.new.items ≡ folders.old.items ++ folder ∷ []) }
    ensures err { OnErr result (folders.new.items ≡ folders.old.items) }
{
    folders.push(folder)?;
    Ok(())
}

// One pin more, or the same pins.
fn push_pin(pins: &mut Vec<Pin>, pin: Pin) -> Result<(), NoMemory>
    ensures ok { OnOk result (pins.new.items ≡ pins.old.items ++ pin ∷ []) }
    ensures err { OnErr result (pins.new.items ≡ pins.old.items) }
{
    pins.push(pin)?;
    Ok(())
}

impl PlainLists {
    /// A new store with no pairs, in a folder of this name. It takes its memory from `alloc` as batches come in.
    pub fn new(alloc: Global, own: Folder) -> Self
        ensures plain { IsPlain result }
        ensures state { state_of result ≡ empty_state own }
    {
        PlainLists {
            alloc,
            own,
            accepted: Vec::new(alloc),
            sequence: 0,
            durable: 0,
            doubtful: None,
            pins: Vec::new(alloc),
            greatest_pin: 0,
            folders: Vec::new(alloc),
            begun: None,
            disables: 0,
            active: 0,
            frozen: 0,
            active_len: 0,
            frozen_len: 0,
            next: 1,
            halt: None,
        }
    }

    /// One batch more. Its log is longer by its text and a record's header.
    pub fn write(&mut self, batch: Batch, sync: bool) -> Result<u64, StoreError>
        requires { IsPlain self.old }
        ensures step { Writes (state_of self.old) batch sync result (state_of self.new) }
        ensures plain { IsPlain self.new }
    {
        if let Some(first) = self.halt {
            return Err(StoreError::Halted { first });
        }
        let count = batch.len() as u64;
        let size = batch.text_len() as u64;
        if self.sequence + count > LAST_SEQUENCE {
            return Err(StoreError::SequenceFull {
                last: self.sequence,
                count: count as u32,
            });
        }
        if self.active == u64::MAX {
            return Err(StoreError::NoMemory);
        }
        if size >= (u64::MAX - self.active_len).saturating_sub(RECORD_HEADER) {
            return Err(StoreError::NoMemory);
        }
        let Ok(()) = push_batch(&mut self.accepted, batch) else {
            return Err(StoreError::NoMemory);
        };
        self.sequence += count;
        self.active += 1;
        self.active_len += size + RECORD_HEADER;
        if sync {
            self.durable = self.accepted.as_slice().len() as u64;
            return Ok(self.sequence);
        }
        Ok(self.sequence)
    }

    /// A write whose disk call fails: the batch is doubtful, and the append to the log halts the store.
    pub fn write_failing(&mut self, batch: Batch) -> StoreError
        requires { IsPlain self.old }
        ensures step { (sync : Bool) → Writes (state_of self.old) batch sync (Err result) (state_of self.new) }
        ensures fault { known_refusal (Write batch false) (state_of self.old) ≡ None → result ≡ StoreError.DiskFault }
        ensures plain { IsPlain self.new }
    {
        if let Some(first) = self.halt {
            return StoreError::Halted { first };
        }
        let count = batch.len() as u64;
        if self.sequence + count > LAST_SEQUENCE {
            return StoreError::SequenceFull {
                last: self.sequence,
                count: count as u32,
            };
        }
        self.doubtful = Some(batch);
        self.halt = Some(Halt {
            call: DiskCall::Append,
            path: self.own.file(&LOG),
        });
        StoreError::DiskFault
    }

    /// All accepted batches are durable.
    pub fn sync_log(&mut self) -> Result<(), StoreError>
        requires { IsPlain self.old }
        ensures step { SyncsLog (state_of self.old) result (state_of self.new) }
        ensures plain { IsPlain self.new }
    {
        if let Some(first) = self.halt {
            return Err(StoreError::Halted { first });
        }
        self.durable = self.accepted.as_slice().len() as u64;
        Ok(())
    }

    // The contents after these batches.
    fn contents_of(&self, batches: &[Batch]) -> Result<Pairs, NoMemory>
        ensures { IfOk result (λ pairs. pairs ≡ replayed finite.empty batches.now) }
    {
        let mut pairs = Pairs::new(self.alloc);
        pairs.replay(batches)?;
        Ok(pairs)
    }

    // A copy of a key's value among these pairs.
    fn value_of(&self, pairs: &Pairs, key: &[u8]) -> Result<Option<Bytes>, NoMemory>
        ensures { IfOk result (λ value. value ≡ finite.get pairs.now key.now) }
    {
        match pairs.get(key) {
            Some(value) => Ok(Some(Bytes::from_slice(self.alloc, value)?)),
            None => Ok(None),
        }
    }

    // The key's value, or want of memory.
    fn found(&self, key: &[u8]) -> Result<Option<Bytes>, NoMemory>
        ensures { IfOk result (λ value. value ≡ finite.get (replayed finite.empty self.now.accepted.items) key.now) }
    {
        let pairs = self.contents_of(&self.accepted)?;
        let value = self.value_of(&pairs, key)?;
        Ok(value)
    }

    /// The key's value.
    pub fn get(&self, key: &[u8]) -> Result<Option<Bytes>, StoreError>
        requires { IsPlain self.now }
        ensures { Gets (state_of self.now) key.now result (state_of self.now) }
    {
        match self.found(key) {
            Ok(value) => Ok(value),
            Err(_) => Err(StoreError::NoMemory),
        }
    }

    /// All pairs.
    pub fn scan(&self) -> Result<Pairs, StoreError>
        requires { IsPlain self.now }
        ensures { Scans (state_of self.now) result (state_of self.now) }
    {
        match self.contents_of(&self.accepted) {
            Ok(pairs) => Ok(pairs),
            Err(_) => Err(StoreError::NoMemory),
        }
    }

    /// The last sequence.
    pub fn last(&self) -> u64
        requires { IsPlain self.now }
        ensures { TellsLast (state_of self.now) result (state_of self.now) }
    {
        self.sequence
    }

    /// Whether the active rows count 1 MiB or more.
    pub fn wants_freeze(&self) -> bool
        requires { IsPlain self.now }
        ensures { TellsWantsFreeze (state_of self.now) result (state_of self.now) }
    {
        let accepted = self.accepted.as_slice();
        let older = (accepted.len() as u64).saturating_sub(self.active);
        less_rows(FREEZE_SIZE, behind(accepted, older)) == 0
    }

    /// Freezes the active rows.
    pub fn freeze(&mut self) -> Result<bool, StoreError>
        requires { IsPlain self.old }
        ensures step { Freezes (state_of self.old) result (state_of self.new) }
        ensures plain { IsPlain self.new }
    {
        if let Some(first) = self.halt {
            return Err(StoreError::Halted { first });
        }
        if self.active == 0 {
            return Ok(false);
        }
        if self.frozen > 0 {
            return Ok(false);
        }
        if self.next >= NUMBER_END {
            return Err(StoreError::NumbersFull { next: self.next });
        }
        self.frozen = self.active;
        self.active = 0;
        self.frozen_len = self.active_len;
        self.active_len = 0;
        self.next += 1;
        Ok(true)
    }

    /// Takes the frozen rows out of memory at once: a plain store has no tables.
    pub fn flush_step(&mut self) -> Result<Flushed, StoreError>
        requires { IsPlain self.old }
        ensures step { StepsFlush (state_of self.old) result (state_of self.new) }
        ensures plain { IsPlain self.new }
    {
        if let Some(first) = self.halt {
            return Err(StoreError::Halted { first });
        }
        if self.frozen == 0 {
            return Ok(Flushed::NoJob);
        }
        self.frozen = 0;
        self.frozen_len = 0;
        Ok(Flushed::Installed)
    }

    /// Nothing is to be compacted where there are no tables.
    pub fn compact_begin(&self, which: Which) -> Result<Begun, StoreError>
        requires { IsPlain self.now }
        ensures { BeginsCompaction (state_of self.now) which result (state_of self.now) }
    {
        if let Some(first) = self.halt {
            return Err(StoreError::Halted { first });
        }
        match which {
            Which::Shape => Ok(Begun::Nothing),
            Which::All => Ok(Begun::Nothing),
        }
    }

    /// No compaction is under way.
    pub fn compact_step(&self) -> Result<Stepped, StoreError>
        requires { IsPlain self.now }
        ensures { (rows : ℕ) → StepsCompaction (state_of self.now) rows result (state_of self.now) }
    {
        if let Some(first) = self.halt {
            return Err(StoreError::Halted { first });
        }
        Ok(Stepped::NoJob)
    }

    /// No file is there to be removed.
    pub fn delete_step(&self) -> Result<Deleted, StoreError>
        requires { IsPlain self.now }
        ensures { Deletes (state_of self.now) result (state_of self.now) }
    {
        if let Some(first) = self.halt {
            return Err(StoreError::Halted { first });
        }
        if self.disables > 0 {
            return Ok(Deleted::Disabled {
                count: self.disables,
            });
        }
        Ok(Deleted::Nothing)
    }

    // No file is live.
    fn no_files(&self) -> LiveFiles
        ensures sequence { result.sequence ≡ self.now.sequence }
        ensures len { result.manifest_len ≡ 0 }
        ensures files { result.files ≡ [] }
    {
        LiveFiles {
            sequence: self.sequence,
            manifest: 0,
            manifest_len: 0,
            files: CutFiles::new(self.alloc),
        }
    }

    /// No file is live.
    pub fn live_files(&mut self, flush: bool) -> Result<LiveFiles, StoreError>
        requires { IsPlain self.old }
        ensures step { ListsFiles (state_of self.old) flush result (state_of self.new) }
        ensures plain { IsPlain self.new }
    {
        if let Some(first) = self.halt {
            return Err(StoreError::Halted { first });
        }
        if flush {
            self.active = 0;
            self.frozen = 0;
            self.active_len = 0;
            self.frozen_len = 0;
            return Ok(self.no_files());
        }
        Ok(self.no_files())
    }

    // Pins all accepted batches.
    fn add_pin(&mut self, holder: Holder) -> Result<u64, NoMemory>
        requires plain { IsPlain self.old }
        requires room { length self.old.pins.items < pin_limit }
        ensures ok { OnOk result (state_of self.new ≡ pinned holder 0 [] (state_of self.old)) }
        ensures number { IfOk result (λ number. number ≡ self.old.greatest_pin + 1) }
        ensures same { OnErr result (state_of self.new ≡ state_of self.old) }
        ensures plain { IsPlain self.new }
    {
        if self.greatest_pin == u64::MAX {
            return Err(NoMemory);
        }
        let pin = Pin {
            number: self.greatest_pin + 1,
            batches: self.accepted.as_slice().len() as u64,
            manifest: 0,
            files: LinkedList::new(self.alloc),
            holder,
        };
        let Ok(()) = push_pin(&mut self.pins, pin) else {
            return Err(NoMemory);
        };
        self.greatest_pin += 1;
        Ok(self.greatest_pin)
    }

    // What a cut answers; no file is listed.
    fn cut_of(&self, pin: u64, sequence: u64) -> Cut
        ensures pin { result.pin ≡ pin }
        ensures sequence { result.sequence ≡ sequence }
        ensures manifest { result.manifest ≡ 0 }
        ensures files { result.files ≡ [] }
    {
        Cut {
            pin,
            sequence,
            manifest: 0,
            files: CutFiles::new(self.alloc),
        }
    }

    // Whether the logs have so many bytes.
    fn reaches(&self, bytes: u64) -> bool
        ensures { result ≡ nat_le bytes (self.now.frozen_len + self.now.active_len) }
    {
        bytes.saturating_sub(self.frozen_len) <= self.active_len
    }

    /// Pins all accepted batches.
    pub fn cut(&mut self, rule: FlushRule) -> Result<Cut, StoreError>
        requires { IsPlain self.old }
        ensures step { Cuts (state_of self.old) rule result (state_of self.new) }
        ensures plain { IsPlain self.new }
    {
        if let Some(first) = self.halt {
            return Err(StoreError::Halted { first });
        }
        if self.pins.as_slice().len() >= PIN_LIMIT {
            return Err(StoreError::PinsFull { live: 64 });
        }
        let sequence = self.sequence;
        let Ok(pin) = self.add_pin(Holder::Caller) else {
            return Err(StoreError::NoMemory);
        };
        match rule {
            FlushRule::Never => Ok(self.cut_of(pin, sequence)),
            FlushRule::Always => {
                self.active = 0;
                self.frozen = 0;
                self.active_len = 0;
                self.frozen_len = 0;
                Ok(self.cut_of(pin, sequence))
            }
            FlushRule::AtLeast(bytes) => {
                if self.reaches(bytes) {
                    self.active = 0;
                    self.frozen = 0;
                    self.active_len = 0;
                    self.frozen_len = 0;
                    return Ok(self.cut_of(pin, sequence));
                }
                Ok(self.cut_of(pin, sequence))
            }
        }
    }

    // So many of the accepted batches, or all where there are fewer.
    pub(crate) fn at_most(&self, batches: u64) -> u64
        ensures { result ≡ min batches (length self.now.accepted.items) }
    {
        batches.min(self.accepted.as_slice().len() as u64)
    }

    // The last sequence of the first so many batches.
    fn sequence_at(&self, batches: u64) -> u64
        requires { IsPlain self.now }
        ensures { result ≡ (shown_at (state_of self.now) batches).sequence }
    {
        less_operations(self.sequence, behind(self.accepted.as_slice(), batches))
    }

    // What the first so many batches read as.
    fn shown(&self, batches: u64) -> Result<Shown, StoreError>
        requires { IsPlain self.now }
        ensures { MatchResult result (λ shown. shown ≡ shown_at (state_of self.now) batches) (λ refusal. refusal ≡ StoreError.NoMemory) }
    {
        let sequence = self.sequence_at(batches);
        match self.contents_of(front(self.accepted.as_slice(), batches)) {
            Ok(contents) => Ok(Shown { sequence, contents }),
            Err(_) => Err(StoreError::NoMemory),
        }
    }

    /// What a folder reads as: the store's own one, or a finished checkpoint.
    pub fn show(&self, dir: &Folder) -> Result<Shown, StoreError>
        requires { IsPlain self.now }
        ensures { Shows (state_of self.now) dir.now result (state_of self.now) }
    {
        if same_name(&self.own, dir) {
            return self.shown(self.accepted.as_slice().len() as u64);
        }
        match find_folder(self.folders.as_slice(), dir) {
            Some(folder) => match folder.batches {
                Some(batches) => self.shown(batches),
                None => Err(StoreError::NoCurrent {
                    dir: folder.name.path(),
                }),
            },
            None => Err(StoreError::NoFolder { dir: dir.path() }),
        }
    }

    /// What a pin's batches read as.
    pub fn show_pin(&self, pin: u64) -> Result<Shown, StoreError>
        requires { IsPlain self.now }
        ensures { ShowsPin (state_of self.now) pin result (state_of self.now) }
    {
        match find_pin(self.pins.as_slice(), pin) {
            Some(found) => self.shown(found.batches),
            None => Err(StoreError::NoSuchPin { pin }),
        }
    }

    /// No pin has files.
    pub fn read_pinned(&self, pin: u64, name: FileName) -> Result<Bytes, StoreError>
        requires { IsPlain self.now }
        ensures { ReadsPinned (state_of self.now) pin name result (state_of self.now) }
    {
        match find_pin(self.pins.as_slice(), pin) {
            Some(_) => Err(StoreError::NotInPin { pin, name }),
            None => Err(StoreError::NoSuchPin { pin }),
        }
    }

    // Ends a pin.
    fn end_pin(&mut self, pin: u64)
        requires { IsPlain self.old }
        ensures state { state_of self.new ≡ unpinned pin (state_of self.old) }
        ensures plain { IsPlain self.new }
    {
        drop_pin(&mut self.pins, pin);
    }

    /// Ends a pin of the caller's own.
    pub fn unpin(&mut self, pin: u64) -> Result<(), StoreError>
        requires { IsPlain self.old }
        ensures step { Unpins (state_of self.old) pin result (state_of self.new) }
        ensures plain { IsPlain self.new }
    {
        if has_own(self.pins.as_slice(), pin) {
            self.end_pin(pin);
            return Ok(());
        }
        Err(StoreError::NoSuchPin { pin })
    }

    // Whether a folder of this name is there.
    pub(crate) fn is_taken(&self, dir: &Folder) -> bool
        ensures { result ≡ is_taken dir.now (state_of self.now) }
    {
        if same_name(&self.own, dir) {
            return true;
        }
        match find_folder(self.folders.as_slice(), dir) {
            Some(_) => true,
            None => false,
        }
    }

    /// Pins all accepted batches for a folder. No file is to be linked or copied.
    pub fn checkpoint_begin(
        &mut self,
        dir: Folder,
        log_size_for_flush: u64,
    ) -> Result<JobStart, StoreError>
        requires { IsPlain self.old }
        ensures step { BeginsCheckpoint (state_of self.old) dir log_size_for_flush result (state_of self.new) }
        ensures plain { IsPlain self.new }
    {
        if let Some(first) = self.halt {
            return Err(StoreError::Halted { first });
        }
        if is_built(self.pins.as_slice(), &dir) {
            return Err(StoreError::UnderWay { dir });
        }
        if PIN_LIMIT <= self.pins.as_slice().len() {
            return Err(StoreError::PinsFull { live: 64 });
        }
        if self.is_taken(&dir) {
            return Err(StoreError::CheckpointExists { dir });
        }
        let sequence = self.sequence;
        let Ok(pin) = self.add_pin(Holder::Checkpoint { dir, left: 0 }) else {
            return Err(StoreError::NoMemory);
        };
        if self.reaches(log_size_for_flush) {
            self.active = 0;
            self.frozen = 0;
            self.active_len = 0;
            self.frozen_len = 0;
            return Ok(JobStart { pin, sequence });
        }
        Ok(JobStart { pin, sequence })
    }

    /// No file is to be linked or copied.
    pub fn checkpoint_step(&self, pin: u64) -> Result<bool, StoreError>
        requires { IsPlain self.now }
        ensures { StepsCheckpoint (state_of self.now) pin result (state_of self.now) }
    {
        let Some(job) = find_job(self.pins.as_slice(), pin) else {
            return Err(StoreError::NoSuchPin { pin });
        };
        if let Some(first) = self.halt {
            return Err(StoreError::Halted { first });
        }
        Ok(job.left > 0)
    }

    /// The folder is there with the pin's batches, and the pin ends.
    pub fn checkpoint_finish(&mut self, pin: u64) -> Result<u64, StoreError>
        requires { IsPlain self.old }
        ensures step { FinishesCheckpoint (state_of self.old) pin result (state_of self.new) }
        ensures plain { IsPlain self.new }
    {
        let Some(job) = find_job(self.pins.as_slice(), pin) else {
            return Err(StoreError::NoSuchPin { pin });
        };
        let taken = self.is_taken(&job.dir);
        let sequence = self.sequence_at(job.batches);
        self.end_pin(pin);
        if let Some(first) = self.halt {
            return Err(StoreError::Halted { first });
        }
        if taken {
            return Err(StoreError::CheckpointExists { dir: job.dir });
        }
        let folder = PlainFolder {
            name: job.dir,
            batches: Some(job.batches),
        };
        let Ok(()) = push_folder(&mut self.folders, folder) else {
            return Err(StoreError::NoMemory);
        };
        Ok(sequence)
    }

    /// The checkpoint is given up.
    pub fn checkpoint_stop(&mut self, pin: u64) -> Result<(), StoreError>
        requires { IsPlain self.old }
        ensures step { StopsCheckpoint (state_of self.old) pin result (state_of self.new) }
        ensures plain { IsPlain self.new }
    {
        match find_job(self.pins.as_slice(), pin) {
            Some(_) => {
                self.end_pin(pin);
                Ok(())
            }
            None => Err(StoreError::NoSuchPin { pin }),
        }
    }

    /// Once more.
    pub fn disable(&mut self) -> Result<u32, StoreError>
        requires { IsPlain self.old }
        ensures step { Disables (state_of self.old) result (state_of self.new) }
        ensures plain { IsPlain self.new }
    {
        if self.disables >= DISABLE_LIMIT {
            return Err(StoreError::DisablesFull {
                count: self.disables,
            });
        }
        self.disables += 1;
        Ok(self.disables)
    }

    /// Once less.
    pub fn enable(&mut self) -> Result<u32, StoreError>
        requires { IsPlain self.old }
        ensures step { Enables (state_of self.old) result (state_of self.new) }
        ensures plain { IsPlain self.new }
    {
        if self.disables == 0 {
            return Err(StoreError::NotDisabled);
        }
        self.disables -= 1;
        Ok(self.disables)
    }

    /// Answers any event.
    pub fn answer(&mut self, event: Event) -> Reply
        requires { IsPlain self.old }
        ensures step { Step (state_of self.old) event result (state_of self.new) }
        ensures plain { IsPlain self.new }
    {
        match event {
            Event::Write { batch, sync } => Reply::Write(self.write(batch, sync)),
            Event::SyncLog => Reply::SyncLog(self.sync_log()),
            Event::Get { key } => Reply::Get(self.get(key.as_slice())),
            Event::Scan => Reply::Scan(self.scan()),
            Event::Last => Reply::Last(self.last()),
            Event::WantsFreeze => Reply::WantsFreeze(self.wants_freeze()),
            Event::Freeze => Reply::Freeze(self.freeze()),
            Event::FlushStep => Reply::FlushStep(self.flush_step()),
            Event::CompactBegin { which } => Reply::CompactBegin(self.compact_begin(which)),
            Event::CompactStep { .. } => Reply::CompactStep(self.compact_step()),
            Event::DeleteStep => Reply::DeleteStep(self.delete_step()),
            Event::Cut { rule } => Reply::Cut(self.cut(rule)),
            Event::LiveFiles { flush } => Reply::LiveFiles(self.live_files(flush)),
            Event::Unpin { pin } => Reply::Unpin(self.unpin(pin)),
            Event::Disable => Reply::Disable(self.disable()),
            Event::Enable => Reply::Enable(self.enable()),
            Event::CheckpointBegin {
                dir,
                log_size_for_flush,
            } => Reply::CheckpointBegin(self.checkpoint_begin(dir, log_size_for_flush)),
            Event::CheckpointStep { pin } => Reply::CheckpointStep(self.checkpoint_step(pin)),
            Event::CheckpointFinish { pin } => Reply::CheckpointFinish(self.checkpoint_finish(pin)),
            Event::CheckpointStop { pin } => Reply::CheckpointStop(self.checkpoint_stop(pin)),
            Event::Show { dir } => Reply::Show(self.show(&dir)),
            Event::ShowPin { pin } => Reply::ShowPin(self.show_pin(pin)),
            Event::ReadPinned { pin, name } => Reply::ReadPinned(self.read_pinned(pin, name)),
        }
    }
}
