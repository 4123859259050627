//! A log that batches are appended to.
ghost use Rattle.std.specs.Prelude.{◌≡◌, ◌+◌, ◌%◌, ◌^◌, ◌<◌, ◌≤◌, ◌++◌, ◌∷◌, [], true, ℕ, List, Some, length, OnOk, OnErr, IfOk, IfErr};
ghost use Rattle.lsm_rows.specs.BatchText.{batch_text};
ghost use Rattle.lsm_frame.specs.Frames.{record_text};
ghost use Rattle.lsm_disk.specs.State.{Story, state_of};
ghost use Rattle.lsm_disk.specs.Refusals.{no_room, no_file};
ghost use Rattle.lsm_disk.specs.Goes.{Went};
ghost use Rattle.lsm_disk.specs.Kept.{InFile, Making};
ghost use Rattle.lsm_disk.specs.Answers.{HasDiskCause};
ghost use Rattle.lsm_disk.specs.declared.calls.DiskCall.TheVariants as calls;
ghost use Rattle.lsm_wal.specs.Batches.{Logged, IsLogged, record_behind, wal_text};
ghost use Rattle.lsm_wal.specs.Standing.{IsWal, HoldsFront, IsLeft};
ghost use Rattle.lsm_wal.specs.Making.{MayHaveNew, IsMade};
ghost use Rattle.lsm_wal.specs.Answered.{IsRefusedAt, AnswersAt};

use lsm_bytes::{Bytes, NoMemory};
use lsm_disk::{Disk, DiskCall, DiskError, DiskRefusal, Halt};
use lsm_frame::FrameWriter;
use lsm_names::Path;
use lsm_rows::{Batch, encode_batch};
use std::alloc::Global;
use std::marker::Model;

/// A write-ahead log, to whose file batches are appended. Contracts see the path of the file, and how many bytes it has up
/// to the last batch whose append was Ok.
///
/// After an append that was refused by a fault a part of its record may stand behind that length, and another append would
/// stand behind this part: such a log is read again before it is written.
#[derive(Drop)]
pub struct Wal {
    alloc: Global,
    path: Path,
    len: u64,
    frame: Bytes,
}

impl Model for Wal {
    ghost use Rattle.lsm_wal.specs.Shown.{Shown, coded_shown};

    ghost Value = { Shown };

    ghost coded = { coded_shown };

    ghost view = { λ w. record { path = w.path; len = w.len } };
}

fn refusal(call: DiskCall, path: &Path, why: DiskError) -> DiskRefusal
    ensures call { result.at.call ≡ call }
    ensures path { result.at.path ≡ path.now }
    ensures why { result.why ≡ why }
{
    DiskRefusal {
        at: Halt { call, path: *path },
        why,
    }
}

// The record of a batch behind a log of this length. The frame is a buffer.
fn frame_batch(
    alloc: Global,
    frame: &mut Bytes,
    at: u64,
    first: u64,
    batch: &Batch,
) -> Result<(), NoMemory>
    requires some { 1 ≤ length batch.now }
    requires last { first + length batch.now ≤ 2 ^ 56 }
    ensures text { OnOk result (frame.new ≡ record_text (at % 32768) (batch_text first batch.now)) }
    ensures logged { OnOk result (IsLogged (record { first = first; ops = batch.now })) }
{
    prove!(batch.len() > 0);
    let text = encode_batch(alloc, first, batch)?;
    frame.clear();
    let mut writer = FrameWriter::new(at);
    writer.add(text.as_slice(), frame)?;
    Ok(())
}

// Makes the log's file.
fn make_file<D: Disk>(disk: &mut D, path: &Path) -> Result<(), DiskRefusal>
    ensures went { (story : Story) → (D.seen disk.old).told ≡ Some story
        → Went story (D.seen disk.new).told (Making path.now) (MayHaveNew (state_of story) path.now)
        (IsMade (state_of story) path.now result) }
    ensures refused { IfErr result (IsRefusedAt calls.Create calls.SyncNames path.now (D.seen disk.old) (D.seen disk.new)) }
    ensures answer { AnswersAt calls.SyncNames (no_room path.now) (D.seen disk.old) result }
    ensures cause { HasDiskCause (D.seen disk.old) (D.seen disk.new) result }
{
    if let Err(why) = disk.create(path) {
        return Err(refusal(DiskCall::Create, path, why));
    }
    if let Err(why) = disk.sync_names() {
        return Err(refusal(DiskCall::SyncNames, path, why));
    }
    Ok(())
}

// Adds a record at the end of the log's file, and syncs the file where asked.
fn write_record<D: Disk>(
    disk: &mut D,
    path: &Path,
    bytes: &[u8],
    sync: bool,
) -> Result<(), DiskRefusal>
    ensures went { (story : Story) (batches : List Logged) (next : Logged) (durable : ℕ) → (D.seen disk.old).told ≡ Some story
        → bytes.now ≡ record_behind batches next → IsLogged next → (wal : IsWal (state_of story) path.now batches durable)
        → Went story (D.seen disk.new).told (InFile wal.id) (HoldsFront path.now (batches ++ next ∷ []) durable)
        (IsLeft path.now batches next durable sync result) }
    ensures refused { IfErr result (IsRefusedAt calls.Append calls.Sync path.now (D.seen disk.old) (D.seen disk.new)) }
    ensures asked { IfErr result (λ r. r.at.call ≡ calls.Sync → sync ≡ true) }
    ensures answer { AnswersAt calls.Sync (no_file path.now) (D.seen disk.old) result }
    ensures cause { HasDiskCause (D.seen disk.old) (D.seen disk.new) result }
{
    if let Err(why) = disk.append(path, bytes) {
        return Err(refusal(DiskCall::Append, path, why));
    }
    if sync {
        if let Err(why) = disk.sync(path) {
            return Err(refusal(DiskCall::Sync, path, why));
        }
    }
    Ok(())
}

impl Wal {
    /// Makes the log's file, which is new and empty, and syncs the names.
    pub fn create<D: Disk>(alloc: Global, disk: &mut D, path: Path) -> Result<Wal, DiskRefusal>
        ensures log { IfOk result (λ wal. wal ≡ record { path = path; len = 0 }) }

        // Each image on the way is one from before, with the new empty file or without.
        ensures went { (story : Story) → (D.seen disk.old).told ≡ Some story
            → Went story (D.seen disk.new).told (Making path) (MayHaveNew (state_of story) path) (IsMade (state_of story) path result) }

        ensures refused { IfErr result (IsRefusedAt calls.Create calls.SyncNames path (D.seen disk.old) (D.seen disk.new)) }
        ensures answer { AnswersAt calls.SyncNames (no_room path) (D.seen disk.old) result }
        ensures cause { HasDiskCause (D.seen disk.old) (D.seen disk.new) result }
    {
        match make_file(disk, &path) {
            Ok(()) => Ok(Wal {
                alloc,
                path,
                len: 0,
                frame: Bytes::new(alloc),
            }),
            Err(refused) => Err(refused),
        }
    }

    /// Adds a batch at the end, whose operations have the sequences from `first` on, by one append. With `sync` it outlives
    /// each crash from the return on.
    pub fn append<D: Disk>(
        &mut self,
        disk: &mut D,
        first: u64,
        batch: &Batch,
        sync: bool,
    ) -> Result<(), DiskRefusal>
        requires some { 1 ≤ length batch.now }
        requires last { first + length batch.now ≤ 2 ^ 56 }
        requires room { self.old.len < 2 ^ 63 }

        ensures path { self.new.path ≡ self.old.path }
        ensures len { OnOk result (self.new.len ≡ self.old.len + length (record_text (self.old.len % 32768) (batch_text first batch.now))) }
        ensures stays { OnErr result (self.new ≡ self.old) }

        // Each image on the way has all batches from before, or the first of them with at least the durable ones, or all and
        // the new one.
        ensures went { (story : Story) (batches : List Logged) (durable : ℕ) → (D.seen disk.old).told ≡ Some story
            → self.old.len ≡ length (wal_text batches) → (wal : IsWal (state_of story) self.old.path batches durable)
            → let next : Logged = record { first = first; ops = batch.now } in
            Went story (D.seen disk.new).told (InFile wal.id) (HoldsFront self.old.path (batches ++ next ∷ []) durable)
            (IsLeft self.old.path batches next durable sync result) }

        ensures refused { IfErr result (IsRefusedAt calls.Append calls.Sync self.old.path (D.seen disk.old) (D.seen disk.new)) }
        ensures asked { IfErr result (λ r. r.at.call ≡ calls.Sync → sync ≡ true) }
        ensures answer { AnswersAt calls.Sync (no_file self.old.path) (D.seen disk.old) result }
        ensures cause { HasDiskCause (D.seen disk.old) (D.seen disk.new) result }
    {
        let Ok(()) = frame_batch(self.alloc, &mut self.frame, self.len, first, batch) else {
            return Err(refusal(DiskCall::Append, &self.path, DiskError::NoMemory));
        };
        match write_record(disk, &self.path, self.frame.as_slice(), sync) {
            Ok(()) => {
                self.len += self.frame.len() as u64;
                Ok(())
            }
            Err(refused) => Err(refused),
        }
    }

    /// How many bytes the batches have in the file whose appends were Ok.
    pub fn len(&self) -> u64
        ensures { result ≡ self.now.len }
    {
        self.len
    }

    /// The path of the log's file.
    pub fn path(&self) -> &Path
        ensures { result.now ≡ self.now.path }
    {
        &self.path
    }
}
