//! The answers to the commands of backups.
ghost use Rattle.std.specs.Prelude.{◌≡◌, ◌≤◌, ℕ, List, Option, IsTrue, IsSome, IfOk};
ghost use Rattle.ldb_script.specs.Answering.{shut_end, OpenedOr, CreatedOr, UncreatedAs, UnrestoredAs};
ghost use Rattle.ldb_script.specs.Doing.{AnsweredOr};
ghost use Rattle.ldb_script.specs.Opening.{SeenStay, ByOneLine};
ghost use Rattle.ldb_script.specs.Plain.{Outcome};
ghost use Rattle.ldb_script.specs.Run.{Stream, stream, IsOfBackups};
ghost use Rattle.ldb_script.specs.Stored.{Shown, Stands};
ghost use Rattle.ldb_script.specs.Tools.{Origin, tools, AreAt, ByLine};
ghost use Rattle.ldb_script.specs.Vaults.{Backs};
ghost use Rattle.ldb_script.specs.declared.line.Command.{Command};

use crate::backups::Backups;
use crate::ending::{Ended, broken, made};
use crate::listing::list_text;
use crate::place::Place;
use crate::printing::{
    backup_line, exists_line, ids_full_line, no_backup_line, restore_refusal, restored_line,
};
use crate::store::Store;
use bk_engine::{EngineError, PlainRefusal};
use lsm_bytes::Bytes;
use lsm_disk::Disk;
use lsm_io::Clock;
use lsm_names::Folder;
use std::alloc::Global;

// How a run ends over whose backups no engine is opened.
fn shut(why: EngineError) -> Ended
    ensures { result ≡ shut_end why }
{
    match why {
        EngineError::DiskFault => Ended::BackupFault,
        EngineError::Changed { call, path } => Ended::BackupChanged { call, path },
        EngineError::Found { .. } | EngineError::StrangeFolder { .. } => Ended::InTheWay { why },
        _ => Ended::NoMemory,
    }
}

// Opens an engine over the backups where none is opened yet.
fn open_backups<B: Disk>(backups: &mut Backups<B>) -> Result<(), Ended>
    ensures opened { (origin : Origin) (shown : Shown) (before after : Stream) (outcome : Outcome)
        (command : Command)
        → IsOfBackups command → Stands origin.store shown outcome
        → Backs origin.backups backups.old outcome.after
        → (IsTrue outcome.after.start.tells → IsSome origin.backups)
        → OpenedOr origin (tools shown backups.old before) (tools shown backups.new after) outcome
        command result }
    ensures engine { IfOk result (λ done. IsSome backups.new.engine) }
    ensures counts { SeenStay backups.old.disk backups.new.disk }
{
    match backups.open() {
        Ok(()) => Ok(()),
        Err(why) => Err(shut(why)),
    }
}

// The answer where no backup is made. What is no lack of identifiers ends the run.
fn uncreated(alloc: Global, why: EngineError) -> Result<Bytes, Ended>
    ensures { UncreatedAs why result }
{
    match why {
        EngineError::DiskFault => Err(Ended::BackupFault),
        EngineError::SourceFault => Err(Ended::DiskFault),
        EngineError::Changed { call, path } => Err(Ended::BackupChanged { call, path }),
        EngineError::IdsFull => made(ids_full_line(alloc)),
        _ => Err(Ended::NoMemory),
    }
}

// Makes a backup of the store at this time, and makes the answer.
fn create_at<D: Disk, B: Disk>(
    alloc: Global,
    store: &mut Store<D>,
    backups: &mut Backups<B>,
    now: u64,
) -> Result<Bytes, Ended>
    requires { IsSome backups.old.engine }
    ensures done { (origin : Origin) (before after : Stream) (outcome : Outcome)
        (left : Option (List ℕ))
        → Stands origin.store store.old outcome → Backs origin.backups backups.old outcome.after
        → CreatedOr origin (tools store.old backups.old before) (tools store.new backups.new after)
        outcome now left result }
    ensures line { ByOneLine store.old store.new }
    ensures counts { SeenStay backups.old.disk backups.new.disk }
{
    match store.files() {
        Err(error) => Err(broken(error)),
        Ok(files) => match backups.create(files, store.sequence(), now) {
            Ok(info) => made(backup_line(alloc, info.id, info.sequence)),
            Err(PlainRefusal { why, files }) => {
                store.take_back(files);
                uncreated(alloc, why)
            }
        },
    }
}

// Opens the engine, makes a backup of the store at this time, and makes the answer.
fn create_opened<D: Disk, B: Disk>(
    alloc: Global,
    store: &mut Store<D>,
    backups: &mut Backups<B>,
    now: u64,
) -> Result<Bytes, Ended>
    ensures done { (origin : Origin) (before after : Stream) (outcome : Outcome)
        (left : Option (List ℕ))
        → Stands origin.store store.old outcome → Backs origin.backups backups.old outcome.after
        → (IsTrue outcome.after.start.tells → IsSome origin.backups)
        → CreatedOr origin (tools store.old backups.old before) (tools store.new backups.new after)
        outcome now left result }
    ensures line { ByOneLine store.old store.new }
    ensures counts { SeenStay backups.old.disk backups.new.disk }
{
    match open_backups(backups) {
        Ok(()) => create_at(alloc, store, backups, now),
        Err(ended) => Err(ended),
    }
}

/// Makes a backup of the store, and makes the answer. The clock is read first.
pub fn answer_create<D: Disk, B: Disk, C: Clock>(
    alloc: Global,
    store: &mut Store<D>,
    backups: &mut Backups<B>,
    clock: &mut C,
) -> Result<Bytes, Ended>
    ensures done { (origin : Origin) (outcome : Outcome)
        → AreAt origin (tools store.old backups.old (stream C.left C.faults clock.old)) outcome
        → AnsweredOr origin (tools store.old backups.old (stream C.left C.faults clock.old))
        (tools store.new backups.new (stream C.left C.faults clock.new)) outcome
        Command.CreateBackup result }
    ensures line { ByLine (tools store.old backups.old (stream C.left C.faults clock.old))
        (tools store.new backups.new (stream C.left C.faults clock.new)) }
{
    match clock.now() {
        Ok(now) => create_opened(alloc, store, backups, now),
        Err(_) => Err(Ended::ClockFault),
    }
}

/// Lists the backups, and makes the answer.
pub fn answer_list<B: Disk>(alloc: Global, backups: &mut Backups<B>) -> Result<Bytes, Ended>
    ensures done { (origin : Origin) (shown : Shown) (clock : Stream) (outcome : Outcome)
        → AreAt origin (tools shown backups.old clock) outcome
        → AnsweredOr origin (tools shown backups.old clock) (tools shown backups.new clock) outcome
        Command.ListBackups result }
    ensures counts { SeenStay backups.old.disk backups.new.disk }
{
    match open_backups(backups) {
        Ok(()) => match backups.list() {
            Ok(infos) => made(list_text(alloc, infos.as_slice())),
            Err(_) => Err(Ended::NoMemory),
        },
        Err(ended) => Err(ended),
    }
}

// The answer to a restore that is refused. A fault, or a disk that was changed, ends the run.
fn unrestored(alloc: Global, why: EngineError) -> Result<Bytes, Ended>
    ensures { UnrestoredAs why result }
{
    match why {
        EngineError::DiskFault => Err(Ended::BackupFault),
        EngineError::DestFault => Err(Ended::DiskFault),
        EngineError::Changed { call, path } => Err(Ended::RestoreChanged { call, path }),
        EngineError::NoMemory => Err(Ended::NoMemory),
        EngineError::NoSuchBackup { id } => made(no_backup_line(alloc, id)),
        EngineError::DestinationExists { dir } => made(exists_line(alloc, &dir)),
        other => made(restore_refusal(alloc, other)),
    }
}

/// Restores a backup, and makes the answer.
pub fn answer_restore<D: Disk, B: Disk>(
    alloc: Global,
    place: &mut Place<D>,
    backups: &mut Backups<B>,
    id: u32,
    name: &Folder,
) -> Result<Bytes, Ended>
    ensures done { (origin : Origin) (clock : Stream) (outcome : Outcome)
        → AreAt origin (tools place.old backups.old clock) outcome
        → AnsweredOr origin (tools place.old backups.old clock) (tools place.new backups.new clock)
        outcome (Command.RestoreBackup id name.now) result }
    ensures line { ByOneLine place.old place.new }
    ensures counts { SeenStay backups.old.disk backups.new.disk }
{
    match open_backups(backups) {
        Ok(()) => match backups.restore(place, id, name) {
            Ok(_) => made(restored_line(alloc, id, name)),
            Err(why) => unrestored(alloc, why),
        },
        Err(ended) => Err(ended),
    }
}
