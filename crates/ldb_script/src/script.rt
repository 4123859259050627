//! The run of a script: line by line from a source, over a store that it opens, to a sink.
ghost use Rattle.std.specs.Prelude.{◌≡◌, ◌≤◌, ◌<◌, ◌+◌, ◌^◌, [], ◌∷◌, ◌++◌, ◌*◌, ◌-◌, List, ℕ, Option, None, length, Ok, OnOk};

use crate::actors::Actors;
use crate::answering::{answer_create, answer_list, answer_restore};
use crate::backups::Backups;
use crate::ending::{Ended, broken, end, made};
use crate::input::{InputError, Piece, read_byte, read_line};
use crate::line::{Command, Line};
use crate::opening::OpenError;
use crate::place::Place;
use crate::printing::{ok_line, sequence_line, state_line, too_large_line, value_line};
use crate::showing::answer_show;
use crate::store::{OpenRefusal, Store};
use lsm_bytes::{Bytes, NoMemory};
use lsm_disk::Disk;
use lsm_io::{Clock, Sessions, Sink, Source};
use lsm_names::Folder;
use lsm_rows::{Batch, BatchRefusal, Op};
use std::alloc::Global;
use std::thread::Threads;

/// What a run leaves: its status, and the two disks.
#[derive(Drop)]
pub struct Done<D, B> {
    pub status: u8,
    pub store_disk: D,
    pub backup_disk: B,
}

ghost use Rattle.lsm_io.specs.Causes.{Rose};
ghost use Rattle.lsm_disk.specs.State.{Story};
ghost use Rattle.lsm_rows.specs.Limits.{refusal_of, refused_in};
ghost use Rattle.ldb_script.specs.Plain.{Outcome, told, empty, first_refusal};
ghost use Rattle.ldb_script.specs.Stored.{Stands};
ghost use Rattle.ldb_script.specs.Vaults.{Vault};
ghost use Rattle.ldb_script.specs.Opening.{HasRoom, ByOneLine};
ghost use Rattle.ldb_script.specs.Run.{Stream, Met, now, stream, met, CountsStay, IsRun};
ghost use Rattle.ldb_script.specs.Tools.{Origin, Tools, tools, AreAt, ByLine};
ghost use Rattle.ldb_script.specs.Doing.{
  BehindIs,
  BuildsOr,
  IsNoRestore,
  LastOr,
  StoreAnsweredOr,
  AnsweredOr,
  ServedOr,
  DoneOr,
  Underway,
  TurnedOr,
  Ran,
  Closed,
  unopened_end,
};

// Adds an operation to a batch. The limits are tested before memory is taken.
fn add_op(batch: &mut Batch, op: &Op) -> Result<(), BatchRefusal>
    ensures ok { OnOk result (batch.new ≡ batch.old ++ op.now ∷ []) }
    ensures refused { refused_in result ≡ refusal_of batch.old op.now }
{
    match op {
        Op::Put { key, value } => batch.put(key.as_slice(), value.as_slice()),
        Op::Delete { key } => batch.delete(key.as_slice()),
    }
}

// The batch of these operations, or what the limits refuse of the first one that they refuse.
fn build_batch(alloc: Global, ops: &[Op]) -> Result<Batch, BatchRefusal>
    ensures { BuildsOr ops.now result }
{
    let mut batch = Batch::new(alloc);
    for op in ops {
        add_op(&mut batch, op)?;
    }
    Ok(batch)
}

// Writes a batch, and makes the answer.
fn answer_batch<D: Disk>(
    alloc: Global,
    store: &mut Store<D>,
    batch: &Batch,
    durable: bool,
) -> Result<Bytes, Ended>
    requires some { 1 ≤ length batch.now }
    requires room { HasRoom store.old }
    ensures done { (start : Option Story) (outcome : Outcome) → Stands start store.old outcome → first_refusal [] batch.now ≡ None
        → StoreAnsweredOr start store.old store.new outcome (Command.Write durable batch.now) result }
    ensures line { ByOneLine store.old store.new }
{
    match store.write(batch, durable) {
        Ok(last) => made(sequence_line(alloc, last)),
        Err(error) => Err(broken(error)),
    }
}

// Writes operations as one batch where the limits take them, and makes the answer.
fn answer_write<D: Disk>(
    alloc: Global,
    store: &mut Store<D>,
    ops: &[Op],
    durable: bool,
) -> Result<Bytes, Ended>
    requires some { 1 ≤ length ops.now }
    requires room { HasRoom store.old }
    ensures done { (start : Option Story) (outcome : Outcome) → Stands start store.old outcome
        → StoreAnsweredOr start store.old store.new outcome (Command.Write durable ops.now) result }
    ensures line { ByOneLine store.old store.new }
{
    match build_batch(alloc, ops) {
        Ok(batch) => answer_batch(alloc, store, &batch, durable),
        Err(BatchRefusal::BatchTooLarge { what, kept, limit }) => {
            made(too_large_line(alloc, what, kept, limit))
        }
        Err(BatchRefusal::NoMemory) => Err(Ended::NoMemory),
    }
}

// Makes all writes durable, and makes the answer.
fn answer_sync<D: Disk>(alloc: Global, store: &mut Store<D>) -> Result<Bytes, Ended>
    ensures done { (start : Option Story) (outcome : Outcome) → Stands start store.old outcome
        → StoreAnsweredOr start store.old store.new outcome Command.Sync result }
    ensures line { ByOneLine store.old store.new }
{
    match store.sync() {
        Ok(()) => made(ok_line(alloc)),
        Err(error) => Err(broken(error)),
    }
}

// Does a command that is no restore, and makes its answer.
fn answer_stored<D: Disk, B: Disk, C: Clock>(
    alloc: Global,
    store: &mut Store<D>,
    backups: &mut Backups<B>,
    clock: &mut C,
    command: &Command,
) -> Result<Bytes, Ended>
    requires room { HasRoom store.old }
    requires other { IsNoRestore command.now }
    ensures done { (origin : Origin) (outcome : Outcome)
        → AreAt origin (tools store.old backups.old (stream C.left C.faults clock.old)) outcome
        → AnsweredOr origin (tools store.old backups.old (stream C.left C.faults clock.old))
        (tools store.new backups.new (stream C.left C.faults clock.new)) outcome command.now
        result }
    ensures line { ByLine (tools store.old backups.old (stream C.left C.faults clock.old))
        (tools store.new backups.new (stream C.left C.faults clock.new)) }
{
    match command {
        Command::Write { durable, ops } => answer_write(alloc, store, ops.as_slice(), *durable),
        Command::Sync => answer_sync(alloc, store),
        Command::Get { key } => made(value_line(alloc, store.get(key.as_slice()))),
        Command::Scan => made(store.scan()),
        Command::State => made(state_line(alloc, store.sequence(), store.count())),
        Command::ShowFolder { name } => answer_show(alloc, store, name),
        Command::CreateBackup => answer_create(alloc, store, backups, clock),
        Command::ListBackups => answer_list(alloc, backups),
        Command::RestoreBackup { .. } => unreachable!(),
    }
}

// Does a command, and makes its answer.
fn answer<D: Disk, B: Disk, C: Clock>(
    alloc: Global,
    place: &mut Place<D>,
    backups: &mut Backups<B>,
    clock: &mut C,
    command: &Command,
) -> Result<Bytes, Ended>
    requires { HasRoom place.old }
    ensures done { (origin : Origin) (outcome : Outcome)
        → AreAt origin (tools place.old backups.old (stream C.left C.faults clock.old)) outcome
        → AnsweredOr origin (tools place.old backups.old (stream C.left C.faults clock.old))
        (tools place.new backups.new (stream C.left C.faults clock.new)) outcome command.now
        result }
    ensures line { ByLine (tools place.old backups.old (stream C.left C.faults clock.old))
        (tools place.new backups.new (stream C.left C.faults clock.new)) }
{
    if let Command::RestoreBackup { id, name } = command {
        return answer_restore(alloc, place, backups, *id, name);
    }
    match &mut place.store {
        Some(store) => answer_stored(alloc, store, backups, clock, command),
        None => unreachable!(),
    }
}

// Does an actor's command, and prints its answer.
fn serve<K: Sink, D: Disk, B: Disk, C: Clock>(
    alloc: Global,
    sink: &mut K,
    place: &mut Place<D>,
    backups: &mut Backups<B>,
    clock: &mut C,
    command: &Command,
) -> Result<(), Ended>
    requires { HasRoom place.old }
    ensures done { (origin : Origin) (outcome : Outcome)
        → AreAt origin (tools place.old backups.old (stream C.left C.faults clock.old)) outcome
        → ServedOr origin (stream K.taken K.faults sink.old) (stream K.taken K.faults sink.new)
        (tools place.old backups.old (stream C.left C.faults clock.old))
        (tools place.new backups.new (stream C.left C.faults clock.new)) outcome command.now
        result }
    ensures later { K.faults sink.old ≤ K.faults sink.new }
    ensures line { ByLine (tools place.old backups.old (stream C.left C.faults clock.old))
        (tools place.new backups.new (stream C.left C.faults clock.new)) }
{
    match answer(alloc, place, backups, clock, command) {
        Ok(text) => match sink.write(text.as_slice()) {
            Ok(()) => Ok(()),
            Err(_) => Err(Ended::WriteFault),
        },
        Err(ended) => Err(ended),
    }
}

// Does one line.
fn do_line<K: Sink, D: Disk, B: Disk, C: Clock>(
    alloc: Global,
    sink: &mut K,
    place: &mut Place<D>,
    backups: &mut Backups<B>,
    clock: &mut C,
    actors: &mut Actors,
    line: &[u8],
    number: u64,
) -> Result<(), Ended>
    requires short { length line.now ≤ 8388608 }
    requires room { HasRoom place.old }
    ensures done { (origin : Origin) (outcome : Outcome)
        → AreAt origin (tools place.old backups.old (stream C.left C.faults clock.old)) outcome
        → actors.old ≡ outcome.after.actors
        → DoneOr origin (stream K.taken K.faults sink.old) (stream K.taken K.faults sink.new)
        (tools place.old backups.old (stream C.left C.faults clock.old))
        (tools place.new backups.new (stream C.left C.faults clock.new)) actors.new outcome
        line.now number result }
    ensures later { K.faults sink.old ≤ K.faults sink.new }
    ensures line { ByLine (tools place.old backups.old (stream C.left C.faults clock.old))
        (tools place.new backups.new (stream C.left C.faults clock.new)) }
{
    match actors.parse(alloc, line) {
        Err(NoMemory) => Err(Ended::NoMemory),
        Ok(None) => Err(Ended::BadLine { number }),
        Ok(Some(Line::Blank)) => Ok(()),
        Ok(Some(Line::Ask { actor, command })) => match actors.name(actor.as_slice()) {
            Ok(()) => serve(alloc, sink, place, backups, clock, &command),
            Err(NoMemory) => Err(Ended::NoMemory),
        },
    }
}

// Reads the next line and does it. It ends the run, or one more line is done and its newline read.
fn turn<S: Source, K: Sink, D: Disk, B: Disk, C: Clock>(
    alloc: Global,
    source: &mut S,
    sink: &mut K,
    place: &mut Place<D>,
    backups: &mut Backups<B>,
    clock: &mut C,
    actors: &mut Actors,
    line: &mut Bytes,
    number: u64,
) -> Result<(), Ended>
    requires few { number ≤ 10000000 }
    requires sequence { place.old.sequence ≤ 1024 * (number - 1) }
    requires len { place.old.len ≤ 67108864 * (number - 1) }
    ensures turned { (origin : Origin) (first : Met) (done : List (List ℕ)) (outcome : Outcome)
        → Underway origin (now first (stream S.left S.faults source.old)
        (stream K.taken K.faults sink.old) place.old.disk backups.old.disk
        (stream C.left C.faults clock.old))
        (tools place.old backups.old (stream C.left C.faults clock.old)) actors.old done outcome
        → number ≡ length done + 1
        → TurnedOr origin (now first (stream S.left S.faults source.new)
        (stream K.taken K.faults sink.new) place.new.disk backups.new.disk
        (stream C.left C.faults clock.new))
        (tools place.new backups.new (stream C.left C.faults clock.new)) actors.new done result }
    ensures source_later { S.faults source.old ≤ S.faults source.new }
    ensures sink_later { K.faults sink.old ≤ K.faults sink.new }
    ensures line { ByLine (tools place.old backups.old (stream C.left C.faults clock.old))
        (tools place.new backups.new (stream C.left C.faults clock.new)) }
{
    match read_line(source, line) {
        Ok(Piece::Line) => do_line(
            alloc,
            sink,
            place,
            backups,
            clock,
            actors,
            line.as_slice(),
            number,
        ),
        Ok(Piece::Last) => match do_line(
            alloc,
            sink,
            place,
            backups,
            clock,
            actors,
            line.as_slice(),
            number,
        ) {
            Ok(()) => Err(Ended::Finished),
            Err(ended) => Err(ended),
        },
        Ok(Piece::End) => Err(Ended::Finished),
        Err(InputError::Failed) => Err(Ended::ReadFault),
        Err(InputError::TooLong) => Err(Ended::BadLine { number }),
        Err(InputError::NoMemory) => Err(Ended::NoMemory),
    }
}

// What stands behind the last line that a script may have: nothing, or a line too many.
fn behind<S: Source>(source: &mut S) -> Ended
    ensures left { BehindIs (S.left source.old) (S.left source.new) result }
    ensures rose { result ≡ Ended.ReadFault → Rose (S.faults source.old) (S.faults source.new) }
    ensures later { S.faults source.old ≤ S.faults source.new }
{
    match read_byte(source) {
        Ok(None) => Ended::Finished,
        Ok(Some(_)) => Ended::BadLine { number: 10_000_001 },
        Err(_) => Ended::ReadFault,
    }
}

// Does the lines of the source, until it ends or something ends the run.
fn run<S: Source, K: Sink, D: Disk, B: Disk, C: Clock>(
    alloc: Global,
    source: &mut S,
    sink: &mut K,
    place: &mut Place<D>,
    backups: &mut Backups<B>,
    clock: &mut C,
) -> Ended
    requires sequence { place.old.sequence ≡ 0 }
    requires len { place.old.len ≡ 0 }
    ensures ran { (origin : Origin)
        → AreAt origin (tools place.old backups.old (stream C.left C.faults clock.old))
        (told (empty origin.start) [])
        → Ran origin (met (stream S.left S.faults source.old) (stream S.left S.faults source.new)
        (stream K.taken K.faults sink.old) (stream K.taken K.faults sink.new) place.old.disk
        place.new.disk backups.old.disk backups.new.disk (stream C.left C.faults clock.old)
        (stream C.left C.faults clock.new))
        (tools place.new backups.new (stream C.left C.faults clock.new)) result }
    ensures log { place.new.log ≡ place.old.log }
    ensures counts { CountsStay (met (stream S.left S.faults source.old)
        (stream S.left S.faults source.new) (stream K.taken K.faults sink.old)
        (stream K.taken K.faults sink.new) place.old.disk place.new.disk backups.old.disk
        backups.new.disk (stream C.left C.faults clock.old) (stream C.left C.faults clock.new)) }
{
    let mut actors = Actors::new(alloc);
    let mut line = Bytes::new(alloc);
    for number in 1..10_000_001u64 {
        match turn(
            alloc,
            source,
            sink,
            place,
            backups,
            clock,
            &mut actors,
            &mut line,
            number,
        ) {
            Ok(()) => {}
            Err(ended) => return ended,
        }
    }
    behind(source)
}

fn sync_last<D: Disk>(store: &mut Store<D>) -> Ended
    ensures synced { (start : Option Story) (outcome : Outcome) → Stands start store.old outcome
        → LastOr start store.old store.new outcome result }
    ensures line { ByOneLine store.old store.new }
{
    match store.sync() {
        Ok(()) => Ended::Finished,
        Err(error) => broken(error),
    }
}

// Makes all writes durable where the source was read to its end.
fn close<D: Disk>(place: &mut Place<D>, ended: Ended) -> Ended
    ensures closed { (origin : Origin) (first : Met) (source sink : Stream) (backups : Vault)
        (clock : Stream)
        → CountsStay (now first source sink place.old.disk backups.disk clock)
        → Ran origin (now first source sink place.old.disk backups.disk clock)
        (tools place.old backups clock) ended
        → Closed origin (now first source sink place.new.disk backups.disk clock)
        (tools place.new backups clock) result }
    ensures line { ByOneLine place.old place.new }
{
    match ended {
        Ended::Finished => match &mut place.store {
            Some(store) => sync_last(store),
            None => unreachable!(),
        },
        other => other,
    }
}

/// Runs a script over a new store in the folder `db` of the store's disk. Its backups go to the backups' disk, which is
/// left alone until the first command of backups, and their times come from the clock. The runtime and the sessions are not
/// used yet.
///
/// The line of each command is answered before the next byte of the source is asked for. Statuses: 0 finished, 2 a bad
/// line, 3 the source failed, 4 the sink failed, 5 a disk failed, 6 refused, 7 the clock failed, 8 want of memory.
pub fn run_script<R: Threads + Sync, S: Source, K: Sink, D: Disk, B: Disk, N: Sessions, C: Clock>(
    _rt: &R,
    alloc: Global,
    source: &mut S,
    sink: &mut K,
    db: &Folder,
    store_disk: D,
    backup_disk: B,
    _sessions: &mut N,
    clock: &mut C,
) -> Done<D, B>
    ensures run { IsRun db.now (met (stream S.left S.faults source.old)
        (stream S.left S.faults source.new) (stream K.taken K.faults sink.old)
        (stream K.taken K.faults sink.new) (D.seen store_disk) (D.seen result.store_disk)
        (B.seen backup_disk) (B.seen result.backup_disk) (stream C.left C.faults clock.old)
        (stream C.left C.faults clock.new)) result.status }
{
    match Store::open(alloc, store_disk, db) {
        Ok(store) => {
            let mut place = Place::new(store);
            let mut backups = Backups::new(alloc, backup_disk);
            let ended = run(alloc, source, sink, &mut place, &mut backups, clock);
            let ended = close(&mut place, ended);
            let status = end(alloc, sink, db, ended);
            Done {
                status,
                store_disk: place.into_disk(),
                backup_disk: backups.into_disk(),
            }
        }
        Err(OpenRefusal { why, disk }) => {
            let status = end(alloc, sink, db, unopened(why));
            Done {
                status,
                store_disk: disk,
                backup_disk,
            }
        }
    }
}

// How a run ends that opened no store.
fn unopened(why: OpenError) -> Ended
    ensures { result ≡ unopened_end why }
{
    match why {
        OpenError::DiskFault => Ended::DiskFault,
        OpenError::Found => Ended::Found,
        OpenError::Changed { call, path } => Ended::Changed { call, path },
        OpenError::NoMemory => Ended::NoMemory,
    }
}
