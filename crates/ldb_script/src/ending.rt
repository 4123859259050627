//! How a run ends: its last line and its status.
ghost use Rattle.std.specs.Prelude.{◌≡◌, ◌≤◌, ◌⊎◌, ◌++◌, IfOk, codes};
ghost use Rattle.ldb_script.specs.Printed.{with_newline};

use crate::printing::bad_line;
use crate::store::StoreError;
use bk_engine::EngineError;
use lsm_bytes::{Bytes, NoMemory};
use lsm_disk::DiskCall;
use lsm_io::Sink;
use lsm_names::{Folder, Path};
use std::alloc::Global;

/// How a run ended.
#[derive(Clone, Copy)]
pub enum Ended {
    /// The source was read to its end, and each line is done.
    Finished,
    /// The line of this number is not in the grammar. Lines count from 1.
    BadLine { number: u64 },
    /// The source failed.
    ReadFault,
    /// The sink failed.
    WriteFault,
    /// The store's disk failed.
    DiskFault,
    /// The backups' disk failed.
    BackupFault,
    /// The clock failed.
    ClockFault,
    /// The name of the store's folder is taken.
    Found,
    /// This is in the way of the backups on their disk.
    InTheWay { why: EngineError },
    /// The store's disk refused this call, though what it needs stood there.
    Changed { call: DiskCall, path: Path },
    /// The backups' disk refused this call, though what it needs stood there.
    BackupChanged { call: DiskCall, path: Path },
    /// A restore found a disk changed: this call was refused, though what it needs stood there.
    RestoreChanged { call: DiskCall, path: Path },
    NoMemory,
}

pub(crate) fn call_name(call: DiskCall) -> &'static str {
    match call {
        DiskCall::Kind => "Kind",
        DiskCall::List => "List",
        DiskCall::Size => "Size",
        DiskCall::Open => "Open",
        DiskCall::Create => "Create",
        DiskCall::Append => "Append",
        DiskCall::Sync => "Sync",
        DiskCall::Link => "Link",
        DiskCall::Rename => "Rename",
        DiskCall::Unlink => "Unlink",
        DiskCall::MakeFolder => "MakeFolder",
        DiskCall::RemoveFolder => "RemoveFolder",
        DiskCall::SyncNames => "SyncNames",
    }
}

fn found_line(alloc: Global, folder: &Folder) -> Result<Bytes, NoMemory>
    ensures { IfOk result (λ text. text ≡ with_newline (codes "refused Found " ++ folder.now)) }
{
    let mut text = Bytes::new(alloc);
    text.extend_from_slice(b"refused Found ")?;
    text.extend_from_slice(folder.as_bytes())?;
    text.push(b'\n')?;
    Ok(text)
}

// A line of two parts.
fn path_line(alloc: Global, front: &[u8], path: &Path) -> Result<Bytes, NoMemory>
    ensures { IfOk result (λ text. text ≡ with_newline (front.now ++ path.now)) }
{
    let mut text = Bytes::new(alloc);
    text.extend_from_slice(front)?;
    text.extend_from_slice(path.as_bytes())?;
    text.push(b'\n')?;
    Ok(text)
}

fn changed_line(alloc: Global, call: DiskCall, path: &Path) -> Result<Bytes, NoMemory> {
    let mut text = Bytes::new(alloc);
    text.extend_from_slice(b"refused Changed ")?;
    text.extend_from_slice(call_name(call).as_bytes())?;
    text.push(b' ')?;
    text.extend_from_slice(path.as_bytes())?;
    text.push(b'\n')?;
    Ok(text)
}

ghost use Rattle.ldb_script.specs.Run.{Stream};
ghost use Rattle.ldb_script.specs.Doing.{MadeOr, broken_end, Spoke, SpokeOr, SpokeWay, EndsWith};

/// A text that was made, or want of memory.
pub fn made(text: Result<Bytes, NoMemory>) -> Result<Bytes, Ended>
    ensures { MadeOr text result }
{
    match text {
        Ok(text) => Ok(text),
        Err(NoMemory) => Err(Ended::NoMemory),
    }
}

/// How a run ends whose store was refused.
pub fn broken(error: StoreError) -> Ended
    ensures { result ≡ broken_end error }
{
    match error {
        StoreError::DiskFault => Ended::DiskFault,
        StoreError::Changed { call, path } => Ended::Changed { call, path },
        StoreError::NoMemory => Ended::NoMemory,
    }
}

/// Prints the last line of a run, and gives its status. A sink that fails here changes no status.
pub fn say<K: Sink>(sink: &mut K, text: &[u8], status: u8) -> u8
    ensures status { result ≡ status }
    ensures spoke { Spoke (record { bytes = K.taken sink.old; faults = K.faults sink.old })
        (record { bytes = K.taken sink.new; faults = K.faults sink.new }) text.now }
    ensures later { K.faults sink.old ≤ K.faults sink.new }
{
    let _ = sink.write(text);
    status
}

// Says a line that was made, or that memory was wanting.
fn say_made<K: Sink>(sink: &mut K, text: Result<Bytes, NoMemory>, status: u8) -> u8
    ensures spoke { SpokeOr (record { bytes = K.taken sink.old; faults = K.faults sink.old })
        (record { bytes = K.taken sink.new; faults = K.faults sink.new }) text status result }
    ensures later { K.faults sink.old ≤ K.faults sink.new }
{
    match text {
        Ok(text) => say(sink, text.as_slice(), status),
        Err(NoMemory) => say(sink, b"no memory\n", 8),
    }
}

// Says what is in the way of the backups.
fn end_in_way<K: Sink>(alloc: Global, sink: &mut K, why: EngineError) -> u8
    ensures ends { ((result ≡ 6) × SpokeWay
        (record { bytes = K.taken sink.old; faults = K.faults sink.old })
        (record { bytes = K.taken sink.new; faults = K.faults sink.new }) why) ⊎ (result ≡ 8) }
    ensures later { K.faults sink.old ≤ K.faults sink.new }
{
    match why {
        EngineError::Found { path } => {
            say_made(sink, path_line(alloc, b"refused Found ", &path), 6)
        }
        EngineError::StrangeFolder { path } => {
            say_made(sink, path_line(alloc, b"refused StrangeFolder ", &path), 6)
        }
        _ => 6,
    }
}

/// Prints the last line of a run, and gives its status.
pub fn end<K: Sink>(alloc: Global, sink: &mut K, folder: &Folder, ended: Ended) -> u8
    ensures ends { EndsWith folder.now
        (record { bytes = K.taken sink.old; faults = K.faults sink.old })
        (record { bytes = K.taken sink.new; faults = K.faults sink.new }) ended result }
    ensures later { K.faults sink.old ≤ K.faults sink.new }
{
    match ended {
        Ended::Finished => 0,
        Ended::BadLine { number } => say_made(sink, bad_line(alloc, number), 2),
        Ended::ReadFault => say(sink, b"read fault\n", 3),
        Ended::WriteFault => 4,
        Ended::DiskFault => say(sink, b"fault store\n", 5),
        Ended::BackupFault => say(sink, b"fault backup\n", 5),
        Ended::ClockFault => say(sink, b"clock fault\n", 7),
        Ended::Found => say_made(sink, found_line(alloc, folder), 6),
        Ended::InTheWay { why } => end_in_way(alloc, sink, why),
        Ended::Changed { call, path } => say_made(sink, changed_line(alloc, call, &path), 6),
        Ended::BackupChanged { call, path } => say_made(sink, changed_line(alloc, call, &path), 6),
        Ended::RestoreChanged { call, path } => say_made(sink, changed_line(alloc, call, &path), 6),
        Ended::NoMemory => say(sink, b"no memory\n", 8),
    }
}
