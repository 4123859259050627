//! Runs of the program of which a test sees what they leave alone: no function here has a clause,
//! so that a test's proof carries no fact about the program.

use ldb_run::ldb;
use lsm_bytes::{Bytes, NoMemory};
use lsm_disk::{Disk, View};
use lsm_io::{ListClock, ListSessions, MemSink, MemSource};
use lsm_memdisk::{Effect, MemDisk, MemView};
use lsm_names::{FileName, Path};
use lsm_wal::read_wal;
use std::alloc::Global;
use std::thread::Threads;

/// What a run is given beside its words and its disks.
#[derive(Drop)]
pub struct Given {
    source: MemSource,
    sink: MemSink,
    sessions: ListSessions,
    clock: ListClock,
}

/// What a run leaves on its disks, and its status.
#[derive(Drop)]
pub struct Left {
    pub status: u8,
    pub store: MemDisk,
    pub backups: MemDisk,
}

fn source_of(alloc: Global, script: &[u8], read: u64) -> Result<MemSource, NoMemory> {
    let bytes = Bytes::from_slice(alloc, script)?;
    let fails = vec![in alloc; read]?;
    Ok(MemSource::new(bytes.into_vec(), fails))
}

fn sink_of(alloc: Global, write: u64) -> Result<MemSink, NoMemory> {
    let fails = vec![in alloc; (write, 3)]?;
    Ok(MemSink::new(alloc, fails))
}

fn clock_of(alloc: Global) -> Result<ListClock, NoMemory> {
    let times = Vec::from_slice(alloc, &[1000, 500])?;
    Ok(ListClock::new(times, Vec::new(alloc)))
}

/// A script. The source fails at this read, and the sink at this write, of which it takes three
/// bytes; at none where it is 0. The clock tells 1000 and 500, and fails then.
pub fn with_script(alloc: Global, script: &[u8], read: u64, write: u64) -> Result<Given, NoMemory> {
    let source = source_of(alloc, script, read)?;
    let sink = sink_of(alloc, write)?;
    let clock = clock_of(alloc)?;
    Ok(Given {
        source,
        sink,
        sessions: ListSessions::new(Vec::new(alloc), Vec::new(alloc)),
        clock,
    })
}

/// Whether the runs so far printed this.
pub fn has_printed(given: &Given, text: &[u8]) -> bool {
    given.sink.bytes() == text
}

/// One word of the command line.
pub fn one_word(alloc: Global, word: &str) -> Result<Vec<String>, NoMemory> {
    let mut words = Vec::new(alloc);
    words.push(String::from_str(alloc, word)?)?;
    Ok(words)
}

/// Two words of the command line.
pub fn two_words(alloc: Global, first: &str, second: &str) -> Result<Vec<String>, NoMemory> {
    let mut words = one_word(alloc, first)?;
    words.push(String::from_str(alloc, second)?)?;
    Ok(words)
}

fn called<R: Threads + Sync>(
    rt: &R,
    alloc: Global,
    words: &[String],
    given: &mut Given,
    store: MemDisk,
    backups: MemDisk,
) -> Left {
    let done = ldb(
        rt,
        alloc,
        words,
        &mut given.source,
        &mut given.sink,
        store,
        backups,
        &mut given.sessions,
        &mut given.clock,
    );
    Left {
        status: done.status,
        store: done.store_disk,
        backups: done.backup_disk,
    }
}

/// A run with these words over this disk, with new backups.
fn run_words<R: Threads + Sync>(
    rt: &R,
    alloc: Global,
    words: &[String],
    given: &mut Given,
    store: MemDisk,
) -> Result<Left, NoMemory> {
    let backups = MemDisk::new(alloc, true)?;
    Ok(called(rt, alloc, words, given, store, backups))
}

/// A run of the script over this disk.
pub fn run_over<R: Threads + Sync>(
    rt: &R,
    alloc: Global,
    given: &mut Given,
    store: MemDisk,
) -> Result<Left, NoMemory> {
    let words = one_word(alloc, "script")?;
    run_words(rt, alloc, words.as_slice(), given, store)
}

/// A run of the script over a new disk.
pub fn run_new<R: Threads + Sync>(
    rt: &R,
    alloc: Global,
    given: &mut Given,
) -> Result<Left, NoMemory> {
    let store = MemDisk::new(alloc, true)?;
    run_over(rt, alloc, given, store)
}

/// The status of a run with these words over a new disk.
pub fn status_of<R: Threads + Sync>(
    rt: &R,
    alloc: Global,
    words: &[String],
    given: &mut Given,
) -> Result<u8, NoMemory> {
    let store = MemDisk::new(alloc, true)?;
    let left = run_words(rt, alloc, words, given, store)?;
    Ok(left.status)
}

/// A new disk that fails at this call, without an effect.
pub fn failing_disk(alloc: Global, call: u64) -> Result<MemDisk, NoMemory> {
    let mut disk = MemDisk::new(alloc, true)?;
    disk.fail_at(call, Effect::Nothing)?;
    Ok(disk)
}

fn path_of(name: &[u8]) -> Path {
    match Path::parse(name) {
        Ok(path) => path,
        Err(_) => FileName::Current.path(),
    }
}

/// Whether nothing has this name.
pub fn is_free(disk: &mut MemDisk, name: &[u8]) -> bool {
    match disk.kind(&path_of(name)) {
        Ok(None) => true,
        _ => false,
    }
}

fn size_of(disk: &mut MemDisk, path: &Path) -> Option<u64> {
    match disk.size(path) {
        Ok(size) => Some(size),
        Err(_) => None,
    }
}

fn view_of(disk: &mut MemDisk, path: &Path, len: u64) -> Option<MemView> {
    match disk.open(path, len) {
        Ok(view) => Some(view),
        Err(_) => None,
    }
}

fn read_into(view: &mut MemView, at: u64, into: &mut [u8]) -> bool {
    let len = into.len() as u64;
    if view.len() < len || view.len() - len < at {
        return false;
    }
    match view.read_at(at, into) {
        Ok(()) => true,
        Err(_) => false,
    }
}

fn has_bytes(alloc: Global, view: &mut MemView, at: u64, bytes: &[u8]) -> Result<bool, NoMemory> {
    let mut found = vec![in alloc; 0u8; bytes.len()]?;
    Ok(read_into(view, at, found.as_mut_slice()) && found.as_slice() == bytes)
}

/// Whether the file of this name has this length, and these bytes from a place on.
pub fn holds(
    alloc: Global,
    disk: &mut MemDisk,
    name: &[u8],
    len: u64,
    at: u64,
    bytes: &[u8],
) -> Result<bool, NoMemory> {
    let path = path_of(name);
    if size_of(disk, &path) != Some(len) {
        return Ok(false);
    }
    match view_of(disk, &path, len) {
        None => Ok(false),
        Some(mut view) => {
            let is_same = has_bytes(alloc, &mut view, at, bytes);
            disk.close(view);
            is_same
        }
    }
}

fn count_batches(alloc: Global, log: MemView) -> usize {
    match read_wal(alloc, log, 1) {
        Ok(read) => read.batches.len(),
        Err(_) => 0,
    }
}

/// How long the log is after this crash, and how many batches are read from it.
pub fn log_after(alloc: Global, disk: &MemDisk, pick: u64) -> Result<(u64, usize), NoMemory> {
    let mut crashed = disk.crash(pick)?;
    let log = path_of(b"db/000002.log");
    match size_of(&mut crashed, &log) {
        None => Ok((0, 0)),
        Some(len) => match view_of(&mut crashed, &log, len) {
            None => Ok((len, 0)),
            Some(view) => Ok((len, count_batches(alloc, view))),
        },
    }
}
