//! The top call: what the program does with its words, its input and its disks.
ghost use Rattle.std.specs.Prelude.{◌↔◌, IsTrue};
ghost use Rattle.ldb_script.specs.Run.{stream, met};
ghost use Rattle.ldb_run.specs.Called.{IsCalled};
ghost use Rattle.ldb_run.specs.Words.{IsScript};

use ldb_script::{Done, run_script, say};
use lsm_disk::Disk;
use lsm_io::{Clock, Sessions, Sink, Source};
use lsm_names::Folder;
use std::alloc::Global;
use std::thread::Threads;

/// The last line where the words are not a command.
const USAGE: &str = "usage: ldb [--disk PATH] [--backups PATH] [--db DIR] COMMAND\n";

fn is_script(words: &[String]) -> bool
    ensures { IsTrue result ↔ IsScript words.now }
{
    match words {
        [word] => word.as_str() == "script",
        _ => false,
    }
}

/// Does what the words ask for. The one command yet is `script`: it runs the script that the source
/// gives, over a new store in the folder `db` of the store's disk, with backups on a disk of their
/// own.
///
/// Statuses: 0 finished, 1 usage, 2 a bad line, 3 the source failed, 4 the sink failed, 5 a disk
/// failed, 6 refused, 7 the clock failed, 8 want of memory. All text goes to the sink.
pub fn ldb<R: Threads + Sync, S: Source, K: Sink, D: Disk, B: Disk, N: Sessions, C: Clock>(
    rt: &R,
    alloc: Global,
    words: &[String],
    source: &mut S,
    sink: &mut K,
    store_disk: D,
    backup_disk: B,
    sessions: &mut N,
    clock: &mut C,
) -> Done<D, B>
    ensures called { IsCalled words.now (met
        (stream S.left S.faults source.old) (stream S.left S.faults source.new)
        (stream K.taken K.faults sink.old) (stream K.taken K.faults sink.new)
        (D.seen store_disk) (D.seen result.store_disk)
        (B.seen backup_disk) (B.seen result.backup_disk)
        (stream C.left C.faults clock.old) (stream C.left C.faults clock.new)) result.status }
{
    if !is_script(words) {
        let status = say(sink, USAGE.as_bytes(), 1);
        return Done {
            status,
            store_disk,
            backup_disk,
        };
    }
    match Folder::parse(b"db") {
        Ok(db) => run_script(
            rt,
            alloc,
            source,
            sink,
            &db,
            store_disk,
            backup_disk,
            sessions,
            clock,
        ),
        Err(_) => unreachable!(),
    }
}
