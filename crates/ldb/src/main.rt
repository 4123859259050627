//! `ldb`: a store of keys and values with a log. It reads a script from its input, runs it over a
//! disk in memory, and prints the answer to each line. What the top call does is in `ldb_run`.
#![tactic(auto)]

use ldb_run::ldb;
use lsm_io::{HostClock, HostSessions, Sink, StdSink, StdSource};
use lsm_memdisk::MemDisk;
use std::alloc::AllocError;
use std::env;
use std::process::ExitCode;
use std::rt::Env;

/// The words behind the program's name. Words that are no text count as none, which is a faulty
/// command line.
fn words_of<R: AllocGlobal + Env>(rt: &R) -> Result<Vec<String>, AllocError> {
    let mut words = Vec::new(rt.alloc());
    if let Ok(given) = env::args(rt) {
        for word in given.skip(1) {
            words.push(word)?;
        }
    }
    Ok(words)
}

fn main(rt: HostRuntime) -> ExitCode {
    let mut sink = StdSink::new(rt);
    let (Ok(words), Ok(store_disk), Ok(backup_disk)) = (
        words_of(&rt),
        MemDisk::new(rt.alloc(), true),
        MemDisk::new(rt.alloc(), true),
    ) else {
        let _ = sink.write(b"no memory\n");
        return ExitCode::from(8);
    };
    let done = ldb(
        &rt,
        rt.alloc(),
        words.as_slice(),
        &mut StdSource::new(rt),
        &mut sink,
        store_disk,
        backup_disk,
        &mut HostSessions::new(rt),
        &mut HostClock::new(rt),
    );
    ExitCode::from(done.status)
}
