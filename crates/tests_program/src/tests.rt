//! What the program prints for scripts, and what it leaves.

use crate::documents::EXAMPLES;
use crate::probe::{
    failing_disk, has_printed, holds, is_free, log_after, one_word, run_new, run_over, status_of,
    two_words, with_script,
};
use crate::scripts::{BACKUPS, BAD_LINES, BATCHES, EMPTY_AND_WRITES, Row, SCANS, WORDS};
use crate::words::{ASKED, USAGE, all_ask, all_usage};
use lsm_bytes::{Bytes, NoMemory};
use lsm_memdisk::MemDisk;
use std::alloc::Global;
use std::process::Abort;
use std::thread::Threads;

/// A test's claim. What it claims is no fact for the proof of the test.
fn sure(rt: &impl Abort, holds: Result<bool, NoMemory>) {
    assert!(rt; matches!(holds, Ok(true)));
}

/// Whether a script over a new disk prints this, with this status.
fn prints<R: Threads + Sync>(
    rt: &R,
    alloc: Global,
    script: &[u8],
    printed: &[u8],
    status: u8,
) -> Result<bool, NoMemory> {
    let mut given = with_script(alloc, script, 0, 0)?;
    let left = run_new(rt, alloc, &mut given)?;
    Ok(left.status == status && has_printed(&given, printed))
}

fn all_print<R: Threads + Sync>(rt: &R, alloc: Global, rows: &[Row]) -> Result<bool, NoMemory> {
    for (script, printed, status) in rows {
        if !prints(rt, alloc, script.as_bytes(), printed.as_bytes(), *status)? {
            return Ok(false);
        }
    }
    Ok(true)
}

fn push_many(alloc: Global, text: &mut Bytes, byte: u8, count: usize) -> Result<(), NoMemory> {
    let many = vec![in alloc; byte; count]?;
    text.extend_from_slice(many.as_slice())
}

// A put of so many bytes, and a get.
fn put_of(alloc: Global, key: usize, value: usize) -> Result<Bytes, NoMemory> {
    let mut script = Bytes::from_slice(alloc, b"m put ")?;
    push_many(alloc, &mut script, b'k', key)?;
    script.push(b' ')?;
    push_many(alloc, &mut script, b'v', value)?;
    script.extend_from_slice(b"\nm get a\n")?;
    Ok(script)
}

fn put_prints<R: Threads + Sync>(
    rt: &R,
    alloc: Global,
    key: usize,
    value: usize,
    printed: &[u8],
) -> Result<bool, NoMemory> {
    let script = put_of(alloc, key, value)?;
    prints(rt, alloc, script.as_slice(), printed, 0)
}

// A get by an actor of these two letters, and one by an actor that was named before.
fn push_gets(script: &mut Bytes, first: u8, second: u8) -> Result<(), NoMemory> {
    script.push(first)?;
    script.push(second)?;
    script.extend_from_slice(b" get k\naa get k\n")
}

// Such gets by eight actors.
fn push_eight(script: &mut Bytes, first: u8) -> Result<(), NoMemory> {
    for second in b"abcdefgh" {
        push_gets(script, first, *second)?;
    }
    Ok(())
}

// Gets by 65 actors, in 129 lines.
fn gets_of_65(alloc: Global) -> Result<Bytes, NoMemory> {
    let mut script = Bytes::new(alloc);
    for first in b"abcdefgh" {
        push_eight(&mut script, *first)?;
    }
    script.extend_from_slice(b"i get k\n")?;
    Ok(script)
}

// The answers to the gets of 64 actors, and that the 65th is one too many.
fn answers_of_65(alloc: Global) -> Result<Bytes, NoMemory> {
    let mut printed = Bytes::new(alloc);
    for _line in 0..128u32 {
        printed.extend_from_slice(b"none\n")?;
    }
    printed.extend_from_slice(b"bad line 129\n")?;
    Ok(printed)
}

fn gets_of_65_print<R: Threads + Sync>(rt: &R, alloc: Global) -> Result<bool, NoMemory> {
    let script = gets_of_65(alloc)?;
    let printed = answers_of_65(alloc)?;
    prints(rt, alloc, script.as_slice(), printed.as_slice(), 2)
}

// Whether a put and a get over this disk print this, where the source and the sink fail so.
fn fails_so<R: Threads + Sync>(
    rt: &R,
    alloc: Global,
    disk: Result<MemDisk, NoMemory>,
    read: u64,
    write: u64,
    printed: &[u8],
    status: u8,
) -> Result<bool, NoMemory> {
    let mut given = with_script(alloc, b"m put a 1\nm get a\n", read, write)?;
    let left = run_over(rt, alloc, &mut given, disk?)?;
    Ok(left.status == status && has_printed(&given, printed))
}

// An empty script prints nothing, and makes no backup.
fn empty_leaves_no_backups<R: Threads + Sync>(rt: &R, alloc: Global) -> Result<bool, NoMemory> {
    let mut given = with_script(alloc, b"", 0, 0)?;
    let mut left = run_new(rt, alloc, &mut given)?;
    let is_silent = left.status == 0 && has_printed(&given, b"");
    Ok(is_silent && is_free(&mut left.backups, b"meta"))
}

// Whether this script leaves this file, with these bytes from a place on.
fn leaves_file<R: Threads + Sync>(
    rt: &R,
    alloc: Global,
    script: &[u8],
    name: &[u8],
    len: u64,
    at: u64,
    bytes: &[u8],
) -> Result<bool, NoMemory> {
    let mut given = with_script(alloc, script, 0, 0)?;
    let mut left = run_new(rt, alloc, &mut given)?;
    Ok(left.status == 0 && holds(alloc, &mut left.store, name, len, at, bytes)?)
}

// Notes the length of a log, from 48 bytes to 72, where it has the batches of that length.
fn note(found: &mut [bool; 25], len: u64, batches: usize) -> bool {
    let want = if len == 72 { 3 } else { 2 };
    if len < 48 || 72 < len || batches != want {
        return false;
    }
    found[(len - 48) as usize] = true;
    true
}

// Whether a hundred crashes leave such a log each, and all of those lengths.
fn all_cuts_are_left(alloc: Global, disk: &MemDisk) -> Result<bool, NoMemory> {
    let mut found = [false; 25];
    for pick in 0..100u64 {
        let (len, batches) = log_after(alloc, disk, pick)?;
        if !note(&mut found, len, batches) {
            return Ok(false);
        }
    }
    Ok(found.iter().all(|found| *found))
}

// Two writes are durable, and a bad line ends the run before the third one is. Each cut of the
// third write's record is some crash.
fn durable_writes_stay<R: Threads + Sync>(rt: &R, alloc: Global) -> Result<bool, NoMemory> {
    let script = b"m durable put a 1\nm durable put b 2\nm put c 3\nno line\n";
    let mut given = with_script(alloc, script, 0, 0)?;
    let left = run_new(rt, alloc, &mut given)?;
    Ok(left.status == 2 && all_cuts_are_left(alloc, &left.store)?)
}

// A second run over a disk of a first one.
fn second_is_refused<R: Threads + Sync>(rt: &R, alloc: Global) -> Result<bool, NoMemory> {
    let mut given = with_script(alloc, b"m get a\n", 0, 0)?;
    let first = run_new(rt, alloc, &mut given)?;
    let status = first.status;
    let second = run_over(rt, alloc, &mut given, first.store)?;
    let are_so = status == 0 && second.status == 6;
    Ok(are_so && has_printed(&given, b"none\nrefused Found db\n"))
}

// Whether these words get the usage line.
fn usage_for<R: Threads + Sync>(
    rt: &R,
    alloc: Global,
    words: Result<Vec<String>, NoMemory>,
) -> Result<bool, NoMemory> {
    let mut given = with_script(alloc, b"", 0, 0)?;
    let status = status_of(rt, alloc, words?.as_slice(), &mut given)?;
    let usage = b"usage: ldb [--disk PATH] [--backups PATH] [--db DIR] COMMAND\n";
    Ok(status == 1 && has_printed(&given, usage))
}

#[test]
fn scripts_print_their_answers(rt: HostRuntime) {
    sure(&rt, all_print(&rt, rt.alloc(), EMPTY_AND_WRITES));
    sure(&rt, all_print(&rt, rt.alloc(), SCANS));
    sure(&rt, all_print(&rt, rt.alloc(), WORDS));
    sure(&rt, all_print(&rt, rt.alloc(), BATCHES));
    sure(&rt, all_print(&rt, rt.alloc(), BAD_LINES));
    sure(&rt, all_print(&rt, rt.alloc(), BACKUPS));
}

#[test]
fn the_documents_examples_print_so(rt: HostRuntime) {
    sure(&rt, all_print(&rt, rt.alloc(), EXAMPLES));
}

const LARGE_KEY: &[u8] = b"refused BatchTooLarge Key 65536 65535\nnone\n";

const LARGE_VALUE: &[u8] = b"refused BatchTooLarge Value 1048577 1048576\nnone\n";

#[test]
fn limits_are_refused_and_the_script_goes_on(rt: HostRuntime) {
    let taken = b"seq 1\nnone\n";
    sure(&rt, put_prints(&rt, rt.alloc(), 65_535, 1, taken));
    sure(&rt, put_prints(&rt, rt.alloc(), 65_536, 1, LARGE_KEY));
    sure(&rt, put_prints(&rt, rt.alloc(), 1, 1_048_576, taken));
    sure(&rt, put_prints(&rt, rt.alloc(), 1, 1_048_577, LARGE_VALUE));
    sure(
        &rt,
        put_prints(&rt, rt.alloc(), 65_536, 1_048_577, LARGE_KEY),
    );
}

#[test]
fn a_65th_actor_is_a_bad_line(rt: HostRuntime) {
    sure(&rt, gets_of_65_print(&rt, rt.alloc()));
}

#[test]
fn a_fault_ends_the_run(rt: HostRuntime) {
    let alloc = rt.alloc();
    let done = b"seq 1\nvalue 1\n";
    let read = b"seq 1\nread fault\n";
    let store = b"fault store\n";
    sure(
        &rt,
        fails_so(&rt, alloc, MemDisk::new(alloc, true), 0, 0, done, 0),
    );
    sure(
        &rt,
        fails_so(&rt, alloc, MemDisk::new(alloc, true), 11, 0, read, 3),
    );
    sure(
        &rt,
        fails_so(
            &rt,
            alloc,
            MemDisk::new(alloc, true),
            5,
            0,
            b"read fault\n",
            3,
        ),
    );
    sure(
        &rt,
        fails_so(&rt, alloc, MemDisk::new(alloc, true), 0, 1, b"seq", 4),
    );
    // The rename to `CURRENT`, and the first append to the log.
    sure(
        &rt,
        fails_so(&rt, alloc, failing_disk(alloc, 10), 0, 0, store, 5),
    );
    sure(
        &rt,
        fails_so(&rt, alloc, failing_disk(alloc, 14), 0, 0, store, 5),
    );
}

#[test]
fn an_empty_script_leaves_a_new_store(rt: HostRuntime) {
    let alloc = rt.alloc();
    let manifest = b"\xdb\x45\xa1\x15\x06\0\x01\x01\x02\x02\x03\x03\0";
    let current = b"MANIFEST-000001\n";
    sure(&rt, empty_leaves_no_backups(&rt, alloc));
    sure(
        &rt,
        leaves_file(&rt, alloc, b"", b"db/CURRENT", 16, 0, current),
    );
    sure(
        &rt,
        leaves_file(&rt, alloc, b"", b"db/MANIFEST-000001", 13, 0, manifest),
    );
    sure(
        &rt,
        leaves_file(&rt, alloc, b"", b"db/000002.log", 0, 0, b""),
    );
}

#[test]
fn a_put_is_answered_and_in_the_log(rt: HostRuntime) {
    let alloc = rt.alloc();
    let script = b"m put a 1\n";
    // The length and the kind of the piece, the first sequence, the count, a put of `a` and `1`.
    let piece = b"\x11\0\x01\x01\0\0\0\0\0\0\0\x01\0\0\0\x01\x01a\x011";
    sure(&rt, prints(&rt, alloc, script, b"seq 1\n", 0));
    sure(
        &rt,
        leaves_file(&rt, alloc, script, b"db/000002.log", 24, 4, piece),
    );
}

#[test]
fn a_crash_leaves_each_durable_write(rt: HostRuntime) {
    sure(&rt, durable_writes_stay(&rt, rt.alloc()));
}

#[test]
fn a_folder_that_is_there_is_refused(rt: HostRuntime) {
    sure(&rt, second_is_refused(&rt, rt.alloc()));
}

#[test]
fn words_that_are_no_command_get_the_usage_line(rt: HostRuntime) {
    let alloc = rt.alloc();
    sure(&rt, usage_for(&rt, alloc, Ok(Vec::new(alloc))));
    sure(
        &rt,
        usage_for(&rt, alloc, two_words(alloc, "script", "more")),
    );
    sure(&rt, usage_for(&rt, alloc, one_word(alloc, "scripts")));
}

#[test]
fn words_outside_the_grammar_are_refused(rt: HostRuntime) {
    sure(&rt, all_usage(rt.alloc(), USAGE));
}

#[test]
fn words_in_the_grammar_are_read(rt: HostRuntime) {
    sure(&rt, all_ask(rt.alloc(), ASKED));
}
