//! A restore's calls on a plain store, and a write whose disk call fails.
use lsm_bytes::Bytes;
use lsm_disk::{DestError, DiskCall, Halt};
use lsm_model::{Event, PlainStore, Reply, StoreError};
use lsm_names::Folder;
use lsm_rows::Batch;
use std::alloc::Global;
use std::process::Abort;

// Fails unless the case came to its end and holds.
fn sure(rt: &impl Abort, holds: Option<bool>) {
    assert!(rt; matches!(holds, Some(true)));
}

fn new_store(alloc: Global) -> Option<PlainStore> {
    let db = Folder::parse(b"db").ok()?;
    Some(PlainStore::new(alloc, db))
}

// A batch that puts one key, with itself as its value.
fn one_put(alloc: Global, key: &[u8]) -> Option<Batch> {
    let mut batch = Batch::new(alloc);
    batch.put(key, key).ok()?;
    Some(batch)
}

// Whether the write of a key is answered with this last sequence.
fn puts(store: &mut PlainStore, alloc: Global, key: &[u8], last: u64) -> Option<bool> {
    let batch = one_put(alloc, key)?;
    let reply = store.answer(Event::Write { batch, sync: false });
    Some(matches!(reply, Reply::Write(Ok(found)) if found == last))
}

// Answers the write of a key as where its disk call fails.
fn fails(store: &mut PlainStore, alloc: Global, key: &[u8]) -> Option<StoreError> {
    let batch = one_put(alloc, key)?;
    Some(store.write_failing(batch))
}

fn begins(store: &mut PlainStore, name: &[u8]) -> Option<Result<(), DestError>> {
    let dir = Folder::parse(name).ok()?;
    Some(store.begin(dir))
}

// One file of a restore.
fn fills(store: &mut PlainStore) -> Result<(), DestError> {
    store.file()?;
    store.append()?;
    store.seal()?;
    Ok(())
}

// The last sequence of a folder, and how many pairs it has.
fn shown(store: &mut PlainStore, name: &[u8]) -> Option<Result<(u64, usize), StoreError>> {
    let dir = Folder::parse(name).ok()?;
    match store.answer(Event::Show { dir }) {
        Reply::Show(Ok(found)) => Some(Ok((found.sequence, found.contents.count()))),
        Reply::Show(Err(refusal)) => Some(Err(refusal)),
        _ => None,
    }
}

fn is_there(store: &mut PlainStore, alloc: Global, key: &[u8]) -> Option<bool> {
    let key = Bytes::from_slice(alloc, key).ok()?;
    match store.answer(Event::Get { key }) {
        Reply::Get(Ok(value)) => Some(value.is_some()),
        _ => None,
    }
}

fn scanned(store: &mut PlainStore) -> Option<usize> {
    match store.answer(Event::Scan) {
        Reply::Scan(Ok(pairs)) => Some(pairs.count()),
        _ => None,
    }
}

// The disk call that halted the store, where the reply to a write tells it.
fn halt_of(reply: &Reply) -> Option<Halt> {
    match reply {
        Reply::Write(Err(StoreError::Halted { first })) => Some(*first),
        _ => None,
    }
}

fn is_append(first: &Halt) -> bool {
    first.call == DiskCall::Append && first.path.as_bytes() == b"db/000001.log".as_slice()
}

// Whether the changing call is refused since an append halted the store.
fn is_halted(store: &mut PlainStore, alloc: Global) -> Option<bool> {
    let batch = one_put(alloc, b"m")?;
    let reply = store.answer(Event::Write { batch, sync: true });
    let first = halt_of(&reply)?;
    Some(is_append(&first))
}

fn a_begun_folder_has_no_current(alloc: Global) -> Option<bool> {
    let mut store = new_store(alloc)?;
    let begun = begins(&mut store, b"cp")?;
    let filled = fills(&mut store);
    let found = shown(&mut store, b"cp")?;
    let unread = matches!(found, Err(StoreError::NoCurrent { .. }));
    Some(begun.is_ok() && filled.is_ok() && unread)
}

fn a_restored_folder_keeps_its_batches(alloc: Global) -> Option<bool> {
    let mut store = new_store(alloc)?;
    let first = puts(&mut store, alloc, b"k", 1)?;
    let begun = begins(&mut store, b"cp")?.is_ok();
    let filled = fills(&mut store).is_ok() && fills(&mut store).is_ok();
    let finished = store.finish(5).is_ok();
    let second = puts(&mut store, alloc, b"l", 2)?;
    let found = shown(&mut store, b"cp")?;
    Some(first && begun && filled && finished && second && found == Ok((1, 1)))
}

fn a_taken_name_is_refused(alloc: Global) -> Option<bool> {
    let mut store = new_store(alloc)?;
    let own = begins(&mut store, b"db")?;
    let first = begins(&mut store, b"cp")?;
    let second = begins(&mut store, b"cp")?;
    Some(own == Err(DestError::Exists) && first == Ok(()) && second == Err(DestError::Exists))
}

fn a_finished_folder_is_begun_no_more(alloc: Global) -> Option<bool> {
    let mut store = new_store(alloc)?;
    let before = fills(&mut store);
    let begun = begins(&mut store, b"cp")?;
    let finished = store.finish(0);
    let again = store.finish(0);
    let none = Err(DestError::NoMemory);
    Some(before == none && begun == Ok(()) && finished == Ok(()) && again == none)
}

fn a_doubtful_batch_is_not_shown(alloc: Global) -> Option<bool> {
    let mut store = new_store(alloc)?;
    let first = puts(&mut store, alloc, b"k", 1)?;
    let failed = fails(&mut store, alloc, b"l")?;
    let there = is_there(&mut store, alloc, b"k")? && !is_there(&mut store, alloc, b"l")?;
    let count = scanned(&mut store)?;
    let own = shown(&mut store, b"db")?;
    Some(first && failed == StoreError::DiskFault && there && count == 1 && own == Ok((1, 1)))
}

fn a_fault_halts_what_changes(alloc: Global) -> Option<bool> {
    let mut store = new_store(alloc)?;
    let failed = fails(&mut store, alloc, b"l")?;
    let halted = is_halted(&mut store, alloc)?;
    let again = fails(&mut store, alloc, b"l")?;
    let begun = begins(&mut store, b"cp")?;
    let first = failed == StoreError::DiskFault && halted;
    let later = matches!(again, StoreError::Halted { .. });
    Some(first && later && matches!(begun, Err(DestError::Halted { .. })))
}

#[test]
fn a_folder_without_current_is_not_read(rt: HostRuntime) {
    sure(&rt, a_begun_folder_has_no_current(rt.alloc()));
}

#[test]
fn two_files_are_restored(rt: HostRuntime) {
    sure(&rt, a_restored_folder_keeps_its_batches(rt.alloc()));
}

#[test]
fn folders_are_begun_under_free_names(rt: HostRuntime) {
    sure(&rt, a_taken_name_is_refused(rt.alloc()));
}

#[test]
fn a_restore_ends_once(rt: HostRuntime) {
    sure(&rt, a_finished_folder_is_begun_no_more(rt.alloc()));
}

#[test]
fn readings_go_on_behind_a_failed_write(rt: HostRuntime) {
    sure(&rt, a_doubtful_batch_is_not_shown(rt.alloc()));
}

#[test]
fn changing_calls_end_with_a_failed_write(rt: HostRuntime) {
    sure(&rt, a_fault_halts_what_changes(rt.alloc()));
}
