//! Tables of events with their answers, played on a new store.
use lsm_bytes::Bytes;
use lsm_model::{
    Cut, Deleted, Event, FlushRule, Flushed, JobStart, PlainStore, Reply, Shown, Stepped,
    StoreError, Which,
};
use lsm_names::{FileName, Folder};
use lsm_rows::Batch;
use std::alloc::Global;
use std::process::Abort;
use std::test::Fail;

// An answer, as far as the tests look at it.
#[derive(Clone, Copy, Debug, PartialEq, Eq)]
enum Seen {
    Done,
    Is(bool),
    Count(u64),
    Shown { sequence: u64, pairs: usize },
    Pinned { pin: u64, sequence: u64 },
    Flush(Flushed),
    Merge(Stepped),
    Delete(Deleted),
    Refused(StoreError),
}

fn shown_as(shown: &Shown) -> Seen {
    Seen::Shown {
        sequence: shown.sequence,
        pairs: shown.contents.count(),
    }
}

fn pinned_by(cut: &Cut) -> Seen {
    Seen::Pinned {
        pin: cut.pin,
        sequence: cut.sequence,
    }
}

fn begun_by(start: &JobStart) -> Seen {
    Seen::Pinned {
        pin: start.pin,
        sequence: start.sequence,
    }
}

fn refusal_in(reply: &Reply) -> Option<StoreError> {
    match reply {
        Reply::Write(Err(e)) | Reply::SyncLog(Err(e)) | Reply::Get(Err(e)) => Some(*e),
        Reply::Scan(Err(e)) | Reply::Freeze(Err(e)) | Reply::FlushStep(Err(e)) => Some(*e),
        Reply::CompactBegin(Err(e)) | Reply::CompactStep(Err(e)) => Some(*e),
        Reply::DeleteStep(Err(e)) | Reply::Cut(Err(e)) | Reply::LiveFiles(Err(e)) => Some(*e),
        Reply::Unpin(Err(e)) | Reply::Disable(Err(e)) | Reply::Enable(Err(e)) => Some(*e),
        Reply::CheckpointBegin(Err(e)) | Reply::CheckpointStep(Err(e)) => Some(*e),
        Reply::CheckpointFinish(Err(e)) | Reply::CheckpointStop(Err(e)) => Some(*e),
        Reply::Show(Err(e)) | Reply::ShowPin(Err(e)) | Reply::ReadPinned(Err(e)) => Some(*e),
        _ => None,
    }
}

fn seen_in(reply: &Reply) -> Seen {
    if let Some(refusal) = refusal_in(reply) {
        return Seen::Refused(refusal);
    }
    match reply {
        Reply::Write(Ok(n)) | Reply::CheckpointFinish(Ok(n)) | Reply::Last(n) => Seen::Count(*n),
        Reply::Disable(Ok(n)) | Reply::Enable(Ok(n)) => Seen::Count(u64::from(*n)),
        Reply::WantsFreeze(is) | Reply::Freeze(Ok(is)) => Seen::Is(*is),
        Reply::CheckpointStep(Ok(more)) => Seen::Is(*more),
        Reply::Get(Ok(value)) => Seen::Is(value.is_some()),
        Reply::Scan(Ok(pairs)) => Seen::Count(pairs.count() as u64),
        Reply::Show(Ok(answer)) | Reply::ShowPin(Ok(answer)) => shown_as(answer),
        Reply::Cut(Ok(answer)) => pinned_by(answer),
        Reply::CheckpointBegin(Ok(start)) => begun_by(start),
        Reply::LiveFiles(Ok(files)) => Seen::Count(files.sequence),
        Reply::FlushStep(Ok(flushed)) => Seen::Flush(*flushed),
        Reply::CompactStep(Ok(stepped)) => Seen::Merge(*stepped),
        Reply::DeleteStep(Ok(deleted)) => Seen::Delete(*deleted),
        Reply::ReadPinned(Ok(bytes)) => Seen::Count(bytes.len() as u64),
        _ => Seen::Done,
    }
}

// Plays a table's events on a new store, and tests each answer.
fn test_table(rt: &impl Abort, alloc: Global, table: Vec<(Event, Seen)>) -> Result<(), Fail> {
    let mut events = Vec::new(alloc);
    let mut wanted = Vec::new(alloc);
    for (event, answer) in table {
        events.push(event)?;
        wanted.push(answer)?;
    }
    let mut store = PlainStore::new(alloc, Folder::parse(b"db")?);
    let replies = store.play(alloc, events)?;
    assert_eq!(rt; replies.len(), wanted.len());
    for (at, reply) in replies.iter().enumerate() {
        assert!(rt; at < wanted.len());
        assert_eq!(rt; seen_in(reply), wanted[at], "at {at}");
    }
    Ok(())
}

// The write of a batch that puts one key, with itself as its value.
fn put(alloc: Global, key: &[u8]) -> Result<Event, Fail> {
    let mut batch = Batch::new(alloc);
    batch.put(key, key)?;
    Ok(Event::Write { batch, sync: false })
}

// The beginning of a checkpoint that flushes always.
fn begin(dir: Folder) -> Event {
    Event::CheckpointBegin {
        dir,
        log_size_for_flush: 0,
    }
}

fn cut_by(rule: FlushRule) -> Event {
    Event::Cut { rule }
}

fn pinned(pin: u64, sequence: u64) -> Seen {
    Seen::Pinned { pin, sequence }
}

fn shows(sequence: u64, pairs: usize) -> Seen {
    Seen::Shown { sequence, pairs }
}

fn no_such_pin(pin: u64) -> Seen {
    Seen::Refused(StoreError::NoSuchPin { pin })
}

#[test]
fn a_checkpoint_has_the_batches_of_its_beginning(rt: HostRuntime) -> Result<(), Fail> {
    let alloc = rt.alloc();
    let (db, cp) = (Folder::parse(b"db")?, Folder::parse(b"cp")?);
    let cq = Folder::parse(b"cq")?;
    let exists = Seen::Refused(StoreError::CheckpointExists { dir: cp });
    let under_way = Seen::Refused(StoreError::UnderWay { dir: cq });
    let table = vec![in alloc;
        (put(alloc, b"k")?, Seen::Count(1)),
        (begin(cp), pinned(1, 1)),
        (Event::CheckpointStep { pin: 1 }, Seen::Is(false)),
        (Event::CheckpointFinish { pin: 1 }, Seen::Count(1)),
        (begin(cp), exists),
        (begin(cq), pinned(2, 1)),
        (begin(cq), under_way),
        (Event::Unpin { pin: 2 }, no_such_pin(2)),
        (Event::CheckpointStop { pin: 2 }, Seen::Done),
        (Event::CheckpointStop { pin: 2 }, no_such_pin(2)),
        (begin(cq), pinned(3, 1)),
        (put(alloc, b"l")?, Seen::Count(2)),
        (Event::CheckpointFinish { pin: 3 }, Seen::Count(1)),
        (Event::Show { dir: cq }, shows(1, 1)),
        (Event::Show { dir: db }, shows(2, 2)),
    ]?;
    test_table(&rt, alloc, table)
}

#[test]
fn disables_and_pins_are_counted(rt: HostRuntime) -> Result<(), Fail> {
    let alloc = rt.alloc();
    let none = Folder::parse(b"none")?;
    let no_folder = Seen::Refused(StoreError::NoFolder { dir: none.path() });
    let disabled = Seen::Delete(Deleted::Disabled { count: 1 });
    let table = vec![in alloc;
        (Event::Disable, Seen::Count(1)),
        (Event::Disable, Seen::Count(2)),
        (Event::Enable, Seen::Count(1)),
        (Event::DeleteStep, disabled),
        (Event::Enable, Seen::Count(0)),
        (Event::Enable, Seen::Refused(StoreError::NotDisabled)),
        (Event::DeleteStep, Seen::Delete(Deleted::Nothing)),
        (Event::Show { dir: none }, no_folder),
        (Event::Unpin { pin: 1 }, no_such_pin(1)),
        (cut_by(FlushRule::Never), pinned(1, 0)),
        (put(alloc, b"k")?, Seen::Count(1)),
        (cut_by(FlushRule::AtLeast(25)), pinned(2, 1)),
        (Event::ShowPin { pin: 1 }, shows(0, 0)),
        (Event::ShowPin { pin: 2 }, shows(1, 1)),
        (Event::Unpin { pin: 1 }, Seen::Done),
        (Event::ShowPin { pin: 1 }, no_such_pin(1)),
    ]?;
    test_table(&rt, alloc, table)
}

#[test]
fn a_cut_flushes_by_the_lengths_of_logs(rt: HostRuntime) -> Result<(), Fail> {
    let alloc = rt.alloc();
    let table = vec![in alloc;
        (put(alloc, b"k")?, Seen::Count(1)),
        (cut_by(FlushRule::AtLeast(25)), pinned(1, 1)),
        (Event::Freeze, Seen::Is(true)),
        (cut_by(FlushRule::AtLeast(24)), pinned(2, 1)),
        (Event::FlushStep, Seen::Flush(Flushed::NoJob)),
    ]?;
    test_table(&rt, alloc, table)
}

#[test]
fn refusals_come_in_their_order(rt: HostRuntime) -> Result<(), Fail> {
    let alloc = rt.alloc();
    let (db, cq) = (Folder::parse(b"db")?, Folder::parse(b"cq")?);
    let full = Seen::Refused(StoreError::PinsFull { live: 64 });
    let exists = Seen::Refused(StoreError::CheckpointExists { dir: db });
    let under_way = Seen::Refused(StoreError::UnderWay { dir: cq });
    let mut table = vec![in alloc; (begin(cq), pinned(1, 0))]?;
    for pin in 2..65u64 {
        table.push((cut_by(FlushRule::Never), pinned(pin, 0)))?;
    }
    table.push((cut_by(FlushRule::Never), full))?;
    table.push((begin(cq), under_way))?;
    table.push((begin(db), full))?;
    table.push((Event::Unpin { pin: 64 }, Seen::Done))?;
    table.push((begin(db), exists))?;
    table.push((Event::CheckpointFinish { pin: 2 }, no_such_pin(2)))?;
    table.push((cut_by(FlushRule::Always), pinned(65, 0)))?;
    test_table(&rt, alloc, table)
}

#[test]
fn rows_leave_memory_once(rt: HostRuntime) -> Result<(), Fail> {
    let alloc = rt.alloc();
    let (name, key) = (FileName::Log(2), Bytes::from_slice(alloc, b"c")?);
    let which = Which::All;
    let table = vec![in alloc;
        (Event::Freeze, Seen::Is(false)),
        (put(alloc, b"a")?, Seen::Count(1)),
        (Event::WantsFreeze, Seen::Is(false)),
        (Event::SyncLog, Seen::Done),
        (Event::Freeze, Seen::Is(true)),
        (put(alloc, b"b")?, Seen::Count(2)),
        (Event::Freeze, Seen::Is(false)),
        (Event::FlushStep, Seen::Flush(Flushed::Installed)),
        (Event::FlushStep, Seen::Flush(Flushed::NoJob)),
        (Event::CompactBegin { which }, Seen::Done),
        (Event::CompactStep { rows: 1 }, Seen::Merge(Stepped::NoJob)),
        (Event::LiveFiles { flush: true }, Seen::Count(2)),
        (Event::Freeze, Seen::Is(false)),
        (Event::Get { key }, Seen::Is(false)),
        (Event::Scan, Seen::Count(2)),
        (Event::Last, Seen::Count(2)),
        (Event::ReadPinned { pin: 1, name }, no_such_pin(1)),
    ]?;
    test_table(&rt, alloc, table)
}
