//! A disk in memory from its making to a crash: what its calls answer where memory is ample.

use crate::claims::sure;
use crate::probe::{Call, Gave, Probe, entry};
use lsm_bytes::NoMemory;
use lsm_disk::{DiskError, Entry, Kind, Listing};
use lsm_memdisk::Effect;
use std::alloc::Global;

/// A call, and what it is to give.
type Step = (Call, Gave);

const FOLDER: Gave = Gave::Kind(Some(Kind::Folder));

const FILE: Gave = Gave::Kind(Some(Kind::File));

const NOTHING: Gave = Gave::Kind(None);

const READ_FROM_A_VIEW: &[Step] = &[
    (Call::MakeFolder(b"db"), Gave::Done),
    (Call::Create(b"db/a"), Gave::Done),
    (Call::Append(b"db/a", b"abcdef"), Gave::Done),
    (Call::Open(b"db/a", 4), Gave::Done),
    (Call::ReadThree(1), Gave::Bytes(*b"bcd")),
];

const STOPPED: &[Step] = &[
    (Call::Create(b"a"), Gave::Done),
    (Call::Append(b"a", b"abc"), Gave::Done),
    (Call::SyncNames, Gave::Done),
    (Call::Append(b"a", b"d"), Gave::Refused(DiskError::Fault)),
    (Call::Size(b"a"), Gave::Refused(DiskError::Fault)),
];

const A_FAILED_READ: &[Step] = &[
    (Call::Create(b"a"), Gave::Done),
    (Call::Open(b"a", 0), Gave::Done),
    (Call::ReadNone, Gave::Faulty),
    (Call::ReadNone, Gave::Done),
    (Call::Close, Gave::Done),
];

const A_FAILED_READ_OF_BYTES: &[Step] = &[
    (Call::Create(b"a"), Gave::Done),
    (Call::Append(b"a", b"abc"), Gave::Done),
    (Call::Open(b"a", 3), Gave::Done),
    (Call::ReadThree(0), Gave::Faulty),
    (Call::ReadThree(0), Gave::Bytes(*b"abc")),
];

const TEN_SYNCED: &[Step] = &[
    (Call::Create(b"a"), Gave::Done),
    (Call::Append(b"a", b"0123456789"), Gave::Done),
    (Call::Sync(b"a"), Gave::Done),
    (Call::Append(b"a", b"abcde"), Gave::Done),
];

const NAMES_SYNCED: &[Step] = &[(Call::SyncNames, Gave::Done)];

const LOST: &[Step] = &[(Call::Size(b"a"), Gave::Refused(DiskError::NotThere))];

const THREE_LEFT: &[Step] = &[(Call::Size(b"a"), Gave::Size(3))];

const FOUR_LEFT: &[Step] = &[(Call::Size(b"a"), Gave::Size(4))];

const THREE_NAMES: &[Step] = &[
    (Call::MakeFolder(b"f"), Gave::Done),
    (Call::Create(b"f/b"), Gave::Done),
    (Call::Create(b"f/a"), Gave::Done),
];

/// Names, and whether a crash leaves exactly so much of them.
const FRONTS: &[(&'static [Step], bool)] = &[
    (
        &[
            (Call::Kind(b"f"), NOTHING),
            (Call::Kind(b"f/b"), NOTHING),
            (Call::Kind(b"f/a"), NOTHING),
        ],
        true,
    ),
    (
        &[
            (Call::Kind(b"f"), FOLDER),
            (Call::Kind(b"f/b"), NOTHING),
            (Call::Kind(b"f/a"), NOTHING),
        ],
        true,
    ),
    (
        &[
            (Call::Kind(b"f"), FOLDER),
            (Call::Kind(b"f/b"), FILE),
            (Call::Kind(b"f/a"), NOTHING),
        ],
        true,
    ),
    (
        &[
            (Call::Kind(b"f"), FOLDER),
            (Call::Kind(b"f/b"), FILE),
            (Call::Kind(b"f/a"), FILE),
        ],
        true,
    ),
    (
        &[
            (Call::Kind(b"f"), FOLDER),
            (Call::Kind(b"f/b"), NOTHING),
            (Call::Kind(b"f/a"), FILE),
        ],
        false,
    ),
];

const UNLINKED: &[Step] = &[
    (Call::Create(b"a"), Gave::Done),
    (Call::Append(b"a", b"abc"), Gave::Done),
    (Call::Link(b"a", b"b"), Gave::Done),
    (Call::Open(b"a", 3), Gave::Done),
    (Call::Unlink(b"a"), Gave::Done),
    (Call::Size(b"a"), Gave::Refused(DiskError::NotThere)),
    (Call::Size(b"b"), Gave::Size(3)),
    (Call::ReadThree(0), Gave::Bytes(*b"abc")),
];

const REFUSED: &[Step] = &[
    (Call::Create(b"a"), Gave::Done),
    (Call::Append(b"a", b"abc"), Gave::Done),
    (
        Call::Open(b"a", 9),
        Gave::Refused(DiskError::Short { found: 3 }),
    ),
    (Call::Link(b"a", b"b"), Gave::Refused(DiskError::NoLinks)),
    (Call::Kind(b"b"), NOTHING),
];

const A_PART_APPENDED: &[Step] = &[
    (Call::Create(b"a"), Gave::Done),
    (Call::Append(b"a", b"ab"), Gave::Done),
    (
        Call::Append(b"a", b"0123456789ab"),
        Gave::Refused(DiskError::Fault),
    ),
    (Call::Size(b"a"), Gave::Size(7)),
    (Call::Sync(b"a"), Gave::Done),
    (Call::Append(b"a", b"c"), Gave::Done),
    (Call::Size(b"a"), Gave::Size(8)),
];

const DONE_AND_NOT_DONE: &[Step] = &[
    (Call::Create(b"a"), Gave::Refused(DiskError::Fault)),
    (Call::Create(b"b"), Gave::Refused(DiskError::Fault)),
    (Call::Kind(b"a"), FILE),
    (Call::Kind(b"b"), NOTHING),
];

const A_FOLDER_MOVES: &[Step] = &[
    (Call::MakeFolder(b"f"), Gave::Done),
    (Call::Create(b"f/a"), Gave::Done),
    (Call::Append(b"f/a", b"abc"), Gave::Done),
    (Call::Rename(b"f", b"g"), Gave::Done),
    (Call::Size(b"g/a"), Gave::Size(3)),
    (Call::RemoveFolder(b"g"), Gave::Refused(DiskError::NotEmpty)),
    (Call::Rename(b"g/a", b"a"), Gave::Done),
    (Call::RemoveFolder(b"g"), Gave::Done),
    (Call::Kind(b"g"), NOTHING),
    (Call::Kind(b"f"), NOTHING),
    (Call::Size(b"a"), Gave::Size(3)),
];

/// Whether the calls, in their order, give the answers that are wanted.
fn gives(probe: &mut Probe, steps: &[Step]) -> bool {
    for (call, want) in steps {
        let gave = probe.call(*call);
        if gave != *want {
            return false;
        }
    }
    true
}

/// Whether one of the first 100 crashes leaves a disk that gives these answers.
fn leaves(probe: &Probe, steps: &[Step]) -> Result<bool, NoMemory> {
    for pick in 0..100u64 {
        if gives(&mut probe.crashed(pick)?, steps) {
            return Ok(true);
        }
    }
    Ok(false)
}

/// Whether each row says rightly if a crash leaves these answers.
fn are_left(probe: &Probe, rows: &[(&'static [Step], bool)]) -> Result<bool, NoMemory> {
    for (steps, want) in rows {
        let found = leaves(probe, steps)?;
        if found != *want {
            return Ok(false);
        }
    }
    Ok(true)
}

/// Whether the file `a` is left with each length from 10 to 15, and with no other below 17.
fn has_each_cut(probe: &Probe) -> Result<bool, NoMemory> {
    for len in 0..17u64 {
        let found = leaves(probe, &[(Call::Size(b"a"), Gave::Size(len))])?;
        if found != (10 <= len && len <= 15) {
            return Ok(false);
        }
    }
    Ok(true)
}

/// Whether the folder has these two files and no more.
fn has_two_files(probe: &mut Probe, folder: &[u8], first: &[u8], second: &[u8]) -> bool {
    match probe.list(folder) {
        Ok(listing) => is_of_two(
            &listing,
            entry(first, Kind::File),
            entry(second, Kind::File),
        ),
        Err(_) => false,
    }
}

fn is_of_two(listing: &Listing, first: Entry, second: Entry) -> bool {
    listing.as_slice() == [first, second].as_slice()
}

fn a_disk_with_read_fault(alloc: Global) -> Result<Probe, NoMemory> {
    let mut probe = Probe::new(alloc, false)?;
    probe.fail_read(1, 1)?;
    Ok(probe)
}

fn a_disk_with_faults(
    alloc: Global,
    first: (u64, Effect),
    second: (u64, Effect),
) -> Result<Probe, NoMemory> {
    let mut probe = Probe::new(alloc, false)?;
    probe.fail_at(first.0, first.1)?;
    probe.fail_at(second.0, second.1)?;
    Ok(probe)
}

fn a_view_is_read(alloc: Global) -> Result<bool, NoMemory> {
    let mut probe = Probe::new(alloc, true)?;
    Ok(gives(&mut probe, READ_FROM_A_VIEW) && probe.appended() == 6)
}

fn a_stopped_disk_is_faulty(alloc: Global) -> Result<bool, NoMemory> {
    let mut probe = Probe::new(alloc, false)?;
    probe.stop_at(4);
    let is_faulty = gives(&mut probe, STOPPED);
    let is_left = leaves(&probe, THREE_LEFT)?;
    Ok(is_faulty && is_left && !leaves(&probe, FOUR_LEFT)?)
}

fn a_read_fails_once(alloc: Global) -> Result<bool, NoMemory> {
    let mut probe = a_disk_with_read_fault(alloc)?;
    Ok(gives(&mut probe, A_FAILED_READ) && probe.starts() == 2)
}

fn a_read_of_bytes_fails_once(alloc: Global) -> Result<bool, NoMemory> {
    let mut probe = a_disk_with_read_fault(alloc)?;
    Ok(gives(&mut probe, A_FAILED_READ_OF_BYTES))
}

fn a_crash_cuts(alloc: Global) -> Result<bool, NoMemory> {
    let mut probe = Probe::new(alloc, false)?;
    let is_written = gives(&mut probe, TEN_SYNCED);
    let may_lack = leaves(&probe, LOST)?;
    let is_synced = gives(&mut probe, NAMES_SYNCED);
    let may_lack_still = leaves(&probe, LOST)?;
    Ok(is_written && may_lack && is_synced && !may_lack_still && has_each_cut(&probe)?)
}

fn fronts_are_left(alloc: Global) -> Result<bool, NoMemory> {
    let mut probe = Probe::new(alloc, false)?;
    let is_made = gives(&mut probe, THREE_NAMES);
    let are_fronts = are_left(&probe, FRONTS)?;
    Ok(is_made && are_fronts && has_two_files(&mut probe, b"f", b"a", b"b"))
}

fn steps_are_given(alloc: Global, links: bool, steps: &[Step]) -> Result<bool, NoMemory> {
    Ok(gives(&mut Probe::new(alloc, links)?, steps))
}

fn a_part_is_appended(alloc: Global) -> Result<bool, NoMemory> {
    // Of the two entries for the third call the last one holds.
    let part = (3, Effect::Part(5));
    let mut probe = a_disk_with_faults(alloc, (3, Effect::Nothing), part)?;
    Ok(gives(&mut probe, A_PART_APPENDED))
}

fn a_fault_is_done_or_not(alloc: Global) -> Result<bool, NoMemory> {
    let mut probe = a_disk_with_faults(alloc, (1, Effect::Done), (2, Effect::Nothing))?;
    Ok(gives(&mut probe, DONE_AND_NOT_DONE))
}

fn list_of_one(alloc: Global) -> Result<Listing, NoMemory> {
    Ok(Listing::of(vec![in alloc; entry(b"a", Kind::File)]?))
}

fn a_listing_has_its_entries(alloc: Global) -> Result<bool, NoMemory> {
    let listing = list_of_one(alloc)?;
    let is_lent = listing.as_slice().len() == 1;
    let entries = listing.into_entries();
    Ok(is_lent && entries.as_slice() == [entry(b"a", Kind::File)].as_slice())
}

fn no_memory() -> DiskError {
    DiskError::from(NoMemory)
}

#[test]
fn want_of_memory_is_one_answer(rt: HostRuntime) {
    sure(&rt, Ok(no_memory() == DiskError::NoMemory));
    sure(&rt, a_listing_has_its_entries(rt.alloc()));
}

#[test]
fn what_was_appended_is_read_from_a_view(rt: HostRuntime) {
    sure(&rt, a_view_is_read(rt.alloc()));
}

#[test]
fn a_stopped_disk_answers_faults_alone(rt: HostRuntime) {
    sure(&rt, a_stopped_disk_is_faulty(rt.alloc()));
}

#[test]
fn a_read_of_a_view_is_made_to_fail(rt: HostRuntime) {
    sure(&rt, a_read_fails_once(rt.alloc()));
    sure(&rt, a_read_of_bytes_fails_once(rt.alloc()));
}

#[test]
fn a_crash_cuts_behind_what_was_synced(rt: HostRuntime) {
    sure(&rt, a_crash_cuts(rt.alloc()));
}

#[test]
fn a_crash_leaves_each_front_of_the_names(rt: HostRuntime) {
    sure(&rt, fronts_are_left(rt.alloc()));
}

#[test]
fn an_unlinked_file_is_read_on(rt: HostRuntime) {
    sure(&rt, steps_are_given(rt.alloc(), true, UNLINKED));
}

#[test]
fn a_short_file_and_a_second_name_are_refused(rt: HostRuntime) {
    sure(&rt, steps_are_given(rt.alloc(), false, REFUSED));
}

#[test]
fn the_calls_after_a_planned_fault_work(rt: HostRuntime) {
    sure(&rt, a_part_is_appended(rt.alloc()));
    sure(&rt, a_fault_is_done_or_not(rt.alloc()));
}

#[test]
fn a_folder_moves_whole_and_is_removed_once_it_is_empty(rt: HostRuntime) {
    sure(&rt, steps_are_given(rt.alloc(), false, A_FOLDER_MOVES));
}
