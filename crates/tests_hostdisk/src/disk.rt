//! What the calls answer over the files of a folder.

use crate::claims::sure;
use crate::probe::{Call, Gave, Probe, entry};
use lsm_disk::{DiskError, Entry, Kind};
use std::fs;

/// A call, and what it is to give.
type Step = (Call, Gave);

const FOLDER: Gave = Gave::Kind(Some(Kind::Folder));

const FILE: Gave = Gave::Kind(Some(Kind::File));

const NOTHING: Gave = Gave::Kind(None);

const NOT_THERE: Gave = Gave::Refused(DiskError::NotThere);

const EXISTS: Gave = Gave::Refused(DiskError::Exists);

const NAMES: &[Step] = &[
    (Call::Create(b"db/a"), NOT_THERE),
    (Call::MakeFolder(b"db"), Gave::Done),
    (Call::MakeFolder(b"db"), EXISTS),
    (Call::Create(b"db"), EXISTS),
    (Call::Create(b"db/b"), Gave::Done),
    (Call::Create(b"db/a"), Gave::Done),
    (Call::Create(b"db/a"), EXISTS),
    (Call::Create(b"db/a/c"), NOT_THERE),
    (Call::MakeFolder(b"db/A"), Gave::Done),
    (Call::Kind(b"db"), FOLDER),
    (Call::Kind(b"db/a"), FILE),
    (Call::Kind(b"db/c"), NOTHING),
    (Call::Kind(b"db/a/c"), NOTHING),
    (Call::Size(b"db"), NOT_THERE),
    (Call::Append(b"db", b"x"), NOT_THERE),
    (Call::Unlink(b"db/A"), NOT_THERE),
    (Call::RemoveFolder(b"db/a"), NOT_THERE),
    (
        Call::RemoveFolder(b"db"),
        Gave::Refused(DiskError::NotEmpty),
    ),
    (Call::SyncNames, Gave::Done),
];

const REMOVED: &[Step] = &[
    (Call::RemoveFolder(b"db/A"), Gave::Done),
    (Call::Unlink(b"db/a"), Gave::Done),
    (Call::Unlink(b"db/a"), NOT_THERE),
    (Call::Unlink(b"db/b"), Gave::Done),
    (Call::RemoveFolder(b"db"), Gave::Done),
    (Call::Kind(b"db"), NOTHING),
    (Call::SyncNames, Gave::Done),
];

const BYTES: &[Step] = &[
    (Call::Create(b"a"), Gave::Done),
    (Call::Append(b"a", b"abc"), Gave::Done),
    (Call::Append(b"a", b"def"), Gave::Done),
    (Call::Sync(b"a"), Gave::Done),
    (Call::Size(b"a"), Gave::Size(6)),
    (
        Call::Open(b"a", 7),
        Gave::Refused(DiskError::Short { found: 6 }),
    ),
    (Call::Open(b"a", 5), Gave::Done),
    (Call::ReadThree(2), Gave::Bytes(*b"cde")),
    (Call::ReadThree(3), Gave::NoView),
    (Call::Unlink(b"a"), Gave::Done),
    (Call::ReadThree(0), Gave::Bytes(*b"abc")),
    (Call::Close, Gave::Done),
    (Call::Append(b"a", b"x"), NOT_THERE),
    (Call::Sync(b"a"), NOT_THERE),
    (Call::SyncNames, Gave::Done),
];

const LEFT: &[Step] = &[
    (Call::MakeFolder(b"d"), Gave::Done),
    (Call::Create(b"d/a"), Gave::Done),
    (Call::Append(b"d/a", b"abc"), Gave::Done),
    (Call::Sync(b"d/a"), Gave::Done),
    (Call::SyncNames, Gave::Done),
];

const FOUND: &[Step] = &[
    (Call::Append(b"d/a", b"def"), Gave::Done),
    (Call::Open(b"d/a", 6), Gave::Done),
    (Call::ReadThree(2), Gave::Bytes(*b"cde")),
    (Call::Close, Gave::Done),
    (Call::Sync(b"d/a"), Gave::Done),
];

const MOVED: &[Step] = &[
    (Call::MakeFolder(b"d"), Gave::Done),
    (Call::MakeFolder(b"e"), Gave::Done),
    (Call::Create(b"a"), Gave::Done),
    (Call::Append(b"a", b"abc"), Gave::Done),
    (Call::Create(b"d/b"), Gave::Done),
    (Call::Rename(b"a", b"d"), EXISTS),
    (Call::Rename(b"a", b"f/a"), NOT_THERE),
    (Call::Rename(b"c", b"a"), NOT_THERE),
    (Call::Rename(b"a", b"a"), Gave::Done),
    (Call::Rename(b"a", b"d/b"), Gave::Done),
    (Call::Kind(b"a"), NOTHING),
    (Call::Size(b"d/b"), Gave::Size(3)),
    (Call::Append(b"d/b", b"d"), Gave::Done),
    (Call::Size(b"d/b"), Gave::Size(4)),
    (Call::Rename(b"d", b"e"), EXISTS),
    (Call::Rename(b"d", b"d"), EXISTS),
    (Call::Rename(b"d", b"d/e"), NOT_THERE),
    (Call::Rename(b"d", b"e/d"), Gave::Done),
    (Call::Append(b"e/d/b", b"e"), Gave::Done),
    (Call::Size(b"e/d/b"), Gave::Size(5)),
    (Call::SyncNames, Gave::Done),
];

const LINKED: &[Step] = &[
    (Call::MakeFolder(b"d"), Gave::Done),
    (Call::Create(b"a"), Gave::Done),
    (Call::Append(b"a", b"abc"), Gave::Done),
    (Call::Link(b"d", b"b"), NOT_THERE),
    (Call::Link(b"a", b"d"), EXISTS),
    (Call::Link(b"a", b"c/b"), NOT_THERE),
    (Call::Link(b"a", b"d/b"), Gave::Done),
    (Call::Append(b"d/b", b"d"), Gave::Done),
    (Call::Size(b"a"), Gave::Size(4)),
    (Call::Rename(b"a", b"d/b"), Gave::Done),
    (Call::Kind(b"a"), NOTHING),
    (Call::Size(b"d/b"), Gave::Size(4)),
    (Call::SyncNames, Gave::Done),
];

/// The root has a link `out` to the folder around it, and a link `file` to the file `a`.
const LINKS_ARE_NEITHER: &[Step] = &[
    (Call::Kind(b"out"), NOTHING),
    (Call::Kind(b"file"), NOTHING),
    (Call::Size(b"file"), NOT_THERE),
    (Call::Open(b"file", 0), NOT_THERE),
    (Call::Append(b"file", b"x"), NOT_THERE),
    (Call::Unlink(b"file"), NOT_THERE),
    (Call::Create(b"file"), EXISTS),
    (Call::Rename(b"a", b"file"), EXISTS),
    (Call::Create(b"out/a"), NOT_THERE),
    (Call::MakeFolder(b"out/d"), NOT_THERE),
    (Call::RemoveFolder(b"out"), NOT_THERE),
    (Call::Rename(b"a", b"out/a"), NOT_THERE),
    (Call::Kind(b"out/links"), NOTHING),
];

const FIRST_OF_TEN: &[Step] = &[
    (Call::Size(b"0"), Gave::Size(2)),
    (Call::Size(b"9"), Gave::Size(2)),
];

/// Whether these calls give these answers.
fn gives(probe: &mut Probe, steps: &[Step]) -> bool {
    for (call, want) in steps {
        let gave = probe.call(*call);
        if gave != *want {
            return false;
        }
    }
    true
}

/// A disk under a root that is new.
fn fresh(rt: HostRuntime, root: &str) -> Result<Probe, DiskError> {
    let _ = fs::remove_dir_all(&rt, root);
    Probe::new(rt, root)
}

fn are_given(rt: HostRuntime, root: &str, steps: &[Step]) -> Result<bool, DiskError> {
    let mut probe = fresh(rt, root)?;
    Ok(gives(&mut probe, steps))
}

fn lists(probe: &mut Probe, folder: &[u8], want: &[Entry]) -> bool {
    match probe.list(folder) {
        Ok(listing) => listing.as_slice() == want,
        Err(_) => false,
    }
}

fn three_names() -> [Entry; 3] {
    [
        entry(b"A", Kind::Folder),
        entry(b"a", Kind::File),
        entry(b"b", Kind::File),
    ]
}

fn are_names(rt: HostRuntime) -> Result<bool, DiskError> {
    let mut probe = fresh(rt, "names")?;
    let are_made = gives(&mut probe, NAMES);
    let are_listed = lists(&mut probe, b"db", three_names().as_slice());
    let is_no_folder = probe.list(b"db/a").is_err();
    Ok(are_made && are_listed && is_no_folder && gives(&mut probe, REMOVED))
}

fn are_found_again(rt: HostRuntime) -> Result<bool, DiskError> {
    let mut first = fresh(rt, "runs")?;
    let are_left = gives(&mut first, LEFT);
    drop(first);
    let mut second = Probe::new(rt, "runs")?;
    Ok(are_left && gives(&mut second, FOUND))
}

fn made_links(rt: HostRuntime) -> Result<Probe, DiskError> {
    let mut probe = fresh(rt, "links")?;
    let is_made = gives(&mut probe, &[(Call::Create(b"a"), Gave::Done)]);
    let is_out = std::os::unix::fs::symlink(&rt, "..", "links/out").is_ok();
    let is_file = std::os::unix::fs::symlink(&rt, "a", "links/file").is_ok();
    if is_made && is_out && is_file {
        Ok(probe)
    } else {
        Err(DiskError::Fault)
    }
}

fn are_not_followed(rt: HostRuntime) -> Result<bool, DiskError> {
    let mut probe = made_links(rt)?;
    let is_no_folder = probe.list(b"out").is_err();
    Ok(is_no_folder && gives(&mut probe, LINKS_ARE_NEITHER))
}

/// Ten files, each by one digit.
const DIGITS: &[&'static [u8]] = &[b"0", b"1", b"2", b"3", b"4", b"5", b"6", b"7", b"8", b"9"];

fn ten_are_written(rt: HostRuntime) -> Result<bool, DiskError> {
    let mut probe = fresh(rt, "ten")?;
    let mut is_done = true;
    for name in DIGITS {
        is_done = is_done && is_made_and_written(&mut probe, name);
    }
    for name in DIGITS {
        is_done = is_done && is_written_and_synced(&mut probe, name);
    }
    Ok(is_done && gives(&mut probe, FIRST_OF_TEN))
}

fn is_made_and_written(probe: &mut Probe, name: &'static [u8]) -> bool {
    let is_made = probe.call(Call::Create(name)) == Gave::Done;
    is_made && probe.call(Call::Append(name, b"a")) == Gave::Done
}

fn is_written_and_synced(probe: &mut Probe, name: &'static [u8]) -> bool {
    let is_written = probe.call(Call::Append(name, b"b")) == Gave::Done;
    is_written && probe.call(Call::Sync(name)) == Gave::Done
}

#[test]
fn names_are_made_listed_and_taken_away(rt: HostRuntime) {
    sure(&rt, are_names(rt));
}

#[test]
fn bytes_are_read_also_when_the_name_is_gone(rt: HostRuntime) {
    sure(&rt, are_given(rt, "bytes", BYTES));
}

#[test]
fn what_one_disk_wrote_the_next_reads(rt: HostRuntime) {
    sure(&rt, are_found_again(rt));
}

#[test]
fn files_and_folders_move(rt: HostRuntime) {
    sure(&rt, are_given(rt, "moves", MOVED));
}

#[test]
fn a_file_has_two_names(rt: HostRuntime) {
    sure(&rt, are_given(rt, "second", LINKED));
}

#[test]
fn no_link_is_followed(rt: HostRuntime) {
    sure(&rt, are_not_followed(rt));
}

#[test]
fn ten_files_are_written_in_turn(rt: HostRuntime) {
    sure(&rt, ten_are_written(rt));
}
