//! Names from outside: what is spelled and what isn't, and what is printed.

use crate::claims::sure;
use lsm_bytes::NoMemory;
use lsm_names::{
    FileName, Folder, LAST_FILE_NUMBER, NotAName, Path, Session, SharedName, TooLong,
    is_file_number,
};
use std::alloc::Global;

const FILES: &[(&'static [u8], FileName)] = &[
    (b"000001.log", FileName::Log(1)),
    (
        b"72057594037927934.sst",
        FileName::Table(72_057_594_037_927_934),
    ),
    (b"MANIFEST-000001", FileName::Manifest(1)),
    (b"1000000.dbtmp", FileName::Temp(1_000_000)),
    (b"CURRENT", FileName::Current),
];

const NO_FILES: &[&'static [u8]] = &[
    b"00001.log",
    b"0000001.log",
    b"000000.log",
    b"+00001.log",
    b"72057594037927935.log",
    b"100000000000000000000.log",
    b"000001.LOG",
    b"000001",
    b"MANIFEST-1",
    b"MANIFEST-000001\n",
    b"CURRENT ",
    b"",
];

const LONGEST_COMPONENT: [u8; 100] = [b'a'; 100];

const PATHS: &[&'static [u8]] = &[
    b"private/1/000007.log",
    b"a",
    b"...",
    b"meta/.1.tmp",
    &LONGEST_COMPONENT,
];

const NO_PATHS: &[&'static [u8]] = &[
    b"a//b",
    b"/a",
    b"a/",
    b".",
    b"a/..",
    b"",
    b"a b",
    &[b'a'; 101],
];

const FOLDERS: &[&'static [u8]] = &[b"db", b"0", b"my_store-2", &[b'a'; 64]];

const NO_FOLDERS: &[&'static [u8]] = &[b"", b"-a", b"_a", b"Db", b"a.tmp", &[b'a'; 65]];

const SESSION: &[u8; 20] = b"0123456789ABCDEFGHIJ";

const SHARED: &[u8] = b"000004_s0123456789ABCDEFGHIJ_130.sst";

const NOT_SHARED: &[&'static [u8]] = &[
    b"000004_s0123456789ABCDEFGHIJ_0130.sst",
    b"000004_s0123456789abcdefghij_130.sst",
    b"000004_s0123456789ABCDEFGHI_130.sst",
    b"4_s0123456789ABCDEFGHIJ_130.sst",
    b"000004_s0123456789ABCDEFGHIJ_.sst",
    b"000004_s0123456789ABCDEFGHIJ_18446744073709551616.sst",
    b"000004.sst",
];

/// Numbers, and whether a file may have them.
const NUMBERS: &[(u64, bool)] = &[
    (0, false),
    (1, true),
    (72_057_594_037_927_934, true),
    (72_057_594_037_927_935, false),
];

fn file_of(text: &[u8]) -> Result<FileName, NotAName> {
    FileName::parse(text)
}

fn is_no_file(text: &[u8]) -> bool {
    file_of(text) == Err(NotAName)
}

/// Whether the text names a file whose path and print are the text again.
fn is_spelled_again(text: &[u8]) -> bool {
    match FileName::parse(text) {
        Ok(name) => name.path().as_bytes() == text && name.print().as_str().as_bytes() == text,
        Err(NotAName) => false,
    }
}

fn are_files(rows: &[(&'static [u8], FileName)]) -> bool {
    for (text, name) in rows {
        let found = file_of(text);
        if found != Ok(*name) || !is_spelled_again(text) {
            return false;
        }
    }
    true
}

fn are_no_files(texts: &[&'static [u8]]) -> bool {
    for text in texts {
        if !is_no_file(text) {
            return false;
        }
    }
    true
}

fn are_file_numbers(rows: &[(u64, bool)]) -> bool {
    for (number, want) in rows {
        if is_file_number(*number) != *want {
            return false;
        }
    }
    LAST_FILE_NUMBER == 72_057_594_037_927_934
}

fn is_path(text: &[u8]) -> bool {
    Path::is_path(text)
}

fn are_paths(texts: &[&'static [u8]], want: bool) -> bool {
    for text in texts {
        if is_path(text) != want {
            return false;
        }
    }
    true
}

fn has_parent(text: &[u8], parent: &[u8]) -> bool {
    match Path::parse(text) {
        Ok(path) => path.parent() == parent,
        Err(NotAName) => false,
    }
}

/// The path of the one in the other, where both are paths.
fn joined(front: &[u8], part: &[u8]) -> Option<Result<Path, TooLong>> {
    match (Path::parse(front), Path::parse(part)) {
        (Ok(front), Ok(part)) => Some(front.join(&part)),
        _ => None,
    }
}

fn are_joined(front: &[u8], part: &[u8], whole: &[u8]) -> bool {
    match joined(front, part) {
        Some(Ok(path)) => path.as_bytes() == whole,
        _ => false,
    }
}

fn are_too_long(front: &[u8], part: &[u8]) -> bool {
    joined(front, part) == Some(Err(TooLong))
}

fn is_folder(text: &[u8]) -> bool {
    match Folder::parse(text) {
        Ok(folder) => folder.as_bytes() == text && folder.path().as_bytes() == text,
        Err(NotAName) => false,
    }
}

fn are_folders(texts: &[&'static [u8]]) -> bool {
    for text in texts {
        if !is_folder(text) {
            return false;
        }
    }
    true
}

fn is_no_folder(text: &[u8]) -> bool {
    Folder::parse(text) == Err(NotAName)
}

fn are_no_folders(texts: &[&'static [u8]]) -> bool {
    for text in texts {
        if !is_no_folder(text) {
            return false;
        }
    }
    true
}

fn has_current(text: &[u8], current: &[u8]) -> bool {
    match Folder::parse(text) {
        Ok(folder) => folder.file(&FileName::Current).as_bytes() == current,
        Err(NotAName) => false,
    }
}

fn session() -> Option<Session> {
    Session::new(*SESSION)
}

fn a_session_is_its_name() -> bool {
    match session() {
        Some(session) => session.as_bytes() == SESSION.as_slice(),
        None => false,
    }
}

fn shared_of(text: &[u8]) -> Result<SharedName, NotAName> {
    SharedName::parse(text)
}

fn is_shared(text: &[u8], number: u64, size: u64) -> bool {
    match shared_of(text) {
        Ok(name) => name.number == number && name.size == size && Some(name.session) == session(),
        Err(NotAName) => false,
    }
}

fn is_shared_again(text: &[u8]) -> bool {
    match SharedName::parse(text) {
        Ok(name) => name.path().as_bytes() == text && name.print().as_str().as_bytes() == text,
        Err(NotAName) => false,
    }
}

fn are_not_shared(texts: &[&'static [u8]]) -> bool {
    for text in texts {
        let found = shared_of(text);
        if found != Err(NotAName) {
            return false;
        }
    }
    true
}

fn a_path_is_shown(alloc: Global, text: &[u8], shown: &str) -> Result<bool, NoMemory> {
    match Path::parse(text) {
        Ok(path) => Ok(format!(in alloc; "{path} {path:?}")?.as_str() == shown),
        Err(NotAName) => Ok(false),
    }
}

fn a_folder_is_shown(alloc: Global, text: &[u8], shown: &str) -> Result<bool, NoMemory> {
    match Folder::parse(text) {
        Ok(folder) => Ok(format!(in alloc; "{folder} {folder:?}")?.as_str() == shown),
        Err(NotAName) => Ok(false),
    }
}

fn a_session_is_shown(alloc: Global, shown: &str) -> Result<bool, NoMemory> {
    match session() {
        Some(session) => Ok(format!(in alloc; "{session} {session:?}")?.as_str() == shown),
        None => Ok(false),
    }
}

fn errors_are_shown(alloc: Global, shown: &str) -> Result<bool, NoMemory> {
    Ok(format!(in alloc; "{NotAName}, {TooLong}")?.as_str() == shown)
}

fn a_path_is_text(text: &str) -> bool {
    match Path::parse(text.as_bytes()) {
        Ok(path) => path.print().as_str() == text && path.as_str() == text,
        Err(NotAName) => false,
    }
}

fn a_folder_is_text(text: &str) -> bool {
    match Folder::parse(text.as_bytes()) {
        Ok(folder) => folder.print().as_str() == text && folder.as_str() == text,
        Err(NotAName) => false,
    }
}

fn a_session_is_text(text: &str) -> bool {
    match session() {
        Some(session) => session.as_str() == text,
        None => false,
    }
}

fn a_manifest_is_printed() -> bool {
    FileName::Manifest(7).print().as_str() == "MANIFEST-000007"
}

#[test]
fn a_file_name_has_one_spelling(rt: HostRuntime) {
    sure(&rt, Ok(are_files(FILES)));
    sure(&rt, Ok(are_no_files(NO_FILES)));
    sure(&rt, Ok(are_file_numbers(NUMBERS)));
}

#[test]
fn a_path_has_whole_components(rt: HostRuntime) {
    sure(&rt, Ok(are_paths(PATHS, true)));
    sure(&rt, Ok(are_paths(NO_PATHS, false)));
    let path = b"private/1/000007.log".as_slice();
    sure(&rt, Ok(has_parent(path, b"private/1")));
    sure(
        &rt,
        Ok(are_joined(b"meta", path, b"meta/private/1/000007.log")),
    );
    sure(
        &rt,
        Ok(are_too_long(&LONGEST_COMPONENT, &LONGEST_COMPONENT)),
    );
}

#[test]
fn a_folder_begins_with_a_letter_or_a_digit(rt: HostRuntime) {
    sure(&rt, Ok(are_folders(FOLDERS)));
    sure(&rt, Ok(are_no_folders(NO_FOLDERS)));
    sure(&rt, Ok(has_current(b"db", b"db/CURRENT")));
}

#[test]
fn a_shared_name_has_one_spelling(rt: HostRuntime) {
    sure(&rt, Ok(a_session_is_its_name()));
    sure(&rt, Ok(is_shared(SHARED, 4, 130)));
    sure(&rt, Ok(is_shared_again(SHARED)));
    sure(&rt, Ok(are_not_shared(NOT_SHARED)));
}

#[test]
fn names_are_shown_as_they_are_spelled(rt: HostRuntime) {
    let alloc = rt.alloc();
    sure(&rt, a_path_is_shown(alloc, b"meta/1", "meta/1 \"meta/1\""));
    sure(&rt, a_folder_is_shown(alloc, b"db", "db \"db\""));
    sure(
        &rt,
        a_session_is_shown(alloc, "0123456789ABCDEFGHIJ \"0123456789ABCDEFGHIJ\""),
    );
    sure(
        &rt,
        errors_are_shown(alloc, "not a name, the path is longer than 160 bytes"),
    );
}

#[test]
fn names_are_texts(rt: HostRuntime) {
    sure(&rt, Ok(a_path_is_text("meta/1")));
    sure(&rt, Ok(a_folder_is_text("db")));
    sure(&rt, Ok(a_session_is_text("0123456789ABCDEFGHIJ")));
    sure(&rt, Ok(a_manifest_is_printed()));
}
