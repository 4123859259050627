//! Metas from outside: which texts are good, and which line of the others is bad.

use crate::disks::path;
use crate::meta_texts::{BAD_FILES, BAD_HEADS, FILES, GOOD_HEADS, HEAD};
use crate::sure::sure;
use bk_meta::laws::read_meta_is_printed;
use bk_meta::{BackupFile, MetaError, MetaFile, MetaFiles, MetaWhy, print_meta, read_meta};
use lsm_bytes::{Bytes, NoMemory};
use lsm_names::FileName;
use std::alloc::Global;

/// The text that is printed of the meta that is read of these two parts, for identifier 1.
fn printed_again(alloc: Global, front: &[u8], back: &[u8]) -> Result<Bytes, MetaError> {
    let text = joined(alloc, front, back)?;
    let meta = read_meta(alloc, 1, text.as_slice())?;
    read_meta_is_printed();
    Ok(print_meta(alloc, &meta)?)
}

fn joined(alloc: Global, front: &[u8], back: &[u8]) -> Result<Bytes, NoMemory> {
    let mut text = Bytes::from_slice(alloc, front)?;
    text.extend_from_slice(back)?;
    Ok(text)
}

/// Whether the text of these two parts is printed again.
fn is_good(alloc: Global, front: &[u8], back: &[u8]) -> Result<bool, NoMemory> {
    match printed_again(alloc, front, back) {
        Ok(printed) => is_joined(alloc, &printed, front, back),
        Err(_) => Ok(false),
    }
}

fn is_joined(alloc: Global, printed: &Bytes, front: &[u8], back: &[u8]) -> Result<bool, NoMemory> {
    let text = joined(alloc, front, back)?;
    Ok(printed.as_slice() == text.as_slice())
}

/// Whether the text of these two parts is refused by this line.
fn is_bad(alloc: Global, front: &[u8], back: &[u8], line: u32, why: MetaWhy) -> bool {
    match printed_again(alloc, front, back) {
        Ok(_) => false,
        Err(error) => error == MetaError::BadMeta { line, why },
    }
}

fn heads_are_good(alloc: Global) -> Result<bool, NoMemory> {
    for head in GOOD_HEADS {
        if !is_good(alloc, head, FILES)? {
            return Ok(false);
        }
    }
    Ok(true)
}

fn heads_are_bad(alloc: Global) -> Result<bool, NoMemory> {
    for (text, line, why) in BAD_HEADS {
        if !is_bad(alloc, text, b"", *line, *why) {
            return Ok(false);
        }
    }
    Ok(true)
}

fn files_are_bad(alloc: Global) -> Result<bool, NoMemory> {
    for (files, line, why) in BAD_FILES {
        if !is_bad(alloc, HEAD, files, *line, *why) {
            return Ok(false);
        }
    }
    Ok(true)
}

/// The line of a log with this number.
fn log_line(alloc: Global, number: u32) -> Result<Bytes, NoMemory> {
    let line = format!(in alloc; "private/1/{number:06}.log crc32 0\n")?;
    Bytes::from_slice(alloc, line.as_bytes())
}

/// As many logs, and then `CURRENT` and a manifest.
fn logs(alloc: Global, count: u32) -> Result<Bytes, NoMemory> {
    let mut text = Bytes::new(alloc);
    for number in 1..count {
        let line = log_line(alloc, number)?;
        text.extend_from_slice(line.as_slice())?;
    }
    text.extend_from_slice(b"private/1/CURRENT crc32 7\nprivate/1/MANIFEST-000001 crc32 0\n")?;
    Ok(text)
}

fn ten_thousand_are_read(alloc: Global) -> Result<bool, NoMemory> {
    let files = logs(alloc, 9999)?;
    is_good(alloc, b"1\n2\n10000\n", files.as_slice())
}

/// Metadata in so many digits, behind the first two lines.
fn noted(alloc: Global, digits: u32) -> Result<Bytes, NoMemory> {
    let mut text = Bytes::from_slice(alloc, b"1\n2\nmetadata ")?;
    for _digit in 0..digits {
        text.push(b'6')?;
    }
    Ok(text)
}

fn metadata_fit(alloc: Global) -> Result<bool, NoMemory> {
    let front = noted(alloc, 2048)?;
    let back = joined(alloc, b"\n", FILES)?;
    is_good(alloc, front.as_slice(), back.as_slice())
}

fn metadata_are_too_long(alloc: Global) -> Result<bool, NoMemory> {
    let front = noted(alloc, 2050)?;
    let back = joined(alloc, b"\n", FILES)?;
    Ok(is_bad(
        alloc,
        front.as_slice(),
        back.as_slice(),
        3,
        MetaWhy::Metadata,
    ))
}

fn errors_are_told(alloc: Global) -> Result<bool, NoMemory> {
    let error = MetaError::BadMeta {
        line: 3,
        why: MetaWhy::Metadata,
    };
    let shown = format!(in alloc; "{error}, {}", MetaError::NoMemory)?;
    Ok(shown.as_str() == "bad meta: line 3, Metadata, no memory")
}

fn a_path_names_a_file() -> bool {
    let found = BackupFile::parse(7, b"private/7/CURRENT");
    found == Some(BackupFile::Private(FileName::Current))
}

fn files_are_listed(alloc: Global) -> Result<bool, NoMemory> {
    let mut files = MetaFiles::new(alloc);
    let file = MetaFile {
        path: path(b"private/7/CURRENT"),
        crc: 7,
    };
    files.push(file)?;
    match files.as_slice() {
        [listed] => Ok(*listed == file),
        _ => Ok(false),
    }
}

#[test]
fn good_texts_are_printed_again(rt: HostRuntime) {
    sure(&rt, heads_are_good(rt.alloc()));
}

#[test]
fn a_bad_line_is_named(rt: HostRuntime) {
    sure(&rt, heads_are_bad(rt.alloc()));
    sure(&rt, files_are_bad(rt.alloc()));
}

#[test]
fn ten_thousand_files_are_a_meta(rt: HostRuntime) {
    sure(&rt, ten_thousand_are_read(rt.alloc()));
}

#[test]
fn metadata_have_a_limit(rt: HostRuntime) {
    sure(&rt, metadata_fit(rt.alloc()));
    sure(&rt, metadata_are_too_long(rt.alloc()));
}

#[test]
fn errors_are_shown(rt: HostRuntime) {
    sure(&rt, errors_are_told(rt.alloc()));
}

#[test]
fn a_meta_lists_files_by_their_paths(rt: HostRuntime) {
    sure(&rt, Ok(a_path_names_a_file()));
    sure(&rt, files_are_listed(rt.alloc()));
}
