//! A meta's text, read line by line.
ghost use Rattle.std.specs.Prelude.{◌≡◌, ◌+◌, ◌≤◌, ◌<◌, ◌^◌, Option, Some, None, Ok, IfOk, OnOk, IfErr};
ghost use Rattle.std.specs.List.{All};
ghost use Rattle.bk_meta.specs.Lines.{IsBad};
ghost use Rattle.bk_meta.specs.Metas.{Ascends, IsMetaFile, number_at, timestamp_at, metadata_in, behind_metadata, count_at, file_of, file_in, comes_after, files_at, ends_at, meta_of};

use crate::backup_files::BackupFile;
use crate::errors::{MetaError, MetaWhy};
use crate::lines::{cut_at, line_at};
use crate::metas::{Meta, MetaFile, MetaFiles};
use crate::numbers::{metadata_of, number_up_to};
use crate::sets::is_whole;
use lsm_bytes::Bytes;
use lsm_names::Path;
use std::alloc::Global;

/// The most files that a meta has.
const FILE_LIMIT: u64 = 10_000;

/// The last number that a checksum of 32 bits may be.
const LAST_CHECKSUM: u64 = 0xFFFF_FFFF;

/// The line of the timestamp or of the sequence, and the text behind it.
fn read_number(line: u32, text: &[u8]) -> Result<(u64, &[u8]), MetaError>
    ensures ok { IfOk result (λ parts. number_at line text.now ≡ Ok (parts.0, parts.1.now)) }
    ensures bad { IfErr result (IsBad (number_at line text.now)) }
{
    let (digits, rest) = line_at(line, text)?;
    match number_up_to(u64::MAX, digits) {
        Some(number) => Ok((number, rest)),
        None => Err(MetaError::BadMeta {
            line,
            why: MetaWhy::Number,
        }),
    }
}

fn read_timestamp(text: &[u8]) -> Result<(u64, &[u8]), MetaError>
    ensures ok { IfOk result (λ parts. timestamp_at text.now ≡ Ok (parts.0, parts.1.now)) }
    ensures bad { IfErr result (IsBad (timestamp_at text.now)) }
{
    if text.starts_with(b"schema_version ") {
        return Err(MetaError::BadMeta {
            line: 1,
            why: MetaWhy::SchemaTwo,
        });
    }
    read_number(1, text)
}

/// The metadata of the third line, which are empty where it is another one.
fn read_metadata(alloc: Global, line: &[u8]) -> Result<Bytes, MetaError>
    ensures ok { IfOk result (λ metadata. metadata_in line.now ≡ Ok metadata) }
    ensures bad { IfErr result (IsBad (metadata_in line.now)) }
{
    match line.strip_prefix(b"metadata ") {
        None => Ok(Bytes::new(alloc)),
        Some(digits) => match metadata_of(alloc, digits)? {
            Some(metadata) => Ok(metadata),
            None => Err(MetaError::BadMeta {
                line: 3,
                why: MetaWhy::Metadata,
            }),
        },
    }
}

/// The line that has the number of files, and the text from it on.
fn behind_metadata<'a>(metadata: &Bytes, third: &'a [u8], fourth: &'a [u8]) -> (u32, &'a [u8])
    ensures line { result.0 ≡ (behind_metadata metadata.now third.now fourth.now).0 }
    ensures text { result.1.now ≡ (behind_metadata metadata.now third.now fourth.now).1 }
    ensures small { result.0 ≤ 4 }
{
    if metadata.is_empty() {
        (3, third)
    } else {
        (4, fourth)
    }
}

fn read_count(line: u32, text: &[u8]) -> Result<(u32, &[u8]), MetaError>
    ensures ok { IfOk result (λ parts. count_at line text.now ≡ Ok (parts.0, parts.1.now)) }
    ensures within { IfOk result (λ parts. parts.0 ≤ FILE_LIMIT) }
    ensures bad { IfErr result (IsBad (count_at line text.now)) }
{
    let (digits, rest) = line_at(line, text)?;
    match number_up_to(FILE_LIMIT, digits) {
        Some(count) if count >= 2 => Ok((count as u32, rest)),
        _ => Err(MetaError::BadMeta {
            line,
            why: MetaWhy::Count,
        }),
    }
}

/// What a file line says.
#[tactic(auto, unfolding(crate::specs::Metas::file_of))]
fn file_of(id: u32, line: &[u8]) -> Option<MetaFile>
    ensures { result ≡ file_of id line.now }
{
    let (path, rest) = cut_at(b' ', line)?;
    let _file = BackupFile::parse(id, path)?;
    let crc = number_up_to(LAST_CHECKSUM, rest.strip_prefix(b"crc32 ")?)?;
    Some(MetaFile {
        path: Path::parse(path).ok()?,
        crc: crc as u32,
    })
}

fn comes_after(last: Option<Path>, path: Path) -> bool
    ensures { result ≡ comes_after last path }
{
    match last {
        None => true,
        Some(last) => last.cmp(&path).is_lt(),
    }
}

/// The file of a line behind the file of a path.
fn read_file(id: u32, line: u32, last: Option<Path>, text: &[u8]) -> Result<MetaFile, MetaError>
    ensures ok { IfOk result (λ file. file_in id line last text.now ≡ Ok file) }
    ensures bad { IfErr result (IsBad (file_in id line last text.now)) }
{
    match file_of(id, text) {
        None => Err(MetaError::BadMeta {
            line,
            why: MetaWhy::File,
        }),
        Some(file) if comes_after(last, file.path) => Ok(file),
        Some(_) => Err(MetaError::BadMeta {
            line,
            why: MetaWhy::Order,
        }),
    }
}

/// So many files from a line on, and the text behind them. It takes memory for the files that it has read alone.
fn read_files(
    alloc: Global,
    id: u32,
    first: u32,
    count: u32,
    text: &[u8],
) -> Result<(MetaFiles, &[u8]), MetaError>
    requires { first + count < 2 ^ 32 }
    ensures ok { IfOk result (λ parts. files_at id first count text.now ≡ Ok (parts.0, parts.1.now)) }
    ensures ascending { IfOk result (λ parts. Ascends parts.0) }
    ensures named { IfOk result (λ parts. All (IsMetaFile id) parts.0) }
    ensures bad { IfErr result (IsBad (files_at id first count text.now)) }
{
    let mut files = MetaFiles::new(alloc);
    let mut last = None;
    let mut rest = text;
    for index in 0..count {
        let (line, behind) = line_at(first + index, rest)?;
        let file = read_file(id, first + index, last, line)?;
        last = Some(file.path);
        files.push(file)?;
        rest = behind;
    }
    Ok((files, rest))
}

/// What holds behind the last file, which has this line.
fn check_end(id: u32, last: u32, files: &[MetaFile], rest: &[u8]) -> Result<(), MetaError>
    requires ascending { Ascends files.now }
    requires named { All (IsMetaFile id) files.now }
    requires small { last + 1 < 2 ^ 32 }
    ensures ok { OnOk result (ends_at id last files.now rest.now ≡ Ok tt) }
    ensures bad { IfErr result (IsBad (ends_at id last files.now rest.now)) }
{
    if !is_whole(id, files) {
        return Err(MetaError::BadMeta {
            line: last,
            why: MetaWhy::Set,
        });
    }
    if !rest.is_empty() {
        return Err(MetaError::BadMeta {
            line: last + 1,
            why: MetaWhy::Extra,
        });
    }
    Ok(())
}

/// Reads the meta of the backup with this identifier, which counts from 1. Of another text it names the first bad line;
/// lines are counted from 1, and a line is what a newline ends. It takes memory for what it has read alone, whatever
/// number of files the text claims.
pub fn read_meta(alloc: Global, id: u32, bytes: &[u8]) -> Result<Meta, MetaError>
    ensures ok { IfOk result (λ meta. meta_of id bytes.now ≡ Ok meta) }
    ensures bad { IfErr result (IsBad (meta_of id bytes.now)) }
{
    let (timestamp, second) = read_timestamp(bytes)?;
    let (sequence, third) = read_number(2, second)?;
    let (line, fourth) = line_at(3, third)?;
    let metadata = read_metadata(alloc, line)?;
    let (line, rest) = behind_metadata(&metadata, third, fourth);
    let (count, rest) = read_count(line, rest)?;
    let (files, rest) = read_files(alloc, id, line + 1, count, rest)?;
    check_end(id, line + count, files.as_slice(), rest)?;
    Ok(Meta {
        id,
        timestamp,
        sequence,
        metadata,
        files,
    })
}
