//! The lines that a script prints.
ghost use Rattle.std.specs.Prelude.{◌≡◌, ◌++◌, IfOk, OnOk};
ghost use Rattle.std.specs.Option.{option_map};
ghost use Rattle.ldb_script.specs.Printed.{
  with_newline,
  sequence_line,
  value_line,
  pair_line,
  end_line,
  state_line,
  ok_line,
  what_name,
  too_large_line,
  bad_line,
  backup_line,
  line_of_info,
  restored_line,
  no_folder_line,
  exists_line,
  no_backup_line,
  ids_full_line,
};

use crate::ending::call_name;
use crate::words::push_shown;
use bk_engine::{BackupInfo, EngineError};
use lsm_bytes::{Bytes, NoMemory};
use lsm_names::{FileName, Folder};
use lsm_recover::FolderError;
use lsm_rows::What;
use std::alloc::{AllocError, Global};

/// The answer to a write.
#[tactic(auto, unfolding(crate::specs::Printed::sequence_line))]
pub fn sequence_line(alloc: Global, last: u64) -> Result<Bytes, NoMemory>
    ensures { IfOk result (λ text. text ≡ sequence_line last) }
{
    let text = format!(in alloc; "seq {last}\n")?;
    Bytes::from_slice(alloc, text.as_bytes())
}

/// The answer to a call that has nothing else to say.
pub fn ok_line(alloc: Global) -> Result<Bytes, NoMemory>
    ensures { IfOk result (λ text. text ≡ ok_line) }
{
    Bytes::from_slice(alloc, b"ok\n")
}

/// The answer to a get.
#[tactic(auto, unfolding(crate::specs::Printed::value_line))]
pub fn value_line(alloc: Global, value: Option<&[u8]>) -> Result<Bytes, NoMemory>
    ensures { IfOk result (λ text. text ≡ value_line (option_map (λ v. v.now) value.entry)) }
{
    let mut text = Bytes::new(alloc);
    match value {
        None => text.extend_from_slice(b"none")?,
        Some(value) => {
            text.extend_from_slice(b"value ")?;
            push_shown(alloc, &mut text, value)?;
        }
    }
    text.push(b'\n')?;
    Ok(text)
}

/// Adds the line of a pair.
#[tactic(auto, unfolding(crate::specs::Printed::pair_line))]
pub fn push_pair(alloc: Global, text: &mut Bytes, key: &[u8], value: &[u8]) -> Result<(), NoMemory>
    ensures { OnOk result (text.new ≡ text.old ++ pair_line (key.now, value.now)) }
{
    push_shown(alloc, text, key)?;
    text.push(b' ')?;
    push_shown(alloc, text, value)?;
    text.push(b'\n')?;
    Ok(())
}

/// Adds the line that ends a scan, which tells how many pairs there were.
#[tactic(auto, unfolding(crate::specs::Printed::end_line))]
pub fn push_end(alloc: Global, text: &mut Bytes, count: usize) -> Result<(), NoMemory>
    ensures { OnOk result (text.new ≡ text.old ++ end_line count) }
{
    let line = format!(in alloc; "end {count}\n")?;
    text.extend_from_slice(line.as_bytes())?;
    Ok(())
}

/// The answer to a question for the state: the last sequence, and how many keys have a value.
#[tactic(auto, unfolding(crate::specs::Printed::state_line))]
pub fn state_line(alloc: Global, last: u64, keys: usize) -> Result<Bytes, NoMemory>
    ensures { IfOk result (λ text. text ≡ state_line last keys) }
{
    let text = format!(in alloc; "seq {last} keys {keys}\n")?;
    Bytes::from_slice(alloc, text.as_bytes())
}

fn what_name(what: What) -> &'static str
    ensures { result.now ≡ what_name what }
{
    match what {
        What::Key => "Key",
        What::Value => "Value",
        What::Count => "Count",
        What::Bytes => "Bytes",
    }
}

/// The answer to a batch that a limit refuses.
#[tactic(auto, unfolding(crate::specs::Printed::too_large_line))]
pub fn too_large_line(alloc: Global, what: What, kept: u64, limit: u64) -> Result<Bytes, NoMemory>
    ensures { IfOk result (λ text. text ≡ too_large_line (record { what = what; kept = kept; limit = limit })) }
{
    let what = what_name(what);
    let text = format!(in alloc; "refused BatchTooLarge {what} {kept} {limit}\n")?;
    Bytes::from_slice(alloc, text.as_bytes())
}

/// The last line of a run that met a line outside the grammar.
#[tactic(auto, unfolding(crate::specs::Printed::bad_line))]
pub fn bad_line(alloc: Global, number: u64) -> Result<Bytes, NoMemory>
    ensures { IfOk result (λ text. text ≡ bad_line number) }
{
    let text = format!(in alloc; "bad line {number}\n")?;
    Bytes::from_slice(alloc, text.as_bytes())
}

/// The answer to a creation.
#[tactic(auto, unfolding(crate::specs::Printed::backup_line))]
pub fn backup_line(alloc: Global, id: u32, last: u64) -> Result<Bytes, NoMemory>
    ensures { IfOk result (λ text. text ≡ backup_line id last) }
{
    let text = format!(in alloc; "backup {id} seq {last}\n")?;
    Bytes::from_slice(alloc, text.as_bytes())
}

/// Adds the line of a backup.
#[tactic(auto, unfolding(crate::specs::Printed::listed_line))]
pub fn push_info(alloc: Global, text: &mut Bytes, info: &BackupInfo) -> Result<(), NoMemory>
    ensures { OnOk result (text.new ≡ text.old ++ line_of_info info.now) }
{
    let (id, timestamp, last) = (info.id, info.timestamp, info.sequence);
    let front = format!(in alloc; "{id} {timestamp} {last} ")?;
    text.extend_from_slice(front.as_bytes())?;
    push_shown(alloc, text, info.metadata.as_slice())?;
    text.push(b'\n')?;
    Ok(())
}

// A text, the name of a folder behind it, and a newline.
fn named_line(alloc: Global, front: &[u8], name: &Folder) -> Result<Bytes, NoMemory>
    ensures { IfOk result (λ text. text ≡ front.now ++ with_newline name.now) }
{
    let mut text = Bytes::new(alloc);
    text.extend_from_slice(front)?;
    text.extend_from_slice(name.as_bytes())?;
    text.push(b'\n')?;
    Ok(text)
}

/// The answer to a restore.
#[tactic(auto, unfolding(crate::specs::Printed::restored_line))]
pub fn restored_line(alloc: Global, id: u32, name: &Folder) -> Result<Bytes, NoMemory>
    ensures { IfOk result (λ text. text ≡ restored_line id name.now) }
{
    let front = format!(in alloc; "restored {id} ")?;
    named_line(alloc, front.as_bytes(), name)
}

/// The answer where no folder of this name is there to be shown.
#[tactic(auto, unfolding(crate::specs::Printed::no_folder_line))]
pub fn no_folder_line(alloc: Global, name: &Folder) -> Result<Bytes, NoMemory>
    ensures { IfOk result (λ text. text ≡ no_folder_line name.now) }
{
    named_line(alloc, b"refused NoFolder ", name)
}

/// The answer where the name of the folder to be made is taken.
#[tactic(auto, unfolding(crate::specs::Printed::exists_line))]
pub fn exists_line(alloc: Global, name: &Folder) -> Result<Bytes, NoMemory>
    ensures { IfOk result (λ text. text ≡ exists_line name.now) }
{
    named_line(alloc, b"refused DestinationExists ", name)
}

/// The answer where no backup has the identifier.
#[tactic(auto, unfolding(crate::specs::Printed::no_backup_line))]
pub fn no_backup_line(alloc: Global, id: u32) -> Result<Bytes, NoMemory>
    ensures { IfOk result (λ text. text ≡ no_backup_line id) }
{
    let text = format!(in alloc; "refused NoSuchBackup {id}\n")?;
    Bytes::from_slice(alloc, text.as_bytes())
}

/// The answer where no identifier is left for a backup.
pub fn ids_full_line(alloc: Global) -> Result<Bytes, NoMemory>
    ensures { IfOk result (λ text. text ≡ ids_full_line) }
{
    Bytes::from_slice(alloc, b"refused IdsFull\n")
}

// A refusal of which no clause speaks.
fn refused_line(alloc: Global, text: &str) -> Result<Bytes, NoMemory> {
    let mut line = Bytes::new(alloc);
    line.extend_from_slice(b"refused ")?;
    line.extend_from_slice(text.as_bytes())?;
    line.push(b'\n')?;
    Ok(line)
}

/// The answer to a restore that is refused for another cause.
pub fn restore_refusal(alloc: Global, why: EngineError) -> Result<Bytes, NoMemory> {
    let text = format!(in alloc; "{why}")?;
    refused_line(alloc, text.as_str())
}

fn name_text(alloc: Global, name: FileName) -> Result<String, AllocError> {
    match name {
        FileName::Log(number) => format!(in alloc; "{number:06}.log"),
        FileName::Table(number) => format!(in alloc; "{number:06}.sst"),
        FileName::Manifest(number) => format!(in alloc; "MANIFEST-{number:06}"),
        FileName::Temp(number) => format!(in alloc; "{number:06}.dbtmp"),
        FileName::Current => format!(in alloc; "CURRENT"),
    }
}

// A refusal by what a file of the folder holds.
fn file_refusal(alloc: Global, why: FolderError) -> Result<String, AllocError> {
    match why {
        FolderError::Damaged {
            name,
            place,
            kept,
            found,
        } => {
            let name = name_text(alloc, name)?;
            format!(in alloc; "Damaged {name} {place} {kept} {found}")
        }
        FolderError::Malformed { name, place } => {
            let name = name_text(alloc, name)?;
            format!(in alloc; "Malformed {name} {place}")
        }
        FolderError::TornLog { name, place } => {
            let name = name_text(alloc, name)?;
            format!(in alloc; "TornLog {name} {place}")
        }
        FolderError::Gap { name, kept, found } => {
            let name = name_text(alloc, name)?;
            format!(in alloc; "Gap {name} {kept} {found}")
        }
        FolderError::Short { name, kept, found } => {
            let name = name_text(alloc, name)?;
            format!(in alloc; "Short {name} {kept} {found}")
        }
        FolderError::BadLevels { level, left, right } => {
            format!(in alloc; "BadLevels {level} {left} {right}")
        }
        FolderError::Missing { name } => {
            let name = name_text(alloc, name)?;
            format!(in alloc; "Missing {name}")
        }
        FolderError::DiskFault
        | FolderError::NoFolder { .. }
        | FolderError::NoCurrent { .. }
        | FolderError::Changed { .. }
        | FolderError::NoMemory => format!(in alloc; "{why:?}"),
    }
}

/// The answer where a folder can't be read for another cause.
pub fn folder_refusal(alloc: Global, why: FolderError) -> Result<Bytes, NoMemory> {
    let text = match why {
        FolderError::NoFolder { dir } => format!(in alloc; "NoFolder {dir}")?,
        FolderError::NoCurrent { dir } => format!(in alloc; "NoCurrent {dir}")?,
        FolderError::Changed { call, path } => {
            let call = call_name(call);
            format!(in alloc; "Changed {call} {path}")?
        }
        other => file_refusal(alloc, other)?,
    };
    refused_line(alloc, text.as_str())
}
