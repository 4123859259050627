//! A meta's text, written.
ghost use Rattle.std.specs.Prelude.{◌≡◌, ◌++◌, ◌∷◌, [], IfOk, OnOk};
ghost use Rattle.std.specs.Fmt.{decimal};
ghost use Rattle.bk_meta.specs.Metas.{IsMeta, with_newline, metadata_text, file_text, files_text, meta_text};

use crate::metas::{Meta, MetaFile};
use itoa::Buffer;
use lsm_bytes::{Bytes, NoMemory};
use std::alloc::Global;

/// Adds a number's line.
fn push_number(text: &mut Bytes, number: u64) -> Result<(), NoMemory>
    ensures { OnOk result (text.new ≡ text.old ++ with_newline (decimal number)) }
{
    text.extend_from_slice(Buffer::new().format(number).as_bytes())?;
    text.push(b'\n')?;
    Ok(())
}

/// Adds the metadata's line, if they have one.
fn push_metadata(alloc: Global, text: &mut Bytes, metadata: &Bytes) -> Result<(), NoMemory>
    ensures { OnOk result (text.new ≡ text.old ++ metadata_text metadata.now) }
{
    if metadata.is_empty() {
        return Ok(());
    }
    text.extend_from_slice(b"metadata ")?;
    let digits = hex::encode(alloc, metadata.as_slice())?;
    text.extend_from_slice(digits.as_bytes())?;
    text.push(b'\n')?;
    Ok(())
}

/// Adds a file's line.
fn push_file(text: &mut Bytes, file: &MetaFile) -> Result<(), NoMemory>
    ensures { OnOk result (text.new ≡ text.old ++ with_newline (file_text file.now)) }
{
    text.extend_from_slice(file.path.as_bytes())?;
    text.extend_from_slice(b" crc32 ")?;
    text.extend_from_slice(Buffer::new().format(file.crc).as_bytes())?;
    text.push(b'\n')?;
    Ok(())
}

fn push_files(text: &mut Bytes, files: &[MetaFile]) -> Result<(), NoMemory>
    ensures { OnOk result (text.new ≡ text.old ++ files_text files.now) }
{
    for file in files {
        push_file(text, file)?;
    }
    Ok(())
}

/// The text of a meta, which [`read_meta`](crate::read_meta) reads again.
#[tactic(auto, unfolding(crate::specs::Metas::meta_text))]
pub fn print_meta(alloc: Global, meta: &Meta) -> Result<Bytes, NoMemory>
    requires { IsMeta meta.now }
    ensures { IfOk result (λ text. text ≡ meta_text meta.now) }
{
    let mut text = Bytes::new(alloc);
    let files = meta.files.as_slice();
    push_number(&mut text, meta.timestamp)?;
    push_number(&mut text, meta.sequence)?;
    push_metadata(alloc, &mut text, &meta.metadata)?;
    push_number(&mut text, files.len() as u64)?;
    push_files(&mut text, files)?;
    Ok(text)
}
