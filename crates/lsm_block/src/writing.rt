//! A block's text, written, and how long its pieces are.
ghost use Rattle.std.specs.Prelude.{◌≡◌, ◌+◌, ◌*◌, ◌/◌, ◌<◌, ◌≤◌, ◌^◌, ◌++◌, length, IfOk, OnOk};
ghost use Rattle.std.specs.Int.{w32, to_le_bytes};
ghost use Rattle.lsm_bytes.specs.Varint.{varint};
ghost use Rattle.lsm_block.specs.BlockText.{parts_text, entry_text, entries_text, restarts_text, block_text};
ghost use Rattle.lsm_block.specs.Parts.{restart_bytes};

use crate::entries::{Entry, RESTART_EVERY, shared_with};
use lsm_bytes::{Bytes, NoMemory, push_varint};
use std::alloc::Global;

// A restart, and their count, take this many bytes each.
const NUMBER: usize = 4;

/// How many bytes the restarts of so many entries take together with their count.
pub fn restarts_len(entries: usize) -> usize
    requires { entries < 2 ^ 32 }
    ensures { result ≡ 4 * ((entries + 15) / 16) + 4 }
{
    NUMBER * entries.div_ceil(RESTART_EVERY) + NUMBER
}

/// How many bytes an entry's parts take.
#[tactic(auto, unfolding(crate::specs::BlockText::parts_text))]
pub fn parts_len(shared: usize, rest: &[u8], value: &[u8]) -> usize
    requires { length rest.now + length value.now < 2 ^ 32 }
    ensures { result ≡ length (parts_text shared rest.now value.now) }
{
    varint_len(shared) + varint_len(rest.len()) + varint_len(value.len()) + rest.len() + value.len()
}

// How many bytes a number's spelling takes.
fn varint_len(number: usize) -> usize
    ensures len { result ≡ length (varint number) }
    ensures small { result ≤ 10 }
{
    let mut len = 1;
    let mut rest = number;
    while rest >= 128 {
        len += 1;
        rest /= 128;
    }
    len
}

/// Adds the place of the entry with this number, where it is a restart.
#[tactic(auto, unfolding(crate::specs::Parts::restart_bytes))]
pub fn note_restart(restarts: &mut Bytes, number: usize, place: usize) -> Result<(), NoMemory>
    requires { place < 2 ^ 32 }
    ensures { OnOk result (restarts.new ≡ restarts.old ++ restart_bytes number place) }
{
    if number % RESTART_EVERY == 0 {
        restarts.extend_from_slice(&(place as u32).to_le_bytes())?;
    }
    Ok(())
}

/// Adds the restarts' count, where there are so many entries.
pub fn push_count(restarts: &mut Bytes, entries: usize) -> Result<(), NoMemory>
    requires { entries < 2 ^ 32 }
    ensures { OnOk result (restarts.new ≡ restarts.old ++ to_le_bytes w32 ((entries + 15) / 16)) }
{
    let count = entries.div_ceil(RESTART_EVERY);
    restarts.extend_from_slice(&(count as u32).to_le_bytes())?;
    Ok(())
}

/// The contents of the block with these entries. `len` is the length that they have.
pub fn write_block(alloc: Global, entries: &[Entry], len: usize) -> Result<Bytes, NoMemory>
    requires { length (entries_text entries.now) < 2 ^ 32 }
    ensures { IfOk result (λ text. text ≡ block_text entries.now) }
{
    let mut text = Bytes::new(alloc);
    text.reserve(len)?;
    let mut restarts = Bytes::new(alloc);
    let mut before = b"".as_slice();
    for (number, entry) in entries.iter().enumerate() {
        note_restart(&mut restarts, number, text.len())?;
        push_entry(&mut text, number, before, entry)?;
        before = entry.key.as_slice();
    }
    push_count(&mut restarts, entries.len())?;
    text.extend_from_slice(restarts.as_slice())?;
    Ok(text)
}

// One entry, with this number and behind an entry with the key `before`.
#[tactic(auto, unfolding(crate::specs::BlockText::entry_text, crate::specs::BlockText::parts_text))]
fn push_entry(out: &mut Bytes, number: usize, before: &[u8], entry: &Entry) -> Result<(), NoMemory>
    ensures { OnOk result (out.new ≡ out.old ++ entry_text number before.now entry.now) }
{
    let shared = shared_with(number, before, entry.key.as_slice());
    let rest = entry.key.as_slice().split_at(shared).1;
    push_varint(out, shared as u64)?;
    push_varint(out, rest.len() as u64)?;
    push_varint(out, entry.value.len() as u64)?;
    out.extend_from_slice(rest)?;
    out.extend_from_slice(entry.value.as_slice())?;
    Ok(())
}
