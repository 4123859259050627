//! Blocks against those of another writer, and refusals against those of another reader.
ghost use Rattle.std.specs.Prelude.{◌≡◌, ◌≤◌, ◌-◌, length, take};

use crate::claims::{Stopped, sure};
use crate::rows::key;
use crate::views::ONE_BLOCK;
use lsm_block::{Block, BlockBuilder, BlockError};
use lsm_bytes::{Bytes, NoMemory};
use lsm_rows::{InternalKey, Kind};
use std::alloc::Global;

// A block of 40 entries whose user keys are of the letters a and b, so that they share much. It has
// restarts at 0, at 211 and at 422.
const FORTY: &[u8] =
    b"\0\x08\0\0p\x11\x01\0\0\0\0\0\x09\0a\0\x02\0\0\0\0\0\0\x01\x09\x03a\x01\x03\0\0\0\0\
        \0\0yxz\x02\x09\0a\0\xc0E\x04\0\0\0\0\x03\x09\x02a\x010W\x05\0\0\0\0zx\x03\x0a\0ba\0\
        \x06\0\0\0\0\0\0\x04\x09\x02b\x01\x07\0\0\0\0\0\0zy\x02\x09\0b\0\x80\x8b\x08\0\0\0\0\
        \x03\x0b\0aba\0\xf0\x9c\x09\0\0\0\0\x03\x09\x03b\x01`\xae\x0a\0\0\0\0xxx\x04\x09\0a\
        \0\x0b\0\0\0\0\0\0\x04\x09\0b\0@\xd1\x0c\0\0\0\0\x01\x09\0b\x01\xb0\xe2\x0d\0\0\0\0\
        \x02\x0a\x01aa\x01 \xf4\x0e\0\0\0\0z\x03\x09\x03b\x01\x90\x05\x10\0\0\0\0zxy\x04\x0a\
        \x01ba\x01\0\x17\x11\0\0\0\0y\0\x0e\0ababbb\0p(\x12\0\0\0\0\x02\x0a\0ba\0\xe09\x13\0\
        \0\0\0\x03\x09\0b\0PK\x14\0\0\0\0\x04\x09\0a\0\x14\0\0\0\0\0\0\0\x09\x03b\x010n\x16\
        \0\0\0\0yxy\x02\x07\x02\x16\0\0\0\0\0\0yy\x01\x09\0a\0\x17\0\0\0\0\0\0\x02\x09\0a\0\
        \x80\xa2\x19\0\0\0\0\x03\x0b\0aab\0\x19\0\0\0\0\0\0\x04\x09\0b\0\x1a\0\0\0\0\0\0\x05\
        \x09\x01b\x01\xd0\xd6\x1c\0\0\0\0z\x03\x0b\x02baa\x01\x1c\0\0\0\0\0\0zx\x02\x09\x03b\
        \x01\x1d\0\0\0\0\0\0zyz\x03\x09\0a\0\x1e\0\0\0\0\0\0\x03\x09\0b\0\x1f\0\0\0\0\0\0\
        \x04\x09\0a\0!\0\0\0\0\0\0\0\x0d\x02babba\x01 \0\0\0\0\0\0zy\x01\x09\0b\0\"\0\0\0\0\
        \0\0\x02\x09\0a\0#\0\0\0\0\0\0\x03\x0b\0aaa\x01\xc0s&\0\0\0\0\x03\x0a\x01ba\x01%\0\0\
        \0\0\0\0y\x05\x09\0b\0&\0\0\0\0\0\0\x02\x09\0b\x01\x10\xa8)\0\0\0\0\x03\x0b\0bbb\x01\
        (\0\0\0\0\0\0\0\0\0\0\xd3\0\0\0\xa6\x01\0\0\x03\0\0\0";

// The block of the row of `ONE_BLOCK` and of the row `b` with the sequence 1 and the value `x`.
const TWO: &[u8] =
    b"\0\x09\x01a\x01\x01\0\0\0\0\0\01\0\x09\x01b\x01\x01\0\0\0\0\0\0x\0\0\0\0\x01\0\0\0";

fn parse(alloc: Global, text: Bytes) -> Result<Block, BlockError> {
    Block::parse(alloc, text)
}

/// The block with this text.
pub fn parsed(alloc: Global, text: &[u8]) -> Result<Block, BlockError> {
    parse(alloc, Bytes::from_slice(alloc, text)?)
}

// A block's entries, in a builder.
fn rebuilt(alloc: Global, block: &Block) -> Result<BlockBuilder, NoMemory> {
    let mut builder = BlockBuilder::new(alloc);
    for entry in block.entries() {
        builder.add(entry.key.as_slice(), entry.value.as_slice())?;
    }
    Ok(builder)
}

// Whether a builder ends with this text.
fn ends_in(builder: BlockBuilder, text: &[u8]) -> Result<bool, Stopped> {
    Ok(builder.finish()?.as_slice() == text)
}

// Whether a builder has this text so far.
fn has_contents(builder: &BlockBuilder, text: &[u8]) -> Result<bool, Stopped> {
    Ok(builder.contents()?.as_slice() == text)
}

fn len(builder: &BlockBuilder) -> usize {
    builder.len()
}

fn ends_with(builder: &BlockBuilder, key: &[u8]) -> bool {
    builder.last_key() == key
}

fn take_back(builder: &mut BlockBuilder) {
    if !builder.is_empty() {
        builder.take_back();
    }
}

// A builder with the row `a` of the sequence 1 and the value `1`.
fn one_row(alloc: Global) -> Result<BlockBuilder, Stopped> {
    let key = InternalKey::new(alloc, b"a", 1, Kind::Put)?;
    let mut builder = BlockBuilder::new(alloc);
    builder.add(key.as_slice(), b"1")?;
    Ok(builder)
}

fn is_told(alloc: Global, builder: &BlockBuilder) -> bool {
    BlockBuilder::new(alloc).is_empty()
        && !builder.is_empty()
        && len(builder) == 21
        && ends_with(builder, b"a\x01\x01\0\0\0\0\0\0")
}

fn is_of_21_bytes(alloc: Global) -> Result<bool, Stopped> {
    let builder = one_row(alloc)?;
    let is_told = is_told(alloc, &builder);
    Ok(ends_in(builder, ONE_BLOCK)? && is_told)
}

fn is_written(alloc: Global, block: &Block, text: &[u8]) -> Result<bool, Stopped> {
    ends_in(rebuilt(alloc, block)?, text)
}

fn is_read_and_written(alloc: Global, text: &[u8], count: usize) -> Result<bool, Stopped> {
    let block = parsed(alloc, text)?;
    let is_counted = block.entries().len() == count;
    Ok(is_written(alloc, &block, text)? && is_counted)
}

fn others_are_read_and_written(alloc: Global) -> Result<bool, Stopped> {
    Ok(is_read_and_written(alloc, ONE_BLOCK, 1)? && is_read_and_written(alloc, FORTY, 40)?)
}

// The entries of a block with this text, in a builder.
fn begun(alloc: Global, text: &[u8]) -> Result<BlockBuilder, Stopped> {
    let block = parsed(alloc, text)?;
    Ok(rebuilt(alloc, &block)?)
}

// Whether two rows are there, and the first alone when the second is taken back.
fn goes_back(builder: &mut BlockBuilder) -> Result<bool, Stopped> {
    let both = has_contents(builder, TWO)?;
    take_back(builder);
    Ok(both && has_contents(builder, ONE_BLOCK)? && len(builder) == 21)
}

fn is_taken_back(alloc: Global) -> Result<bool, Stopped> {
    let mut builder = begun(alloc, TWO)?;
    goes_back(&mut builder)
}

// The greatest sequence.
const LAST: u64 = 72_057_594_037_927_935;

// User keys and sequences, and which entry of the forty is the first at or past them.
const SOUGHT: &[(&'static [u8], u64, usize)] = &[
    (b"", LAST, 0),
    (b"", 0, 1),
    (b"a", 1, 2),
    (b"aa", LAST, 2),
    (b"abb", 5, 17),
    (b"b", 70_000, 21),
    (b"bab", 0, 29),
    (b"bbb", LAST, 38),
    (b"bbbbbbb", 1, 40),
    (b"c", 9, 40),
];

fn key_at(block: &Block, place: usize) -> Option<&[u8]> {
    match block.entries().get(place) {
        Some(entry) => Some(entry.key.as_slice()),
        None => None,
    }
}

fn sought<'a>(block: &'a Block, key: &InternalKey) -> Option<&'a [u8]> {
    match block.seek(key.as_slice()) {
        Some((found, _)) => Some(found),
        None => None,
    }
}

fn sought_user<'a>(block: &'a Block, user: &[u8]) -> Option<&'a [u8]> {
    match block.seek_user(user) {
        Some((found, _)) => Some(found),
        None => None,
    }
}

fn is_at(
    alloc: Global,
    block: &Block,
    user: &[u8],
    sequence: u64,
    place: usize,
) -> Result<bool, Stopped> {
    let row = key(alloc, user, sequence, Kind::Put)?;
    Ok(sought(block, &row) == key_at(block, place))
}

// Whether a user key has the entry that its greatest sequence has.
fn is_newest(alloc: Global, block: &Block, user: &[u8]) -> Result<bool, Stopped> {
    let newest = key(alloc, user, LAST, Kind::Put)?;
    Ok(sought_user(block, user) == sought(block, &newest))
}

fn are_found(alloc: Global, block: &Block) -> Result<bool, Stopped> {
    for (user, sequence, place) in SOUGHT {
        if !is_at(alloc, block, user, *sequence, *place)? || !is_newest(alloc, block, user)? {
            return Ok(false);
        }
    }
    Ok(true)
}

fn are_found_among_forty(alloc: Global) -> Result<bool, Stopped> {
    let block = parsed(alloc, FORTY)?;
    are_found(alloc, &block)
}

const REFUSALS: &[(&'static [u8], usize)] = &[
    (b"", 0),
    (b"\0\0\0\0", 0),
    (b"\0\x09\x01a\x01\x01\0\0\0\0\0\01\0\0\0\0\x01\0\0", 13),
    (b"\0\x09\x01a\x01\x01\0\0\0\0\0\0", 0),
    (b"\0\x09\x01a\x01\x01\0\0\0\0\0\01\0\0\0\0\x01\0\0\0\0", 13),
    (b"\0\x09\x01a\x02\x01\0\0\0\0\0\01\0\0\0\0\x01\0\0\0", 0),
    (b"\0\x07\0\x01\0\0\0\0\0\0\0\0\0\x01\0\0\0", 0),
    (
        b"\0\x09\x01a\x01\x01\0\0\0\0\0\01\x09\0\x011\0\0\0\0\x01\0\0\0",
        13,
    ),
    (
        b"\0\x09\0a\0\x01\0\0\0\0\0\0\x01\x08\x01\x01\x02\0\0\0\0\0\0x\0\0\0\0\x01\0\0\0",
        12,
    ),
    (
        b"\0\x09\x01a\x01\x02\0\0\0\0\0\0x\0\x09\0a\0\x01\0\0\0\0\0\0\0\0\0\0\x01\0\0\0",
        13,
    ),
    (
        b"\0\x09\x01a\x01\x02\0\0\0\0\0\0x\x0a\0\0\0\0\0\0\x01\0\0\0",
        13,
    ),
    (b"\0\x09\x01a\x01\x01\0\0\0\0\0\01\0\0\0\0\x02\0\0\0", 13),
    (b"\0\x09\x01a\x01\x01\0\0\0\0\0\01\x01\0\0\0\x01\0\0\0", 13),
    (
        b"\0\x09\x01a\x01\x01\0\0\0\0\0\01\0\0\0\0\0\0\0\0\x02\0\0\0",
        13,
    ),
    (b"\0\x89\0\x01a\x01\x01\0\0\0\0\0\01\0\0\0\0\x01\0\0\0", 0),
    (b"\0\x09\x7fa\x01\x01\0\0\0\0\0\01\0\0\0\0\x01\0\0\0", 0),
];

fn is_refused_at(alloc: Global, text: &[u8], place: usize) -> bool {
    match parsed(alloc, text) {
        Ok(_) => false,
        Err(refused) => refused == BlockError::Malformed { place },
    }
}

fn refusals_name_their_places(alloc: Global) -> bool {
    for (text, place) in REFUSALS {
        if !is_refused_at(alloc, text, *place) {
            return false;
        }
    }
    true
}

#[test]
fn one_row_has_a_block_of_21_bytes(rt: HostRuntime) {
    sure(&rt, is_of_21_bytes(rt.alloc()));
}

#[test]
fn blocks_of_another_writer_are_read_and_written_again(rt: HostRuntime) {
    sure(&rt, others_are_read_and_written(rt.alloc()));
}

#[test]
fn a_row_is_taken_back_from_a_block(rt: HostRuntime) {
    sure(&rt, is_taken_back(rt.alloc()));
}

#[test]
fn a_key_is_sought_among_forty(rt: HostRuntime) {
    sure(&rt, are_found_among_forty(rt.alloc()));
}

#[test]
fn a_refusal_names_where_the_entries_end(rt: HostRuntime) {
    sure(&rt, Ok(refusals_name_their_places(rt.alloc())));
}
