//! Building a table, row by row.
ghost use Rattle.std.specs.Prelude.{◌≡◌, ◌+◌, ◌^◌, ◌<◌, ◌≤◌, ◌∷◌, ◌++◌, [], ℕ, List, length, unwrap_or, IsTrue, IfOk, OnOk, OnErr, MatchOption};
ghost use Rattle.lsm_rows.specs.declared.rows.Row.{Row};
ghost use Rattle.lsm_block.specs.TableText.{AreTableRows, kind_of, stored, properties_text, places_text, footer_text};
ghost use Rattle.lsm_table.specs.Cuts.{size_of};
ghost use Rattle.lsm_names.specs.Sessions.{is_session};
ghost use Rattle.lsm_table.specs.Building.{IsBuilt, IsBehind, IsFinished, row_len};
ghost use Rattle.lsm_table.specs.WholeTables.{IsTable};

use crate::data_blocks::DataBlocks;
use crate::storing::{BEHIND, checksum, push_stored};
use lsm_bytes::{Bytes, NoMemory, mask};
use lsm_names::Session;
use lsm_rows::{InternalKey, Kind, Row};
use std::alloc::Global;
use std::marker::Model;

// The last bytes of a table.
pub(crate) const MAGIC: &[u8; 8] = b"lsmtabl1";

// How many bytes the properties and the footer have.
pub(crate) const PROPERTIES: usize = 41;

pub(crate) const FOOTER: usize = 36;

/// A table whose rows come in one by one. Contracts see what it keeps.
#[derive(Drop)]
pub struct TableBuilder {
    alloc: Global,
    number: u64,
    session: Session,
    count: u64,
    smallest: Bytes,
    blocks: DataBlocks,
}

impl Model for TableBuilder {
    ghost use Rattle.std.specs.Prelude.{◌≡◌, ◌≤◌, length};
    ghost use Rattle.lsm_table.specs.Building.{Built};
    ghost use Rattle.lsm_table.specs.Cuts.{size_of};

    ghost Value = { Built };

    ghost view = { λ b. record { number = b.number; session = b.session; count = b.count; smallest = b.smallest; blocks = b.blocks } };

    ghost invariant = { λ b. b.count ≤ size_of b.blocks };
}

/// What is left when a table has all its rows.
#[derive(Drop)]
pub struct Finished {
    /// The table's bytes behind those that were handed out.
    pub tail: Bytes,
    /// The length of the whole table in bytes.
    pub size: u64,
    /// The internal keys of its first and its last row.
    pub smallest: Bytes,
    pub largest: Bytes,
}

impl TableBuilder {
    /// A table with no rows yet, with its number and the session of the store that writes it.
    pub fn new(alloc: Global, number: u64, session: Session) -> Self
        ensures number { result.number ≡ number }
        ensures session { result.session ≡ session }
        ensures empty { size_of result.blocks ≡ 4 }
        ensures built { IsBuilt result [] [] }
    {
        TableBuilder {
            alloc,
            number,
            session,
            count: 0,
            smallest: Bytes::new(alloc),
            blocks: DataBlocks::new(alloc),
        }
    }

    /// Adds a row behind all others in the order of internal keys. After a refusal the table has the rows that it had.
    pub fn add(&mut self, row: &Row) -> Result<(), NoMemory>
        requires sequence { row.now.sequence < 2 ^ 56 }
        requires behind { IsBehind self.old row.now }
        requires room { size_of self.old.blocks + row_len row.now + 108 < 2 ^ 29 }
        ensures ok { (rows : List Row) (handed : List ℕ) → IsBuilt self.old rows handed
            → OnOk result (IsBuilt self.new (rows ++ row.now ∷ []) handed) }
        ensures err { (rows : List Row) (handed : List ℕ) → IsBuilt self.old rows handed → OnErr result (IsBuilt self.new rows handed) }
        ensures count { OnOk result (self.new.count ≡ self.old.count + 1) }
        ensures number { self.new.number ≡ self.old.number }
        ensures session { self.new.session ≡ self.old.session }
        ensures grown { size_of self.new.blocks ≤ size_of self.old.blocks + row_len row.now + 108 }
    {
        let (kind, value) = kind_and_value(row);
        let key = InternalKey::new(self.alloc, row.key.as_slice(), row.sequence, kind)?;
        keep_first(self.alloc, &mut self.smallest, self.count, key.as_slice())?;
        self.blocks.add(key.as_slice(), value)?;
        self.count += 1;
        Ok(())
    }

    /// The bytes of ended blocks that weren't handed out yet, None where there are none. It takes no memory.
    pub fn next_piece(&mut self) -> Option<Bytes>
        ensures piece { (rows : List Row) (handed : List ℕ) → IsBuilt self.old rows handed
            → MatchOption result (IsBuilt self.new rows handed) (λ piece. IsBuilt self.new rows (handed ++ piece)) }
        ensures none { MatchOption result (self.old.blocks.pending ≡ []) (λ piece. piece ≡ self.old.blocks.pending) }
        ensures number { self.new.number ≡ self.old.number }
        ensures session { self.new.session ≡ self.old.session }
        ensures size { size_of self.new.blocks ≡ size_of self.old.blocks }
        ensures count { self.new.count ≡ self.old.count }
    {
        self.blocks.next_piece()
    }

    /// The number of bytes that the data blocks have, when the open one is ended as it is.
    pub fn data_len(&self) -> u64
        ensures { result ≡ size_of self.now.blocks }
    {
        self.blocks.len() as u64
    }

    /// Ends the table, which has a row at least.
    pub fn finish(self) -> Result<Finished, NoMemory>
        requires some { 1 ≤ self.count }
        ensures finished { (rows : List Row) (handed : List ℕ) → IsBuilt self rows handed
            → IfOk result (λ f. IsFinished self rows handed f.tail f.size f.smallest f.largest) }
        ensures whole { (rows : List Row) (handed : List ℕ) → IsBuilt self rows handed → AreTableRows rows
            → IfOk result (λ f. IsTable (handed ++ f.tail) rows self.number self.session) }
    {
        let ended = self.blocks.finish()?;
        let index = ended.index.contents()?;
        let largest = Bytes::from_slice(self.alloc, ended.index.last_key())?;
        let properties = ended.place + index.len() + BEHIND;
        let mut tail = ended.text;
        push_stored(&mut tail, index.as_slice())?;
        push_properties(
            self.alloc,
            &mut tail,
            self.number,
            &self.session,
            self.count,
        )?;
        push_footer(self.alloc, &mut tail, ended.place, index.len(), properties)?;
        Ok(Finished {
            tail,
            size: (properties + PROPERTIES + FOOTER) as u64,
            smallest: self.smallest,
            largest,
        })
    }
}

// What a row's operation was, and the value that it left; a delete left none.
fn kind_and_value(row: &Row) -> (Kind, &[u8])
    ensures kind { result.0 ≡ kind_of row.now.value }
    ensures value { result.1.now ≡ unwrap_or row.now.value [] }
{
    match &row.value {
        Some(value) => (Kind::Put, value.as_slice()),
        None => (Kind::Delete, b"".as_slice()),
    }
}

// Keeps the key of the first row, before which there are none.
fn keep_first(alloc: Global, smallest: &mut Bytes, count: u64, key: &[u8]) -> Result<(), NoMemory>
    ensures first { count ≡ 0 → OnOk result (smallest.new ≡ key.now) }
    ensures later { 1 ≤ count → smallest.new ≡ smallest.old }
{
    if count == 0 {
        *smallest = Bytes::from_slice(alloc, key)?;
    }
    Ok(())
}

// The properties as they are stored.
fn push_properties(
    alloc: Global,
    out: &mut Bytes,
    number: u64,
    session: &Session,
    count: u64,
) -> Result<(), NoMemory>
    ensures text { OnOk result (out.new ≡ out.old ++ stored (properties_text number session.now count)) }
    ensures session { OnOk result (IsTrue (is_session session.now)) }
    ensures number { OnOk result (number < 2 ^ 64) }
{
    let mut properties = Bytes::new(alloc);
    properties.extend_from_slice(&number.to_le_bytes())?;
    properties.extend_from_slice(session.as_bytes())?;
    properties.extend_from_slice(&count.to_le_bytes())?;
    push_stored(out, properties.as_slice())?;
    Ok(())
}

// The places that the footer tells.
fn footer_places(
    alloc: Global,
    index: usize,
    len: usize,
    properties: usize,
) -> Result<Bytes, NoMemory>
    ensures { IfOk result (λ places. places ≡ places_text index len properties) }
{
    let mut places = Bytes::new(alloc);
    places.extend_from_slice(&(index as u64).to_le_bytes())?;
    places.extend_from_slice(&(len as u64).to_le_bytes())?;
    places.extend_from_slice(&(properties as u64).to_le_bytes())?;
    Ok(places)
}

// The footer: the places of index and properties, their checksum, and the last bytes.
fn push_footer(
    alloc: Global,
    out: &mut Bytes,
    index: usize,
    len: usize,
    properties: usize,
) -> Result<(), NoMemory>
    ensures { OnOk result (out.new ≡ out.old ++ footer_text index len properties) }
{
    let places = footer_places(alloc, index, len, properties)?;
    let kept = mask(checksum(places.as_slice()));
    out.extend_from_slice(places.as_slice())?;
    out.extend_from_slice(&kept.to_le_bytes())?;
    out.extend_from_slice(MAGIC)?;
    Ok(())
}
