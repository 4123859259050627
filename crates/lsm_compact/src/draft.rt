//! A table of a compaction's output, as far as it is built.
ghost use Rattle.std.specs.Prelude.{◌≡◌, ◌≤◌, ◌∷◌, ◌++◌, [], true, false, List, ℕ, length, map, IfOk, IfErr, OnErr, unwrap_or, option_map, Some};
ghost use Rattle.lsm_rows.specs.declared.rows.Row.{Row};
ghost use Rattle.lsm_table.specs.Building.{Built, IsBuilt};
ghost use Rattle.lsm_compact.specs.Building.{AreRows, IsBuiltOf, IsPushed, IsEnd};
ghost use Rattle.lsm_compact.specs.Outputs.{ended_text, is_full};

use lsm_bytes::{Bytes, NoMemory};
use lsm_names::Session;
use lsm_rows::Row;
use lsm_table::{Finished, TableBuilder};
use std::alloc::Global;
use std::marker::Model;

/// A table whose rows come in one by one. They are kept until its end, since after a refused end it is built again. Contracts
/// see its number, its session, its rows, and whether rows may come.
#[derive(Drop)]
pub struct Draft {
    alloc: Global,
    number: u64,
    session: Session,
    rows: Vec<Row>,
    builder: Option<TableBuilder>,
}

impl Model for Draft {
    ghost use Rattle.std.specs.Prelude.{is_some};
    ghost use Rattle.lsm_compact.specs.Building.{Table, IsTable};

    ghost Value = { Table };

    ghost view = { λ t. record { number = t.number; session = t.session; rows = t.rows.items; whole = is_some t.builder } };

    ghost invariant = { λ t. IsTable
        (record { number = t.number; session = t.session; rows = t.rows.items; whole = is_some t.builder }) t.builder };
}

impl Draft {
    /// A table with no rows. It takes its memory from `alloc` as rows come in.
    pub fn new(alloc: Global, number: u64, session: Session) -> Self
        ensures { result ≡ record { number = number; session = session; rows = []; whole = true } }
    {
        Draft {
            alloc,
            number,
            session,
            rows: Vec::new(alloc),
            builder: Some(TableBuilder::new(alloc, number, session)),
        }
    }

    /// The number in its file's name.
    pub fn number(&self) -> u64
        ensures { result ≡ self.now.number }
    {
        self.number
    }

    /// The session that it was drawn with.
    pub fn session(&self) -> Session
        ensures { result ≡ self.now.session }
    {
        self.session
    }

    /// Adds a row behind all others, and gives the bytes of the blocks that were ended with it. Where memory is wanting the
    /// row is handed back, and the table is as it was.
    pub fn add(&mut self, row: Row) -> Result<Option<Bytes>, Row>
        requires whole { self.old.whole ≡ true }
        requires rows { AreRows (self.old.rows ++ row ∷ []) }
        ensures ok { IfOk result (λ piece. self.new ≡ record self.old { rows = self.old.rows ++ row ∷ [] }) }
        ensures piece { IfOk result (λ piece. ended_text self.old.rows ++ unwrap_or piece [] ≡ ended_text self.new.rows) }
        ensures err { OnErr result (self.new ≡ self.old) }
        ensures row { IfErr result (λ back. back ≡ row) }
    {
        match &mut self.builder {
            Some(builder) => push(builder, &mut self.rows, row),
            None => Err(row),
        }
    }

    /// Ends the table, which has a row at least. After a refusal it may be asked again.
    pub fn finish(&mut self) -> Result<Finished, NoMemory>
        requires { 1 ≤ length self.old.rows }
        ensures end { IfOk result (λ f. IsEnd self.old f.tail f.size f.smallest f.largest) }
        ensures same { self.new ≡ record self.old { whole = false } }
    {
        let builder = built(
            self.builder.take(),
            self.alloc,
            self.number,
            self.session,
            self.rows.as_slice(),
        )?;
        builder.finish()
    }
}

// Adds a row behind all others, and gives the bytes of the blocks that were ended with it.
fn push(builder: &mut TableBuilder, rows: &mut Vec<Row>, row: Row) -> Result<Option<Bytes>, Row>
    requires built { IsBuilt builder.old rows.old.items (ended_text rows.old.items) }
    requires rows { AreRows (rows.old.items ++ row ∷ []) }
    ensures ok { IfOk result (λ piece. IsPushed builder.new rows.old.items row rows.new.items piece) }
    ensures err { OnErr result (IsBuilt builder.new rows.new.items (ended_text rows.new.items)) }
    ensures same { OnErr result (rows.new.items ≡ rows.old.items) }
    ensures row { IfErr result (λ back. back ≡ row) }
    ensures number { builder.new.number ≡ builder.old.number }
    ensures session { builder.new.session ≡ builder.old.session }
{
    if rows.reserve(1).is_err() {
        return Err(row);
    }
    match builder.add(&row) {
        Ok(()) => {
            rows.push(row).unwrap();
            Ok(builder.next_piece())
        }
        Err(_) => Err(row),
    }
}

// What was built, or else the table of these rows, built again.
fn built(
    builder: Option<TableBuilder>,
    alloc: Global,
    number: u64,
    session: Session,
    rows: &[Row],
) -> Result<TableBuilder, NoMemory>
    requires rows { AreRows rows.now }
    requires built { (b : Built) → builder ≡ Some b → IsBuiltOf b number session rows.now }
    ensures { IfOk result (λ builder. IsBuiltOf builder number session rows.now) }
{
    match builder {
        Some(builder) => Ok(builder),
        None => build(alloc, number, session, rows),
    }
}

// The table of these rows, whose ended blocks' bytes were handed out before.
fn build(
    alloc: Global,
    number: u64,
    session: Session,
    rows: &[Row],
) -> Result<TableBuilder, NoMemory>
    requires { AreRows rows.now }
    ensures { IfOk result (λ builder. IsBuiltOf builder number session rows.now) }
{
    let mut builder = TableBuilder::new(alloc, number, session);
    for row in rows {
        builder.add(row)?;
    }
    let _handed_out_before = builder.next_piece();
    Ok(builder)
}
