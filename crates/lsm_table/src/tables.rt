//! Several open tables, in the order in which they are searched.
ghost use Rattle.std.specs.Prelude.{◌≡◌, ◌↔◌, ◌∷◌, ◌++◌, [], ◌<◌, length, slice_set, slice_get, IsTrue, OnOk, IfErr, MatchOption, Some};
ghost use Rattle.std.specs.Borrow.{Lends, sem};

use crate::table::Table;
use lsm_disk::View;
use std::alloc::Global;
use std::marker::Model;

/// Tables in the order in which they are searched. Contracts see the list of what is seen of each.
#[derive(Drop)]
pub struct Tables<V: View> {
    items: Vec<Table<V>>,
}

impl<V: View> Model for Tables<V> {
    ghost use Rattle.std.specs.Prelude.{List};
    ghost use Rattle.lsm_table.specs.Tables.{Opened};

    ghost Value = { List Opened };

    ghost view = { λ t. t.items.items };
}

impl<V: View> Tables<V> {
    ghost use Rattle.lsm_table.specs.contracts.tables.Tables.{the_row};
    ghost use Rattle.lsm_table.specs.contracts.table.Table as table;

    /// No tables. It takes its memory from `alloc` as tables come in.
    pub fn new(alloc: Global) -> Self
        ensures { result ≡ [] }
    {
        Tables {
            items: Vec::new(alloc),
        }
    }

    /// The number of tables.
    pub fn len(&self) -> usize
        ensures { result ≡ length self.now }
    {
        self.items.as_slice().len()
    }

    /// Whether there are no tables.
    pub fn is_empty(&self) -> bool
        ensures { IsTrue result ↔ (self.now ≡ []) }
    {
        self.items.is_empty()
    }

    /// Adds a table that is searched after all others. Where memory is wanting it is handed back, and the others stay.
    pub fn push(&mut self, table: Table<V>) -> Result<(), Table<V>>
        ensures ok { OnOk result (self.new ≡ self.old ++ table ∷ []) }
        ensures err { IfErr result (λ back. back ≡ table × self.new ≡ self.old) }
    {
        match self.items.push(table) {
            Ok(()) => Ok(()),
            Err(refused) => Err(refused.value),
        }
    }

    /// The table at a place in the order, to be read.
    pub fn table_mut(&mut self, at: usize) -> &mut Table<V>
        requires { at < length self.old }
        ensures* writes_back { sem 𝓛 (Lends (the_row V.row V.View) (table.the_row V.row V.View) self.entry result (slice_set self.old at)) }
        ensures table { slice_get self.old at ≡ Some result.now }
    {
        &mut self.items[at]
    }

    /// Takes the table out that is searched last; None where there are none.
    pub fn pop(&mut self) -> Option<Table<V>>
        ensures { MatchOption result (self.old ≡ []) (λ table. self.old ≡ self.new ++ table ∷ []) }
    {
        self.items.pop()
    }
}
