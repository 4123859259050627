//! The turn, its passes and its holding.
ghost use Rattle.std.specs.Prelude.{◌≡◌, ◌<◌};

use crate::Follows;
use crate::plays::TurnRule;
use crate::view::View;
use atomic_table::{Seat, Table};
use std::alloc::Global;
use std::snapshot::Snapshot;

/// A value that threads take in turn. Its words are the next ticket, the ticket that is served, and the length of the
/// history, each counted modulo 2^64; the value lies in its one slot.
pub struct Turn<V: Follows> {
    pub(crate) table: Table<Option<V>, View<V::Start, V::Entry>, u64, TurnRule<V>, Global>,
    ghost counts: { (table.shared.table_id.words ≡ 3) × (table.shared.table_id.slots ≡ 1) },
    ghost some: { 0 < table.shared.key },
}

/// What a thread takes turns with: one lane of the history. It has no bytes.
#[derive(Drop)]
pub struct Pass<V: Follows> {
    pub(crate) seat: Seat<Option<V>, View<V::Start, V::Entry>>,
}

/// The passes of a turn, in the order of their lanes.
pub type Passes<V> = Vec<Pass<V>>;

/// The value, for as long as the turn is held. Only `Turn::give` ends it.
pub struct Held<V: Follows> {
    pub(crate) value: V,
    pub(crate) by: Snapshot<Seat<Option<V>, View<V::Start, V::Entry>>>,
}

/// There was no memory for the turn. The value comes back.
#[derive(Drop)]
pub struct TurnRefusal<V> {
    pub value: V,
}
