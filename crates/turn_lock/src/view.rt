//! What a pass knows. These types stand in proofs alone: no code makes a value of them.
use std::collections::LinkedList;

/// Where a pass stands.
pub enum Stage {
    /// It founds the turn: the slot is empty.
    Founds,
    /// It puts the first value into the slot.
    Places,
    /// It has no holding.
    Idle,
    /// It has drawn a ticket.
    Waits,
    /// Its ticket is served, and it has the slot.
    Holds,
    /// It was joined to another pass.
    Spent,
}

/// What a pass knows.
pub struct View<S, E> {
    pub stage: Stage,
    /// The start of the history, once it is picked.
    pub start: Option<S>,
    /// The first part of the history that the pass has seen, each entry with its lane.
    pub seen: LinkedList<(u64, E)>,
    pub ticket: u64,
    /// The lanes of the pass by their numbers, each with its own entries.
    pub mine: LinkedList<(u64, LinkedList<(u64, E)>)>,
    /// The start and what was seen of each of the passes that were joined into this one.
    pub heard: LinkedList<(Option<S>, LinkedList<(u64, E)>)>,
}
