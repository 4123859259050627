//! Ticket lock over a value, with one history: threads take the value in the order in which they drew their tickets, and
//! each holding that enters something adds one entry to a history that exists in the proofs alone.
#![tactic(auto)]

ghost use Rattle.std.specs.Prelude.{ℕ, List};

mod closing;
mod giving;
mod lending;
mod opening;
mod plays;
mod taking;
mod turn;
mod view;

pub use plays::TurnRule;
pub use turn::{Held, Pass, Passes, Turn, TurnRefusal};
pub use view::{Stage, View};

/// What is said of the locked value: from which start, by which entries, it came to be what it is. Each entry stands with
/// the number of the lane that entered it. A start and an entry are plain data.
pub trait Follows {
    type Start;

    type Entry;

    ghost follows: { Self.Start → Self → List (ℕ × Self.Entry) → Type 0 };
}

/// Names the start that a value follows. The caller of `Turn::new` picks it.
pub trait Begun<S> {
    ghost start: { S };
}

/// Names the entry that a holding adds. The caller of `Turn::give` picks it.
pub trait Entered<E> {
    ghost entry: { E };
}
