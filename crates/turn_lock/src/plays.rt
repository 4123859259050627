//! The rule of the turn, and what each kind of atomic step tells the pass that makes it. These types stand in proofs alone.
use crate::view::View;
use crate::{Begun, Entered, Follows};
use atomic_table::{Join, Play, Split, TableRule};
use std::marker::PhantomData;

/// The rule of a turn over `V`. The table's key is the number of passes.
pub struct TurnRule<V> {
    of: PhantomData<V>,
}

impl<V: Follows> TableRule<Option<V>, View<V::Start, V::Entry>, u64> for TurnRule<V> {
    ghost use Rattle.turn_lock.specs.Rule.{IsTurn};
    ghost use Rattle.turn_lock.specs.Views.{founder};

    ghost holds = { λ passes s. IsTurn passes V.follows s };

    ghost first = { λ passes. founder passes };
}

/// The founder takes the empty slot.
pub struct Empty;

impl<V, S, E> Play<Option<V>, View<S, E>> for Empty {
    ghost use Rattle.turn_lock.specs.Steps.{Empties};

    ghost then = { Empties };
}

/// The founder has put the value in, and its start is picked.
pub struct Start<B> {
    of: PhantomData<B>,
}

impl<V, S, E, B: Begun<S>> Play<Option<V>, View<S, E>> for Start<B> {
    ghost use Rattle.turn_lock.specs.Steps.{Starts};

    ghost then = { Starts B.start };
}

/// A ticket is drawn.
pub struct Draw;

impl<V, S, E> Play<Option<V>, View<S, E>> for Draw {
    ghost use Rattle.turn_lock.specs.Steps.{Draws};

    ghost then = { Draws };
}

/// A look at the ticket that is served.
pub struct Serve;

impl<V: Follows> Play<Option<V>, View<V::Start, V::Entry>> for Serve {
    ghost use Rattle.turn_lock.specs.Steps.{Serves};

    ghost then = { Serves V.follows };
}

/// The picked entry is added.
pub struct Enter<B> {
    of: PhantomData<B>,
}

impl<V, S, E, B: Entered<E>> Play<Option<V>, View<S, E>> for Enter<B> {
    ghost use Rattle.std.specs.Prelude.{[], ◌∷◌};
    ghost use Rattle.turn_lock.specs.Steps.{Enters};

    ghost then = { Enters (B.entry ∷ []) };
}

/// Nothing is added.
pub struct Pause;

impl<V, S, E> Play<Option<V>, View<S, E>> for Pause {
    ghost use Rattle.std.specs.Prelude.{[]};
    ghost use Rattle.turn_lock.specs.Steps.{Enters};

    ghost then = { Enters [] };
}

/// The next ticket is served.
pub struct Leave;

impl<V, S, E> Play<Option<V>, View<S, E>> for Leave {
    ghost use Rattle.turn_lock.specs.Steps.{Leaves};

    ghost then = { Leaves };
}

/// A pass is dealt, or joined again.
pub struct Deal;

impl<S, E> Split<View<S, E>> for Deal {
    ghost use Rattle.turn_lock.specs.Views.{left_of, right_of};

    ghost left = { left_of };

    ghost right = { right_of };
}

impl<S, E> Join<View<S, E>> for Deal {
    ghost use Rattle.turn_lock.specs.Views.{both_of, spent};

    ghost both = { both_of };

    ghost spent = { spent };
}
