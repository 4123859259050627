//! The loan of the value. It has a file of its own, since its clause names the row of `Held`.
ghost use Rattle.std.specs.Prelude.{◌≡◌};
ghost use types.Logic.{sem};
ghost use denote.Follow.{follows};
ghost use Rattle.turn_lock.specs.contracts.turn.Held.{the_row};
ghost use Rattle.turn_lock.specs.Lending.{with_value};

use crate::Follows;
use crate::turn::Held;

impl<V: Follows> Held<V> {
    /// Lends the value.
    pub fn value(&mut self) -> &mut V
        ensures now { result.now ≡ self.old.value }
        ensures* writes_back { sem 𝓛 (follows (the_row V.row V.Start.row V.Entry.row) V.row
            self.entry.ghost_name result.ghost_name (with_value self.old)) }
    {
        &mut self.value
    }
}
