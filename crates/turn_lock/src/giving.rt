//! A holding ends: the history gains its entry or nothing, the value goes home, and the next ticket is served.
ghost use Rattle.std.specs.Prelude.{◌≡◌, []};
ghost use Rattle.turn_lock.specs.Views.{idle};
ghost use Rattle.turn_lock.specs.Steps.{HasSlot, FollowsFrom};
ghost use Rattle.turn_lock.specs.Passes.{seen, own, seen_with, own_with, Entering};
ghost use Rattle.turn_lock.specs.Passes.{IsPassOf, IsSamePass, IsFree, HasTurn, IsHeldBy, FollowsFor};

use crate::plays::{Enter, Leave, Pause};
use crate::turn::{Held, Pass, Turn};
use crate::{Entered, Follows};

impl<V: Follows> Turn<V> {
    /// Ends the holding. With `entered` the history gains the picked entry, by this pass's lane, and else nothing. The
    /// value has to follow the history so grown. It takes no memory.
    pub fn give<B: Entered<V::Entry>>(&self, pass: &mut Pass<V>, held: Held<V>, entered: bool)
        requires table { IsPassOf self.now pass.old }
        requires held { HasTurn pass.old × IsHeldBy held pass.old }
        requires follows { FollowsFor V.follows pass.old held.value (seen_with B.entry pass.old entered) }
        ensures same { IsSamePass pass.old pass.new }
        ensures free { IsFree pass.new }
        ensures seen { seen pass.new ≡ seen_with B.entry pass.old entered }
        ensures own { own pass.new ≡ own_with B.entry pass.old entered }
    {
        self.enter::<B>(pass, entered);
        self.put(pass, held);
    }

    // Adds the picked entry to the history, or nothing.
    fn enter<B: Entered<V::Entry>>(&self, pass: &mut Pass<V>, entered: bool)
        requires table { IsPassOf self.now pass.old }
        requires slot { HasSlot pass.old.seat.me }
        ensures same { IsPassOf self.now pass.new }
        ensures me { Entering B.entry pass.old entered pass.new }
    {
        if entered {
            self.table
                .shared
                .fetch_add::<Enter<B>>(&mut pass.seat, 2, 1);
        } else {
            self.table.shared.fetch_add::<Pause>(&mut pass.seat, 2, 0);
        }
    }

    // Puts the value back, and serves the next ticket.
    fn put(&self, pass: &mut Pass<V>, held: Held<V>)
        requires table { IsPassOf self.now pass.old }
        requires slot { HasSlot pass.old.seat.me }
        requires follows { FollowsFrom V.follows pass.old.seat.me.0.start held.value pass.old.seat.me.0.seen }
        ensures same { IsPassOf self.now pass.new }
        ensures me { pass.new.seat.me ≡ (idle pass.old.seat.me.0, []) }
    {
        let Held { value, by } = held;
        drop(by);
        let out = self.table.shared.exchange(&mut pass.seat, 0, Some(value));
        let None = out else { unreachable!() };
        self.table.shared.fetch_add::<Leave>(&mut pass.seat, 1, 1);
    }
}
