//! A pass draws a ticket, waits until it is served, and takes the value out.
ghost use Rattle.std.specs.Prelude.{◌≡◌, ℕ, ◌%◌, ◌^◌, []};
ghost use mathlib.Core.List.{IsPrefix};
ghost use Rattle.turn_lock.specs.declared.view.Stage.TheVariants.{Waits};
ghost use Rattle.turn_lock.specs.Steps.{IsTaken};
ghost use Rattle.turn_lock.specs.Passes.{seen, own, IsPassOf, IsSamePass, IsFree, HasTurn, IsHeldBy, FollowsFor};

use crate::Follows;
use crate::plays::{Draw, Serve};
use crate::turn::{Held, Pass, Turn};
use std::snapshot::Snapshot;
use std::sync::Wait;
use std::thread;

impl<V: Follows> Turn<V> {
    /// Waits until the pass's ticket is served, and takes the value. The history then begins with all that the pass had
    /// seen, the pass has seen all of it, and the value follows it from the start. It takes no memory.
    pub fn take<R: Wait>(&self, rt: &R, pass: &mut Pass<V>) -> Held<V>
        requires table { IsPassOf self.now pass.old }
        requires free { IsFree pass.old }
        ensures same { IsSamePass pass.old pass.new × (own pass.new ≡ own pass.old) }
        ensures seen { IsPrefix (seen pass.old) (seen pass.new) }
        ensures held { HasTurn pass.new × IsHeldBy result pass.new }
        ensures follows { FollowsFor V.follows pass.new result.value (seen pass.new) }
    {
        let ticket = self.table.shared.fetch_add::<Draw>(&mut pass.seat, 0, 1);
        self.wait(rt, pass, ticket);
        let out = self.table.shared.exchange(&mut pass.seat, 0, None);
        let Some(value) = out else { unreachable!() };
        Held {
            value,
            by: Snapshot::of(&pass.seat),
        }
    }

    // Waits until the ticket is served, and has the slot then.
    fn wait<R: Wait>(&self, rt: &R, pass: &mut Pass<V>, ticket: u64)
        requires table { IsPassOf self.now pass.old }
        requires waits { (pass.old.seat.me.0.stage ≡ Waits) × (pass.old.seat.me.1 ≡ []) }
        requires ticket { ticket ≡ pass.old.seat.me.0.ticket % 2 ^ 64 }
        ensures same { IsPassOf self.now pass.new }
        ensures taken { IsTaken V.follows pass.old.seat.me pass.new.seat.me }
    {
        for _ in rt.forever() {
            if self.table.shared.load::<Serve>(&mut pass.seat, 1) == ticket {
                break;
            }
            thread::yield_now();
        }
    }
}
