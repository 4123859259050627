//! A turn ends: its passes are joined, and the value is handed back with the history that all of them made.
ghost use Rattle.std.specs.Prelude.{◌≡◌, ℕ, ◌<◌, length, All, []};
ghost use Rattle.turn_lock.specs.Views.{both_of};
ghost use Rattle.turn_lock.specs.Steps.{IsIdle};
ghost use Rattle.turn_lock.specs.Passes.{passes_of, IsPassOf, MayClose, IsJoined};
ghost use Rattle.turn_lock.specs.Closing.{joined_view, IsEnded};

use crate::Follows;
use crate::plays::Deal;
use crate::turn::{Pass, Passes, Turn};

impl<V: Follows> Turn<V> {
    /// Ends the turn by all its passes, none of which has a holding, and hands the value back. It takes no memory.
    pub fn close(self, passes: Passes<V>) -> V
        requires every { length passes.items ≡ passes_of self }
        requires each { All (MayClose self) passes.items }
        ensures joined { IsJoined V.follows passes.items result }
    {
        let all = self.gather(passes);
        self.end(all)
    }

    // Joins all passes into one.
    fn gather(&self, mut passes: Passes<V>) -> Pass<V>
        requires every { length passes.items ≡ passes_of self.now }
        requires each { All (MayClose self.now) passes.items }
        ensures table { IsPassOf self.now result }
        ensures all { result.seat.me ≡ (joined_view passes.items, []) }
        ensures idle { IsIdle result.seat.me }
        ensures every { length result.seat.me.0.mine ≡ passes_of self.now }
    {
        let Some(mut all) = passes.pop() else {
            unreachable!()
        };
        while let Some(pass) = passes.pop() {
            self.join(&mut all, pass);
        }
        passes.destroy_empty();
        all
    }

    // Joins a pass to another.
    fn join(&self, pass: &mut Pass<V>, other: Pass<V>)
        requires table { IsPassOf self.now pass.old × IsPassOf self.now other }
        requires idle { IsIdle pass.old.seat.me × IsIdle other.seat.me }
        ensures same { IsPassOf self.now pass.new }
        ensures both { pass.new.seat.me ≡ (both_of pass.old.seat.me.0 other.seat.me.0, []) }
    {
        let Pass { seat } = other;
        self.table.shared.join_seat::<Deal>(&mut pass.seat, seat);
    }

    // Ends the turn by the pass that has every lane.
    fn end(self, all: Pass<V>) -> V
        requires table { IsPassOf self all }
        requires idle { IsIdle all.seat.me }
        requires every { length all.seat.me.0.mine ≡ passes_of self }
        ensures ended { IsEnded (passes_of self) V.follows all.seat.me.0 result }
    {
        let Turn { table } = self;
        let Pass { seat } = all;
        let mut closed = table.close_with(seat);
        let out = closed.take(0);
        closed.free();
        let Some(value) = out else { unreachable!() };
        value
    }
}
