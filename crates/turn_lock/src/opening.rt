//! A turn is made, and its passes are dealt.
ghost use Rattle.std.specs.Prelude.{◌≡◌, ℕ, ◌+◌, ◌-◌, ◌<◌, ◌≤◌, length, [], IfOk, IfErr, Some, vec_len};
ghost use Rattle.std.specs.Vec.{vec_capacity};
ghost use Rattle.turn_lock.specs.Views.{begun, left_of, right_of};
ghost use Rattle.turn_lock.specs.Steps.{IsIdle};
ghost use Rattle.turn_lock.specs.Passes.{passes_of, IsPassOf, AreNew};

use crate::plays::{Deal, Empty, Start};
use crate::turn::{Pass, Passes, Turn, TurnRefusal};
use crate::{Begun, Follows};
use atomic_table::Table;
use std::alloc::Global;

impl<V: Follows> Turn<V> {
    /// Makes a turn with 1 to 64 passes. The value follows the empty history from the picked start. A refusal is want of
    /// memory, and has the value.
    pub fn new<S: Begun<V::Start>>(
        alloc: Global,
        value: V,
        passes: u32,
    ) -> Result<(Turn<V>, Passes<V>), TurnRefusal<V>>
        requires passes { (1 ≤ passes) × (passes ≤ 64) }
        requires follows { V.follows S.start value [] }
        ensures count { IfOk result (λ t. (passes_of t.0 ≡ passes) × (length t.1.items ≡ passes)) }
        ensures dealt { IfOk result (λ t. AreNew t.0 S.start t.1.items) }
        ensures refused { IfErr result (λ r. r.value ≡ value) }
    {
        let mut list = Vec::new(alloc);
        if list.reserve(passes as usize).is_err() {
            list.destroy_empty();
            return Err(TurnRefusal { value });
        }
        let (turn, first) = match Turn::found::<S>(alloc, value, passes) {
            Ok(found) => found,
            Err(refusal) => {
                list.destroy_empty();
                return Err(refusal);
            }
        };
        turn.deal::<S>(first, &mut list, passes);
        Ok((turn, list))
    }

    // The turn with one pass, which has every lane.
    fn found<S: Begun<V::Start>>(
        alloc: Global,
        value: V,
        passes: u32,
    ) -> Result<(Turn<V>, Pass<V>), TurnRefusal<V>>
        requires passes { (1 ≤ passes) × (passes ≤ 64) }
        requires follows { V.follows S.start value [] }
        ensures ok { IfOk result (λ t. IsPassOf t.0 t.1 × (passes_of t.0 ≡ passes) × (t.1.seat.me ≡ (begun 0 passes S.start, []))) }
        ensures err { IfErr result (λ r. r.value ≡ value) }
    {
        let Ok((table, mut seat)) = Table::vacant(alloc, &[0, 0, 0], 1, &u64::from(passes)) else {
            return Err(TurnRefusal { value });
        };
        table.shared.load::<Empty>(&mut seat, 1);
        let empty = table.shared.exchange(&mut seat, 0, Some(value));
        let None = empty else { unreachable!() };
        table.shared.fetch_add::<Start<S>>(&mut seat, 2, 0);
        Ok((Turn { table }, Pass { seat }))
    }

    // Deals the lanes of a pass, the lowest first.
    fn deal<S: Begun<V::Start>>(&self, mut rest: Pass<V>, list: &mut Passes<V>, passes: u32)
        requires table { IsPassOf self.now rest }
        requires all { (1 ≤ passes) × (rest.seat.me ≡ (begun 0 passes S.start, [])) }
        requires list { (list.old.items ≡ []) × (passes ≤ vec_capacity list.old) }
        ensures count { length list.new.items ≡ passes }
        ensures dealt { AreNew self.now S.start list.new.items }
    {
        for _lane in 1..passes {
            let next = self.split(&mut rest);
            list.push_reserved(next);
        }
        list.push_reserved(rest);
    }

    // Splits the first lane off.
    fn split(&self, pass: &mut Pass<V>) -> Pass<V>
        requires table { IsPassOf self.now pass.old }
        requires free { IsIdle pass.old.seat.me }
        requires lanes { 1 < length pass.old.seat.me.0.mine }
        ensures same { IsPassOf self.now pass.new × IsPassOf self.now result }
        ensures left { pass.new.seat.me ≡ (left_of pass.old.seat.me.0, []) }
        ensures right { result.seat.me ≡ (right_of pass.old.seat.me.0, []) }
    {
        Pass {
            seat: self.table.shared.split_seat::<Deal>(&mut pass.seat),
        }
    }
}
