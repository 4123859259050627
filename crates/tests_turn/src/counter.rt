//! A count under a turn. Its history is the list of the additions, each with the lane that made it.
ghost use Rattle.std.specs.Prelude.{◌≡◌, ◌+◌, ◌%◌, ◌^◌, ◌<◌, ◌≤◌, ◌++◌, ◌∷◌, [], length, IfSome};
ghost use Rattle.std.specs.Vec.{vec_capacity};
ghost use Rattle.turn_lock.specs.Passes.{passes_of, lane, seen, own};
ghost use Rattle.turn_lock.specs.Passes.{IsPassOf, IsSamePass, IsFree, HasTurn, IsHeldBy, FollowsFor, MayClose, AreNew};
ghost use Rattle.tests_turn.specs.Counts.{counts, opening, addition, HasAdded, AreThree};

use std::alloc::Global;
use std::marker::Brand;
use std::sync::Wait;
use std::thread::{Threads, join};
use turn_lock::{Begun, Entered, Follows, Held, Pass, Passes, Turn};

/// A number to which threads add.
#[derive(Drop)]
pub struct Count {
    n: u64,
}

/// What a count begins with. It stands in proofs alone.
pub struct Opening {
    pub n: u64,
}

/// One addition to a count. It stands in proofs alone.
pub struct Addition {
    pub by: u64,
}

impl Follows for Count {
    type Start = Opening;

    type Entry = Addition;

    ghost use Rattle.tests_turn.specs.Counts.{counts};

    ghost follows = { counts };
}

impl Begun<Opening> for Brand {
    ghost use Rattle.tests_turn.specs.Counts.{opening};

    ghost start = { opening 0 };
}

impl Entered<Addition> for Brand {
    ghost use Rattle.tests_turn.specs.Counts.{addition};

    ghost entry = { addition 0 };
}

/// Three threads add these to a count. In the end it is their sum, modulo 2^64. None is want of memory.
pub fn counted_by_three<R: Threads + Wait + Sync>(
    rt: &R,
    alloc: Global,
    from: u64,
    first: u64,
    second: u64,
    third: u64,
) -> Option<u64>
    ensures { IfSome result (λ n. n ≡ (from + (first + (second + third))) % 2 ^ 64) }
{
    let (turn, passes) = begun_at(alloc, from)?;
    let (list, one, two, three) = unpacked(&turn, from, passes);
    let (one, two, three) = three_added(rt, &turn, (one, first), (two, second), (three, third));
    let Count { n } = turn.close(packed(list, one, two, three));
    Some(n)
}

// A turn with three passes over a count that begins with this.
fn begun_at(alloc: Global, from: u64) -> Option<(Turn<Count>, Passes<Count>)>
    ensures count { IfSome result (λ t. (passes_of t.0 ≡ 3) × (length t.1.items ≡ 3)) }
    ensures dealt { IfSome result (λ t. AreNew t.0 (opening from) t.1.items) }
{
    begin::<Brand>(alloc, Count { n: from }, from)
}

// Hands the picked start on.
fn begin<B: Begun<Opening>>(
    alloc: Global,
    count: Count,
    from: u64,
) -> Option<(Turn<Count>, Passes<Count>)>
    requires start { (B.start ≡ opening from) × (count.n ≡ from) }
    requires small { from < 2 ^ 64 }
    ensures count { IfSome result (λ t. (passes_of t.0 ≡ 3) × (length t.1.items ≡ 3)) }
    ensures dealt { IfSome result (λ t. AreNew t.0 (opening from) t.1.items) }
{
    match Turn::new::<B>(alloc, count, 3) {
        Ok(begun) => Some(begun),
        Err(_) => None,
    }
}

// The three passes, and the empty list with room for them.
fn unpacked(
    turn: &Turn<Count>,
    from: u64,
    mut passes: Passes<Count>,
) -> (Passes<Count>, Pass<Count>, Pass<Count>, Pass<Count>)
    requires count { length passes.items ≡ 3 }
    requires dealt { AreNew turn.now (opening from) passes.items }
    ensures list { (result.0.items ≡ []) × (3 ≤ vec_capacity result.0) }
    ensures passes { AreThree turn.now from result.1 result.2 result.3 }
{
    let Some(third) = passes.pop() else {
        unreachable!()
    };
    let Some(second) = passes.pop() else {
        unreachable!()
    };
    let Some(first) = passes.pop() else {
        unreachable!()
    };
    (passes, first, second, third)
}

// The three passes in a list again.
fn packed(
    mut list: Passes<Count>,
    first: Pass<Count>,
    second: Pass<Count>,
    third: Pass<Count>,
) -> Passes<Count>
    requires list { (list.items ≡ []) × (3 ≤ vec_capacity list) }
    ensures { result.items ≡ first ∷ second ∷ third ∷ [] }
{
    list.push_reserved(first);
    list.push_reserved(second);
    list.push_reserved(third);
    list
}

// Three threads add, each with a pass of its own.
fn three_added<R: Threads + Wait + Sync>(
    rt: &R,
    turn: &Turn<Count>,
    first: (Pass<Count>, u64),
    second: (Pass<Count>, u64),
    third: (Pass<Count>, u64),
) -> (Pass<Count>, Pass<Count>, Pass<Count>)
    requires first { MayClose turn.now first.0 }
    requires second { MayClose turn.now second.0 }
    requires third { MayClose turn.now third.0 }
    ensures first { HasAdded turn.now first.0 first.1 result.0 }
    ensures second { HasAdded turn.now second.0 second.1 result.1 }
    ensures third { HasAdded turn.now third.0 third.1 result.2 }
{
    let (one, by) = first;
    let (one, (two, three)) = join(
        rt,
        || added(rt, turn, one, by),
        ||
            requires { MayClose turn.now second.0 × MayClose turn.now third.0 }
        { two_added(rt, turn, second, third) },
    );
    (one, two, three)
}

// Two threads add.
fn two_added<R: Threads + Wait + Sync>(
    rt: &R,
    turn: &Turn<Count>,
    first: (Pass<Count>, u64),
    second: (Pass<Count>, u64),
) -> (Pass<Count>, Pass<Count>)
    requires first { MayClose turn.now first.0 }
    requires second { MayClose turn.now second.0 }
    ensures first { HasAdded turn.now first.0 first.1 result.0 }
    ensures second { HasAdded turn.now second.0 second.1 result.1 }
{
    let (one, by) = first;
    let (two, more) = second;
    join(
        rt,
        || added(rt, turn, one, by),
        || added(rt, turn, two, more),
    )
}

// One thread adds.
fn added<R: Wait>(rt: &R, turn: &Turn<Count>, mut pass: Pass<Count>, by: u64) -> Pass<Count>
    requires pass { MayClose turn.now pass }
    ensures { HasAdded turn.now pass by result }
{
    let mut held = turn.take(rt, &mut pass);
    let count = held.value();
    count.n = count.n.wrapping_add(by);
    enter::<Brand>(turn, &mut pass, held, by);
    pass
}

// Hands the picked entry on.
fn enter<B: Entered<Addition>>(
    turn: &Turn<Count>,
    pass: &mut Pass<Count>,
    held: Held<Count>,
    by: u64,
)
    requires entry { B.entry ≡ addition by }
    requires table { IsPassOf turn.now pass.old }
    requires held { HasTurn pass.old × IsHeldBy held pass.old }
    requires follows { FollowsFor counts pass.old held.value (seen pass.old ++ (lane pass.old, addition by) ∷ []) }
    ensures same { IsSamePass pass.old pass.new }
    ensures free { IsFree pass.new }
    ensures own { own pass.new ≡ own pass.old ++ (lane pass.old, addition by) ∷ [] }
{
    turn.give::<B>(pass, held, true);
}
