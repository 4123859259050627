//! Which calls of a disk are to fail.
ghost use Rattle.std.specs.Prelude.{◌≡◌, ◌++◌, ◌∷◌, [], Some, None, OnOk, OnErr};
ghost use Rattle.lsm_memdisk.specs.Plan.{blank_plan, begun, planned, last_for, or_first, effect_at, earlier, with_stop, with_fault, stops, turn_of};

use lsm_bytes::NoMemory;
use std::alloc::Global;
use std::marker::Model;

/// What a call that fails has done.
#[derive(Clone, Copy, Debug, PartialEq, Eq)]
pub enum Effect {
    /// Nothing.
    Nothing,
    /// All that it does where it doesn't fail.
    Done,
    /// An append: its first bytes, so many, and all where it has fewer. Any other call: nothing.
    Part(u64),
}

/// What becomes of a call that changes all or nothing.
#[derive(Clone, Copy, Debug, PartialEq, Eq)]
pub enum Turn {
    /// It isn't planned to fail.
    Works,
    /// It fails, and nothing is done.
    Fails,
    /// It fails once all is done.
    FailsBehind,
}

/// How many calls there were, and which are to fail. Calls are counted from 1.
#[derive(Drop)]
pub struct Plan {
    calls: u64,
    faults: Vec<(u64, Effect)>,
    stop: Option<u64>,
}

impl Model for Plan {
    ghost use Rattle.lsm_memdisk.specs.Plan.{Shown, coded_plan};

    ghost Value = { Shown };

    ghost coded = { coded_plan };

    ghost view = { λ p. record { calls = p.calls; faults = p.faults.items; stop = p.stop } };
}

/// The entry for a call, if it is one.
fn effect_at(call: u64, entry: (u64, Effect)) -> Option<Effect>
    ensures { result ≡ effect_at call entry }
{
    if entry.0 == call { Some(entry.1) } else { None }
}

fn or_first(later: Option<Effect>, earlier: Option<Effect>) -> Option<Effect>
    ensures { result ≡ or_first later earlier }
{
    match later {
        Some(effect) => Some(effect),
        None => earlier,
    }
}

/// The last entry for a call.
fn last_for(call: u64, entries: &[(u64, Effect)]) -> Option<Effect>
    ensures { result ≡ last_for call entries.now }
{
    let mut found = None;
    for at in 0..entries.len() {
        found = or_first(effect_at(call, entries[at]), found);
    }
    found
}

fn stops(stop: Option<u64>, call: u64) -> bool
    ensures { result ≡ stops stop call }
{
    match stop {
        Some(first) => first <= call,
        None => false,
    }
}

fn earlier(stop: Option<u64>, call: u64) -> u64
    ensures { result ≡ earlier stop call }
{
    match stop {
        Some(first) => first.min(call),
        None => call,
    }
}

/// What an effect is to a call that changes all or nothing.
fn turn_of(effect: Option<Effect>) -> Turn
    ensures { result ≡ turn_of effect }
{
    match effect {
        None => Turn::Works,
        Some(Effect::Done) => Turn::FailsBehind,
        Some(Effect::Nothing) => Turn::Fails,
        Some(Effect::Part(_)) => Turn::Fails,
    }
}

impl Plan {
    pub fn new(alloc: Global) -> Plan
        ensures { result ≡ blank_plan }
    {
        Plan {
            calls: 0,
            faults: Vec::new(alloc),
            stop: None,
        }
    }

    /// Counts a call, and tells what it has done where it is to fail.
    pub fn begin(&mut self) -> Option<Effect>
        ensures effect { result ≡ planned self.old }
        ensures plan { self.new ≡ begun self.old }
    {
        self.calls = self.calls.saturating_add(1);
        if stops(self.stop, self.calls) {
            Some(Effect::Nothing)
        } else {
            last_for(self.calls, &self.faults)
        }
    }

    /// The same for a call that changes all or nothing.
    pub fn begin_whole(&mut self) -> Turn
        ensures turn { result ≡ turn_of (planned self.old) }
        ensures plan { self.new ≡ begun self.old }
    {
        turn_of(self.begin())
    }

    /// Lets the call of this number fail.
    pub fn fail_at(&mut self, call: u64, effect: Effect) -> Result<(), NoMemory>
        ensures ok { OnOk result (self.new ≡ with_fault call effect self.old) }
        ensures err { OnErr result (self.new ≡ self.old) }
    {
        self.faults.push((call, effect))?;
        Ok(())
    }

    /// Lets every call from this number on fail without effect.
    pub fn stop_at(&mut self, call: u64)
        ensures { self.new ≡ with_stop call self.old }
    {
        self.stop = Some(earlier(self.stop, call));
    }
}
