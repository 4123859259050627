//! The time.
ghost use Rattle.std.specs.Prelude.{◌≡◌, ◌↔◌, ◌⊎◌, ℕ, List, [], Option, Some};
ghost use Rattle.std.specs.Prelude.{IsErr, IsTrue, IfOk, OnErr};
ghost use Rattle.lsm_io.specs.Causes.{HasCause, risen};
ghost use Rattle.lsm_io.specs.Draws.{Draws};
ghost use Rattle.lsm_io.specs.Scripted.{remaining_new, fails_at, faults_after};

use crate::Failed;
use crate::counts::{fault, is_to_fail, raise};
use std::marker::Model;

/// A clock that tells the time in seconds. It may go back.
pub trait Clock {
    /// The times that are left to tell, where the clock tells them.
    ghost left: { Self → Option (List ℕ) };

    /// How often it has failed, up to 2^64 - 1. A new clock has not.
    ghost faults: { Self → ℕ };

    /// The time in seconds since the start of 1970, or for a clock in memory the next of its values.
    fn now(&mut self) -> Result<u64, Failed>
        ensures drawn { IfOk result (Draws (left self.old) (left self.new)) }
        ensures kept { OnErr result (left self.new ≡ left self.old) }
        ensures cause { HasCause (faults self.old) (faults self.new) result };
}

/// A clock that tells the times of a list, and fails past the last one. It looks its failing calls up one by one, so
/// these should be few.
#[derive(Drop)]
pub struct ListClock {
    values: Vec<u64>,
    at: usize,
    fails: Vec<u64>,
    calls: u64,
    faults: u64,
}

impl Model for ListClock {
    ghost use Rattle.std.specs.Prelude.{ℕ, ◌≤◌, drop, vec_len};
    ghost use Rattle.lsm_io.specs.Scripted.{Remaining};

    ghost Value = { Remaining ℕ };

    ghost view = { λ s. record {
      left = drop s.at s.values.items;
      calls = s.calls;
      fails = s.fails.items;
      faults = s.faults;
    } };

    ghost invariant = { λ s. s.at ≤ vec_len s.values };
}

impl ListClock {
    /// A clock of these times. `fails` are the numbers of the calls that fail, counted from 1, in any order; such a
    /// call draws no time.
    pub fn new(values: Vec<u64>, fails: Vec<u64>) -> Self
        ensures { result ≡ remaining_new values.items fails.items }
    {
        ListClock {
            values,
            at: 0,
            fails,
            calls: 0,
            faults: 0,
        }
    }
}

impl Clock for ListClock {
    ghost left = { λ s. Some s.left };

    ghost faults = { λ s. s.faults };

    fn now(&mut self) -> Result<u64, Failed>
        ensures drawn { IfOk result (Draws (Some self.old.left) (Some self.new.left)) }
        ensures kept { OnErr result (self.new.left ≡ self.old.left) }
        ensures cause { HasCause self.old.faults self.new.faults result }
        ensures fails { IsErr result ↔
            (IsTrue (fails_at self.old.fails self.new.calls) ⊎ (self.old.left ≡ [])) }
        ensures calls { self.new.calls ≡ risen self.old.calls }
        ensures planned { self.new.fails ≡ self.old.fails }
        ensures faults { self.new.faults ≡ faults_after result self.old.faults }
    {
        raise(&mut self.calls);
        if self.at == self.values.len() || is_to_fail(&self.fails, self.calls) {
            return Err(fault(&mut self.faults));
        }
        let value = self.values[self.at];
        self.at += 1;
        Ok(value)
    }
}
