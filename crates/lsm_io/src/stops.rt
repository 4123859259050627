//! Who may stop a call that works in pieces.
ghost use Rattle.std.specs.Prelude.{◌≡◌, ◌↔◌, ◌≤◌, ℕ, IsTrue, false};
ghost use Rattle.lsm_io.specs.Causes.{risen};
ghost use Rattle.lsm_io.specs.Stopping.{asked_after};

use crate::counts::raise;
use std::marker::Model;

/// A question that a long call puts between two of its pieces: whether it is to stop.
pub trait Stop {
    /// How often it was looked at, up to 2^64 - 1.
    ghost looks: { Self → ℕ };

    /// How many of these looks answered true, up to 2^64 - 1.
    ghost asked: { Self → ℕ };

    /// True asks the call to stop.
    fn look(&mut self) -> bool
        ensures looked { looks self.new ≡ risen (looks self.old) }
        ensures answered { asked self.new ≡ asked_after result (asked self.old) };
}

/// Never asks. Contracts see how often it was looked at.
#[derive(Drop)]
pub struct NoStop {
    looks: u64,
}

impl Model for NoStop {
    ghost use Rattle.std.specs.Prelude.{ℕ};

    ghost Value = { ℕ };

    ghost view = { λ s. s.looks };
}

impl NoStop {
    /// One that hasn't been looked at.
    pub fn new() -> Self
        ensures { result ≡ 0 }
    {
        NoStop { looks: 0 }
    }
}

impl Stop for NoStop {
    ghost looks = { λ s. s };

    ghost asked = { λ s. 0 };

    fn look(&mut self) -> bool
        ensures looked { self.new ≡ risen self.old }
        ensures never { result ≡ false }
    {
        raise(&mut self.looks);
        false
    }
}

/// Asks from a look on.
#[derive(Drop)]
pub struct StopAt {
    at: u64,
    looks: u64,
    asked: u64,
}

impl Model for StopAt {
    ghost use Rattle.lsm_io.specs.Stopping.{Stopping};

    ghost Value = { Stopping };

    ghost view = { λ s. record { at = s.at; looks = s.looks; asked = s.asked } };
}

impl StopAt {
    /// Answers true from its look of this number on, counted from 1. `StopAt::new(0)` is `StopAt::new(1)`.
    pub fn new(at: u64) -> Self
        ensures { result ≡ record { at = at; looks = 0; asked = 0 } }
    {
        StopAt {
            at,
            looks: 0,
            asked: 0,
        }
    }
}

impl Stop for StopAt {
    ghost looks = { λ s. s.looks };

    ghost asked = { λ s. s.asked };

    fn look(&mut self) -> bool
        ensures looked { self.new.looks ≡ risen self.old.looks }
        ensures answered { self.new.asked ≡ asked_after result self.old.asked }
        ensures from_then_on { IsTrue result ↔ (self.old.at ≤ self.new.looks) }
        ensures same { self.new.at ≡ self.old.at }
    {
        raise(&mut self.looks);
        if self.looks < self.at {
            return false;
        }
        raise(&mut self.asked);
        true
    }
}
