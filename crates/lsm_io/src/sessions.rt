//! The names of sessions, which tell one run of a program from another.
ghost use Rattle.std.specs.Prelude.{◌≡◌, ◌↔◌, ◌⊎◌, ℕ, List, [], Option, Some, false};
ghost use Rattle.std.specs.Prelude.{IsErr, IsTrue, IfOk, OnErr};
ghost use Rattle.lsm_io.specs.Causes.{HasCause, risen};
ghost use Rattle.lsm_io.specs.Draws.{Draws};
ghost use Rattle.lsm_io.specs.Scripted.{remaining_new, fails_at, faults_after};
ghost use Rattle.lsm_io.specs.Session.{IsSession, is_session, is_session_byte, has_session};

use crate::Failed;
use crate::counts::{fault, is_to_fail, raise};
use std::marker::Model;

/// A giver of names for sessions.
pub trait Sessions {
    /// The names that are left to give, where the object tells them.
    ghost left: { Self → Option (List (List ℕ)) };

    /// How often it has failed, up to 2^64 - 1. A new one has not.
    ghost faults: { Self → ℕ };

    /// The next name: 20 bytes, each a digit or a capital letter of ASCII.
    fn next(&mut self) -> Result<[u8; 20], Failed>
        ensures spelled { IfOk result IsSession }
        ensures drawn { IfOk result (Draws (left self.old) (left self.new)) }
        ensures kept { OnErr result (left self.new ≡ left self.old) }
        ensures cause { HasCause (faults self.old) (faults self.new) result };
}

/// The names of a list. It fails past the last one, and at a name that isn't spelled as a session's, behind which it
/// never comes. It looks its failing calls up one by one, so these should be few.
#[derive(Drop)]
pub struct ListSessions {
    values: Vec<[u8; 20]>,
    at: usize,
    fails: Vec<u64>,
    calls: u64,
    faults: u64,
}

impl Model for ListSessions {
    ghost use Rattle.std.specs.Prelude.{ℕ, ◌≤◌, List, drop, vec_len};
    ghost use Rattle.lsm_io.specs.Scripted.{Remaining};

    ghost Value = { Remaining (List ℕ) };

    ghost view = { λ s. record {
      left = drop s.at s.values.items;
      calls = s.calls;
      fails = s.fails.items;
      faults = s.faults;
    } };

    ghost invariant = { λ s. s.at ≤ vec_len s.values };
}

impl ListSessions {
    /// These names. `fails` are the numbers of the calls that fail, counted from 1, in any order; such a call draws no
    /// name.
    pub fn new(values: Vec<[u8; 20]>, fails: Vec<u64>) -> Self
        ensures { result ≡ remaining_new values.items fails.items }
    {
        ListSessions {
            values,
            at: 0,
            fails,
            calls: 0,
            faults: 0,
        }
    }
}

fn is_session_byte(byte: u8) -> bool
    ensures { result ≡ is_session_byte byte }
{
    byte.is_ascii_digit() || byte.is_ascii_uppercase()
}

fn is_session(name: &[u8; 20]) -> bool
    ensures { result ≡ is_session name.now }
{
    name.iter().all(|byte| is_session_byte(*byte))
}

impl Sessions for ListSessions {
    ghost left = { λ s. Some s.left };

    ghost faults = { λ s. s.faults };

    fn next(&mut self) -> Result<[u8; 20], Failed>
        ensures spelled { IfOk result IsSession }
        ensures drawn { IfOk result (Draws (Some self.old.left) (Some self.new.left)) }
        ensures kept { OnErr result (self.new.left ≡ self.old.left) }
        ensures cause { HasCause self.old.faults self.new.faults result }
        ensures fails { IsErr result ↔
            (IsTrue (fails_at self.old.fails self.new.calls) ⊎ (has_session self.old.left ≡ false)) }
        ensures calls { self.new.calls ≡ risen self.old.calls }
        ensures planned { self.new.fails ≡ self.old.fails }
        ensures faults { self.new.faults ≡ faults_after result self.old.faults }
    {
        raise(&mut self.calls);
        if is_to_fail(&self.fails, self.calls) || self.at == self.values.len() {
            return Err(fault(&mut self.faults));
        }
        let name = self.values[self.at];
        if !is_session(&name) {
            return Err(fault(&mut self.faults));
        }
        self.at += 1;
        Ok(name)
    }
}
