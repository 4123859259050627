//! Where bytes come from.
ghost use Rattle.std.specs.Prelude.{◌≡◌, ◌<◌, ◌↔◌, ℕ, List, Option, Some, length, min};
ghost use Rattle.std.specs.Prelude.{IsErr, IsTrue, IfOk};
ghost use Rattle.std.specs.Io.{ReadsAtMost};
ghost use Rattle.std.specs.Io.KnownBytes.{ReadConsumes};
ghost use Rattle.lsm_io.specs.Causes.{HasCause, risen};
ghost use Rattle.lsm_io.specs.Scripted.{remaining_new, fails_at, faults_after};

use crate::Failed;
use crate::counts::{fault, is_to_fail, raise};
use std::marker::Model;

/// A stream of bytes that ends.
pub trait Source {
    /// The bytes that are left, where the source tells them.
    ghost left: { Self → Option (List ℕ) };

    /// How often it has failed, up to 2^64 - 1. A new source has not.
    ghost faults: { Self → ℕ };

    /// Reads at least one byte, and none only at the end. It may give fewer bytes than there is room for. After a failure
    /// no byte is lost.
    fn read(&mut self, into: &mut [u8]) -> Result<usize, Failed>
        requires { 0 < length into.old }
        ensures bound { ReadsAtMost result into.new }
        ensures bytes { ReadConsumes (left self.old) (left self.new) result into.new }
        ensures cause { HasCause (faults self.old) (faults self.new) result };
}

/// Bytes in memory. It fills the room that a call has, or gives all that is left where that is less. It looks its
/// failing calls up one by one, so these should be few.
#[derive(Drop)]
pub struct MemSource {
    bytes: Vec<u8>,
    at: usize,
    fails: Vec<u64>,
    calls: u64,
    faults: u64,
}

impl Model for MemSource {
    ghost use Rattle.std.specs.Prelude.{ℕ, ◌≤◌, drop, vec_len};
    ghost use Rattle.lsm_io.specs.Scripted.{Remaining};

    ghost Value = { Remaining ℕ };

    ghost view = { λ s. record {
      left = drop s.at s.bytes.items;
      calls = s.calls;
      fails = s.fails.items;
      faults = s.faults;
    } };

    ghost invariant = { λ s. s.at ≤ vec_len s.bytes };
}

impl MemSource {
    /// A source of these bytes. `fails` are the numbers of the calls that fail, counted from 1, in any order.
    pub fn new(bytes: Vec<u8>, fails: Vec<u64>) -> Self
        ensures { result ≡ remaining_new bytes.items fails.items }
    {
        MemSource {
            bytes,
            at: 0,
            fails,
            calls: 0,
            faults: 0,
        }
    }
}

impl Source for MemSource {
    ghost left = { λ s. Some s.left };

    ghost faults = { λ s. s.faults };

    fn read(&mut self, into: &mut [u8]) -> Result<usize, Failed>
        requires { 0 < length into.old }
        ensures bound { ReadsAtMost result into.new }
        ensures bytes { ReadConsumes (Some self.old.left) (Some self.new.left) result into.new }
        ensures cause { HasCause self.old.faults self.new.faults result }
        ensures fails { IsErr result ↔ IsTrue (fails_at self.old.fails self.new.calls) }
        ensures filled { IfOk result (λ n. n ≡ min (length into.old) (length self.old.left)) }
        ensures calls { self.new.calls ≡ risen self.old.calls }
        ensures planned { self.new.fails ≡ self.old.fails }
        ensures faults { self.new.faults ≡ faults_after result self.old.faults }
    {
        raise(&mut self.calls);
        if is_to_fail(&self.fails, self.calls) {
            return Err(fault(&mut self.faults));
        }
        let count = into.len().min(self.bytes.len() - self.at);
        into[..count].copy_from_slice(&self.bytes[self.at..self.at + count]);
        self.at += count;
        Ok(count)
    }
}
