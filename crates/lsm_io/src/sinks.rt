//! Where bytes go.
ghost use Rattle.std.specs.Prelude.{◌≡◌, ◌++◌, ◌⊎◌, ℕ, List, [], Option, Some, take};
ghost use Rattle.std.specs.Prelude.{IsErr, IfSome, IfNone, OnErr, OnSome};
ghost use Rattle.lsm_io.specs.Causes.{HasCause, risen};
ghost use Rattle.lsm_io.specs.Takes.{Takes};
ghost use Rattle.lsm_io.specs.Scripted.{taking_new, cut_at, faults_after};

use crate::Failed;
use crate::counts::{fault, raise};
use std::alloc::Global;
use std::marker::Model;

/// A stream that takes bytes.
pub trait Sink {
    /// The bytes that it has taken, where it tells them.
    ghost taken: { Self → Option (List ℕ) };

    /// How often it has failed, up to 2^64 - 1. A new sink has not.
    ghost faults: { Self → ℕ };

    /// Takes all the bytes, in order. After a failure it has taken some first ones of them, which may be none or all.
    fn write(&mut self, bytes: &[u8]) -> Result<(), Failed>
        ensures bytes { Takes (taken self.old) (taken self.new) result bytes.now }
        ensures cause { HasCause (faults self.old) (faults self.new) result };
}

/// Bytes kept in memory. A write that finds no memory fails, and takes nothing. It looks its failing calls up one by
/// one, so these should be few.
#[derive(Drop)]
pub struct MemSink {
    bytes: Vec<u8>,
    fails: Vec<(u64, usize)>,
    calls: u64,
    faults: u64,
}

impl Model for MemSink {
    ghost use Rattle.lsm_io.specs.Scripted.{Taking};

    ghost Value = { Taking };

    ghost view = { λ s. record {
      taken = s.bytes.items;
      calls = s.calls;
      fails = s.fails.items;
      faults = s.faults;
    } };
}

impl MemSink {
    /// An empty sink. `fails` names calls by their numbers, counted from 1, and how many bytes each takes before it
    /// fails: the first of the piece's, or all where it has fewer. Of two entries for one call the first counts.
    pub fn new(alloc: Global, fails: Vec<(u64, usize)>) -> Self
        ensures { result ≡ taking_new fails.items }
    {
        MemSink {
            bytes: Vec::new(alloc),
            fails,
            calls: 0,
            faults: 0,
        }
    }

    /// All that it has taken.
    pub fn bytes(&self) -> &[u8]
        ensures { result.now ≡ self.now.taken }
    {
        &self.bytes
    }
}

// How many bytes the call of this number takes before it fails, where it is to fail.
fn cut_of(fails: &[(u64, usize)], call: u64) -> Option<usize>
    ensures { result ≡ cut_at fails.now call }
{
    fails.iter().find(|fail| fail.0 == call).map(|fail| fail.1)
}

impl Sink for MemSink {
    ghost taken = { λ s. Some s.taken };

    ghost faults = { λ s. s.faults };

    fn write(&mut self, bytes: &[u8]) -> Result<(), Failed>
        ensures bytes { Takes (Some self.old.taken) (Some self.new.taken) result bytes.now }
        ensures cause { HasCause self.old.faults self.new.faults result }
        ensures fails { OnSome (cut_at self.old.fails self.new.calls) (IsErr result) }

        // A failing call takes its first bytes, or nothing where there is no memory for them.
        ensures cut { IfSome (cut_at self.old.fails self.new.calls) (λ n.
            (self.new.taken ≡ self.old.taken ++ take n bytes.now) ⊎ (self.new.taken ≡ self.old.taken)) }
        ensures no_memory { IfNone (cut_at self.old.fails self.new.calls)
            (OnErr result (self.new.taken ≡ self.old.taken)) }
        ensures calls { self.new.calls ≡ risen self.old.calls }
        ensures planned { self.new.fails ≡ self.old.fails }
        ensures faults { self.new.faults ≡ faults_after result self.old.faults }
    {
        raise(&mut self.calls);
        match cut_of(&self.fails, self.calls) {
            Some(cut) => {
                let front = bytes.split_at(cut.min(bytes.len())).0;
                let _no_memory = self.bytes.extend_from_slice(front);
                Err(fault(&mut self.faults))
            }
            None => match self.bytes.extend_from_slice(bytes) {
                Ok(()) => Ok(()),
                Err(_) => Err(fault(&mut self.faults)),
            },
        }
    }
}
