//! Views of a disk in memory.
ghost use Rattle.std.specs.Prelude.{◌≡◌, ◌+◌, ◌≤◌, ◌==◌, Some, IfSome, OnOk, OnErr, IsErr, IsTrue, ◌↔◌, length, take, drop};
ghost use Rattle.std.specs.List.{list_any};
ghost use Rattle.lsm_io.specs.Causes.{Rose};
ghost use Rattle.lsm_memdisk.specs.View.{new_view, next_read, read_starts};

use lsm_disk::{View, ViewFault};
use std::marker::Model;

/// A copy of a file's first bytes, with the reads that are to fail, counted from 1.
#[derive(Drop)]
pub struct MemView {
    bytes: Vec<u8>,
    fails: Vec<u64>,
    reads: u64,
    starts: u64,
    faults: u64,
}

impl Model for MemView {
    ghost use Rattle.std.specs.Prelude.{Some, length};
    ghost use Rattle.lsm_memdisk.specs.View.{Shown, coded_view};

    ghost Value = { Shown };

    ghost coded = { coded_view };

    ghost view = { λ v. record { viewed = record { bytes = Some v.bytes.items; len = length v.bytes.items; faults = v.faults }; fails = v.fails.items; reads = v.reads; starts = v.starts } };
}

/// How many reads began at place 0, after one at this place.
fn read_starts(starts: u64, at: u64) -> u64
    ensures { result ≡ read_starts starts at }
{
    if at == 0 {
        starts.saturating_add(1)
    } else {
        starts
    }
}

fn is_among(numbers: &[u64], number: u64) -> bool
    ensures { result ≡ list_any (λ n. n == number) numbers.now }
{
    numbers.iter().any(|n| *n == number)
}

impl MemView {
    pub(crate) fn new(bytes: Vec<u8>, fails: Vec<u64>) -> MemView
        ensures { result ≡ new_view bytes.items fails.items }
    {
        MemView {
            bytes,
            fails,
            reads: 0,
            starts: 0,
            faults: 0,
        }
    }

    /// How many reads began at place 0.
    pub(crate) fn starts(&self) -> u64
        ensures { result ≡ self.now.starts }
    {
        self.starts
    }

    pub(crate) fn faults(&self) -> u64
        ensures { result ≡ self.now.viewed.faults }
    {
        self.faults
    }
}

impl View for MemView {
    ghost viewed = { λ v. v.viewed };

    fn len(&self) -> u64 {
        self.bytes.len() as u64
    }

    fn read_at(&mut self, at: u64, into: &mut [u8]) -> Result<(), ViewFault>
        requires { at + length into.old ≤ self.old.viewed.len }
        ensures read { OnOk result (IfSome self.old.viewed.bytes (λ bytes. into.new ≡ take (length into.old) (drop at bytes))) }
        ensures bytes { self.new.viewed.bytes ≡ self.old.viewed.bytes }
        ensures len { self.new.viewed.len ≡ self.old.viewed.len }
        ensures later { self.old.viewed.faults ≤ self.new.viewed.faults }
        ensures cause { OnErr result (Rose self.old.viewed.faults self.new.viewed.faults) }

        // It fails exactly where this read is to fail.
        ensures planned { IsErr result ↔ IsTrue (list_any (λ nth. nth == next_read self.old) self.old.fails) }
        ensures fails { self.new.fails ≡ self.old.fails }
        ensures reads { self.new.reads ≡ next_read self.old }
        ensures starts { self.new.starts ≡ read_starts self.old.starts at }
    {
        self.reads = self.reads.saturating_add(1);
        self.starts = read_starts(self.starts, at);
        let reads = self.reads;
        if is_among(&self.fails, reads) {
            self.faults = self.faults.saturating_add(1);
            return Err(ViewFault);
        }
        let at = at as usize;
        into.copy_from_slice(&self.bytes[at..at + into.len()]);
        Ok(())
    }
}
