//! A view of a text in memory.
ghost use Rattle.std.specs.Prelude.{None, length};

use lsm_disk::{View, ViewFault};

/// A text in memory, which tells its length alone. The read of this number fails, counted from 1.
#[derive(Drop)]
pub struct TextView {
    bytes: Vec<u8>,
    fails: u64,
    reads: u64,
    faults: u64,
}

impl TextView {
    /// A view of these bytes. No read fails where `fails` is 0.
    pub fn new(bytes: Vec<u8>, fails: u64) -> TextView {
        TextView {
            bytes,
            fails,
            reads: 0,
            faults: 0,
        }
    }

    /// How many reads there were.
    pub fn reads(&self) -> u64 {
        self.reads
    }
}

impl View for TextView {
    ghost viewed = { λ v. record { bytes = None; len = length v.bytes.items; faults = v.faults } };

    fn len(&self) -> u64 {
        self.bytes.len() as u64
    }

    fn read_at(&mut self, at: u64, into: &mut [u8]) -> Result<(), ViewFault> {
        self.reads = self.reads.saturating_add(1);
        if self.reads == self.fails {
            self.faults = self.faults.saturating_add(1);
            return Err(ViewFault);
        }
        let at = at as usize;
        into.copy_from_slice(&self.bytes[at..at + into.len()]);
        Ok(())
    }
}
