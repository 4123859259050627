//! The writer of a log.
ghost use Rattle.std.specs.Prelude.{◌≡◌, ◌++◌, ◌+◌, ◌%◌, ◌<◌, ℕ, length, OnOk, OnErr};
ghost use Rattle.lsm_frame.specs.Begins.{Begins};
ghost use Rattle.lsm_frame.specs.Frames.{record_text};

use crate::pieces::{BLOCK, HEADER, push_pieces, push_zeros};
use lsm_bytes::{Bytes, NoMemory};
use std::marker::Model;

/// Lays records out in blocks. Contracts see the offset in its block at which the next record goes.
#[derive(Drop)]
pub struct FrameWriter {
    offset: usize,
}

impl Model for FrameWriter {
    ghost use Rattle.std.specs.Prelude.{ℕ, ◌<◌};

    ghost Value = { ℕ };

    ghost view = { λ w. w.offset };

    ghost invariant = { λ w. w.offset < 32768 };
}

impl FrameWriter {
    /// A writer behind a file of this length in bytes.
    pub fn new(at: u64) -> Self
        ensures { result ≡ at % 32768 }
    {
        FrameWriter {
            offset: (at % BLOCK as u64) as usize,
        }
    }

    /// Adds one record to `out`, which need not hold the file's earlier text. `out` grows by its own allocator.
    pub fn add(&mut self, payload: &[u8], out: &mut Bytes) -> Result<(), NoMemory>
        requires { 0 < length payload.now }
        ensures text { OnOk result (out.new ≡ out.old ++ record_text self.old payload.now) }
        ensures place { OnOk result (self.new ≡ (self.old + length (record_text self.old payload.now)) % 32768) }
        ensures refused { OnErr result (out.new ≡ out.old) }
        ensures stays { OnErr result (self.new ≡ self.old) }
    {
        let before = out.len();
        match push_record(out, self.offset, payload) {
            Ok(()) => {
                self.offset = (self.offset + (out.len() - before)) % BLOCK;
                Ok(())
            }
            Err(refused) => {
                out.truncate(before);
                Err(refused)
            }
        }
    }
}

// Writes one record behind an offset in a block. After an error some of it may stand behind what was there.
#[tactic(auto, using(crate::proofs::Beginnings::beginnings), unfolding(crate::specs::Frames::record_text))]
fn push_record(out: &mut Bytes, offset: usize, payload: &[u8]) -> Result<(), NoMemory>
    requires { offset < 32768 }
    ensures text { OnOk result (out.new ≡ out.old ++ record_text offset payload.now) }
    ensures begins { Begins out.old out.new }
{
    if offset > BLOCK - HEADER {
        push_zeros(out, BLOCK - offset)?;
        push_pieces(out, 0, payload)?;
    } else {
        push_pieces(out, offset, payload)?;
    }
    Ok(())
}
