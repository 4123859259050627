//! A log's text, read: its batches, in their order, or the first trouble.
ghost use Rattle.std.specs.Prelude.{◌≡◌, ◌+◌, ◌*◌, ◌≤◌, ℕ, List, IfOk, IfErr};
ghost use Rattle.lsm_io.specs.Causes.{Rose};
ghost use Rattle.lsm_rows.specs.Decoding.{IsBatchText};
ghost use Rattle.lsm_rows.specs.Replay.{sequence_after};
ghost use Rattle.lsm_frame.specs.Reader.{Tells, Stays};
ghost use Rattle.lsm_wal.specs.Reading.{At_end, IsReading, IsTrouble, open_end};
ghost use Rattle.lsm_wal.specs.Stepping.{IsNotTaken, IsNext, IsLost, Follows};
ghost use Rattle.lsm_wal.specs.declared.why.WalWhy.TheVariants as refusals;

use crate::{Batches, WalWhy};
use lsm_disk::View;
use lsm_frame::{FrameError, FrameReader, Next};
use lsm_rows::{Batch, BatchError, decode_batch};
use std::alloc::Global;

/// A log that was read.
#[derive(Drop)]
pub struct WalRead<V> {
    /// The batches, in their order.
    pub batches: Batches,
    /// The last sequence of the batches, or the one before the expected one where there is no batch.
    pub last: u64,
    /// Where a torn record begins behind the batches, in bytes from the log's start.
    pub torn: Option<u64>,
    /// The view, handed back.
    pub view: V,
}

/// A log that could not be read.
#[derive(Drop)]
pub struct WalError<V> {
    pub why: WalWhy,
    /// The view, handed back.
    pub view: V,
}

// What stands behind the batches that were read so far: one more, or the end.
#[derive(Drop)]
pub(crate) enum Step {
    More(Batch),
    Over(Option<u64>),
}

// What all records were read to.
#[derive(Drop)]
pub(crate) struct Whole {
    batches: Batches,
    next: u64,
    torn: Option<u64>,
}

// The batch of the record at a place, which has the expected sequence.
fn take_batch(alloc: Global, text: &[u8], place: u64, expected: u64) -> Result<Batch, WalWhy>
    ensures ok { IfOk result (λ batch. IsBatchText text.now expected batch) }
    ensures bad { IfErr result (IsNotTaken text.now place expected) }
{
    match decode_batch(alloc, text) {
        Ok((first, batch)) => {
            if first != expected {
                return Err(WalWhy::Gap {
                    kept: expected,
                    found: first,
                });
            }
            Ok(batch)
        }
        Err(BatchError::BadBatch { .. }) => Err(WalWhy::BadBatch { place }),
        Err(BatchError::NoMemory) => Err(WalWhy::NoMemory),
    }
}

// The next batch, or how the log ends.
fn read_next<V: View>(
    alloc: Global,
    reader: &mut FrameReader<V>,
    expected: u64,
) -> Result<Step, WalWhy>
    ensures next { IfOk result (λ step. (text : List ℕ) → Tells reader.old.viewed text → IsNext text reader.old.given expected step) }
    ensures lost { IfErr result (λ why. (text : List ℕ) → Tells reader.old.viewed text → IsLost text reader.old.given expected why) }
    ensures follows { IfOk result (Follows reader.old reader.new expected) }
    ensures few { 7 * reader.new.given ≤ reader.new.viewed.len }
    ensures view { Stays reader.old.viewed reader.new.viewed }
    ensures cause { IfErr result (λ why. why ≡ refusals.ReadFault → Rose reader.old.viewed.faults reader.new.viewed.faults) }
{
    match reader.next() {
        Ok(Next::Record(text)) => {
            let batch = take_batch(alloc, text.as_slice(), reader.place(), expected)?;
            Ok(Step::More(batch))
        }
        Ok(Next::End) => Ok(Step::Over(None)),
        Ok(Next::Torn { place }) => Ok(Step::Over(Some(place))),
        Err(FrameError::ReadFault) => Err(WalWhy::ReadFault),
        Err(FrameError::Damaged { place, kept, found }) => {
            Err(WalWhy::Damaged { place, kept, found })
        }
        Err(FrameError::Malformed { place }) => Err(WalWhy::Malformed { place }),
        Err(FrameError::NoMemory) => Err(WalWhy::NoMemory),
    }
}

// All batches, of which the first has the expected sequence.
fn read_all<V: View>(
    alloc: Global,
    reader: &mut FrameReader<V>,
    expected: u64,
) -> Result<Whole, WalWhy>
    requires some { 1 ≤ expected }
    requires start { reader.old.given ≡ 0 }
    ensures read { IfOk result (λ whole. (text : List ℕ) → Tells reader.old.viewed text
        → IsReading expected text whole.batches (At_end (open_end whole.torn))) }
    ensures lost { IfErr result (λ why. (text : List ℕ) → Tells reader.old.viewed text → IsTrouble expected text why) }
    ensures next { IfOk result (λ whole. whole.next ≡ sequence_after expected whole.batches) }
    ensures some { IfOk result (λ whole. 1 ≤ whole.next) }
    ensures view { Stays reader.old.viewed reader.new.viewed }
    ensures cause { IfErr result (λ why. why ≡ refusals.ReadFault → Rose reader.old.viewed.faults reader.new.viewed.faults) }
{
    let mut batches = Batches::new(alloc);
    let mut next = expected;
    loop {
        match read_next(alloc, reader, next)? {
            Step::More(batch) => {
                next += batch.len() as u64;
                let Ok(()) = batches.push(batch) else {
                    return Err(WalWhy::NoMemory);
                };
            }
            Step::Over(torn) => {
                return Ok(Whole {
                    batches,
                    next,
                    torn,
                });
            }
        }
    }
}

/// Reads a log through a view of it, of which the first batch has the sequence `expected`, at least 1. The view is read block
/// by block, from its start to its end or to the first trouble, and is handed back.
pub fn read_wal<V: View>(alloc: Global, view: V, expected: u64) -> Result<WalRead<V>, WalError<V>>
    requires { 1 ≤ expected }

    // Where the view tells its text, Ok tells all batches and how the text ends, and a refusal is its first trouble.
    ensures read { IfOk result (λ log. (text : List ℕ) → Tells (V.viewed view) text
        → IsReading expected text log.batches (At_end (open_end log.torn))) }
    ensures trouble { IfErr result (λ error. (text : List ℕ) → Tells (V.viewed view) text → IsTrouble expected text error.why) }

    ensures last { IfOk result (λ log. log.last + 1 ≡ sequence_after expected log.batches) }
    ensures handed { IfOk result (λ log. Stays (V.viewed view) (V.viewed log.view)) }
    ensures handed_back { IfErr result (λ error. Stays (V.viewed view) (V.viewed error.view)) }
    ensures cause { IfErr result (λ error. error.why ≡ refusals.ReadFault → Rose (V.viewed view).faults (V.viewed error.view).faults) }
{
    let mut reader = FrameReader::new(alloc, view);
    match read_all(alloc, &mut reader, expected) {
        Ok(whole) => Ok(WalRead {
            batches: whole.batches,
            last: whole.next - 1,
            torn: whole.torn,
            view: reader.into_view(),
        }),
        Err(why) => Err(WalError {
            why,
            view: reader.into_view(),
        }),
    }
}
