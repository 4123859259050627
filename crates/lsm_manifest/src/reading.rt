//! A manifest's text, read: its edits, in their order, or the first trouble.
ghost use Rattle.std.specs.Prelude.{◌≡◌, ◌*◌, ◌≤◌, ℕ, List, IfOk, IfErr};
ghost use Rattle.lsm_io.specs.Causes.{Rose};
ghost use Rattle.lsm_version.specs.Edits.{IsEditText};
ghost use Rattle.lsm_frame.specs.Reader.{Tells, Stays};
ghost use Rattle.lsm_wal.specs.Reading.{open_end};
ghost use Rattle.lsm_manifest.specs.Reading.{At_end, IsReading, IsTrouble, IsNotTaken, IsNext, IsLost, Follows};
ghost use Rattle.lsm_manifest.specs.declared.why.ManifestWhy.TheVariants as refusals;

use crate::{Edits, ManifestWhy};
use lsm_disk::View;
use lsm_frame::{FrameError, FrameReader, Next};
use lsm_version::{Edit, EditError, decode_edit};
use std::alloc::Global;

/// A manifest that was read.
#[derive(Drop)]
pub struct ManifestRead<V> {
    /// The edits, in their order.
    pub edits: Edits,
    /// Where a torn record begins behind the edits, in bytes from the manifest's start.
    pub torn: Option<u64>,
    /// The view, handed back.
    pub view: V,
}

/// A manifest that could not be read.
#[derive(Drop)]
pub struct ManifestError<V> {
    pub why: ManifestWhy,
    /// The view, handed back.
    pub view: V,
}

// What stands behind the edits that were read so far: one more, or the end.
#[derive(Drop)]
pub(crate) enum Step {
    More(Edit),
    Over(Option<u64>),
}

// What all records were read to.
#[derive(Drop)]
pub(crate) struct Whole {
    edits: Edits,
    torn: Option<u64>,
}

// The edit of the record at a place.
fn take_edit(alloc: Global, text: &[u8], place: u64) -> Result<Edit, ManifestWhy>
    ensures ok { IfOk result (λ edit. IsEditText text.now edit) }
    ensures bad { IfErr result (IsNotTaken text.now place) }
{
    match decode_edit(alloc, text) {
        Ok(edit) => Ok(edit),
        Err(EditError::BadEdit { .. }) => Err(ManifestWhy::BadEdit { place }),
        Err(EditError::NoMemory) => Err(ManifestWhy::NoMemory),
    }
}

// The next edit, or how the manifest ends.
fn read_next<V: View>(alloc: Global, reader: &mut FrameReader<V>) -> Result<Step, ManifestWhy>
    ensures next { IfOk result (λ step. (text : List ℕ) → Tells reader.old.viewed text → IsNext text reader.old.given step) }
    ensures lost { IfErr result (λ why. (text : List ℕ) → Tells reader.old.viewed text → IsLost text reader.old.given why) }
    ensures follows { IfOk result (Follows reader.old reader.new) }
    ensures few { 7 * reader.new.given ≤ reader.new.viewed.len }
    ensures view { Stays reader.old.viewed reader.new.viewed }
    ensures cause { IfErr result (λ why. why ≡ refusals.ReadFault → Rose reader.old.viewed.faults reader.new.viewed.faults) }
{
    match reader.next() {
        Ok(Next::Record(text)) => {
            let edit = take_edit(alloc, text.as_slice(), reader.place())?;
            Ok(Step::More(edit))
        }
        Ok(Next::End) => Ok(Step::Over(None)),
        Ok(Next::Torn { place }) => Ok(Step::Over(Some(place))),
        Err(FrameError::ReadFault) => Err(ManifestWhy::ReadFault),
        Err(FrameError::Damaged { place, kept, found }) => {
            Err(ManifestWhy::Damaged { place, kept, found })
        }
        Err(FrameError::Malformed { place }) => Err(ManifestWhy::Malformed { place }),
        Err(FrameError::NoMemory) => Err(ManifestWhy::NoMemory),
    }
}

// All edits.
fn read_all<V: View>(alloc: Global, reader: &mut FrameReader<V>) -> Result<Whole, ManifestWhy>
    requires start { reader.old.given ≡ 0 }
    ensures read { IfOk result (λ whole. (text : List ℕ) → Tells reader.old.viewed text
        → IsReading text whole.edits (At_end (open_end whole.torn))) }
    ensures lost { IfErr result (λ why. (text : List ℕ) → Tells reader.old.viewed text → IsTrouble text why) }
    ensures view { Stays reader.old.viewed reader.new.viewed }
    ensures cause { IfErr result (λ why. why ≡ refusals.ReadFault → Rose reader.old.viewed.faults reader.new.viewed.faults) }
{
    let mut edits = Edits::new(alloc);
    loop {
        match read_next(alloc, reader)? {
            Step::More(edit) => {
                let Ok(()) = edits.push(edit) else {
                    return Err(ManifestWhy::NoMemory);
                };
            }
            Step::Over(torn) => {
                return Ok(Whole { edits, torn });
            }
        }
    }
}

/// Reads a manifest through a view of it, block by block, from its start to its end or to the first
/// trouble. The view is handed back.
pub fn read_manifest<V: View>(alloc: Global, view: V) -> Result<ManifestRead<V>, ManifestError<V>>
    // Where the view tells its text, Ok tells all edits and how the text ends, and a refusal is its
    // first trouble.
    ensures read { IfOk result (λ manifest. (text : List ℕ) → Tells (V.viewed view) text
        → IsReading text manifest.edits (At_end (open_end manifest.torn))) }
    ensures trouble { IfErr result (λ error. (text : List ℕ) → Tells (V.viewed view) text → IsTrouble text error.why) }

    ensures handed { IfOk result (λ manifest. Stays (V.viewed view) (V.viewed manifest.view)) }
    ensures handed_back { IfErr result (λ error. Stays (V.viewed view) (V.viewed error.view)) }
    ensures cause { IfErr result (λ error. error.why ≡ refusals.ReadFault → Rose (V.viewed view).faults (V.viewed error.view).faults) }
{
    let mut reader = FrameReader::new(alloc, view);
    match read_all(alloc, &mut reader) {
        Ok(whole) => Ok(ManifestRead {
            edits: whole.edits,
            torn: whole.torn,
            view: reader.into_view(),
        }),
        Err(why) => Err(ManifestError {
            why,
            view: reader.into_view(),
        }),
    }
}
