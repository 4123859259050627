//! Looking for a record from a place on.
ghost use Rattle.std.specs.Prelude.{◌≡◌, ◌≤◌, ℕ, List, IfOk, IfErr};
ghost use Rattle.lsm_io.specs.Causes.{Rose};
ghost use Rattle.lsm_frame.specs.Loaded.{Loads};
ghost use Rattle.lsm_frame.specs.Found.{IsFound, LeadsTo};
ghost use Rattle.lsm_frame.specs.Reader.{Tells, Stays};
ghost use Rattle.lsm_frame.specs.declared.next.Refusal.TheVariants.{ReadFault};

use crate::Ending;
use crate::loaded::{Loaded, bring, rest_of};
use crate::next::Refusal;
use crate::steps::{Step, end_inside, take_step};
use lsm_bytes::Bytes;
use lsm_disk::View;
use std::alloc::Global;

/// What stands where a record is looked for: the text's end, or a record and where the next one is looked for.
#[derive(Drop)]
pub(crate) enum Found {
    Over(Ending),
    Record {
        place: u64,
        next: u64,
        payload: Bytes,
    },
}

/// Reads the record that is looked for at a place.
pub(crate) fn read_record<V: View>(
    view: &mut V,
    loaded: &mut Loaded,
    alloc: Global,
    from: u64,
) -> Result<Found, Refusal>
    requires from { from ≤ (V.viewed view.old).len }
    requires loads { Loads (V.viewed view.old) loaded.old.buffer.items loaded.old.base }
    ensures is { IfOk result (λ found. (text : List ℕ) → Tells (V.viewed view.old) text → IsFound text from found) }
    ensures leads { IfOk result (λ found. LeadsTo from (V.viewed view.old).len found) }
    ensures loads { Loads (V.viewed view.new) loaded.new.buffer.items loaded.new.base }
    ensures stays { Stays (V.viewed view.old) (V.viewed view.new) }
    ensures cause { IfErr result (λ e. (e ≡ ReadFault) → Rose (V.viewed view.old).faults (V.viewed view.new).faults) }
{
    let len = view.len();
    let mut payload = Bytes::new(alloc);
    let mut begun: Option<u64> = None;
    let mut at = from;
    while at < len {
        bring(view, loaded, alloc, at)?;
        match take_step(rest_of(&loaded.buffer, len, at), at, begun, &mut payload)? {
            Step::Over(ending) => return Ok(Found::Over(ending)),
            Step::Record { place, next } => {
                return Ok(Found::Record {
                    place,
                    next,
                    payload,
                });
            }
            Step::More { begun: place, next } => {
                begun = place;
                at = next;
            }
        }
    }
    Ok(Found::Over(end_inside(begun, Ending::End)))
}
