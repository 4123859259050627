//! An edit's text, read: exactly the texts of the grammar, or the first place at which a text leaves it.
ghost use Rattle.std.specs.Prelude.{◌≡◌, IfOk, IfErr, OnOk, OnErr};
ghost use Rattle.lsm_version.specs.Edits.{IsEditText, rank_of};
ghost use Rattle.lsm_version.specs.Decoding.{IsBad};
ghost use Rattle.lsm_version.specs.Reading.{with_field};

use crate::edits::{Adds, Drops, Edit};
use crate::field_reading::read_field;
use crate::fields::{ADDED, DROPPED, Field, LAST_SEQUENCE, LOG_NUMBER, NEXT_NUMBER, Rank};
use crate::refusals::EditError;
use lsm_bytes::NoMemory;
use std::alloc::Global;

/// The edit that the bytes are the text of. It takes memory for what it has read alone, whatever lengths the bytes
/// claim.
pub fn decode_edit(alloc: Global, bytes: &[u8]) -> Result<Edit, EditError>
    ensures ok { IfOk result (λ edit. IsEditText bytes.now edit) }
    ensures bad { IfErr result (λ e. IsBad bytes.now e) }
{
    let mut edit = Edit {
        log: None,
        next: None,
        last: None,
        adds: Adds::new(alloc),
        drops: Drops::new(alloc),
    };
    let mut at = 0;
    let mut after = Rank {
        tag: 0,
        level: 0,
        number: 0,
    };
    while at < bytes.len() {
        let (field, next) = read_field(alloc, bytes, at, after)?;
        after = rank_of(&field);
        add_field(&mut edit, field)?;
        at = next;
    }
    Ok(edit)
}

// Where the field stands in the order of fields.
#[tactic(auto, unfolding(crate::specs::Edits::rank_of))]
fn rank_of(field: &Field) -> Rank
    ensures { result ≡ rank_of field.now }
{
    match field {
        Field::LogNumber(_) => rank_at(LOG_NUMBER, 0, 0),
        Field::NextNumber(_) => rank_at(NEXT_NUMBER, 0, 0),
        Field::LastSequence(_) => rank_at(LAST_SEQUENCE, 0, 0),
        Field::Added(add) => rank_at(ADDED, add.level, add.table.number),
        Field::Dropped(place) => rank_at(DROPPED, place.level, place.number),
    }
}

// A rank.
fn rank_at(tag: u8, level: u8, number: u64) -> Rank
    ensures { result ≡ record { tag = tag; level = level; number = number } }
{
    Rank { tag, level, number }
}

// Puts one more field into the edit.
fn add_field(edit: &mut Edit, field: Field) -> Result<(), NoMemory>
    ensures { OnOk result (edit.new ≡ with_field edit.old field) }
{
    match field {
        Field::LogNumber(number) => edit.log = Some(number),
        Field::NextNumber(number) => edit.next = Some(number),
        Field::LastSequence(number) => edit.last = Some(number),
        Field::Added(add) => edit.adds.push(add)?,
        Field::Dropped(place) => edit.drops.push(place)?,
    }
    Ok(())
}
