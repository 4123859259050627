//! An edit's text, written.
ghost use Rattle.std.specs.Prelude.{◌≡◌, ◌++◌, ◌∷◌, ℕ, Some, None, IfOk, OnOk};
ghost use Rattle.std.specs.List.{flat_map};
ghost use Rattle.lsm_bytes.specs.Varint.{varint};
ghost use Rattle.lsm_rows.specs.BatchText.{sized};
ghost use Rattle.lsm_version.specs.declared.fields.Field.TheVariants.{Added, Dropped};
ghost use Rattle.lsm_version.specs.EditText.{place_text, rest_text, field_text, edit_text};

use crate::edits::Edit;
use crate::fields::{ADDED, DROPPED, LAST_SEQUENCE, LOG_NUMBER, NEXT_NUMBER};
use crate::tables::{Add, Place, TableInfo};
use lsm_bytes::{Bytes, NoMemory, push_varint};
use std::alloc::Global;

// The field of a number that an edit sets, and nothing where it sets none.
fn push_given(out: &mut Bytes, tag: u8, given: Option<u64>) -> Result<(), NoMemory>
    ensures none { OnOk result (given ≡ None → out.new ≡ out.old) }
    ensures some { OnOk result ((n : ℕ) → given ≡ Some n → out.new ≡ out.old ++ tag ∷ varint n) }
{
    if let Some(number) = given {
        out.push(tag)?;
        push_varint(out, number)?;
    }
    Ok(())
}

// A byte list's length, and the list.
fn push_sized(out: &mut Bytes, bytes: &[u8]) -> Result<(), NoMemory>
    ensures { OnOk result (out.new ≡ out.old ++ sized bytes.now) }
{
    push_varint(out, bytes.len() as u64)?;
    out.extend_from_slice(bytes)?;
    Ok(())
}

// A level and a number.
#[tactic(auto, unfolding(crate::specs::EditText::place_text))]
fn push_place(out: &mut Bytes, level: u8, number: u64) -> Result<(), NoMemory>
    ensures { OnOk result (out.new ≡ out.old ++ place_text level number) }
{
    push_varint(out, u64::from(level))?;
    push_varint(out, number)?;
    Ok(())
}

// What stands behind a table's level and number.
#[tactic(auto, unfolding(crate::specs::EditText::rest_text))]
fn push_rest(out: &mut Bytes, table: &TableInfo) -> Result<(), NoMemory>
    ensures { OnOk result (out.new ≡ out.old ++ rest_text table.now) }
{
    out.extend_from_slice(table.session.as_bytes())?;
    push_varint(out, table.size)?;
    push_sized(out, table.smallest.as_slice())?;
    push_sized(out, table.largest.as_slice())?;
    Ok(())
}

// The fields of the tables added.
fn push_adds(out: &mut Bytes, adds: &[Add]) -> Result<(), NoMemory>
    ensures { OnOk result (out.new ≡ out.old ++ flat_map (λ add. field_text (Added add)) adds.now) }
{
    for add in adds {
        push_add(out, add)?;
    }
    Ok(())
}

// The field of a table added.
#[tactic(auto, unfolding(crate::specs::EditText::field_text))]
fn push_add(out: &mut Bytes, add: &Add) -> Result<(), NoMemory>
    ensures { OnOk result (out.new ≡ out.old ++ field_text (Added add.now)) }
{
    out.push(ADDED)?;
    push_place(out, add.level, add.table.number)?;
    push_rest(out, &add.table)?;
    Ok(())
}

// The fields of the tables dropped.
fn push_drops(out: &mut Bytes, drops: &[Place]) -> Result<(), NoMemory>
    ensures { OnOk result (out.new ≡ out.old ++ flat_map (λ place. field_text (Dropped place)) drops.now) }
{
    for place in drops {
        push_drop(out, *place)?;
    }
    Ok(())
}

// The field of a table dropped.
#[tactic(auto, unfolding(crate::specs::EditText::field_text))]
fn push_drop(out: &mut Bytes, place: Place) -> Result<(), NoMemory>
    ensures { OnOk result (out.new ≡ out.old ++ field_text (Dropped place)) }
{
    out.push(DROPPED)?;
    push_place(out, place.level, place.number)?;
    Ok(())
}

/// The edit's text. It is in the grammar where the edit's values are in their ranges and its tables ascend.
pub fn encode_edit(alloc: Global, edit: &Edit) -> Result<Bytes, NoMemory>
    ensures { IfOk result (λ text. text ≡ edit_text edit.now) }
{
    let mut text = Bytes::new(alloc);
    push_given(&mut text, LOG_NUMBER, edit.log)?;
    push_given(&mut text, NEXT_NUMBER, edit.next)?;
    push_given(&mut text, LAST_SEQUENCE, edit.last)?;
    push_adds(&mut text, edit.adds.as_slice())?;
    push_drops(&mut text, edit.drops.as_slice())?;
    Ok(text)
}
