//! A batch's text, written.
ghost use Rattle.std.specs.Prelude.{◌≡◌, ◌+◌, ◌≤◌, ◌<◌, ◌^◌, ◌++◌, length, IfOk, OnOk};
ghost use Rattle.lsm_rows.specs.BatchText.{sized, op_text, batch_text};

use crate::{Batch, Op};
use lsm_bytes::{Bytes, NoMemory, push_varint};
use std::alloc::Global;

// A byte list's length, and the list.
#[tactic(auto, unfolding(crate::specs::BatchText::sized))]
fn push_sized(out: &mut Bytes, bytes: &[u8]) -> Result<(), NoMemory>
    ensures { OnOk result (out.new ≡ out.old ++ sized bytes.now) }
{
    push_varint(out, bytes.len() as u64)?;
    out.extend_from_slice(bytes)?;
    Ok(())
}

// One operation's kind byte, its key, and a put's value.
#[tactic(auto, unfolding(crate::specs::BatchText::op_text))]
fn push_op(out: &mut Bytes, op: &Op) -> Result<(), NoMemory>
    ensures { OnOk result (out.new ≡ out.old ++ op_text op.now) }
{
    match op {
        Op::Put { key, value } => {
            out.push(1)?;
            push_sized(out, key.as_slice())?;
            push_sized(out, value.as_slice())?;
        }
        Op::Delete { key } => {
            out.push(0)?;
            push_sized(out, key.as_slice())?;
        }
    }
    Ok(())
}

/// The batch's text, where its operations have the sequences from `first` on. The last of them is at most
/// 2^56 - 1, and a batch with no operations has no text.
#[tactic(auto, unfolding(crate::specs::BatchText::batch_text))]
pub fn encode_batch(alloc: Global, first: u64, batch: &Batch) -> Result<Bytes, NoMemory>
    requires some { 1 ≤ length batch.now }
    requires last { first + length batch.now ≤ 2 ^ 56 }
    ensures { IfOk result (λ text. text ≡ batch_text first batch.now) }
{
    let mut text = Bytes::new(alloc);
    text.reserve(batch.text_len())?;
    text.extend_from_slice(&first.to_le_bytes())?;
    text.extend_from_slice(&(batch.len() as u32).to_le_bytes())?;
    for op in batch.ops() {
        push_op(&mut text, op)?;
    }
    Ok(text)
}
