//! Batches of operations that are applied together, kept within their limits.
ghost use Rattle.std.specs.Prelude.{◌≡◌, ◌+◌, ◌≤◌, ◌<◌, ◌^◌, ◌↔◌, ◌∷◌, ◌++◌, [], List, length, IsTrue, IfOk, OnOk, OnErr, MatchResult};
ghost use Rattle.lsm_rows.specs.declared.operations.Op.{Op};
ghost use Rattle.lsm_rows.specs.BatchText.{sized, text_len};
ghost use Rattle.lsm_rows.specs.Limits.{InLimits, refusal_of, refused_in, key_limit, value_limit};

use crate::limits::{HEADER, MAX_BYTES, MAX_COUNT, MAX_KEY, MAX_VALUE};
use crate::{BatchRefusal, Op, What};
use lsm_bytes::Bytes;
use std::alloc::Global;
use std::marker::Model;

/// Operations that are applied together, in their order. Contracts see the list of them.
///
/// A batch never passes its limits, and keeps the length of its text, so that adding an operation takes time by
/// that operation's bytes alone.
#[derive(Drop)]
pub struct Batch {
    alloc: Global,
    ops: Vec<Op>,
    size: usize,
}

impl Model for Batch {
    ghost Value = { List Op };

    ghost view = { λ b. b.ops.items };

    ghost invariant = { λ b. InLimits b.ops.items × (b.size ≡ text_len b.ops.items) };
}

impl Batch {
    /// A batch with no operations. It takes its memory from `alloc` as operations come in.
    pub fn new(alloc: Global) -> Self
        ensures { result ≡ [] }
    {
        Batch {
            alloc,
            ops: Vec::new(alloc),
            size: HEADER,
        }
    }

    /// A batch of operations whose text has this length.
    pub(crate) fn from_ops(alloc: Global, ops: Vec<Op>, size: usize) -> Self
        requires limits { InLimits ops.items }
        requires size { size ≡ text_len ops.items }
        ensures { result ≡ ops.items }
    {
        Batch { alloc, ops, size }
    }

    /// The number of operations.
    pub fn len(&self) -> usize
        ensures len { result ≡ length self.now }
        ensures limits { InLimits self.now }
    {
        self.ops.len()
    }

    /// Whether there are no operations. Such a batch has no text.
    pub fn is_empty(&self) -> bool
        ensures { IsTrue result ↔ (self.now ≡ []) }
    {
        self.ops.is_empty()
    }

    /// The operations, in their order.
    pub fn ops(&self) -> &[Op]
        ensures ops { result.now ≡ self.now }
        ensures limits { InLimits self.now }
    {
        &self.ops
    }

    /// The number of bytes of the batch's text.
    pub fn text_len(&self) -> usize
        ensures { result ≡ text_len self.now }
    {
        self.size
    }

    /// Adds a put at the end. The limits are tested before memory is taken.
    pub fn put(&mut self, key: &[u8], value: &[u8]) -> Result<(), BatchRefusal>
        ensures ok { OnOk result (self.new ≡ self.old ++ Op.Put key.now value.now ∷ []) }
        ensures err { OnErr result (self.new ≡ self.old) }
        ensures refused { refused_in result ≡ refusal_of self.old (Op.Put key.now value.now) }
    {
        let size = size_with_put(&self.ops, self.size, key, value)?;
        let key = Bytes::from_slice(self.alloc, key)?;
        let value = Bytes::from_slice(self.alloc, value)?;
        self.ops.push(Op::Put { key, value })?;
        self.size = size;
        Ok(())
    }

    /// Adds a delete at the end. The limits are tested before memory is taken.
    pub fn delete(&mut self, key: &[u8]) -> Result<(), BatchRefusal>
        ensures ok { OnOk result (self.new ≡ self.old ++ Op.Delete key.now ∷ []) }
        ensures err { OnErr result (self.new ≡ self.old) }
        ensures refused { refused_in result ≡ refusal_of self.old (Op.Delete key.now) }
    {
        let size = size_with_delete(&self.ops, self.size, key)?;
        let key = Bytes::from_slice(self.alloc, key)?;
        self.ops.push(Op::Delete { key })?;
        self.size = size;
        Ok(())
    }
}

// One limit's test.
fn test_limit(what: What, kept: usize, limit: usize) -> Result<(), BatchRefusal>
    ensures { MatchResult result (λ _. kept ≤ limit) (λ e. (e ≡ BatchRefusal.BatchTooLarge what kept limit) × (limit < kept)) }
{
    if kept > limit {
        return Err(BatchRefusal::BatchTooLarge {
            what,
            kept: kept as u64,
            limit: limit as u64,
        });
    }
    Ok(())
}

// The length of a batch's text with this put at its end.
fn size_with_put(ops: &[Op], size: usize, key: &[u8], value: &[u8]) -> Result<usize, BatchRefusal>
    requires limits { InLimits ops.now }
    requires size { size ≡ text_len ops.now }
    ensures size { IfOk result (λ n. n ≡ text_len (ops.now ++ Op.Put key.now value.now ∷ [])) }
    ensures limits { OnOk result (InLimits (ops.now ++ Op.Put key.now value.now ∷ [])) }
    ensures refused { refused_in result ≡ refusal_of ops.now (Op.Put key.now value.now) }
{
    test_limit(What::Key, key.len(), MAX_KEY)?;
    test_limit(What::Value, value.len(), MAX_VALUE)?;
    test_limit(What::Count, ops.len() + 1, MAX_COUNT)?;
    let longer = size + 1 + sized_len(key) + sized_len(value);
    test_limit(What::Bytes, longer, MAX_BYTES)?;
    Ok(longer)
}

// The length of a batch's text with this delete at its end.
fn size_with_delete(ops: &[Op], size: usize, key: &[u8]) -> Result<usize, BatchRefusal>
    requires limits { InLimits ops.now }
    requires size { size ≡ text_len ops.now }
    ensures size { IfOk result (λ n. n ≡ text_len (ops.now ++ Op.Delete key.now ∷ [])) }
    ensures limits { OnOk result (InLimits (ops.now ++ Op.Delete key.now ∷ [])) }
    ensures refused { refused_in result ≡ refusal_of ops.now (Op.Delete key.now) }
{
    test_limit(What::Key, key.len(), MAX_KEY)?;
    test_limit(What::Count, ops.len() + 1, MAX_COUNT)?;
    let longer = size + 1 + sized_len(key);
    test_limit(What::Bytes, longer, MAX_BYTES)?;
    Ok(longer)
}

// How many bytes a key or a value takes with its length before it.
fn sized_len(bytes: &[u8]) -> usize
    requires { length bytes.now ≤ value_limit }
    ensures len { result ≡ length (sized bytes.now) }
    ensures small { result ≤ length bytes.now + 3 }
{
    let len = bytes.len();
    let prefix = if len < 128 {
        1
    } else if len < 16_384 {
        2
    } else {
        3
    };
    prefix + len
}
