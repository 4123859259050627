//! Internal keys, by which tables and memory order their rows.
ghost use Rattle.std.specs.Prelude.{◌≡◌, ◌≢◌, ℕ, ◌+◌, ◌-◌, ◌*◌, ◌^◌, ◌<◌, ◌≤◌, List, length, IfOk, IfSome, IfNone};
ghost use Rattle.lsm_rows.specs.declared.internal_keys.Kind.{Kind};
ghost use Rattle.lsm_rows.specs.InternalKeys.{IsInternalKey, internal_cmp, user_key, trailer, kind_byte};

use lsm_bytes::{Bytes, NoMemory, read_u64};
use std::alloc::Global;
use std::cmp::Ordering;
use std::marker::Model;

// The bytes behind the user key.
const TRAILER: usize = 8;

/// What an operation does to its key.
#[derive(Clone, Copy, Debug, PartialEq, Eq)]
pub enum Kind {
    Delete,
    Put,
}

/// The internal key of a row: its user key, and 8 bytes of its sequence and kind. Internal keys compare by user
/// key, byte by byte, and of one user key the greater sequence comes first. Contracts see the bytes.
#[derive(Drop)]
pub struct InternalKey {
    bytes: Bytes,
}

impl Model for InternalKey {
    ghost Value = { List ℕ };

    ghost view = { λ k. k.bytes };

    ghost invariant = { λ k. 8 ≤ length k.bytes };
}

impl InternalKey {
    /// The internal key of a user key's row.
    pub fn new(alloc: Global, key: &[u8], sequence: u64, kind: Kind) -> Result<Self, NoMemory>
        requires { sequence < 2 ^ 56 }
        ensures { IfOk result (λ k. IsInternalKey k key.now sequence kind) }
    {
        let number = sequence * 256 + kind_number(kind);
        let mut bytes = Bytes::from_slice(alloc, key)?;
        bytes.extend_from_slice(&number.to_le_bytes())?;
        Ok(InternalKey { bytes })
    }

    /// The bytes.
    pub fn as_slice(&self) -> &[u8]
        ensures bytes { result.now ≡ self.now }
        ensures long { 8 ≤ length self.now }
    {
        self.bytes.as_slice()
    }
}

impl PartialEq for InternalKey {
    ghost use Rattle.std.specs.Cmp;
    ghost use Rattle.std.specs.Ordering.{eq_by_cmp};
    ghost use Rattle.std.proofs.lemmas.Cmp.{eq_by_cmp_equiv};
    ghost use Rattle.lsm_rows.specs.InternalKeys.{internal_total};

    ghost eq = { eq_by_cmp internal_cmp };

    ghost laws = { Cmp.partial_equiv_from_equiv (eq_by_cmp_equiv internal_total) };

    fn eq(&self, other: &Self) -> bool {
        compare_internal_keys(self.as_slice(), other.as_slice()) == Ordering::Equal
    }
}

impl Eq for InternalKey {
    ghost use Rattle.std.proofs.lemmas.Cmp.{eq_by_cmp_equiv};
    ghost use Rattle.lsm_rows.specs.InternalKeys.{internal_total};

    ghost laws = { eq_by_cmp_equiv internal_total };
}

impl PartialOrd for InternalKey {
    ghost use Rattle.std.specs.Cmp.{partial_order_from_total};
    ghost use Rattle.std.specs.Prelude.{Some};
    ghost use Rattle.lsm_rows.specs.InternalKeys.{internal_total};

    ghost partial_cmp = { λ a b. Some (internal_cmp a b) };

    ghost laws = { partial_order_from_total internal_total };

    fn partial_cmp(&self, other: &Self) -> Option<Ordering> {
        Some(self.cmp(other))
    }
}

impl Ord for InternalKey {
    ghost use Rattle.std.proofs.Common.{rules};
    ghost use Rattle.lsm_rows.specs.InternalKeys.{internal_total};

    ghost cmp = { internal_cmp };

    ghost total = { internal_total };

    ghost matches_partial_cmp = { Prim.search rules };

    ghost matches_eq = { Prim.search rules };

    fn cmp(&self, other: &Self) -> Ordering {
        compare_internal_keys(self.as_slice(), other.as_slice())
    }
}

/// What an internal key is made of.
pub struct InternalParts<'a> {
    pub key: &'a [u8],
    pub sequence: u64,
    pub kind: Kind,
}

/// The parts of an internal key; None where the bytes are none: fewer than 8, or of another kind.
pub fn parse_internal_key(bytes: &[u8]) -> Option<InternalParts>
    ensures some { IfSome result (λ p. IsInternalKey bytes.now p.key.now p.sequence p.kind) }
    ensures none { IfNone result ((key : List ℕ) (sequence : ℕ) (kind : Kind) → ¬ IsInternalKey bytes.now key sequence kind) }
{
    if bytes.len() < TRAILER {
        return None;
    }
    let (key, number) = split_trailer(bytes);
    let kind = kind_of(number % 256)?;
    Some(InternalParts {
        key,
        sequence: number / 256,
        kind,
    })
}

/// How two internal keys compare. It takes no memory.
#[tactic(auto, unfolding(crate::specs::InternalKeys::internal_cmp))]
pub fn compare_internal_keys(a: &[u8], b: &[u8]) -> Ordering
    requires first { 8 ≤ length a.now }
    requires second { 8 ≤ length b.now }
    ensures { result ≡ internal_cmp a.now b.now }
{
    let (key, number) = split_trailer(a);
    let (other_key, other_number) = split_trailer(b);
    key.cmp(other_key).then(other_number.cmp(&number))
}

// The user key, and the number behind it.
fn split_trailer(bytes: &[u8]) -> (&[u8], u64)
    requires { 8 ≤ length bytes.now }
    ensures key { result.0.now ≡ user_key bytes.now }
    ensures number { result.1 ≡ trailer bytes.now }
{
    let end = bytes.len() - TRAILER;
    (bytes.split_at(end).0, read_u64(bytes, end).unwrap())
}

// The kind that a kind byte stands for.
fn kind_of(byte: u64) -> Option<Kind>
    ensures some { IfSome result (λ kind. byte ≡ kind_byte kind) }
    ensures none { IfNone result ((kind : Kind) → byte ≢ kind_byte kind) }
{
    if byte == 0 {
        Some(Kind::Delete)
    } else if byte == 1 {
        Some(Kind::Put)
    } else {
        None
    }
}

// The kind byte of a kind.
fn kind_number(kind: Kind) -> u64
    ensures { result ≡ kind_byte kind }
{
    match kind {
        Kind::Delete => 0,
        Kind::Put => 1,
    }
}
