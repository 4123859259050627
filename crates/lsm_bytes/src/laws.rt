//! What this crate's definitions say of one another. Each function is a law: its contract states it, and it
//! does nothing.
ghost use Rattle.std.specs.Prelude.{◌≡◌, ◌<◌, ◌≤◌, ◌+◌, ◌^◌, ◌++◌, [], ℕ, List, length, slice_index};
ghost use Rattle.lsm_bytes.specs.Checksum.{crc32c, take_bytes, masked, unmasked};
ghost use Rattle.lsm_bytes.specs.Numbers.{number_at, number_bytes};
ghost use Rattle.lsm_bytes.specs.Varint.{IsVarint, IsVarintAt, varint};

/// What a file keeps of a checksum gives the checksum back.
pub fn unmask_of_masked()
    ensures { (crc : ℕ) → crc < 2 ^ 32 → unmasked (masked crc) ≡ crc }
{}

/// Each number of 32 bits is what a file keeps of some checksum.
pub fn mask_of_unmasked()
    ensures { (kept : ℕ) → kept < 2 ^ 32 → masked (unmasked kept) ≡ kept }
{}

/// A checksum that takes two pieces in turn takes their join.
pub fn crc_of_pieces()
    ensures { (register : ℕ) (first second : List ℕ)
        → take_bytes (take_bytes register first) second ≡ take_bytes register (first ++ second) }
{}

/// A checksum of bytes has 32 bits.
pub fn crc_has_32_bits()
    ensures { (bytes : List ℕ) → ((i : ℕ) → slice_index bytes i < 256) → crc32c bytes < 2 ^ 32 }
{}

/// What the writer of a number spells is in the grammar.
pub fn varint_spells()
    ensures { (n : ℕ) → IsVarint (varint n) n }
{}

/// Each number has one spelling.
pub fn varint_is_the_only_spelling()
    ensures { (spelling : List ℕ) (n : ℕ) → IsVarint spelling n → spelling ≡ varint n }
{}

/// No spelling begins another, so that a reader needs no mark behind one.
pub fn no_spelling_begins_another()
    ensures value { (spelling more : List ℕ) (n m : ℕ) → IsVarint spelling n → IsVarint (spelling ++ more) m → n ≡ m }
    ensures rest { (spelling more : List ℕ) (n m : ℕ) → IsVarint spelling n → IsVarint (spelling ++ more) m → more ≡ [] }
{}

/// A number of 64 bits is spelled in ten bytes at most.
pub fn spelling_has_ten_bytes()
    ensures { (spelling : List ℕ) (n : ℕ) → n < 2 ^ 64 → IsVarint spelling n → length spelling ≤ 10 }
{}

/// What was written stands where it was written, whatever stands before and behind it.
pub fn written_varint_stands()
    ensures { (before more : List ℕ) (n : ℕ) → n < 2 ^ 64
        → IsVarintAt (before ++ varint n ++ more) (length before) n (length before + length (varint n)) }
{}

/// At a place stands one varint at most. So a reader has one answer.
pub fn one_varint_stands_at_a_place()
    ensures value { (bytes : List ℕ) (at n m next after : ℕ) → IsVarintAt bytes at n next → IsVarintAt bytes at m after → n ≡ m }
    ensures place { (bytes : List ℕ) (at n m next after : ℕ)
        → IsVarintAt bytes at n next → IsVarintAt bytes at m after → next ≡ after }
{}

/// A number of a fixed size is read again where its bytes were written.
pub fn written_number_stands()
    ensures { (before more : List ℕ) (size n : ℕ) → n < 256 ^ size
        → number_at size (before ++ number_bytes size n ++ more) (length before) ≡ n }
{}
