//! Laws of the definitions that contracts cite. The functions do nothing: their contracts are the laws.
ghost use Rattle.std.specs.Prelude.{◌≡◌, ◌≢◌, ℕ, ◌+◌, ◌^◌, ◌<◌, ◌≤◌, ◌++◌, List, length, Option, Some};
ghost use Rattle.std.specs.FinMap as map;
ghost use Rattle.lsm_rows.specs.declared.operations.Op.{Op};
ghost use Rattle.lsm_rows.specs.declared.rows.Row.{Row};
ghost use Rattle.lsm_rows.specs.BatchText.{batch_text};
ghost use Rattle.lsm_rows.specs.Limits.{InLimits};
ghost use Rattle.lsm_rows.specs.Decoding.{IsBatchText};
ghost use Rattle.std.specs.Ordering.{nat_cmp, ordering_then};
ghost use Rattle.lsm_rows.specs.declared.internal_keys.Kind.{Kind};
ghost use Rattle.lsm_rows.specs.InternalKeys.{internal_key, internal_cmp, kind_byte};
ghost use Rattle.lsm_rows.specs.Replay.{key_cmp, replayed};
ghost use Rattle.lsm_rows.specs.Rows.{rows_of};
ghost use Rattle.lsm_rows.specs.Contents.{IsNewest, newest, value_of, contents_of, AllBefore, KeepsKey};

/// What was written is a batch's text, so a reading of it gives the batch and never a refusal.
pub fn written_batches_are_texts()
    ensures { (first : ℕ) (ops : List Op) → 1 ≤ length ops → InLimits ops → first + length ops ≤ 2 ^ 56
        → IsBatchText (batch_text first ops) first ops }
{}

/// A text is that of one batch, so a reading of it has one answer.
#[tactic(auto, using(crate::proofs::ReadBatch::batch_once))]
pub fn a_text_is_of_one_batch()
    ensures { (text : List ℕ) (first other : ℕ) (ops others : List Op)
        → IsBatchText text first ops → IsBatchText text other others → (first ≡ other) × (ops ≡ others) }
{}

/// Internal keys of two sequences compare by user key, and of one user key the greater sequence is first.
#[tactic(auto, using(crate::proofs::InternalOrder::compared))]
pub fn greater_sequences_come_first()
    ensures { (key other : List ℕ) (sequence later : ℕ) (kind others : Kind)
        → sequence < 2 ^ 56 → later < 2 ^ 56 → sequence ≢ later
        → internal_cmp (internal_key key sequence (kind_byte kind)) (internal_key other later (kind_byte others))
        ≡ ordering_then (key_cmp key other) (nat_cmp later sequence) }
{}

/// A key's newest row is one of its rows, and none of them has a greater sequence.
#[tactic(auto, using(crate::proofs::NewestRows::newest_is))]
pub fn the_newest_has_the_greatest_sequence()
    ensures { (key : List ℕ) (rows : List Row) (row : Row) → newest key rows ≡ Some row → IsNewest key rows row }
{}

/// A key has the value of its newest row.
#[tactic(auto, using(crate::proofs::NewestRows::get_contents))]
pub fn contents_have_the_newest()
    ensures { (rows : List Row) (key : List ℕ) → map.get (contents_of rows) key ≡ value_of (newest key rows) }
{}

/// Contents depend on each key's newest row alone, so rows may be sorted, merged and dropped behind newer ones.
#[tactic(auto, using(crate::proofs::NewestRows::contents_by_newest))]
pub fn contents_depend_on_the_newest()
    ensures { (rows others : List Row) → ((key : List ℕ) → newest key rows ≡ newest key others)
        → contents_of rows ≡ contents_of others }
{}

/// The rows of batches, behind rows of smaller sequences, stand for the replay of the batches.
#[tactic(auto, using(crate::proofs::ReplayedRows::contents_replayed))]
pub fn rows_stand_for_the_replay()
    ensures { (old : List Row) (first : ℕ) (batches : List (List Op)) → AllBefore first old
        → contents_of (old ++ rows_of first batches) ≡ replayed (contents_of old) batches }
{}

/// A compaction that keeps each key's newest row, but for deletes that hide nothing, keeps the contents.
#[tactic(auto, using(crate::proofs::NewestRows::contents_kept))]
pub fn compaction_keeps_contents()
    ensures { (others inputs outputs : List Row) → ((key : List ℕ) → KeepsKey others inputs outputs key)
        → contents_of (others ++ outputs) ≡ contents_of (others ++ inputs) }
{}
