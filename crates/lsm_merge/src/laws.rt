//! Laws of the definitions that contracts cite. The functions do nothing: their contracts are the
//! laws.
ghost use Rattle.std.specs.Prelude.{◌≡◌, ◌<◌, ◌^◌, ◌∷◌, ◌++◌, [], ℕ, List, length, Contains, slice_get, Some, None};
ghost use Rattle.std.specs.List.Sorted.{IsStrictlySortedBy};
ghost use Rattle.lsm_rows.specs.declared.rows.Row.{Row};
ghost use Rattle.lsm_rows.specs.Contents.{newest, contents_of};
ghost use Rattle.lsm_merge.specs.Order.{row_cmp};
ghost use Rattle.lsm_merge.specs.Merging.{Merging, IsLeft, IsNext, IsOver, IsReady, KeepsRows, with_source};
ghost use Rattle.lsm_merge.specs.Runs.{AreDistinct, AreNewest, IsMerged, HasGained};

use crate::sources::RowSource;

/// A new merge of sources whose rows are in order may be asked.
#[tactic(auto, using(crate::proofs::Lending::new_ready))]
pub fn a_new_merge_is_ready<R: RowSource>()
    ensures { (sources : List R) → length sources < 2 ^ 32
        → ((place : ℕ) (source : R) → slice_get sources place ≡ Some source → IsStrictlySortedBy row_cmp (R.left source))
        → IsReady R.left R.ended (record { found = None; heads = []; asked = 0; sources = sources }) }
{}

/// A merge may be asked again once a source that was lent has gained rows.
#[tactic(auto, using(crate::proofs::Running::gained_ready))]
pub fn a_lent_source_may_gain_rows<R: RowSource>()
    ensures { (m : Merging R) (place : ℕ) (old new : R) → IsReady R.left R.ended m
        → HasGained R.left R.ended m place old new → IsReady R.left R.ended (with_source m place new) }
{}

/// A merge that has all of the inputs left has given none of them.
#[tactic(auto, using(crate::proofs::Running::run_begins))]
pub fn a_merge_begins<R: RowSource>()
    ensures { (inputs : List Row) (m : Merging R) → ((row : Row) → IsLeft R.left m row → Contains inputs row)
        → ((row : Row) → Contains inputs row → IsLeft R.left m row) → IsMerged R.left inputs [] m }
{}

/// With each row that it gives a merge has given the inputs' newest rows of one user key more.
pub fn a_merge_goes_on<R: RowSource>()
    ensures { (inputs given : List Row) (old new : Merging R) (row : Row) → IsMerged R.left inputs given old
        → IsNext R.left old row new → IsMerged R.left inputs (given ++ row ∷ []) new }
{}

/// A refused call changes nothing of what was given and what is to come.
pub fn a_merge_is_refused<R: RowSource>()
    ensures { (inputs given : List Row) (old new : Merging R) → IsMerged R.left inputs given old
        → KeepsRows R.left old new → IsMerged R.left inputs given new }
{}

/// Nor does a source that was lent and has the same rows left, as one that has filled its buffer.
pub fn a_lent_source_changes_no_run<R: RowSource>()
    ensures { (inputs given : List Row) (m : Merging R) (place : ℕ) (old new : R) → slice_get m.sources place ≡ Some old
        → R.left new ≡ R.left old → IsMerged R.left inputs given m → IsMerged R.left inputs given (with_source m place new) }
{}

/// Once it is over, a merge has given the newest row of each user key of the inputs, in the order
/// of keys.
pub fn a_merge_is_whole<R: RowSource>()
    ensures { (inputs given : List Row) (old new : Merging R) → IsMerged R.left inputs given old
        → IsOver R.left R.ended old new → AreNewest inputs given }
{}

/// These rows stand for the same contents, where no two inputs are of one user key and one
/// sequence.
#[tactic(auto, using(crate::proofs::Running::newest_same, crate::proofs::Running::contents_same))]
pub fn merged_rows_keep_the_contents()
    ensures newest { (inputs rows : List Row) → AreDistinct inputs → AreNewest inputs rows
        → (key : List ℕ) → newest key rows ≡ newest key inputs }
    ensures contents { (inputs rows : List Row) → AreDistinct inputs → AreNewest inputs rows
        → contents_of rows ≡ contents_of inputs }
{}
