//! Laws of runs in which several lanes have their entries. The functions do nothing: their contracts are the laws.
ghost use Rattle.std.specs.Prelude.{◌≡◌, ℕ, ◌+◌, ◌≤◌, Bool, List, [], ◌∷◌, ◌++◌, length, Option, Ok};
ghost use Rattle.std.specs.FinMap.{get};
ghost use Rattle.lsm_rows.specs.declared.operations.Op.{Op};
ghost use Rattle.lsm_rows.specs.Replay.{Contents, replayed};
ghost use Rattle.lsm_model.specs.declared.states.State.{State};
ghost use Rattle.lsm_model.specs.Steps.{Made, Asked, Run};
ghost use Rattle.lsm_model.specs.Runs.{added_by, accepted_in, shown_behind};
ghost use Rattle.lsm_model.specs.Lanes.{steps_of, own_entries, commits_of, own_commits, batches_of};

use crate::{Event, Reply};

/// A call of one lane with its answer. Of several lanes the entries stand in the order in which their calls were done.
pub struct Entry {
    /// The lane's number.
    pub lane: u64,
    pub event: Event,
    pub reply: Reply,
}

/// Every batch that a run accepts is of one lane, that of the entry that wrote it. A lane's own batches are those of its own
/// entries alone, each once, and stand in the list of all in the lane's order. Each stands behind all that was done before
/// its entry, so behind all that its lane had seen.
pub fn a_lanes_commits_stand_in_its_order()
    ensures all { (s t : State) (entries : List Entry) → Run s (steps_of entries) t
        → t.accepted ≡ s.accepted ++ batches_of (commits_of entries) }
    ensures own { (lane : ℕ) (entries : List Entry) → own_commits lane (commits_of entries) ≡ commits_of (own_entries lane entries) }
    ensures place { (seen after : List Entry) (entry : Entry) (ops : List Op) → added_by entry.event entry.reply ≡ ops ∷ []
        → commits_of (seen ++ entry ∷ after) ≡ commits_of seen ++ (entry.lane, ops) ∷ commits_of after }
    ensures batches { (entries : List Entry) → batches_of (commits_of entries) ≡ accepted_in (steps_of entries) }
{}

/// A lane's get answers by the replay of the commits that stand before it, whichever lanes made them: of all that its lane
/// had seen, and of no write that comes later.
pub fn a_lane_sees_the_commits_before_it()
    ensures { (s t : State) (seen after : List Entry) (entry : Entry) (key : List ℕ) (value : Option (List ℕ))
        → Run s (steps_of (seen ++ entry ∷ after)) t
        → entry.event ≡ Event.Get key → entry.reply ≡ Reply.Get (Ok value)
        → value ≡ get (replayed s.opening (s.accepted ++ batches_of (commits_of seen))) key }
{}

/// What a reading answers is the replay of the batches that were accepted before it, and of no others. An accepted write
/// before it has its batch there in its place.
pub fn a_reading_shows_the_writes_before_it()
    ensures get { (s t : State) (before after : List Made) (key : List ℕ) (value : Option (List ℕ))
        → Run s (before ++ (Asked (Event.Get key) (Reply.Get (Ok value))) ∷ after) t → value ≡ get (shown_behind s before).contents key }
    ensures scan { (s t : State) (before after : List Made) (pairs : Contents)
        → Run s (before ++ (Asked Event.Scan (Reply.Scan (Ok pairs))) ∷ after) t → pairs ≡ (shown_behind s before).contents }
    ensures last { (s t : State) (before after : List Made) (last : ℕ)
        → Run s (before ++ (Asked Event.Last (Reply.Last last)) ∷ after) t → last ≡ (shown_behind s before).sequence }
    ensures place { (before between : List Made) (ops : List Op) (sync : Bool) (last : ℕ)
        → accepted_in (before ++ (Asked (Event.Write ops sync) (Reply.Write (Ok last))) ∷ between)
        ≡ accepted_in before ++ ops ∷ accepted_in between }
{}

/// An accepted write answers the last sequence of all that was accepted up to it. Of two accepted writes the later one's
/// answer is the greater, by the count of its operations at least.
pub fn later_writes_have_greater_sequences()
    ensures answer { (s t : State) (before after : List Made) (ops : List Op) (sync : Bool) (last : ℕ)
        → Run s (before ++ (Asked (Event.Write ops sync) (Reply.Write (Ok last))) ∷ after) t
        → last ≡ (shown_behind s (before ++ (Asked (Event.Write ops sync) (Reply.Write (Ok last))) ∷ [])).sequence }
    ensures order { (s t : State) (before between after : List Made) (first second : List Op) (sync also : Bool) (earlier later : ℕ)
        → Run s (before ++ (Asked (Event.Write first sync) (Reply.Write (Ok earlier)))
        ∷ (between ++ (Asked (Event.Write second also) (Reply.Write (Ok later))) ∷ after)) t
        → earlier + length second ≤ later }
{}
