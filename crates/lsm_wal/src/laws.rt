//! Laws of logs: each is the contract of a function that does nothing.
ghost use Rattle.std.specs.Prelude.{◌≡◌, ℕ, List, [], ◌∷◌, ◌++◌, length, All, Some, None};
ghost use Rattle.lsm_rows.specs.declared.operations.Op.{Op};
ghost use Rattle.lsm_rows.specs.Replay.{sequence_after};
ghost use Rattle.lsm_disk.specs.State.{State, Change, after, file_synced};
ghost use Rattle.lsm_disk.specs.Refusals.{no_file};
ghost use Rattle.lsm_disk.specs.Kept.{Spares};
ghost use Rattle.lsm_disk.specs.Images.{Tree, IsImage, bytes_at};
ghost use Rattle.lsm_wal.specs.Batches.{Logged, IsLogged, in_sequence, wal_text, record_behind};
ghost use Rattle.lsm_wal.specs.Standing.{IsWal, IsTornWal, HoldsFront};
ghost use Rattle.lsm_wal.specs.Reading.{Stop, At_end, IsReading, ReadsToFront, open_end};

/// A log of one batch more is the old text and the batch's record behind it, and a batch continues the sequence where it
/// begins behind the last one.
pub fn a_log_grows_by_one_record()
    ensures text { (batches : List Logged) (next : Logged) → wal_text (batches ++ next ∷ [])
        ≡ wal_text batches ++ record_behind batches next }
    ensures sequence { (first : ℕ) (batches : List (List Op)) (ops : List Op)
        → in_sequence first (batches ++ ops ∷ []) ≡ in_sequence first batches
        ++ record { first = sequence_after first batches; ops = ops } ∷ [] }
{}

/// Each image of a log has the first of its batches, and all that are durable; and so has each image of a log behind which
/// a part of a record stands, perhaps with this one.
pub fn an_image_has_the_durable_batches()
    ensures whole { (s : State) (path : List ℕ) (batches : List Logged) (durable : ℕ) → IsWal s path batches durable
        → (t : Tree) → IsImage s t → HoldsFront path batches durable s t }
    ensures torn { (s : State) (path : List ℕ) (batches : List Logged) (next : Logged) (durable : ℕ) → IsTornWal s path batches next durable
        → (t : Tree) → IsImage s t → HoldsFront path (batches ++ next ∷ []) durable s t }
{}

/// Each image of a log of which all batches are durable has its whole text.
pub fn a_synced_log_has_all()
    ensures { (s : State) (path : List ℕ) (batches : List Logged) → IsWal s path batches (length batches)
        → (t : Tree) → IsImage s t → bytes_at t path ≡ Some (wal_text batches) }
{}

/// A log's file is there, so an append to it is refused by a fault or want of memory alone. A change that doesn't touch the
/// file or its name leaves the log, and a sync of the file makes all of its batches durable.
pub fn a_log_stands_on()
    ensures there { (s : State) (path : List ℕ) (batches : List Logged) (durable : ℕ) → IsWal s path batches durable
        → no_file path s ≡ None }
    ensures untouched { (s : State) (path : List ℕ) (batches : List Logged) (durable : ℕ) (c : Change)
        → (wal : IsWal s path batches durable)
        → Spares path wal.id c → IsWal (after s c) path batches durable }
    ensures synced { (s : State) (path : List ℕ) (batches : List Logged) (durable : ℕ) → IsWal s path batches durable
        → IsWal (after s (file_synced path s)) path batches (length batches) }
{}

/// A log's whole text reads to all of its batches, where their sequences follow one another.
pub fn a_whole_log_reads_to_its_batches()
    ensures { (expected : ℕ) (batches : List (List Op)) → All IsLogged (in_sequence expected batches)
        → IsReading expected (wal_text (in_sequence expected batches)) batches (At_end (open_end None)) }
{}

/// What an image has of a log reads to the first of its batches, and all that are durable, and nothing is wrong behind them.
pub fn an_image_reads_to_a_front()
    ensures { (expected : ℕ) (path : List ℕ) (batches : List (List Op)) (durable : ℕ) (s : State) (t : Tree)
        → All IsLogged (in_sequence expected batches)
        → (held : HoldsFront path (in_sequence expected batches) durable s t) → ReadsToFront expected batches durable held.bytes }
{}

/// A text reads in one way, so an answer of `read_wal` is the only one that its text has.
pub fn a_text_reads_in_one_way()
    ensures { (expected : ℕ) (text : List ℕ) (batches others : List (List Op)) (stop end : Stop)
        → IsReading expected text batches stop → IsReading expected text others end → (batches ≡ others) × (stop ≡ end) }
{}
