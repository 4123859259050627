//! Laws about the text of a log, and about what any text reads to.
ghost use Rattle.std.specs.Prelude.{◌≡◌, ◌++◌, ◌∷◌, ◌%◌, ◌+◌, ◌≤◌, [], ℕ, List, None, length, take};
ghost use Rattle.lsm_frame.specs.Begins.{Begins};
ghost use Rattle.lsm_frame.specs.Chance.{IsFreeOfChance};
ghost use Rattle.lsm_frame.specs.Frames.{record_text, with_record, log_text};
ghost use Rattle.lsm_frame.specs.Grammar.{IsBytes, IsLaid};
ghost use Rattle.lsm_frame.specs.Growth.{IsOpen, Extends};
ghost use Rattle.lsm_frame.specs.Reader.{IsRecord, EndsBehind};
ghost use Rattle.lsm_frame.specs.Records.{Ending, Piece, joined, records_of, front, end_of, next_place};
ghost use Rattle.lsm_frame.specs.declared.ending.Ending.TheVariants.{End};

/// A log of records with one more is the old text and the record's behind it, laid out by the old text's length alone.
/// So a writer that stands at the end of a log need not know its earlier records.
pub fn log_text_grows()
    ensures { (records : List (List ℕ)) (payload : List ℕ) →
        log_text (records ++ payload ∷ []) ≡
        log_text records ++ record_text (length (log_text records) % 32768) payload }
{}

/// A writer that stands at the end of a log stands at its end again when it has added a record: this is the offset
/// that `FrameWriter::add` leaves, and the end of the log that the record made.
#[tactic(auto, using(crate::proofs::Places::place_of_record))]
pub fn writer_stays_at_the_end()
    ensures { (text payload : List ℕ) →
        (length text % 32768 + length (record_text (length text % 32768) payload)) % 32768 ≡
        length (with_record text payload) % 32768 }
{}

/// What was read stays read when the text grows: behind an open end more records may come, and behind a damaged or
/// malformed piece nothing is read.
pub fn stays_read()
    ensures { (text more : List ℕ) → Extends (records_of text) (records_of (text ++ more)) }
{}

/// A record that is added behind a text that ends whole is read behind its records, and the text ends whole again.
pub fn record_is_read()
    ensures { (text payload : List ℕ) → end_of text ≡ End →
        records_of (with_record text payload) ≡
        ((records_of text).0 ++ (next_place text, payload) ∷ [], End) }
{}

/// A log reads to the records that were written.
pub fn log_is_read()
    ensures records { (records : List (List ℕ)) → front (log_text records) ≡ records }
    ensures end { (records : List (List ℕ)) → end_of (log_text records) ≡ End }
{}

/// A log that is cut anywhere reads to the first of its records, and ends whole or torn.
pub fn cut_log_is_read()
    ensures records { (records : List (List ℕ)) (n : ℕ) → Begins (front (take n (log_text records))) records }
    ensures count { (records : List (List ℕ)) (n : ℕ) →
        front (take n (log_text records)) ≡ take (length (front (take n (log_text records)))) records }
    ensures end { (records : List (List ℕ)) (n : ℕ) → IsOpen (end_of (take n (log_text records))) }
{}

/// The longer the cut, the more records are read, and at least those that lie within it.
pub fn longer_cut_reads_more()
    ensures grows { (text : List ℕ) (n m : ℕ) → n ≤ m → Begins (front (take n text)) (front (take m text)) }
    ensures keeps { (first last : List (List ℕ)) (n : ℕ) → length (log_text first) ≤ n →
        Begins first (front (take n (log_text (first ++ last)))) }
{}

/// Texts that begin alike read alike so far, whatever stands behind.
pub fn alike_reads_alike()
    ensures texts { (a b : List ℕ) (n : ℕ) → take n a ≡ take n b → Begins (front (take n a)) (front b) }
    ensures logs { (records : List (List ℕ)) (text : List ℕ) →
        take (length (log_text records)) text ≡ log_text records → Begins records (front text) }
{}

/// The payloads that a reader gives in turn are the first of the text's records, and at the text's end all of them.
pub fn records_come_in_turn()
    ensures next { (text payload : List ℕ) (number place : ℕ) → IsRecord text number place payload →
        take (number + 1) (front text) ≡ take number (front text) ++ payload ∷ [] }
    ensures all { (text : List ℕ) (count : ℕ) (ending : Ending) → EndsBehind text count ending →
        take count (front text) ≡ front text }
{}

/// After a crash that leaves any bytes behind the synced ones, and none that pass a checksum by chance, the records are
/// the first of those that were appended, and at least those that were synced.
pub fn crashed_log_is_read()
    ensures no_more { (records : List (List ℕ)) (text : List ℕ) →
        IsFreeOfChance (log_text records) text → Begins (front text) records }
    ensures no_less { (synced : List (List ℕ)) (text : List ℕ) → Begins (log_text synced) text → Begins synced (front text) }
{}

/// Exactly the texts that are pieces and zeros laid end to end, in whole records, end whole.
pub fn grammar_ends_whole()
    ensures read { (text : List ℕ) (ps : List Piece) → IsLaid 0 0 ps text → records_of text ≡ joined None ps End }
    ensures laid { (text : List ℕ) → IsBytes text → end_of text ≡ End →
        (ps : List Piece) × IsLaid 0 0 ps text × (records_of text ≡ joined None ps End) }
{}
