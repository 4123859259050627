//! Laws of what a folder opens to: each is the contract of a function that does nothing.
ghost use Rattle.std.specs.Prelude.{◌≡◌, ◌+◌, List, Ok};
ghost use Rattle.std.specs.FinMap as finmap;
ghost use Rattle.lsm_rows.specs.declared.operations.Op.{Op};
ghost use Rattle.lsm_rows.specs.Replay.{sequence_after};
ghost use Rattle.lsm_rows.specs.Rows.{rows_of};
ghost use Rattle.lsm_folder.specs.Files.{Place};
ghost use Rattle.lsm_folder.specs.Logs.{all_batches};
ghost use Rattle.lsm_folder.specs.Manifests.{last_after};
ghost use Rattle.lsm_folder.specs.Reading.{Texts, texts_of};
ghost use Rattle.lsm_recover.specs.Opening.{opening};

/// A folder that reads opens, to the rows of its logs and to the sequence behind them: where its
/// texts are read, and the batches of its logs.
#[tactic(auto, using(crate::proofs::OpensLemmas::texts_open))]
pub fn a_folder_that_reads_opens()
    ensures { (place : Place) (texts : Texts) (batches : List (List Op)) → texts_of place ≡ Ok texts
        → all_batches (last_after texts.edits + 1) (finmap.entries texts.logs) ≡ Ok batches
        → opening place ≡ Ok (record {
          sequence = sequence_after (last_after texts.edits) batches;
          rows = rows_of (last_after texts.edits + 1) batches;
        }) }
{}
