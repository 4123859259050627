//! Laws of what each call of a store ensures on every disk. The functions do nothing: their contracts are the laws.
ghost use Rattle.std.specs.Prelude.{◌≡◌, Some, Ok};
ghost use Rattle.lsm_disk.specs.State as disk;
ghost use Rattle.lsm_model.specs.declared.cuts.Cut.{Cut};
ghost use Rattle.lsm_model.specs.declared.cuts.FlushRule.{FlushRule};
ghost use Rattle.lsm_model.specs.declared.errors.StoreError.{StoreError};
ghost use Rattle.lsm_model.specs.declared.events.Event.{Event};
ghost use Rattle.lsm_model.specs.declared.replies.Reply.{Reply};
ghost use Rattle.lsm_model.specs.declared.states.State.{State};
ghost use Rattle.lsm_model.specs.Refusals.{refusal_in};
ghost use Rattle.lsm_refine.specs.Kept.{Shown};
ghost use Rattle.lsm_refine.specs.Good.{IsRunning};
ghost use Rattle.lsm_refine.specs.Listing.{ListsLive};
ghost use Rattle.lsm_refine.specs.Pins.{ListedStand};
ghost use Rattle.lsm_refine.specs.ListedNow.{HasFewLogs, ListedStandNow};
ghost use Rattle.lsm_refine.specs.Refused.{CountsHold};
ghost use Rattle.lsm_refine.specs.Caused.{Caused};
ghost use Rattle.lsm_refine.specs.KeptCauses.{HasKeptCause};

/// No call of a store lets a count of its disk fall, and none changes which folder is the store's.
pub fn no_count_falls()
    ensures { (v w : Shown) (e : Event) (r : Reply) → Caused v e r w → CountsHold v w }
{}

/// On every disk, also on one that tells nothing of its bytes, each refusal of a store's call comes for one of the causes alone
/// that `HasKeptCause` lists.
pub fn every_refusal_has_its_cause_on_every_disk()
    ensures { (v w : Shown) (e : Event) (r : Reply) (refusal : StoreError) → Caused v e r w → refusal_in e r ≡ Some refusal
        → HasKeptCause v e refusal w }
{}

/// The files that a cut would list of what a running store keeps, which has one live log or two, are there with the lengths
/// that it lists. With a `CURRENT` of the manifest they make a folder that stands for the accepted batches, though an empty
/// log isn't listed.
pub fn listed_files_stand()
    ensures { (d : disk.State) (v : Shown) (s : State) → IsRunning d v s → HasFewLogs v.kept → ListedStandNow d v s }
{}

/// What a cut answers on every disk are the files that are listed of what the store keeps behind it, and the number of its
/// manifest. So where the store is a running one then, with one live log or two, these files stand for the accepted batches.
pub fn a_cut_names_files_that_stand()
    ensures lists { (v w : Shown) (rule : FlushRule) (cut : Cut) → Caused v (Event.Cut rule) (Reply.Cut (Ok cut)) w
        → ListsLive w.kept cut }
    ensures stand { (d : disk.State) (v w : Shown) (s : State) (rule : FlushRule) (cut : Cut)
        → Caused v (Event.Cut rule) (Reply.Cut (Ok cut)) w → IsRunning d w s → HasFewLogs w.kept → ListedStand cut s }
{}
