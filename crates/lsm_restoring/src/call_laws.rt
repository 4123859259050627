//! Laws of a restore's calls, by what each did on the disk. The functions do nothing: their contracts are the laws.
ghost use Rattle.std.specs.Prelude.{◌≡◌, ◌≢◌, ℕ, true, List, length, All, Option, Some, None, Result};
ghost use Rattle.lsm_names.specs.Folders.{is_folder_name};
ghost use Rattle.lsm_names.specs.declared.file_names.FileName.{FileName};
ghost use Rattle.lsm_disk.specs.State as disk;
ghost use Rattle.lsm_disk.specs.State.{Story, state_of, folder_made, created, file_synced};
ghost use Rattle.lsm_disk.specs.Tree.{TellsLawful};
ghost use Rattle.lsm_disk.specs.Goes.{Went};
ghost use Rattle.lsm_disk.specs.Refusals.{no_room, no_file};
ghost use Rattle.lsm_disk.specs.Answers.{Makes, MakesFront};
ghost use Rattle.lsm_disk.specs.Dest.{Begun, just_begun, with_name, path_in, IsPartName, begin_calls, part_calls, finish_calls, IsTakenExactly, NeverExists};
ghost use Rattle.lsm_disk.specs.Building.{Part, with_current, IsWithin, HasNoneOrAll, IsBuilding};
ghost use Rattle.lsm_disk.specs.declared.calls.DiskCall.TheVariants as call;
ghost use Rattle.lsm_disk.specs.declared.dest.DestError.{DestError};
ghost use Rattle.lsm_dest.specs.FolderDests.{NotHalted, MakesIn, DidOnce, Ended};
ghost use Rattle.lsm_model.specs.Steps.{Made, Began, Filed, Appended, Sealed, Finished};
ghost use Rattle.lsm_refine.specs.Kept.{Shown};
ghost use Rattle.lsm_restoring.specs.Restoring.{HasNamedJobs};
ghost use Rattle.lsm_restoring.specs.Calls.{dest_of, IsAnswered, StepsBy, LeadsOn};

/// Each call of a restore onto a store's disk that is answered as a destination answers it, and did on the disk what that says,
/// is a step of the abstract store from whichever state the store was good for to one for which it is good; and each image on
/// the way reads as a crash leaves the one or the other.
pub fn a_restores_calls_are_steps()
    ensures begun { (v w : Shown) (dir : List ℕ) (result : Result (Unit {0}) DestError) → is_folder_name dir ≡ true → HasNamedJobs v
        → IsAnswered (begin_calls dir) (Some (just_begun dir)) None v w result → IsTakenExactly dir (dest_of v) result
        → DidOnce (MakesIn (folder_made dir) v.disk w.disk) (no_room dir) v.disk.told w.disk.told result
        → StepsBy (Began dir result) v w }
    ensures filed { (v w : Shown) (name : FileName) (result : Result (Unit {0}) DestError) → HasNamedJobs v → (begun : Begun)
        → v.kept.begun ≡ Some begun → v.kept.hand ≡ None → IsPartName name → All (λ other. name ≢ other) begun.names
        → IsAnswered (part_calls call.Create v.kept.begun (Some name)) (Some (with_name name begun)) (Some name) v w result
        → NeverExists result
        → DidOnce (MakesIn (created (path_in begun.folder name)) v.disk w.disk) (no_room (path_in begun.folder name)) v.disk.told
        w.disk.told result
        → StepsBy (Filed name result) v w }
    ensures appended { (v w : Shown) (bytes : List ℕ) (result : Result (Unit {0}) DestError) → HasNamedJobs v → (begun : Begun)
        (name : FileName) → v.kept.begun ≡ Some begun → v.kept.hand ≡ Some name
        → IsAnswered (part_calls call.Append v.kept.begun v.kept.hand) v.kept.begun v.kept.hand v w result → NeverExists result
        → DidOnce (MakesFront (path_in begun.folder name) bytes v.disk.told w.disk.told) (no_file (path_in begun.folder name))
        v.disk.told w.disk.told result
        → StepsBy (Appended bytes result) v w }
    ensures sealed { (v w : Shown) (result : Result (Unit {0}) DestError) → HasNamedJobs v → (begun : Begun) (name : FileName)
        → v.kept.begun ≡ Some begun → v.kept.hand ≡ Some name
        → IsAnswered (part_calls call.Sync v.kept.begun v.kept.hand) v.kept.begun None v w result → NeverExists result
        → DidOnce (Makes v.disk.told (file_synced (path_in begun.folder name)) w.disk.told) (no_file (path_in begun.folder name))
        v.disk.told w.disk.told result
        → StepsBy (Sealed result) v w }
    ensures finished { (v w : Shown) (current : List ℕ) (result : Result (Unit {0}) DestError) → HasNamedJobs v → (begun : Begun)
        → v.kept.begun ≡ Some begun → v.kept.hand ≡ None
        → IsAnswered (finish_calls v.kept.begun) None None v w result → NeverExists result
        → (NotHalted result → TellsLawful v.disk)
        → ((start : disk.State) (story : Story) (b : Begun) (parts : List Part) → v.disk.told ≡ Some story
        → v.kept.begun ≡ Some b → IsBuilding start b parts (state_of story)
        → Went story w.disk.told (IsWithin b.folder (length (state_of story).files))
        (HasNoneOrAll start b.folder (with_current current parts)) (Ended start b parts current result))
        → StepsBy (Finished current result) v w }
{}

/// A run of calls leads from a store to itself where nothing is called, and leads on by one call more.
pub fn runs_of_a_restore_lead_on()
    ensures none { (v : Shown) → LeadsOn v v }
    ensures more { (first v w : Shown) (made : Made) → StepsBy made v w → LeadsOn first v → LeadsOn first w }
{}
