//! Laws of a restore's calls at each exit: the answer is a step of the abstract store, and the store is good behind it. The
//! functions do nothing: their contracts are the laws.
ghost use Rattle.std.specs.Prelude.{◌≡◌, ℕ, true, is_some, List, [], Option, Some, None, Ok, Err};
ghost use Rattle.std.specs.FinMap as finmap;
ghost use Rattle.lsm_io.specs.Causes.{Rose};
ghost use Rattle.lsm_names.specs.Folders.{is_folder_name};
ghost use Rattle.lsm_names.specs.declared.file_names.FileName.{FileName};
ghost use Rattle.lsm_disk.specs.State as disk;
ghost use Rattle.lsm_disk.specs.State.{Seen, Story, state_of, names_now};
ghost use Rattle.lsm_disk.specs.Halts.{halt_at, IsAmong};
ghost use Rattle.lsm_disk.specs.Dest.{Begun, just_begun, path_in, finish_calls};
ghost use Rattle.lsm_disk.specs.Building.{Part, IsBuilding, IsBuilt};
ghost use Rattle.lsm_disk.specs.declared.calls.DiskCall.{DiskCall};
ghost use Rattle.lsm_disk.specs.declared.calls.DiskCall.TheVariants as call;
ghost use Rattle.lsm_disk.specs.declared.calls.Halt.{Halt};
ghost use Rattle.lsm_disk.specs.declared.dest.DestError.TheVariants.{Fault, Halted, Exists, NoMemory};
ghost use Rattle.lsm_model.specs.declared.states.State.{State};
ghost use Rattle.lsm_model.specs.Destination.{BeginsFolder, FillsFolder, FinishesFolder};
ghost use Rattle.lsm_refine.specs.Kept.{Shown};
ghost use Rattle.lsm_refine.specs.Good.{Good};
ghost use Rattle.lsm_refine.specs.Grown.{halted_shown};
ghost use Rattle.lsm_restoring.specs.Restoring.{ChangesOnly, LacksCurrentNow, MayRestore, IsRestoring, GoesTo, CountsRise, HasNamedJobs, restored_shown};

/// A folder is begun where its name is free, and `Exists` comes where it is taken. A fault halts the store, whether it made the
/// folder or not; then no other folder is begun than before.
pub fn a_folder_is_begun()
    ensures halted { (v : Shown) (s : State) (good : Good v s) (dir : List ℕ) (first : Halt) → v.halt ≡ Some first
        → GoesTo (BeginsFolder s dir (Err (Halted first))) v }
    ensures wanting { (v : Shown) (s : State) (good : Good v s) → v.halt ≡ None → (seen : Seen) → CountsRise v seen
        → seen.told ≡ v.disk.told → (dir : List ℕ) → GoesTo (BeginsFolder s dir (Err NoMemory)) (record v { disk = seen }) }
    ensures taken { (v : Shown) (s : State) (good : Good v s) → v.halt ≡ None → (seen : Seen) → CountsRise v seen
        → seen.told ≡ v.disk.told → (dir : List ℕ) → is_folder_name dir ≡ true
        → is_some (finmap.get (names_now (state_of good.story)) dir) ≡ true
        → GoesTo (BeginsFolder s dir (Err Exists)) (record v { disk = seen }) }
    ensures failed { (v : Shown) (s : State) (good : Good v s) → v.halt ≡ None → (seen : Seen) → CountsRise v seen
        → seen.told ≡ v.disk.told → (dir : List ℕ) → Rose v.disk.faults seen.faults
        → GoesTo (BeginsFolder s dir (Err Fault)) (halted_shown seen (halt_at call.MakeFolder dir) v) }
    ensures may { (v : Shown) (s : State) (good : Good v s) → v.halt ≡ None → (dir : List ℕ) → is_folder_name dir ≡ true
        → HasNamedJobs v → finmap.get (names_now (state_of good.story)) dir ≡ None
        → MayRestore dir v s }
    ensures ok { (v : Shown) (s : State) (good : Good v s) → v.halt ≡ None → (dir : List ℕ) → is_folder_name dir ≡ true
        → HasNamedJobs v → finmap.get (names_now (state_of good.story)) dir ≡ None
        → (seen : Seen) → CountsRise v seen → (story : Story) → seen.told ≡ Some story
        → ChangesOnly dir (state_of good.story) (state_of story) → IsBuilding (state_of good.story) (just_begun dir) []
        (state_of story)
        → GoesTo (BeginsFolder s dir (Ok tt)) (restored_shown seen (Some (just_begun dir)) None v) }
    ensures made { (v : Shown) (s : State) (good : Good v s) → v.halt ≡ None → (dir : List ℕ) → is_folder_name dir ≡ true
        → HasNamedJobs v → finmap.get (names_now (state_of good.story)) dir ≡ None
        → (seen : Seen) → CountsRise v seen → (story : Story) → seen.told ≡ Some story
        → ChangesOnly dir (state_of good.story) (state_of story) → IsBuilding (state_of good.story) (just_begun dir) []
        (state_of story)
        → Rose v.disk.faults seen.faults
        → GoesTo (BeginsFolder s dir (Err Fault)) (halted_shown seen (halt_at call.MakeFolder dir) v) }
{}

/// A file of the begun folder is made, added to or sealed, by one disk call; the folder lacks `CURRENT` before and behind it. A
/// fault halts the store, whatever it did in the folder.
pub fn a_begun_folder_is_filled()
    ensures halted { (v : Shown) (s : State) (good : Good v s) (which : DiskCall) (first : Halt) → v.halt ≡ Some first
        → GoesTo (FillsFolder which s (Err (Halted first))) v }
    ensures wanting { (v : Shown) (s : State) (good : Good v s) → v.halt ≡ None → (seen : Seen) → CountsRise v seen
        → seen.told ≡ v.disk.told → (which : DiskCall) → GoesTo (FillsFolder which s (Err NoMemory))
        (record v { disk = seen }) }
    ensures lacks { (v : Shown) (s : State) (good : Good v s) → v.halt ≡ None → (begun : Begun) → v.kept.begun ≡ Some begun
        → LacksCurrentNow begun.folder (state_of good.story) }
    ensures may { (v : Shown) (s : State) (good : Good v s) → v.halt ≡ None → (begun : Begun) → v.kept.begun ≡ Some begun
        → HasNamedJobs v → MayRestore begun.folder v s }
    ensures ok { (v : Shown) (s : State) (good : Good v s) → v.halt ≡ None → (begun : Begun) → v.kept.begun ≡ Some begun
        → HasNamedJobs v → (seen : Seen) → CountsRise v seen → (story : Story) → seen.told ≡ Some story
        → ChangesOnly begun.folder (state_of good.story) (state_of story) → LacksCurrentNow begun.folder (state_of story)
        → (which : DiskCall) (later : Begun) (hand : Option FileName) → later.folder ≡ begun.folder
        → IsRestoring (state_of story) v.dir (Some later) hand
        → GoesTo (FillsFolder which s (Ok tt)) (restored_shown seen (Some later) hand v) }
    ensures failed { (v : Shown) (s : State) (good : Good v s) → v.halt ≡ None → (begun : Begun) → v.kept.begun ≡ Some begun
        → HasNamedJobs v → (seen : Seen) → CountsRise v seen → (story : Story) → seen.told ≡ Some story
        → ChangesOnly begun.folder (state_of good.story) (state_of story) → LacksCurrentNow begun.folder (state_of story)
        → (which : DiskCall) (name : FileName) → Rose v.disk.faults seen.faults
        → GoesTo (FillsFolder which s (Err Fault)) (halted_shown seen (halt_at which (path_in begun.folder name)) v) }
{}

/// The begun folder is finished: it is built whole, and sure. Where memory was wanting it goes on as it was. A fault halts the
/// store; the folder then reads as whatever is in it, and a crash may take that away again.
pub fn a_begun_folder_is_finished()
    ensures halted { (v : Shown) (s : State) (good : Good v s) (first : Halt) → v.halt ≡ Some first
        → GoesTo (FinishesFolder s (Err (Halted first))) v }
    ensures wanting { (v : Shown) (s : State) (good : Good v s) → v.halt ≡ None → (begun : Begun) → v.kept.begun ≡ Some begun
        → HasNamedJobs v → (seen : Seen) → CountsRise v seen → (story : Story) → seen.told ≡ Some story
        → ChangesOnly begun.folder (state_of good.story) (state_of story) → LacksCurrentNow begun.folder (state_of story)
        → IsRestoring (state_of story) v.dir (Some begun) None
        → GoesTo (FinishesFolder s (Err NoMemory)) (restored_shown seen (Some begun) None v) }
    ensures ok { (v : Shown) (s : State) (good : Good v s) → v.halt ≡ None → (begun : Begun) → v.kept.begun ≡ Some begun
        → HasNamedJobs v → (seen : Seen) → CountsRise v seen → (story : Story) → seen.told ≡ Some story
        → ChangesOnly begun.folder (state_of good.story) (state_of story) → (parts : List Part)
        → IsBuilt begun.folder parts (state_of story)
        → GoesTo (FinishesFolder s (Ok tt)) (restored_shown seen None None v) }
    ensures failed { (v : Shown) (s : State) (good : Good v s) → v.halt ≡ None → (begun : Begun) → v.kept.begun ≡ Some begun
        → HasNamedJobs v → (seen : Seen) → CountsRise v seen → (story : Story) → seen.told ≡ Some story
        → ChangesOnly begun.folder (state_of good.story) (state_of story) → (at : Halt)
        → IsAmong at (finish_calls (Some (just_begun begun.folder)))
        → is_some (finmap.get (names_now (state_of story)) begun.folder) ≡ true → Rose v.disk.faults seen.faults
        → GoesTo (FinishesFolder s (Err Fault)) (halted_shown seen at v) }
{}
