//! Laws of openings and of lives: what a crash leaves of a good store is opened as a good store again.
ghost use Rattle.std.specs.Prelude.{◌≡◌, ℕ, ◌+◌, ◌≤◌, Bool, true, List, [], ◌∷◌, ◌++◌, length, All, Option, Some, None, Ok};
ghost use Rattle.std.specs.FinMap as finmap;
ghost use Rattle.lsm_names.specs.Folders.{is_folder_name};
ghost use Rattle.lsm_rows.specs.Replay.{Contents};
ghost use Rattle.lsm_disk.specs.Names.{Folder_node};
ghost use Rattle.lsm_disk.specs.State as disk;
ghost use Rattle.lsm_disk.specs.State.{Story, state_of};
ghost use Rattle.lsm_disk.specs.Images.{Tree, IsImage, tree_now};
ghost use Rattle.lsm_disk.specs.Goes.{Went};
ghost use Rattle.lsm_folder.specs.Files.{files_in};
ghost use Rattle.lsm_folder.specs.Needed.{Stands};
ghost use Rattle.lsm_model.specs.declared.states.FolderRead.{FolderRead};
ghost use Rattle.lsm_model.specs.declared.states.State.{State};
ghost use Rattle.lsm_model.specs.Steps.{Made};
ghost use Rattle.lsm_model.specs.Crashes.{Closes, Opened};
ghost use Rattle.lsm_refine.specs.Kept.{Shown};
ghost use Rattle.lsm_refine.specs.Folders.{FoldersAre, FoldersRead};
ghost use Rattle.lsm_refine.specs.Good.{Good, Leads};
ghost use Rattle.lsm_refine.specs.Disks.{untouched, as_seen};
ghost use Rattle.lsm_refine.specs.New.{new_store, new_disk};
ghost use Rattle.lsm_refine.specs.Settled.{IsSettled, left_by};
ghost use Rattle.lsm_refine.specs.Witness.{its_disk, its_store, its_state, next_store};
ghost use Rattle.lsm_refine.specs.Openings.{IsUnwritten, HasOnlyFiles, IsClearable, HoldsAs, IsLeftOf, IsFound, found_state, OpensTo, ReopensTo, IsKeptImage, IsNewStore, LosesNothing, HasOpened};
ghost use Rattle.lsm_refine.specs.Lifetimes.{LivesLead};

/// From a settled disk a crash takes nothing: each image is its tree now. The disk that is opened after a crash is settled,
/// and its tree is what the crash left.
pub fn a_settled_disk_has_one_image()
    ensures one { (d : disk.State) → IsSettled d → (t : Tree) → IsImage d t → t ≡ tree_now d }
    ensures settled { (links : Bool) (t : Tree) → IsSettled (left_by links t) }
    ensures tree { (links : Bool) (t : Tree) → tree_now (left_by links t) ≡ t }
{}

/// Each image of a good store's disk is what a crash leaves of the store's state. Where the store is given up without a crash,
/// its disk is as its state says.
pub fn a_good_store_leaves_its_state()
    ensures crash { (v : Shown) (s : State) → (good : Good v s) → (t : Tree) → IsImage (state_of good.story) t → IsLeftOf s t }
    ensures given_up { (v : Shown) (s : State) → (good : Good v s) → IsFound (state_of good.story) s }
{}

/// Whatever state is found, each image of the disk is what a crash leaves of it.
pub fn a_crash_leaves_what_was_found()
    ensures { (d : disk.State) (s : State) → IsFound d s → (t : Tree) → IsImage d t → IsLeftOf s t }
{}

/// Where its folder is in each image on the way as it was in one at the start, or a new store was made of a fresh one, and
/// nothing else was touched, an opening loses nothing: each image is what a crash leaves of whatever state was found.
pub fn an_opening_that_keeps_its_folder_loses_nothing()
    ensures image { (d : disk.State) (s : State) (dir : List ℕ) (t : Tree) → is_folder_name dir ≡ true → s.own ≡ dir → IsFound d s
        → IsKeptImage dir d t → IsLeftOf s t }
    ensures way { (before : Story) (dir : List ℕ) (told : Option Story) → is_folder_name dir ≡ true
        → Went before told (λ c. Unit {0}) (λ d t. IsKeptImage dir (state_of before) t) (λ d. Unit {0}) → LosesNothing before dir told }
{}

/// What an opening finds on a settled disk: the state of which the tree is; and where a folder stands that has no other folder
/// under a file's name, a state of its contents and its sequence.
pub fn a_settled_disk_is_found()
    ensures left { (d : disk.State) (s : State) → IsSettled d → HoldsAs (tree_now d) s → s.durable ≤ length s.accepted → IsFound d s }
    ensures stands { (d : disk.State) (dir : List ℕ) (contents : Contents) (sequence : ℕ) (folders : List FolderRead) → IsSettled d
        → finmap.get (tree_now d).names dir ≡ Some Folder_node → Stands (files_in dir (tree_now d)) contents sequence
        → HasOnlyFiles dir (tree_now d).names → FoldersAre dir folders (tree_now d) → IsClearable (tree_now d).names
        → IsFound d (found_state dir contents sequence folders) }
{}

/// An opening of what a crash left of a state gives a store that is good again, for what the opening makes of what was left.
/// All folders are sure then.
pub fn what_a_crash_left_opens_again()
    ensures { (s : State) (t : Tree) (before : Story) (dir : List ℕ) (v : Shown) → IsLeftOf s t → IsSettled (state_of before)
        → tree_now (state_of before) ≡ t → s.own ≡ dir → HasOpened before dir v → ReopensTo s v }
{}

/// An opening that a crash cuts off leaves what the crash before it may have left. So any number of them may be cut off, one
/// after another, before one is answered Ok.
pub fn an_opening_cut_off_leaves_the_same()
    ensures { (s : State) (t : Tree) (before : Story) (dir : List ℕ) (told : Option Story) → IsLeftOf s t → IsSettled (state_of before)
        → tree_now (state_of before) ≡ t → s.own ≡ dir → LosesNothing before dir told
        → Went before told (λ c. Unit {0}) (λ d u. IsLeftOf s u) (λ d. Unit {0}) }
{}

/// A good store that is cut off by a crash is good again when an image of its disk is opened, for a state that a crash and
/// an opening make of its state.
pub fn a_good_store_opens_again()
    ensures { (v w : Shown) (s : State) (t : Tree) (before : Story) → (good : Good v s) → IsImage (state_of good.story) t
        → IsSettled (state_of before) → tree_now (state_of before) ≡ t → HasOpened before v.dir w → ReopensTo s w }
{}

/// A new store is what an opening makes of a state of which nothing was written, where the other folders read as they did.
pub fn a_new_store_is_opened()
    ensures { (s : State) (before : Story) (v : Shown) → (made : IsNewStore before s.own v) → IsUnwritten s
        → FoldersRead (state_of made.story) s → OpensTo s v }
{}

/// No life leads to a store that is good. Lives that lead to a store lead on by one more, of a run of calls, its end, and the
/// next opening: whether a crash ends it, a closing that is answered Ok, or it is given up.
pub fn lives_lead_on()
    ensures none { (s : State) (v : Shown) → Good v s → LivesLead s [] v }
    ensures crash { (start : State) (lives : List (List Made)) (steps : List Made) (v u w : Shown) → (lead : LivesLead start lives v)
        → (run : Leads lead.end steps u) → ReopensTo run.end w → LivesLead start (lives ++ steps ∷ []) w }
    ensures closing { (start : State) (lives : List (List Made)) (steps : List Made) (v u w : Shown) → (lead : LivesLead start lives v)
        → (run : Leads lead.end steps u) → (found : State) → Closes run.end (Ok tt) found → OpensTo found w
        → LivesLead start (lives ++ steps ∷ []) w }
    ensures given_up { (start : State) (lives : List (List Made)) (steps : List Made) (v u w : Shown) → (lead : LivesLead start lives v)
        → (run : Leads lead.end steps u) → OpensTo run.end w → LivesLead start (lives ++ steps ∷ []) w }
{}

/// Where a store was opened on a settled disk and nothing was done since, an opening of its folder may leave all as it is. So a
/// new store's folder opens again as it is; and for each name of a folder there is a disk that has such a store.
pub fn an_opening_may_have_nothing_to_do()
    ensures idle { (v : Shown) (s was : State) → (good : Good v s) → Opened was s → IsSettled (state_of good.story) → v.halt ≡ None
        → HasOpened good.story v.dir v }
    ensures some { (dir : List ℕ) → is_folder_name dir ≡ true
        → HasOpened (untouched (new_disk dir)) dir (new_store (as_seen (new_disk dir)) dir 1 []) }
{}

/// A store that has a live table, frozen rows, active rows, a file that isn't needed and a pin is good. Its disk is settled; so
/// the next opening, on whatever disk that has its tree, gives a good store again.
pub fn a_store_with_something_in_each_place_is_good()
    ensures good { (dir : List ℕ) → is_folder_name dir ≡ true → (folders : List FolderRead) × Good (its_store dir) (its_state dir folders) }
    ensures settled { (dir : List ℕ) → is_folder_name dir ≡ true → IsSettled (its_disk dir) }
    ensures again { (dir : List ℕ) (folders : List FolderRead) (before : Story) (w : Shown) → is_folder_name dir ≡ true
        → Good (its_store dir) (its_state dir folders) → IsSettled (state_of before)
        → tree_now (state_of before) ≡ tree_now (its_disk dir) → HasOpened before dir w → ReopensTo (its_state dir folders) w }
{}

/// The folder of that store may be opened so: its logs' rows go into a table, and change by change nothing is lost. So a crash
/// of that store and this opening lead to a store that is good.
pub fn a_folder_with_rows_in_logs_may_be_opened()
    ensures opened { (dir : List ℕ) → is_folder_name dir ≡ true → HasOpened (untouched (its_disk dir)) dir (next_store dir) }
    ensures good { (dir : List ℕ) (folders : List FolderRead) → is_folder_name dir ≡ true
        → Good (its_store dir) (its_state dir folders) → ReopensTo (its_state dir folders) (next_store dir) }
{}
