//! Laws of calls at each exit: the answer is a step of the abstract store, and the store is good behind it. The functions do
//! nothing: their contracts are the laws.
ghost use Rattle.std.specs.Prelude.{◌≡◌, ◌≢◌, ◌⊎◌, ℕ, ◌+◌, ◌<◌, ◌≤◌, true, false, List, [], ◌∷◌, length, Option, Some, None, Result, Ok, Err};
ghost use Rattle.std.specs.FinMap as finmap;
ghost use Rattle.lsm_io.specs.Causes.{Rose};
ghost use Rattle.lsm_names.specs.Folders.{is_folder_name};
ghost use Rattle.lsm_names.specs.declared.file_names.FileName.{FileName};
ghost use Rattle.lsm_rows.specs.Replay.{Contents};
ghost use Rattle.lsm_disk.specs.State.{Seen, Story, unnamed, state_of};
ghost use Rattle.lsm_disk.specs.Images.{tree_now};
ghost use Rattle.lsm_disk.specs.Answers.{Makes};
ghost use Rattle.lsm_disk.specs.Dest.{path_in};
ghost use Rattle.lsm_disk.specs.declared.calls.DiskCall.TheVariants as call;
ghost use Rattle.lsm_disk.specs.declared.calls.Halt.{Halt};
ghost use Rattle.lsm_model.specs.declared.cuts.Cut.{Cut};
ghost use Rattle.lsm_model.specs.declared.cuts.FlushRule.{FlushRule};
ghost use Rattle.lsm_model.specs.declared.errors.StoreError.{StoreError};
ghost use Rattle.lsm_model.specs.declared.errors.StoreError.TheVariants as error;
ghost use Rattle.lsm_model.specs.declared.events.Event.TheVariants as event;
ghost use Rattle.lsm_model.specs.declared.replies.Reply.TheVariants as reply;
ghost use Rattle.lsm_model.specs.declared.replies.Deleted.TheVariants as delete;
ghost use Rattle.lsm_model.specs.declared.replies.Shown.{Shown as Reading};
ghost use Rattle.lsm_model.specs.declared.states.State.{State};
ghost use Rattle.lsm_model.specs.Answers.{does_flush};
ghost use Rattle.lsm_model.specs.Causes.{is_none};
ghost use Rattle.lsm_model.specs.Halting.{A_file, IsMet};
ghost use Rattle.lsm_model.specs.States.{contents_now};
ghost use Rattle.lsm_model.specs.Steps.{Step};
ghost use Rattle.lsm_refine.specs.Kept.{Shown};
ghost use Rattle.lsm_refine.specs.Folders.{folder_reading};
ghost use Rattle.lsm_refine.specs.Good.{IsRunning, Good, IsUnchanged};
ghost use Rattle.lsm_refine.specs.Moments.{ImagesShow};
ghost use Rattle.lsm_refine.specs.Grown.{halted_shown};
ghost use Rattle.lsm_refine.specs.Calls.{unpinned_shown, is_own_kept, kept_lists, disabled_shown, cut_shown, ListsNeeded, MayBeRemoved, AreWithout, removed_shown};
ghost use Rattle.lsm_refine.specs.Caused.{kept_pin_of, flushes};

/// A pin that is its caller's own ends, and no other one does: a call for another number is refused.
pub fn pins_end()
    ensures ok { (v : Shown) (s : State) (good : Good v s) (number : ℕ) → is_own_kept (kept_pin_of number v.kept.pins) ≡ true
        → (t : State) × Step s (event.Unpin number) (reply.Unpin (Ok tt)) t × Good (unpinned_shown number v) t }
    ensures unknown { (v : Shown) (s : State) (good : Good v s) (number : ℕ) → is_own_kept (kept_pin_of number v.kept.pins) ≡ false
        → (t : State) × Step s (event.Unpin number) (reply.Unpin (Err (error.NoSuchPin number))) t × Good v t }
{}

/// Deletion is disabled once more, and enabled once, also where the store is halted; each call tells the count.
pub fn disables_are_counted()
    ensures disabled { (v : Shown) (s : State) (good : Good v s) → v.kept.disables < 1000000
        → (t : State) × Step s event.Disable (reply.Disable (Ok (v.kept.disables + 1))) t
        × Good (disabled_shown (v.kept.disables + 1) v) t }
    ensures full { (v : Shown) (s : State) (good : Good v s) → 1000000 ≤ v.kept.disables
        → (t : State) × Step s event.Disable (reply.Disable (Err (error.DisablesFull v.kept.disables))) t × Good v t }
    ensures enabled { (v : Shown) (s : State) (good : Good v s) (count : ℕ) → v.kept.disables ≡ count + 1
        → (t : State) × Step s event.Enable (reply.Enable (Ok count)) t × Good (disabled_shown count v) t }
    ensures none { (v : Shown) (s : State) (good : Good v s) → v.kept.disables ≡ 0
        → (t : State) × Step s event.Enable (reply.Enable (Err error.NotDisabled)) t × Good v t }
{}

/// A store tells the last sequence, also where it is halted.
pub fn the_last_sequence_is_told()
    ensures { (v : Shown) (s : State) (good : Good v s) → (t : State) × Step s event.Last (reply.Last v.kept.sequence) t × Good v t }
{}

/// A reading changes nothing but the disk's counts and which views are open, also where the store is halted: it shows what
/// the state has, or the disk failed, or memory was wanting. A folder is shown as it reads on the disk.
pub fn readings_change_nothing()
    ensures get_ok { (v w : Shown) (s : State) (good : Good v s) → IsUnchanged good.story v w → w.halt ≡ v.halt
        → v.disk.faults ≤ w.disk.faults
        → v.disk.refusals ≤ w.disk.refusals → (key : List ℕ) (value : Option (List ℕ)) → value ≡ finmap.get (contents_now s) key
        → (t : State) × Step s (event.Get key) (reply.Get (Ok value)) t × Good w t }
    ensures get_fault { (v w : Shown) (s : State) (good : Good v s) → IsUnchanged good.story v w → w.halt ≡ v.halt
        → v.disk.faults ≤ w.disk.faults
        → v.disk.refusals ≤ w.disk.refusals → (key : List ℕ) → Rose v.disk.faults w.disk.faults
        → (t : State) × Step s (event.Get key) (reply.Get (Err error.DiskFault)) t × Good w t }
    ensures get_wanting { (v w : Shown) (s : State) (good : Good v s) → IsUnchanged good.story v w → w.halt ≡ v.halt
        → v.disk.faults ≤ w.disk.faults
        → v.disk.refusals ≤ w.disk.refusals → (key : List ℕ)
        → (t : State) × Step s (event.Get key) (reply.Get (Err error.NoMemory)) t × Good w t }
    ensures scan_ok { (v w : Shown) (s : State) (good : Good v s) → IsUnchanged good.story v w → w.halt ≡ v.halt
        → v.disk.faults ≤ w.disk.faults
        → v.disk.refusals ≤ w.disk.refusals → (pairs : Contents) → pairs ≡ contents_now s
        → (t : State) × Step s event.Scan (reply.Scan (Ok pairs)) t × Good w t }
    ensures scan_fault { (v w : Shown) (s : State) (good : Good v s) → IsUnchanged good.story v w → w.halt ≡ v.halt
        → v.disk.faults ≤ w.disk.faults
        → v.disk.refusals ≤ w.disk.refusals → Rose v.disk.faults w.disk.faults
        → (t : State) × Step s event.Scan (reply.Scan (Err error.DiskFault)) t × Good w t }
    ensures scan_wanting { (v w : Shown) (s : State) (good : Good v s) → IsUnchanged good.story v w → w.halt ≡ v.halt
        → v.disk.faults ≤ w.disk.faults
        → v.disk.refusals ≤ w.disk.refusals
        → (t : State) × Step s event.Scan (reply.Scan (Err error.NoMemory)) t × Good w t }
    ensures show_other { (v w : Shown) (s : State) (good : Good v s) → IsUnchanged good.story v w → w.halt ≡ v.halt
        → v.disk.faults ≤ w.disk.faults
        → v.disk.refusals ≤ w.disk.refusals → (dir : List ℕ) (result : Result Reading StoreError)
        → is_folder_name dir ≡ true → dir ≢ v.dir → result ≡ folder_reading dir (tree_now (state_of good.story))
        → (t : State) × Step s (event.Show dir) (reply.Show result) t × Good w t }
    ensures show_own { (v w : Shown) (s : State) (good : Good v s) → IsUnchanged good.story v w → w.halt ≡ v.halt
        → v.disk.faults ≤ w.disk.faults
        → v.disk.refusals ≤ w.disk.refusals → (result : Result Reading StoreError)
        → result ≡ folder_reading v.dir (tree_now (state_of good.story))
        → (t : State) × Step s (event.Show v.dir) (reply.Show result) t × Good w t }
    ensures show_fault { (v w : Shown) (s : State) (good : Good v s) → IsUnchanged good.story v w → w.halt ≡ v.halt
        → v.disk.faults ≤ w.disk.faults
        → v.disk.refusals ≤ w.disk.refusals → (dir : List ℕ) → Rose v.disk.faults w.disk.faults
        → (t : State) × Step s (event.Show dir) (reply.Show (Err error.DiskFault)) t × Good w t }
    ensures show_wanting { (v w : Shown) (s : State) (good : Good v s) → IsUnchanged good.story v w → w.halt ≡ v.halt
        → v.disk.faults ≤ w.disk.faults
        → v.disk.refusals ≤ w.disk.refusals → (dir : List ℕ)
        → (t : State) × Step s (event.Show dir) (reply.Show (Err error.NoMemory)) t × Good w t }
{}

/// A pin is read, also where the store is halted: no pin of another number, and no file but those that it lists. Else the disk
/// may fail, and memory may be wanting.
pub fn pins_are_read()
    ensures show_pin_unknown { (v : Shown) (s : State) (good : Good v s) (number : ℕ) → is_none (kept_pin_of number v.kept.pins) ≡ true
        → (t : State) × Step s (event.ShowPin number) (reply.ShowPin (Err (error.NoSuchPin number))) t × Good v t }
    ensures show_pin_fault { (v : Shown) (s : State) (good : Good v s) (number : ℕ) → is_none (kept_pin_of number v.kept.pins) ≡ false
        → (w : Shown) → IsUnchanged good.story v w → w.halt ≡ v.halt → v.disk.faults ≤ w.disk.faults
        → v.disk.refusals ≤ w.disk.refusals → Rose v.disk.faults w.disk.faults
        → (t : State) × Step s (event.ShowPin number) (reply.ShowPin (Err error.DiskFault)) t × Good w t }
    ensures show_pin_wanting { (v : Shown) (s : State) (good : Good v s) (number : ℕ) → is_none (kept_pin_of number v.kept.pins) ≡ false
        → (w : Shown) → IsUnchanged good.story v w → w.halt ≡ v.halt → v.disk.faults ≤ w.disk.faults → v.disk.refusals ≤ w.disk.refusals
        → (t : State) × Step s (event.ShowPin number) (reply.ShowPin (Err error.NoMemory)) t × Good w t }
    ensures read_pinned_unknown { (v : Shown) (s : State) (good : Good v s) (number : ℕ) (name : FileName)
        → is_none (kept_pin_of number v.kept.pins) ≡ true
        → (t : State) × Step s (event.ReadPinned number name) (reply.ReadPinned (Err (error.NoSuchPin number))) t × Good v t }
    ensures read_pinned_other { (v : Shown) (s : State) (good : Good v s) (number : ℕ) (name : FileName)
        → is_none (kept_pin_of number v.kept.pins) ≡ false → kept_lists name (kept_pin_of number v.kept.pins) ≡ false
        → (t : State) × Step s (event.ReadPinned number name) (reply.ReadPinned (Err (error.NotInPin number name))) t × Good v t }
    ensures read_pinned_fault { (v : Shown) (s : State) (good : Good v s) (number : ℕ) → is_none (kept_pin_of number v.kept.pins) ≡ false
        → (w : Shown) → IsUnchanged good.story v w → w.halt ≡ v.halt → v.disk.faults ≤ w.disk.faults → v.disk.refusals ≤ w.disk.refusals
        → (name : FileName) → kept_lists name (kept_pin_of number v.kept.pins) ≡ true → Rose v.disk.faults w.disk.faults
        → (t : State) × Step s (event.ReadPinned number name) (reply.ReadPinned (Err error.DiskFault)) t × Good w t }
    ensures read_pinned_wanting { (v : Shown) (s : State) (good : Good v s) (number : ℕ) → is_none (kept_pin_of number v.kept.pins) ≡ false
        → (w : Shown) → IsUnchanged good.story v w → w.halt ≡ v.halt → v.disk.faults ≤ w.disk.faults → v.disk.refusals ≤ w.disk.refusals
        → (name : FileName) → kept_lists name (kept_pin_of number v.kept.pins) ≡ true
        → (t : State) × Step s (event.ReadPinned number name) (reply.ReadPinned (Err error.NoMemory)) t × Good w t }
{}

/// A step of deletion removes a file that is known and that neither the store needs nor a pin holds; it does nothing while
/// deletion is disabled, and where there is no such file. A fault halts the store, whether the file is gone or not. Each image
/// on the way reads as a crash leaves the state.
pub fn a_removed_file_isnt_missed()
    ensures halted { (v : Shown) (s : State) (good : Good v s) (first : Halt) → v.halt ≡ Some first
        → (t : State) × Step s event.DeleteStep (reply.DeleteStep (Err (error.Halted first))) t × Good v t }
    ensures disabled { (v : Shown) (s : State) (good : Good v s) → v.halt ≡ None → v.kept.disables ≢ 0
        → (t : State) × Step s event.DeleteStep (reply.DeleteStep (Ok (delete.Disabled v.kept.disables))) t × Good v t }
    ensures nothing { (v : Shown) (s : State) (good : Good v s) → v.halt ≡ None → v.kept.disables ≡ 0
        → (t : State) × Step s event.DeleteStep (reply.DeleteStep (Ok delete.Nothing)) t × Good v t }
    ensures removed { (v : Shown) (s : State) (good : Good v s) → v.halt ≡ None → v.kept.disables ≡ 0
        → (run : IsRunning (state_of good.story) v s) (name : FileName) (is : MayBeRemoved v.kept name) (seen : Seen)
        → v.disk.faults ≤ seen.faults → v.disk.refusals ≤ seen.refusals
        → (fewer : List FileName) → AreWithout name v.kept.known fewer → Makes v.disk.told (unnamed (path_in v.dir name)) seen.told
        → (t : State) × Step s event.DeleteStep (reply.DeleteStep (Ok (delete.Removed name))) t × Good (removed_shown seen fewer v) t }
    ensures fault { (v : Shown) (s : State) (good : Good v s) → v.halt ≡ None → v.kept.disables ≡ 0
        → (run : IsRunning (state_of good.story) v s) (name : FileName) (is : MayBeRemoved v.kept name) (seen : Seen)
        → v.disk.faults ≤ seen.faults → v.disk.refusals ≤ seen.refusals
        → (at : Halt) → IsMet s.own at ((call.Unlink, A_file) ∷ []) → Rose v.disk.faults seen.faults
        → (seen.told ≡ v.disk.told) ⊎ Makes v.disk.told (unnamed (path_in v.dir name)) seen.told
        → (t : State) × Step s event.DeleteStep (reply.DeleteStep (Err error.DiskFault)) t × Good (halted_shown seen at v) t }
    ensures images { (v : Shown) (s : State) (good : Good v s) (run : IsRunning (state_of good.story) v s) (name : FileName)
        → MayBeRemoved v.kept name → (told : Option Story)
        → (told ≡ v.disk.told) ⊎ Makes v.disk.told (unnamed (path_in v.dir name)) told → (later : State)
        → ImagesShow good.story told s later }
{}

/// A cut that flushes nothing asks no disk and gives one pin more, which holds the files that the cut lists. It is refused where
/// the store is halted, where as many pins live as may, and where memory is wanting.
pub fn a_cut_pins_its_files()
    ensures flushes { (v : Shown) (s : State) (good : Good v s) → IsRunning (state_of good.story) v s → (rule : FlushRule)
        → does_flush rule s ≡ flushes rule v.kept }
    ensures halted { (v : Shown) (s : State) (good : Good v s) (rule : FlushRule) (first : Halt) → v.halt ≡ Some first
        → (t : State) × Step s (event.Cut rule) (reply.Cut (Err (error.Halted first))) t × Good v t }
    ensures full { (v : Shown) (s : State) (good : Good v s) → v.halt ≡ None → (rule : FlushRule) → 64 ≤ length v.kept.pins
        → (t : State) × Step s (event.Cut rule) (reply.Cut (Err (error.PinsFull (length v.kept.pins)))) t × Good v t }
    ensures wanting { (v : Shown) (s : State) (good : Good v s) → v.halt ≡ None → length v.kept.pins < 64
        → IsRunning (state_of good.story) v s → (rule : FlushRule) → flushes rule v.kept ≡ false
        → (w : Shown) → IsUnchanged good.story v w → w.halt ≡ v.halt → v.disk.faults ≤ w.disk.faults → v.disk.refusals ≤ w.disk.refusals
        → (t : State) × Step s (event.Cut rule) (reply.Cut (Err error.NoMemory)) t × Good w t }
    ensures ok { (v : Shown) (s : State) (good : Good v s) → v.halt ≡ None → length v.kept.pins < 64
        → IsRunning (state_of good.story) v s → (rule : FlushRule) → flushes rule v.kept ≡ false
        → (cut : Cut) → ListsNeeded (state_of good.story) v.dir v.kept s cut
        → cut.pin ≡ v.kept.greatest_pin + 1 → cut.sequence ≡ v.kept.sequence
        → (t : State) × Step s (event.Cut rule) (reply.Cut (Ok cut)) t × Good (cut_shown cut v) t }
{}
