//! Laws of the abstract store, over all runs. The functions do nothing: their contracts are the laws.
ghost use Rattle.std.specs.Prelude.{◌≡◌, ◌⊎◌, ℕ, ◌+◌, ◌≤◌, true, List, [], ◌∷◌, ◌++◌, length, take, Contains, Option, Some, None, Result, Ok, Err};
ghost use Rattle.lsm_rows.specs.declared.operations.Op.{Op};
ghost use Rattle.lsm_rows.specs.Replay.{replayed, sequence_after};
ghost use Rattle.lsm_model.specs.declared.events.Event.{Event};
ghost use Rattle.lsm_model.specs.declared.replies.Reply.{Reply};
ghost use Rattle.lsm_disk.specs.declared.calls.DiskCall.{DiskCall};
ghost use Rattle.lsm_disk.specs.declared.calls.Halt.{Halt};
ghost use Rattle.lsm_disk.specs.declared.dest.DestError.{DestError};
ghost use Rattle.lsm_disk.specs.declared.dest.DestError.TheVariants.{Halted};
ghost use Rattle.lsm_names.specs.declared.file_names.FileName.{FileName};
ghost use Rattle.lsm_model.specs.declared.replies.Shown.{Shown};
ghost use Rattle.lsm_model.specs.declared.replies.JobStart.{JobStart};
ghost use Rattle.lsm_model.specs.declared.cuts.Cut.{Cut};
ghost use Rattle.lsm_model.specs.declared.cuts.CutFile.{CutFile};
ghost use Rattle.lsm_model.specs.declared.cuts.FlushRule.{FlushRule};
ghost use Rattle.lsm_model.specs.declared.states.State.{State};
ghost use Rattle.lsm_model.specs.declared.states.Pin.{Pin};
ghost use Rattle.lsm_model.specs.declared.states.FolderRead.{FolderRead};
ghost use Rattle.lsm_model.specs.States.{shown_at, contents_now, last_of, pin_of, built_by, folder_of, written};
ghost use Rattle.lsm_model.specs.Steps.{Step, Made, Asked, Makes, Run};
ghost use Rattle.lsm_model.specs.Runs.{accepted_in, shown_behind};
ghost use Rattle.lsm_model.specs.Crashes.{Crashed, Closes, Opened};
ghost use Rattle.lsm_model.specs.Lives.{Lives, AreLeft};
ghost use Rattle.lsm_model.specs.Calls.{call_of, answered};
ghost use Rattle.lsm_model.specs.Counts.{IsCounted, IsSynced};
ghost use Rattle.lsm_model.specs.Checkpoints.{IsJob, checkpoint_folder};
ghost use Rattle.lsm_model.specs.Destination.{BeginsFolder, FillsFolder, FinishesFolder};
ghost use Rattle.lsm_model.specs.Refusals.{known_refusal, refusal_in, Unchanged, HasCause, restore_answer, HasRestoreCause};
ghost use Rattle.lsm_model.specs.declared.errors.StoreError.{StoreError};

/// A run goes on by one call with its answer: an event, a restore's call, or one that takes views back.
#[tactic(auto, using(crate::proofs::Histories::run_more))]
pub fn a_run_goes_on_by_one_step()
    ensures { (s m t : State) (steps : List Made) (made : Made)
        → Run s steps m → Makes m made t → Run s (steps ++ made ∷ []) t }
{}

/// The accepted batches form one list, to which a step only ever adds at its end: a run adds those of its writes that were
/// answered Ok, each once, in their order. Nothing else of the beginning changes.
#[tactic(auto, using(crate::proofs::Histories::run_accepted, crate::proofs::Histories::run_base))]
pub fn accepted_batches_form_one_list()
    ensures grows { (s t : State) (steps : List Made) → Run s steps t → t.accepted ≡ s.accepted ++ accepted_in steps }
    ensures base { (s t : State) (steps : List Made) → Run s steps t
        → (t.own ≡ s.own) × (t.opening ≡ s.opening) × (t.began ≡ s.began) }
{}

/// Sequences rise by the counts of the accepted batches.
#[tactic(auto, using(crate::proofs::Histories::run_last))]
pub fn sequences_count_operations()
    ensures { (s t : State) (steps : List Made) → Run s steps t
        → last_of t ≡ sequence_after (last_of s) (accepted_in steps) }
{}

/// The counts of a state go with its lists: no more batches are durable than are accepted, and each pin has a number that
/// was given and a front of the batches, and the folder that is begun is there. It is so after each crash and each opening, and stays so over every run, over a
/// closing and over a restore's calls.
pub fn counts_go_with_lists()
    ensures step { (s t : State) (e : Event) (r : Reply) → Step s e r t → IsCounted s → IsCounted t }
    ensures call { (s t : State) (made : Made) → Makes s made t → IsCounted s → IsCounted t }
    ensures run { (s t : State) (steps : List Made) → Run s steps t → IsCounted s → IsCounted t }
    ensures crash { (s t : State) → Crashed s t → IsCounted t }
    ensures opening { (s t : State) → Opened s t → IsCounted t }
    ensures closing { (s t : State) (result : Result (Unit {0}) StoreError) → Closes s result t → IsCounted s → IsCounted t }
    ensures restore { (s t : State) (dir : List ℕ) (call : DiskCall) (result : Result (Unit {0}) DestError)
        → BeginsFolder s dir result t ⊎ (FillsFolder call s result t ⊎ FinishesFolder s result t) → IsCounted s → IsCounted t }
{}

/// How many batches are durable never falls over a run. After a write with `sync` or a sync, answered Ok, all are.
pub fn durable_batches_only_grow()
    ensures grows { (s t : State) (steps : List Made) → Run s steps t → IsCounted s → s.durable ≤ t.durable }
    ensures synced { (s t : State) (e : Event) (r : Reply) → Step s e r t → IsSynced e r → t.durable ≡ length t.accepted }
{}

/// What was durable at any moment of a run is there after a crash at its end, in its place: so are all batches that were
/// accepted up to a write with `sync` or a sync that was answered Ok.
pub fn durable_batches_outlive_a_crash()
    ensures front { (s m t : State) (steps : List Made) → IsCounted s → Run s steps m → Crashed m t
        → take m.durable t.accepted ≡ take m.durable m.accepted }
    ensures earlier { (s m t : State) (steps : List Made) → IsCounted s → Run s steps m → Crashed m t
        → (more : List (List Op)) × (t.accepted ≡ take s.durable s.accepted ++ more) }
    ensures synced { (s m t : State) (before after : List Made) (e : Event) (r : Reply) → IsCounted s
        → Run s (before ++ (Asked e r) ∷ after) m → IsSynced e r → Crashed m t
        → (more : List (List Op)) × (t.accepted ≡ (s.accepted ++ accepted_in (before ++ (Asked e r) ∷ [])) ++ more) }
{}

/// As long as a pin lives it has the batches and the files that it was given, whatever is written meanwhile, and builds the
/// folder that it was given for, or none. What is shown of a front of the batches never changes, so neither does what is
/// shown of a pin.
pub fn a_pin_keeps_what_it_was_given()
    ensures same { (s t : State) (steps : List Made) (number : ℕ) (pin later : Pin) → Run s steps t
        → number ≤ s.greatest_pin → pin_of number s.pins ≡ Some pin → pin_of number t.pins ≡ Some later
        → (later.batches ≡ pin.batches) × (later.files ≡ pin.files) × (built_by later.holder ≡ built_by pin.holder) }
    ensures shown { (s t : State) (count : ℕ) (steps : List Made) → Run s steps t → count ≤ length s.accepted
        → shown_at t count ≡ shown_at s count }
{}

/// A pin shows, at each later moment of its life, what the store had when the pin was given by a cut or by a checkpoint's
/// beginning: the replay of the batches that were accepted before, at the sequence that was answered then.
pub fn a_pin_shows_its_cut()
    ensures cut { (s t : State) (before between after : List Made) (rule : FlushRule) (cut : Cut) (shown : Shown) → IsCounted s
        → Run s (before ++ (Asked (Event.Cut rule) (Reply.Cut (Ok cut)))
        ∷ (between ++ (Asked (Event.ShowPin cut.pin) (Reply.ShowPin (Ok shown))) ∷ after)) t
        → (shown ≡ shown_behind s before) × (cut.sequence ≡ shown.sequence) }
    ensures checkpoint { (s t : State) (before between after : List Made) (dir : List ℕ) (size : ℕ) (start : JobStart)
        (shown : Shown) → IsCounted s
        → Run s (before ++ (Asked (Event.CheckpointBegin dir size) (Reply.CheckpointBegin (Ok start)))
        ∷ (between ++ (Asked (Event.ShowPin start.pin) (Reply.ShowPin (Ok shown))) ∷ after)) t
        → (shown ≡ shown_behind s before) × (start.sequence ≡ shown.sequence) }
{}

/// Whenever a pinned file is read, as long as its pin lives, it has the same bytes; and as many as the cut listed for it.
pub fn a_pinned_file_never_changes()
    ensures same { (s t : State) (before between after : List Made) (pin : ℕ) (name : FileName) (first second : List ℕ) → IsCounted s
        → Run s (before ++ (Asked (Event.ReadPinned pin name) (Reply.ReadPinned (Ok first)))
        ∷ (between ++ (Asked (Event.ReadPinned pin name) (Reply.ReadPinned (Ok second))) ∷ after)) t
        → second ≡ first }
    ensures listed { (s t : State) (before between after : List Made) (rule : FlushRule) (cut : Cut) (name : FileName)
        (bytes : List ℕ) → IsCounted s
        → Run s (before ++ (Asked (Event.Cut rule) (Reply.Cut (Ok cut)))
        ∷ (between ++ (Asked (Event.ReadPinned cut.pin name) (Reply.ReadPinned (Ok bytes))) ∷ after)) t
        → (file : CutFile) × Contains cut.files file × (file.name ≡ name) × (file.len ≡ length bytes) }
{}

/// A finished checkpoint shows, at each later moment, what the store had when the checkpoint was begun: the replay of the
/// batches that were accepted before, at the sequence that the beginning and the finish answered. It reads so too when the
/// store is opened after a crash.
pub fn a_checkpoint_shows_its_beginning()
    ensures shown { (s t : State) (before between later after : List Made) (dir : List ℕ) (size : ℕ) (start : JobStart)
        (sequence : ℕ) (shown : Shown) → IsCounted s
        → Run s (before ++ (Asked (Event.CheckpointBegin dir size) (Reply.CheckpointBegin (Ok start)))
        ∷ (between ++ (Asked (Event.CheckpointFinish start.pin) (Reply.CheckpointFinish (Ok sequence)))
        ∷ (later ++ (Asked (Event.Show dir) (Reply.Show (Ok shown))) ∷ after))) t
        → (shown ≡ shown_behind s before) × (start.sequence ≡ shown.sequence) × (sequence ≡ shown.sequence) }
    ensures outlives { (s m c t : State) (before between after : List Made) (dir : List ℕ) (size : ℕ) (start : JobStart)
        (sequence : ℕ) → IsCounted s
        → Run s (before ++ (Asked (Event.CheckpointBegin dir size) (Reply.CheckpointBegin (Ok start)))
        ∷ (between ++ (Asked (Event.CheckpointFinish start.pin) (Reply.CheckpointFinish (Ok sequence))) ∷ after)) m
        → Crashed m c → Opened c t → (folder : FolderRead) × (folder_of dir t.folders ≡ Some folder)
        × (folder.reading ≡ Ok (shown_behind s before)) }
{}

/// A folder that is there, but the one that a restore has begun, reads as it did, whatever comes, a restore of another
/// folder too; nor is it ever begun. So a finished checkpoint never changes.
pub fn a_checkpoint_never_changes()
    ensures { (s t : State) (steps : List Made) (name : List ℕ) (folder : FolderRead) → Run s steps t
        → folder_of name s.folders ≡ Some folder → (s.begun ≡ Some name → ⊥)
        → (folder_of name t.folders ≡ Some folder) × (t.begun ≡ Some name → ⊥) }
{}

/// After a crash the accepted batches are the first so many of those that were written, and all durable ones are among
/// them. Each folder that was sure reads as it did.
#[tactic(auto, using(crate::proofs::CrashLemmas::durable_stay, crate::proofs::CrashLemmas::nothing_new, crate::proofs::CrashLemmas::sure_stay))]
pub fn a_crash_leaves_a_prefix()
    ensures durable { (s t : State) → Crashed s t → s.durable ≤ length s.accepted
        → take s.durable t.accepted ≡ take s.durable s.accepted }
    ensures prefix { (s t : State) → Crashed s t → (gone : List (List Op)) × (written s ≡ t.accepted ++ gone) }
    ensures folders { (s t : State) (name : List ℕ) (folder : FolderRead) → Crashed s t
        → folder_of name s.folders ≡ Some folder → folder.sure ≡ true → folder_of name t.folders ≡ Some folder }
{}

/// What the next opening finds. After a crash its contents are the replay of the first so many of the batches that were
/// written, of the durable ones each, and each folder that was sure is there and reads as it did. After a closing they are
/// those of all accepted batches; and where the store was given up without a crash, the doubtful batch may be there too.
pub fn an_opening_finds_a_prefix()
    ensures crash { (s m t : State) → Crashed s m → Opened m t
        → (kept : ℕ) × (s.durable ≤ kept) × (t.opening ≡ replayed s.opening (take kept (written s)))
        × (t.began ≡ sequence_after s.began (take kept (written s))) }
    ensures synced { (s m c t : State) (before after : List Made) (e : Event) (r : Reply) → IsCounted s
        → Run s (before ++ (Asked e r) ∷ after) m → IsSynced e r → Crashed m c → Opened c t
        → (more : List (List Op)) × (t.opening ≡ replayed s.opening ((s.accepted ++ accepted_in (before ++ (Asked e r) ∷ [])) ++ more))
        × (t.began ≡ sequence_after s.began ((s.accepted ++ accepted_in (before ++ (Asked e r) ∷ [])) ++ more)) }
    ensures folders { (s m t : State) (name : List ℕ) (folder : FolderRead) → Crashed s m → Opened m t
        → folder_of name s.folders ≡ Some folder → folder.sure ≡ true → folder_of name t.folders ≡ Some folder }
    ensures closing { (s m t : State) → Closes s (Ok tt) m → Opened m t → (t.opening ≡ contents_now s) × (t.began ≡ last_of s) }
    ensures given_up { (s t : State) → Opened s t
        → ((t.opening ≡ contents_now s) × (t.began ≡ last_of s))
        ⊎ ((t.opening ≡ replayed s.opening (written s)) × (t.began ≡ sequence_after s.began (written s))) }
{}

/// Over any lives, the opens of a store one after another, however each of them ends: the contents that the last opening
/// finds are the replay of what each life left, one behind another. Each left a front of its accepted batches, with all that
/// were synced, and perhaps behind all of them one whose write met a fault.
#[tactic(auto, using(crate::proofs::LifeLemmas::lives_leave))]
pub fn lives_leave_prefixes()
    ensures { (s t : State) (lives : List (List Made)) → IsCounted s → s.accepted ≡ [] → Lives s lives t
        → (left : List (List Op)) × AreLeft lives left × (t.opening ≡ replayed s.opening left) × (t.began ≡ sequence_after s.began left) }
{}

/// A checkpoint that is finished is a folder of its pin's batches, and is sure.
#[tactic(auto, using(crate::proofs::CrashLemmas::finished))]
pub fn a_finished_checkpoint_has_its_pins_batches()
    ensures { (s t : State) (number sequence : ℕ) → Step s (Event.CheckpointFinish number) (Reply.CheckpointFinish (Ok sequence)) t
        → (pin : Pin) × (dir : List ℕ) × (left : ℕ) × IsJob s number pin dir left × (sequence ≡ (shown_at s pin.batches).sequence)
        × (folder_of dir t.folders ≡ Some (checkpoint_folder s pin dir true)) }
{}

/// A step is answered by a reply to its own call: a reply to another call is no step's.
pub fn a_reply_is_of_its_event()
    ensures { (s t : State) (e : Event) (r : Reply) → Step s e r t → answered r ≡ call_of e }
{}

/// A step's state decides its refusals: what the store knows against an event is answered, and changes nothing but that a
/// finish ends its pin; a refusal comes for one of the causes alone that `HasCause` lists; and a call that isn't refused is
/// one against which the store knew nothing. A restore's calls are refused for the causes alone that `HasRestoreCause` lists,
/// and where the store is halted each is refused so, and changes nothing.
pub fn each_refusal_has_its_cause()
    ensures known { (s t : State) (e : Event) (r : Reply) (refusal : StoreError) → Step s e r t → known_refusal e s ≡ Some refusal
        → (refusal_in e r ≡ Some refusal) × Unchanged e s t }
    ensures cause { (s t : State) (e : Event) (r : Reply) (refusal : StoreError) → Step s e r t → refusal_in e r ≡ Some refusal
        → HasCause s e refusal t }
    ensures passes { (s t : State) (e : Event) (r : Reply) → Step s e r t → refusal_in e r ≡ None → known_refusal e s ≡ None }
    ensures restore { (s t : State) (made : Made) (refusal : DestError) → Makes s made t → restore_answer made ≡ Some (Err refusal)
        → HasRestoreCause s made refusal t }
    ensures halted { (s t : State) (made : Made) (result : Result (Unit {0}) DestError) (first : Halt) → Makes s made t
        → restore_answer made ≡ Some result → s.halt ≡ Some first → (result ≡ Err (Halted first)) × (t ≡ s) }
{}
