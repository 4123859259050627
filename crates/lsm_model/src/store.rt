//! A plain store: lists, no files and no disk. It answers every event as the abstract store says, slowly, and meets no
//! fault but where it is told to. Tests of larger stores may take their answers from it.
ghost use Rattle.std.specs.Prelude.{◌≡◌, ℕ, Bool, true, false, List, length, Some, None, Ok, Err, IfOk, IfSome, OnOk, OnErr};
ghost use Rattle.std.specs.List.{zip};
ghost use Rattle.lsm_model.specs.Plain.{empty_state};
ghost use Rattle.lsm_model.specs.Steps.{Step, Makes, Began, Filed, Appended, Sealed, Finished, Run, all_asked};
ghost use Rattle.lsm_model.specs.States.{shown_at, folder_of};
ghost use Rattle.lsm_model.specs.Refusals.{known_refusal};
ghost use Rattle.lsm_model.specs.declared.events.Event.TheVariants.{Write};
ghost use Rattle.lsm_names.specs.declared.file_names.FileName.{FileName};

use crate::plain::PlainLists;
use crate::{Event, Reply, StoreError};
use lsm_bytes::NoMemory;
use lsm_disk::DestError;
use lsm_names::Folder;
use lsm_rows::Batch;
use std::alloc::Global;
use std::marker::Model;

/// A store that keeps its accepted batches as a list, and replays them to answer. Contracts see it as a state of the
/// abstract store.
#[derive(Drop)]
pub struct PlainStore {
    lists: PlainLists,
}

impl Model for PlainStore {
    ghost use Rattle.lsm_model.specs.declared.states.State.{State};
    ghost use Rattle.lsm_model.specs.Codes.{coded_state};
    ghost use Rattle.lsm_model.specs.Plain.{state_of, IsPlain};

    ghost Value = { State };

    ghost coded = { coded_state };

    ghost view = { λ p. state_of p.lists };

    ghost invariant = { λ p. IsPlain p.lists };
}

impl PlainStore {
    /// A new store with no pairs, in a folder of this name. It takes its memory from `alloc` as batches come in.
    pub fn new(alloc: Global, own: Folder) -> Self
        ensures { result ≡ empty_state own }
    {
        PlainStore {
            lists: PlainLists::new(alloc, own),
        }
    }

    /// Answers any event, as the abstract store may.
    pub fn answer(&mut self, event: Event) -> Reply
        ensures { Step self.old event result self.new }
    {
        self.lists.answer(event)
    }

    /// Answers a write as where its disk call fails: the batch isn't accepted but doubtful, and the store is halted. So a
    /// plain store shows what stands after a fault, though it has no disk that fails. The refusals that come before the
    /// disk is asked come here too.
    pub fn write_failing(&mut self, batch: Batch) -> StoreError
        ensures step { (sync : Bool) → Step self.old (Write batch sync) (Reply.Write (Err result)) self.new }
        ensures fault { known_refusal (Write batch false) self.old ≡ None → result ≡ StoreError.DiskFault }
    {
        self.lists.write_failing(batch)
    }

    /// Begins a folder for a restore.
    pub fn begin(&mut self, dir: Folder) -> Result<(), DestError>
        ensures { Makes self.old (Began dir result) self.new }
    {
        self.lists.begin(dir)
    }

    /// Makes a file in the begun folder, of any name, since a plain store keeps no files. Where no folder is begun, this
    /// call and those below answer `NoMemory`: the abstract store has no other refusal for that.
    pub fn file(&mut self) -> Result<(), DestError>
        ensures { (name : FileName) → Makes self.old (Filed name result) self.new }
    {
        self.lists.fill()
    }

    /// Adds bytes to the file, any ones.
    pub fn append(&mut self) -> Result<(), DestError>
        ensures { (bytes : List ℕ) → Makes self.old (Appended bytes result) self.new }
    {
        self.lists.fill()
    }

    /// Ends the file.
    pub fn seal(&mut self) -> Result<(), DestError>
        ensures { Makes self.old (Sealed result) self.new }
    {
        self.lists.fill()
    }

    /// Ends the begun folder. What its files hold is for the caller to say: it reads as the first so many of the batches
    /// that are accepted now, or as all where there are fewer.
    pub fn finish(&mut self, batches: u64) -> Result<(), DestError>
        ensures step { (current : List ℕ) → Makes self.old (Finished current result) self.new }
        ensures reads { OnOk result (IfSome self.old.begun (λ dir.
            folder_of dir self.new.folders ≡ Some (record { name = dir; reading = Ok (shown_at self.old batches); sure = true }))) }
    {
        self.lists.finish(batches)
    }

    /// Answers events, one after another, and gives their replies in the same order. The memory for the list of replies is
    /// asked for first: where it isn't there, no event is answered.
    pub fn play(&mut self, alloc: Global, events: Vec<Event>) -> Result<Vec<Reply>, NoMemory>
        ensures run { IfOk result (λ replies. Run self.old (all_asked (zip events.items replies.items)) self.new) }
        ensures each { IfOk result (λ replies. length replies.items ≡ length events.items) }
        ensures err { OnErr result (self.new ≡ self.old) }
    {
        let mut replies = Vec::with_capacity(alloc, events.len())?;
        for event in events {
            let reply = self.answer(event);
            replies.push(reply)?;
        }
        Ok(replies)
    }
}
