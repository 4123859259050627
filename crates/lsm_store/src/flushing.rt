//! Flushing the frozen rows: their table is begun, written and installed.
ghost use Rattle.std.specs.Prelude.{◌≡◌, ◌≢◌, ◌^◌, ◌<◌, ◌≤◌, ◌∷◌, ◌++◌, [], List, None, Some, OnOk, IfOk, IfErr, MatchOption};
ghost use Rattle.lsm_names.specs.declared.file_names.FileName.TheVariants.{Table};
ghost use Rattle.lsm_disk.specs.State.{file_synced, names_synced};
ghost use Rattle.lsm_disk.specs.Answers.{Makes};
ghost use Rattle.lsm_disk.specs.Dest.{path_in};
ghost use Rattle.lsm_model.specs.declared.errors.StoreError.TheVariants as error;
ghost use Rattle.lsm_model.specs.declared.states.State.{State};
ghost use Rattle.lsm_model.specs.declared.events.Event.TheVariants as event;
ghost use Rattle.lsm_model.specs.declared.replies.Reply.TheVariants as reply;
ghost use Rattle.lsm_model.specs.Steps.{Step, Made, Asked};
ghost use Rattle.lsm_refine.specs.Good.{Good, Leads};
ghost use Rattle.lsm_refine.specs.Moments.{ImagesShow};
ghost use Rattle.lsm_refine.specs.Caused.{Caused, edit_draws, flush_number};
ghost use Rattle.lsm_store.specs.FlushParts.{Came, FlushesOn, HasInstalled, HasNumber, Refuses, HasWhole, HasWrittenMore};
ghost use Rattle.lsm_store.specs.Inside.{HasBegunTable};

use crate::making::make_file;
use crate::refused::{error_of, halt_of};
use crate::store::Store;
use crate::syncing::{sync_file, sync_names};
use lsm_bytes::NoMemory;
use lsm_disk::Disk;
use lsm_model::{Flushed, StoreError};
use lsm_names::FileName;
use lsm_version::TableInfo;
use std::alloc::Global;

// The next file's number where none is left: one past the last that there is.
const NUMBER_END: u64 = (1 << 56) - 1;

// So many tables may be live.
const TABLE_LIMIT: usize = 4_096;

impl<D: Disk> Store<D> {
    /// Takes the flush of the frozen rows a step further: their table's file is made, at most 1,024 rows are written to it,
    /// or, once it is whole, an edit names the table. Then no row is frozen, and the log of these rows isn't needed any more.
    /// Where no row is frozen there is no job.
    ///
    /// It is refused where the store is halted, where no file number is left, where there would be more than 4,096 tables,
    /// where memory is wanting, and where the disk fails. Rows that were frozen stay so, and unless the store is halted then
    /// the step may be asked again.
    pub fn flush_step(&mut self) -> Result<Flushed, StoreError>
        ensures step { (s : State) → Good self.old s
            → (t : State) × Step s event.FlushStep (reply.FlushStep result) t × Good self.new t }

        // Each image of the disk on the way reads as a crash leaves the state before.
        ensures images { (s : State) → (good : Good self.old s) → ImagesShow good.story self.new.disk.told s s }

        ensures causes { Caused self.old event.FlushStep (reply.FlushStep result) self.new }
        ensures leads { (start : State) (steps : List Made) → Leads start steps self.old
            → Leads start (steps ++ Asked event.FlushStep (reply.FlushStep result) ∷ []) self.new }
    {
        if let Some(first) = self.halt {
            return Err(StoreError::Halted { first });
        }
        if self.frozen.is_empty() {
            return Ok(Flushed::NoJob);
        }
        match self.begin_table() {
            Ok(()) => self.flush_on(),
            Err(refused) => Err(refused),
        }
    }

    // Goes on with the table that is begun.
    fn flush_on(&mut self) -> Result<Flushed, StoreError>
        requires open { self.old.halt ≡ None }
        requires begun { HasBegunTable self.old.kept }
        ensures ok { IfOk result (FlushesOn self.old self.new) }
        ensures err { IfErr result (λ e. Refuses (edit_draws self.old.kept) e self.old self.new) }
    {
        match self.write_table() {
            Ok(None) => Ok(Flushed::More),
            Ok(Some(info)) => match self.end_table(info) {
                Ok(()) => Ok(Flushed::Installed),
                Err(refused) => Err(refused),
            },
            Err(refused) => Err(refused),
        }
    }

    // Makes the table sure, which is whole, and installs it where there is room for one more.
    fn end_table(&mut self, info: TableInfo) -> Result<(), StoreError>
        requires open { self.old.halt ≡ None }
        requires whole { HasWhole self.old.kept info }
        ensures ok { OnOk result (HasInstalled (edit_draws self.old.kept) self.old self.new) }
        ensures err { IfErr result (λ e. Refuses (edit_draws self.old.kept) e self.old self.new) }
    {
        let live = self.catalog.version().len();
        if live >= TABLE_LIMIT {
            return Err(too_many(live));
        }
        match self.sync_table(info.number) {
            Ok(()) => match self.name_table(info.number) {
                Ok(()) => self.install_table(info),
                Err(refused) => Err(refused),
            },
            Err(refused) => Err(refused),
        }
    }

    // Draws a number for the table of the frozen rows and makes its file, unless that was done.
    pub(crate) fn begin_table(&mut self) -> Result<(), StoreError>
        requires open { self.old.halt ≡ None }
        requires some { self.old.kept.frozen ≢ [] }
        ensures ok { OnOk result (Came (flush_number self.old.kept.flushing) self.old self.new) }
        ensures err { IfErr result (λ e. Refuses (flush_number self.old.kept.flushing) e self.old self.new) }
        ensures begun { OnOk result (HasBegunTable self.new.kept) }
        ensures number { OnOk result (HasNumber self.old.kept self.new.kept) }
    {
        if let Some(_number) = self.frozen.number() {
            return Ok(());
        }
        if self.next >= NUMBER_END {
            return Err(StoreError::NumbersFull { next: self.next });
        }
        let name = FileName::Table(self.next);
        let path = self.home.file(&name);
        let count = self.known.as_slice().len();
        let Ok(()) = self.known.push(name) else {
            return Err(StoreError::NoMemory);
        };
        match make_file(&mut self.disk, &path) {
            Ok(()) => {
                self.frozen.begin(self.alloc, self.next, self.session);
                self.next += 1;
                Ok(())
            }
            Err(refused) => {
                self.known.truncate(count);
                self.halt = halt_of(&refused);
                Err(error_of(&refused))
            }
        }
    }

    // Writes more rows to the file of the table that is begun, unless it is whole. Once it is, it gives what an edit says of
    // the table.
    pub(crate) fn write_table(&mut self) -> Result<Option<TableInfo>, StoreError>
        requires open { self.old.halt ≡ None }
        requires begun { HasBegunTable self.old.kept }
        ensures ok { OnOk result (Came 0 self.old self.new) }
        ensures err { IfErr result (λ e. Refuses 0 e self.old self.new) }
        ensures found { IfOk result (λ found. MatchOption found (HasWrittenMore self.old.kept self.new.kept)
            (HasWhole self.new.kept)) }
    {
        if let Some(info) = self.frozen.whole() {
            return copied(self.alloc, info);
        }
        let Some(number) = self.frozen.number() else {
            return Ok(None);
        };
        let path = self.home.file(&FileName::Table(number));
        match self.frozen.write_on(&mut self.disk, &path) {
            Ok(()) => match self.frozen.whole() {
                Some(info) => copied(self.alloc, info),
                None => Ok(None),
            },
            Err(refused) => {
                self.halt = halt_of(&refused);
                Err(error_of(&refused))
            }
        }
    }

    // The file of the table of this number, which is begun, outlives a crash.
    pub(crate) fn sync_table(&mut self, number: u64) -> Result<(), StoreError>
        requires open { self.old.halt ≡ None }
        requires begun { self.old.kept.flushing.table ≡ Some number }
        ensures ok { OnOk result (Came 0 self.old self.new) }
        ensures err { IfErr result (λ e. Refuses 0 e self.old self.new) }
        ensures rest { OnOk result (self.new ≡ record self.old { disk = self.new.disk }) }
        ensures synced { OnOk result (Makes self.old.disk.told (file_synced (path_in self.old.dir (Table number)))
            self.new.disk.told) }
    {
        let path = self.home.file(&FileName::Table(number));
        match sync_file(&mut self.disk, &path) {
            Ok(()) => Ok(()),
            Err(refused) => {
                self.halt = halt_of(&refused);
                Err(error_of(&refused))
            }
        }
    }

    // So does its name.
    pub(crate) fn name_table(&mut self, number: u64) -> Result<(), StoreError>
        requires open { self.old.halt ≡ None }
        requires begun { self.old.kept.flushing.table ≡ Some number }
        ensures ok { OnOk result (Came 0 self.old self.new) }
        ensures err { IfErr result (λ e. Refuses 0 e self.old self.new) }
        ensures rest { OnOk result (self.new ≡ record self.old { disk = self.new.disk }) }
        ensures named { OnOk result (Makes self.old.disk.told names_synced self.new.disk.told) }
    {
        let path = self.home.file(&FileName::Table(number));
        match sync_names(&mut self.disk, &path) {
            Ok(()) => Ok(()),
            Err(refused) => {
                self.halt = halt_of(&refused);
                Err(error_of(&refused))
            }
        }
    }
}

// Why no table more may be live beside so many. There are always fewer than 2^32; more would count as want of memory.
fn too_many(live: usize) -> StoreError
    ensures full { live < 2 ^ 32 → result ≡ error.TablesFull live 1 }
    ensures more { 2 ^ 32 ≤ live → result ≡ error.NoMemory }
{
    if live > u32::MAX as usize {
        return StoreError::NoMemory;
    }
    StoreError::TablesFull {
        live: live as u32,
        adding: 1,
    }
}

// A copy of what an edit says of a table.
fn copied(alloc: Global, info: &TableInfo) -> Result<Option<TableInfo>, StoreError>
    ensures ok { IfOk result (λ copy. copy ≡ Some info.now) }
    ensures err { IfErr result (λ e. e ≡ error.NoMemory) }
{
    match info.copy(alloc) {
        Ok(copy) => Ok(Some(copy)),
        Err(NoMemory) => Err(StoreError::NoMemory),
    }
}
