//! All pairs of a store.
ghost use Rattle.std.specs.Prelude.{◌≡◌, ◌∷◌, ◌++◌, [], List, IfOk, OnOk};
ghost use Rattle.lsm_rows.specs.Contents.{contents_of};
ghost use Rattle.lsm_model.specs.declared.states.State.{State};
ghost use Rattle.lsm_model.specs.declared.events.Event.TheVariants as event;
ghost use Rattle.lsm_model.specs.declared.replies.Reply.TheVariants as reply;
ghost use Rattle.lsm_model.specs.Steps.{Step, Made, Asked};
ghost use Rattle.lsm_refine.specs.Good.{Good, Leads};
ghost use Rattle.lsm_refine.specs.Moments.{ImagesShow};
ghost use Rattle.lsm_refine.specs.Caused.{Caused};

use crate::store::Store;
use lsm_bytes::NoMemory;
use lsm_core::read_rows;
use lsm_disk::Disk;
use lsm_memtable::MemTable;
use lsm_model::StoreError;
use lsm_rows::{Pairs, Row, Rows};
use lsm_scan::pairs_of;
use std::alloc::Global;

// Adds copies of rows in memory behind others. There are always fewer than 2^32 - 1 of them; more
// would count as want of memory.
fn add_copies(rows: &mut Vec<Row>, memory: &MemTable) -> Result<(), NoMemory>
    ensures { OnOk result (rows.new.items ≡ rows.old.items ++ memory.now) }
{
    let copies = memory.rows(None, u32::MAX)?;
    if copies.len() >= u32::MAX as usize {
        return Err(NoMemory);
    }
    rows.append(&mut copies.into_vec())?;
    Ok(())
}

// The pairs that rows of tables stand for with those in memory.
fn pairs_with(
    alloc: Global,
    rows: Rows,
    frozen: &MemTable,
    active: &MemTable,
) -> Result<Pairs, NoMemory>
    ensures { IfOk result (λ pairs. pairs ≡ contents_of (rows ++ (frozen.now ++ active.now))) }
{
    let mut rows = rows.into_vec();
    add_copies(&mut rows, frozen)?;
    add_copies(&mut rows, active)?;
    pairs_of(alloc, Rows::from_vec(rows))
}

impl<D: Disk> Store<D> {
    /// All pairs of the contents, in the order of their keys.
    ///
    /// All live tables are read in full, and a table that isn't open is opened. It takes memory for
    /// the rows of tables and of memory, also for older ones of their keys, and then for the pairs.
    /// A table that can't be read refuses the call, as do the disk's fault and want of memory.
    pub fn scan(&mut self) -> Result<Pairs, StoreError>
        ensures step { (s : State) → Good self.old s
            → (t : State) × Step s event.Scan (reply.Scan result) t × Good self.new t }

        // Each image of the disk on the way reads as a crash leaves the state before.
        ensures images { (s : State) → (good : Good self.old s) → ImagesShow good.story self.new.disk.told s s }

        ensures causes { Caused self.old event.Scan (reply.Scan result) self.new }
        ensures leads { (start : State) (steps : List Made) → Leads start steps self.old
            → Leads start (steps ++ Asked event.Scan (reply.Scan result) ∷ []) self.new }
    {
        match read_rows(self.alloc, &mut self.disk, &self.home, &mut self.catalog) {
            Ok(rows) => match pairs_with(self.alloc, rows, self.frozen.rows(), &self.active) {
                Ok(pairs) => Ok(pairs),
                Err(NoMemory) => Err(StoreError::NoMemory),
            },
            Err(refused) => Err(refused),
        }
    }
}
