//! What a store tells of itself, also where it is halted.
ghost use Rattle.std.specs.Prelude.{◌≡◌, ◌∷◌, ◌++◌, [], List};
ghost use Rattle.lsm_model.specs.declared.states.State.{State};
ghost use Rattle.lsm_model.specs.declared.events.Event.TheVariants as event;
ghost use Rattle.lsm_model.specs.declared.replies.Reply.TheVariants as reply;
ghost use Rattle.lsm_model.specs.Steps.{Step, Made, Asked};
ghost use Rattle.lsm_refine.specs.Good.{Good, Leads};
ghost use Rattle.lsm_refine.specs.Caused.{Caused};

use crate::store::Store;
use lsm_disk::Disk;

// From so many bytes of active rows on they should be frozen.
const FREEZE_SIZE: u64 = 1 << 20;

impl<D: Disk> Store<D> {
    /// The last sequence that an operation has; 0 where there is none.
    pub fn last(&self) -> u64
        ensures step { (s : State) → Good self.now s → (t : State) × Step s event.Last (reply.Last result) t × Good self.now t }
        ensures causes { Caused self.now event.Last (reply.Last result) self.now }
        ensures leads { (start : State) (steps : List Made) → Leads start steps self.now
            → Leads start (steps ++ Asked event.Last (reply.Last result) ∷ []) self.now }
    {
        self.sequence
    }

    /// Whether the active rows should be frozen: they have 1,048,576 bytes or more, where a row
    /// counts the bytes of its key and of its value, and 8.
    pub fn wants_freeze(&self) -> bool
        ensures step { (s : State) → Good self.now s
            → (t : State) × Step s event.WantsFreeze (reply.WantsFreeze result) t × Good self.now t }
        ensures causes { Caused self.now event.WantsFreeze (reply.WantsFreeze result) self.now }
        ensures leads { (start : State) (steps : List Made) → Leads start steps self.now
            → Leads start (steps ++ Asked event.WantsFreeze (reply.WantsFreeze result) ∷ []) self.now }
    {
        self.active.bytes() >= FREEZE_SIZE
    }
}
