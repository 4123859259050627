//! Pins that end, and how often the deletion of files is disabled. These calls ask no disk, and go
//! on where the store is halted.
ghost use Rattle.std.specs.Prelude.{◌≡◌, ◌∷◌, ◌++◌, [], List};
ghost use Rattle.lsm_model.specs.declared.states.State.{State};
ghost use Rattle.lsm_model.specs.declared.events.Event.TheVariants as event;
ghost use Rattle.lsm_model.specs.declared.replies.Reply.TheVariants as reply;
ghost use Rattle.lsm_model.specs.Steps.{Step, Made, Asked};
ghost use Rattle.lsm_refine.specs.Good.{Good, Leads};
ghost use Rattle.lsm_refine.specs.Moments.{ImagesShow};
ghost use Rattle.lsm_refine.specs.Caused.{Caused};

use crate::store::Store;
use lsm_disk::Disk;
use lsm_model::StoreError;

// The deletion of files is disabled at most so often.
const DISABLE_LIMIT: u32 = 1_000_000;

impl<D: Disk> Store<D> {
    /// Ends a pin: its files may be removed once nothing else needs them. It takes no memory. It is
    /// refused exactly where no such pin lives, or it belongs to a checkpoint.
    pub fn unpin(&mut self, pin: u64) -> Result<(), StoreError>
        ensures step { (s : State) → Good self.old s
            → (t : State) × Step s (event.Unpin pin) (reply.Unpin result) t × Good self.new t }
        ensures images { (s : State) → (good : Good self.old s) → ImagesShow good.story self.new.disk.told s s }
        ensures causes { Caused self.old (event.Unpin pin) (reply.Unpin result) self.new }
        ensures leads { (start : State) (steps : List Made) → Leads start steps self.old
            → Leads start (steps ++ Asked (event.Unpin pin) (reply.Unpin result) ∷ []) self.new }
    {
        if !self.catalog.unpin(pin) {
            return Err(StoreError::NoSuchPin { pin });
        }
        Ok(())
    }

    /// Disables the deletion of files once more, and gives how often it is disabled then. It takes
    /// no memory. It is refused exactly where it is disabled 1,000,000 times.
    pub fn disable(&mut self) -> Result<u32, StoreError>
        ensures step { (s : State) → Good self.old s
            → (t : State) × Step s event.Disable (reply.Disable result) t × Good self.new t }
        ensures images { (s : State) → (good : Good self.old s) → ImagesShow good.story self.new.disk.told s s }
        ensures causes { Caused self.old event.Disable (reply.Disable result) self.new }
        ensures leads { (start : State) (steps : List Made) → Leads start steps self.old
            → Leads start (steps ++ Asked event.Disable (reply.Disable result) ∷ []) self.new }
    {
        let count = self.catalog.disables();
        if count >= DISABLE_LIMIT {
            return Err(StoreError::DisablesFull { count });
        }
        self.catalog.set_disables(count + 1);
        Ok(count + 1)
    }

    /// Takes one `disable` back, and gives how often the deletion of files is disabled then. It
    /// takes no memory. It is refused exactly where it isn't disabled.
    pub fn enable(&mut self) -> Result<u32, StoreError>
        ensures step { (s : State) → Good self.old s
            → (t : State) × Step s event.Enable (reply.Enable result) t × Good self.new t }
        ensures images { (s : State) → (good : Good self.old s) → ImagesShow good.story self.new.disk.told s s }
        ensures causes { Caused self.old event.Enable (reply.Enable result) self.new }
        ensures leads { (start : State) (steps : List Made) → Leads start steps self.old
            → Leads start (steps ++ Asked event.Enable (reply.Enable result) ∷ []) self.new }
    {
        let count = self.catalog.disables();
        if count == 0 {
            return Err(StoreError::NotDisabled);
        }
        self.catalog.set_disables(count - 1);
        Ok(count - 1)
    }
}
