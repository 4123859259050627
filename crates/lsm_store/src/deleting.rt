//! Removing the files that nothing needs any more.
ghost use Rattle.std.specs.Prelude.{◌≡◌, ◌∷◌, ◌++◌, [], List};
ghost use Rattle.lsm_model.specs.declared.states.State.{State};
ghost use Rattle.lsm_model.specs.declared.events.Event.TheVariants as event;
ghost use Rattle.lsm_model.specs.declared.replies.Reply.TheVariants as reply;
ghost use Rattle.lsm_model.specs.Steps.{Step, Made, Asked};
ghost use Rattle.lsm_refine.specs.Good.{Good, Leads};
ghost use Rattle.lsm_refine.specs.Moments.{ImagesShow};
ghost use Rattle.lsm_refine.specs.Caused.{Caused};
ghost use Rattle.lsm_refine.specs.Obsolete.{HasWithout};
ghost use Rattle.lsm_store.specs.Deleting.{fault_halt, not_removed};

use crate::store::Store;
use lsm_core::next_obsolete;
use lsm_disk::{Disk, DiskCall, DiskError, Halt};
use lsm_model::{Deleted, StoreError};
use lsm_names::{FileName, Path};

impl<D: Disk> Store<D> {
    /// Removes one file that nothing needs any more: of the folder's names that neither the
    /// version, a live log, the manifest, a pin nor a table that is being written needs, the first
    /// in the order of their bytes. Nothing is removed while deletion is disabled, and `Nothing`
    /// says that all names in the folder are needed. It takes no memory, and its time grows with the
    /// number of names in the folder and of pinned files.
    ///
    /// It is refused where the store is halted and where the disk fails. `Missing` tells that
    /// somebody else has removed the file, which halts nothing.
    pub fn delete_step(&mut self) -> Result<Deleted, StoreError>
        ensures step { (s : State) → Good self.old s
            → (t : State) × Step s event.DeleteStep (reply.DeleteStep result) t × Good self.new t }

        // Each image of the disk on the way reads as a crash leaves the state before.
        ensures images { (s : State) → (good : Good self.old s) → ImagesShow good.story self.new.disk.told s s }

        ensures causes { Caused self.old event.DeleteStep (reply.DeleteStep result) self.new }
        ensures leads { (start : State) (steps : List Made) → Leads start steps self.old
            → Leads start (steps ++ Asked event.DeleteStep (reply.DeleteStep result) ∷ []) self.new }
    {
        if let Some(first) = self.halt {
            return Err(StoreError::Halted { first });
        }
        let count = self.catalog.disables();
        if count != 0 {
            return Ok(Deleted::Disabled { count });
        }
        let manifest = self.manifest.number();
        let writing = self.frozen.number();
        match next_obsolete(&self.known, &self.catalog, manifest, writing) {
            Some(name) => {
                let path = self.home.file(&name);
                match self.disk.unlink(&path) {
                    Ok(()) => {
                        forget(&mut self.known, name);
                        Ok(Deleted::Removed(name))
                    }
                    Err(why) => {
                        self.halt = halt_by(&path, why);
                        Err(error_by(name, why))
                    }
                }
            }
            None => Ok(Deleted::Nothing),
        }
    }
}

// The unlink of a file that halts the store, for this reason: a fault.
fn halt_by(path: &Path, why: DiskError) -> Option<Halt>
    ensures { result ≡ fault_halt path.now why }
{
    match why {
        DiskError::Fault => Some(Halt {
            call: DiskCall::Unlink,
            path: *path,
        }),
        DiskError::NotThere
        | DiskError::Exists
        | DiskError::NoLinks
        | DiskError::NotEmpty
        | DiskError::Short { .. }
        | DiskError::NoMemory => None,
    }
}

// How the store tells why a file wasn't removed.
fn error_by(name: FileName, why: DiskError) -> StoreError
    ensures { result ≡ not_removed name why }
{
    match why {
        DiskError::Fault => StoreError::DiskFault,
        DiskError::NotThere
        | DiskError::Exists
        | DiskError::NoLinks
        | DiskError::NotEmpty
        | DiskError::Short { .. }
        | DiskError::NoMemory => StoreError::Missing { name },
    }
}

// Takes a name out of the names.
fn forget(names: &mut Vec<FileName>, name: FileName)
    ensures { HasWithout name names.old.items names.new.items }
{
    names.retain(move |other| *other != name);
}
