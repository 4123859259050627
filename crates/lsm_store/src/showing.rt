//! What a folder of the disk reads as.
ghost use Rattle.std.specs.Prelude.{◌≡◌, ◌∷◌, ◌++◌, [], List};
ghost use Rattle.lsm_model.specs.declared.states.State.{State};
ghost use Rattle.lsm_model.specs.declared.events.Event.TheVariants as event;
ghost use Rattle.lsm_model.specs.declared.replies.Reply.TheVariants as reply;
ghost use Rattle.lsm_model.specs.Steps.{Step, Made, Asked};
ghost use Rattle.lsm_refine.specs.Good.{Good, Leads};
ghost use Rattle.lsm_refine.specs.Moments.{ImagesShow};
ghost use Rattle.lsm_refine.specs.Caused.{Caused};
ghost use Rattle.lsm_store.specs.Showing.{folder_error};

use crate::store::Store;
use lsm_disk::Disk;
use lsm_model::{Shown, StoreError};
use lsm_names::Folder;
use lsm_recover::{FolderError, read_folder};

impl<D: Disk> Store<D> {
    /// What a folder of the disk reads as: its last sequence and its pairs. The store's own folder
    /// may be read too, and a halted store reads as well. Nothing is written, and the store is as
    /// it was.
    ///
    /// It is refused where the disk fails, where the folder or its `CURRENT` isn't there, where its
    /// files are missing, damaged or malformed, and where memory is wanting. Memory grows as with
    /// `read_folder`.
    pub fn show(&mut self, dir: &Folder) -> Result<Shown, StoreError>
        ensures step { (s : State) → Good self.old s
            → (t : State) × Step s (event.Show dir.now) (reply.Show result) t × Good self.new t }

        // Each image of the disk on the way reads as a crash leaves the state before.
        ensures images { (s : State) → (good : Good self.old s) → ImagesShow good.story self.new.disk.told s s }

        ensures causes { Caused self.old (event.Show dir.now) (reply.Show result) self.new }
        ensures leads { (start : State) (steps : List Made) → Leads start steps self.old
            → Leads start (steps ++ Asked (event.Show dir.now) (reply.Show result) ∷ []) self.new }
    {
        let _name = dir.as_bytes();
        let path = dir.path();
        match read_folder(self.alloc, &mut self.disk, &path) {
            Ok(found) => Ok(Shown {
                sequence: found.sequence,
                contents: found.contents,
            }),
            Err(trouble) => Err(folder_error(trouble)),
        }
    }
}

/// The store's answer for a folder that could not be read.
pub(crate) fn folder_error(trouble: FolderError) -> StoreError
    ensures { result ≡ folder_error trouble }
{
    match trouble {
        FolderError::DiskFault => StoreError::DiskFault,
        FolderError::NoFolder { dir } => StoreError::NoFolder { dir },
        FolderError::NoCurrent { dir } => StoreError::NoCurrent { dir },
        FolderError::Missing { name } => StoreError::Missing { name },
        FolderError::Changed { call, path } => StoreError::Changed { call, path },
        FolderError::Short { name, kept, found } => StoreError::Short { name, kept, found },
        FolderError::Damaged {
            name,
            place,
            kept,
            found,
        } => StoreError::Damaged {
            name,
            place,
            kept,
            found,
        },
        FolderError::Malformed { name, place } => StoreError::Malformed { name, place },
        FolderError::TornLog { name, place } => StoreError::TornLog { name, place },
        FolderError::Gap { name, kept, found } => StoreError::Gap { name, kept, found },
        FolderError::BadLevels { level, left, right } => StoreError::BadLevels {
            level,
            left,
            right,
        },
        FolderError::NoMemory => StoreError::NoMemory,
    }
}
