//! A restore's calls on the lists of a plain store, as the place of one new folder.
ghost use Rattle.std.specs.Prelude.{◌≡◌, true, Some, Ok, OnOk, IfSome};
ghost use Rattle.lsm_disk.specs.declared.calls.DiskCall.{DiskCall};
ghost use Rattle.lsm_model.specs.States.{shown_at, folder_of};
ghost use Rattle.lsm_model.specs.Plain.{state_of, IsPlain};
ghost use Rattle.lsm_model.specs.Destination.{BeginsFolder, FillsFolder, FinishesFolder};

use crate::lookups::{PlainFolder, put_folder};
use crate::plain::{PlainLists, push_folder};
use lsm_disk::DestError;
use lsm_names::Folder;

impl PlainLists {
    /// Begins a folder, which has no `CURRENT` yet.
    pub fn begin(&mut self, dir: Folder) -> Result<(), DestError>
        requires { IsPlain self.old }
        ensures step { BeginsFolder (state_of self.old) dir result (state_of self.new) }
        ensures plain { IsPlain self.new }
    {
        if let Some(first) = self.halt {
            return Err(DestError::Halted { first });
        }
        if self.is_taken(&dir) {
            return Err(DestError::Exists);
        }
        let folder = PlainFolder {
            name: dir,
            batches: None,
        };
        let Ok(()) = push_folder(&mut self.folders, folder) else {
            return Err(DestError::NoMemory);
        };
        self.begun = Some(dir);
        Ok(())
    }

    /// A file of the begun folder is made, added to or ended. A plain store keeps no files.
    pub fn fill(&self) -> Result<(), DestError>
        ensures { (call : DiskCall) → FillsFolder call (state_of self.now) result (state_of self.now) }
    {
        if let Some(first) = self.halt {
            return Err(DestError::Halted { first });
        }
        match self.begun {
            Some(_) => Ok(()),
            None => Err(DestError::NoMemory),
        }
    }

    /// Ends the begun folder, which has the first so many accepted batches from now on, or all where there are fewer.
    pub fn finish(&mut self, batches: u64) -> Result<(), DestError>
        requires { IsPlain self.old }
        ensures step { FinishesFolder (state_of self.old) result (state_of self.new) }
        ensures reads { OnOk result (IfSome self.old.begun (λ dir. folder_of dir (state_of self.new).folders
            ≡ Some (record { name = dir; reading = Ok (shown_at (state_of self.old) batches); sure = true }))) }
        ensures plain { IsPlain self.new }
    {
        if let Some(first) = self.halt {
            return Err(DestError::Halted { first });
        }
        let Some(name) = self.begun else {
            return Err(DestError::NoMemory);
        };
        let folder = PlainFolder {
            name,
            batches: Some(self.at_most(batches)),
        };
        let Ok(()) = put_folder(&mut self.folders, folder) else {
            return Err(DestError::NoMemory);
        };
        self.begun = None;
        Ok(())
    }
}
