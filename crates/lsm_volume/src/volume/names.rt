//! The calls that change a name.
ghost use Rattle.std.specs.Prelude.{◌≡◌};
ghost use Rattle.lsm_disk.specs.State.{created, folder_made, linked, renamed_by, unnamed, names_synced};
ghost use Rattle.lsm_disk.specs.Tree.{TellsLawful};
ghost use Rattle.lsm_disk.specs.Refusals.{never, no_file, no_room, no_link, no_rename, no_removal};
ghost use Rattle.lsm_disk.specs.Answers.{Did, Answers, TakesNoMemory, HasCause};
ghost use Rattle.lsm_volume.specs.Clock.{FaultsAtEnd};

use super::{Volume, room_for_more};
use lsm_changes::{MemFile, What, push_room};
use lsm_disk::DiskError;
use lsm_names::Path;
use lsm_nametable::{Target, find_file, has_folder, refusal_of_move, refusal_of_new, standing};

impl Volume {
    pub fn create(&mut self, path: &Path) -> Result<(), DiskError>
        ensures did { Did (created path.now) (no_room path.now) self.old self.new result }
        ensures answer { Answers (no_room path.now) self.old result }
        ensures cause { HasCause self.old self.new result }
        ensures fault { FaultsAtEnd self.old result }
        ensures lawful { TellsLawful self.old }
    {
        if let Some(why) = refusal_of_new(&self.names, path) {
            self.refusals = self.refusals.saturating_add(1);
            return Err(why);
        }
        if self.history.is_full() {
            self.faults = self.faults.saturating_add(1);
            return Err(DiskError::Fault);
        }
        let key = Vec::from_slice(self.alloc, path.as_bytes())?;
        let kept = Vec::from_slice(self.alloc, path.as_bytes())?;
        let room = room_for_more(self.names.len(), self.loose)?;
        self.files.reserve(1)?;
        self.history.reserve(room)?;
        self.names.insert(key, Target::File(self.files.len()))?;
        self.names_synced = false;
        push_room(&mut self.files, MemFile::new(self.alloc));
        self.history.push(What::Create(kept));
        Ok(())
    }

    pub fn make_folder(&mut self, path: &Path) -> Result<(), DiskError>
        ensures did { Did (folder_made path.now) (no_room path.now) self.old self.new result }
        ensures answer { Answers (no_room path.now) self.old result }
        ensures cause { HasCause self.old self.new result }
        ensures fault { FaultsAtEnd self.old result }
        ensures lawful { TellsLawful self.old }
    {
        if let Some(why) = refusal_of_new(&self.names, path) {
            self.refusals = self.refusals.saturating_add(1);
            return Err(why);
        }
        if self.history.is_full() {
            self.faults = self.faults.saturating_add(1);
            return Err(DiskError::Fault);
        }
        let key = Vec::from_slice(self.alloc, path.as_bytes())?;
        let kept = Vec::from_slice(self.alloc, path.as_bytes())?;
        let room = room_for_more(self.names.len(), self.loose)?;
        self.history.reserve(room)?;
        self.names.insert(key, Target::Folder)?;
        self.names_synced = false;
        self.history.push(What::MakeFolder(kept));
        Ok(())
    }

    pub fn link(&mut self, from: &Path, to: &Path) -> Result<(), DiskError>
        ensures did { Did (linked from.now to.now) (no_link from.now to.now) self.old self.new result }
        ensures answer { Answers (no_link from.now to.now) self.old result }
        ensures cause { HasCause self.old self.new result }
        ensures fault { FaultsAtEnd self.old result }
        ensures lawful { TellsLawful self.old }
    {
        let Some(id) = find_file(&self.names, from.as_bytes()) else {
            self.refusals = self.refusals.saturating_add(1);
            return Err(DiskError::NotThere);
        };
        if let Some(why) = refusal_of_new(&self.names, to) {
            self.refusals = self.refusals.saturating_add(1);
            return Err(why);
        }
        if !self.links {
            self.refusals = self.refusals.saturating_add(1);
            return Err(DiskError::NoLinks);
        }
        if self.history.is_full() {
            self.faults = self.faults.saturating_add(1);
            return Err(DiskError::Fault);
        }
        let key = Vec::from_slice(self.alloc, to.as_bytes())?;
        let kept = Vec::from_slice(self.alloc, to.as_bytes())?;
        let room = room_for_more(self.names.len(), self.loose)?;
        self.history.reserve(room)?;
        self.names.insert(key, Target::File(id))?;
        self.names_synced = false;
        self.history.push(What::Link(kept, id));
        Ok(())
    }

    pub fn rename(&mut self, from: &Path, to: &Path) -> Result<(), DiskError>
        ensures did { Did (renamed_by from.now to.now) (no_rename from.now to.now) self.old self.new result }
        ensures answer { Answers (no_rename from.now to.now) self.old result }
        ensures cause { HasCause self.old self.new result }
        ensures fault { FaultsAtEnd self.old result }
        ensures lawful { TellsLawful self.old }
    {
        let standing = standing(&self.names, from.as_bytes());
        if let Some(why) = refusal_of_move(&self.names, from, to, standing) {
            self.refusals = self.refusals.saturating_add(1);
            return Err(why);
        }
        if self.history.is_full() {
            self.faults = self.faults.saturating_add(1);
            return Err(DiskError::Fault);
        }
        let kept_from = Vec::from_slice(self.alloc, from.as_bytes())?;
        let kept_to = Vec::from_slice(self.alloc, to.as_bytes())?;
        let room = room_for_more(self.names.len(), self.loose)?;
        self.history.reserve(room)?;
        let target = standing.unwrap();
        self.names
            .rename(self.alloc, from.as_bytes(), to.as_bytes(), target)?;
        self.names_synced = false;
        self.history.push(What::Rename(kept_from, kept_to));
        Ok(())
    }

    pub fn unlink(&mut self, path: &Path) -> Result<(), DiskError>
        ensures did { Did (unnamed path.now) (no_file path.now) self.old self.new result }
        ensures answer { Answers (no_file path.now) self.old result }
        ensures memory { TakesNoMemory result }
        ensures cause { HasCause self.old self.new result }
        ensures fault { FaultsAtEnd self.old result }
        ensures lawful { TellsLawful self.old }
    {
        if find_file(&self.names, path.as_bytes()).is_none() {
            self.refusals = self.refusals.saturating_add(1);
            return Err(DiskError::NotThere);
        }
        if self.history.is_full() {
            self.faults = self.faults.saturating_add(1);
            return Err(DiskError::Fault);
        }
        let key = self.names.take(path.as_bytes()).unwrap();
        self.names_synced = false;
        self.history.push(What::Unname(key));
        Ok(())
    }

    pub fn remove_folder(&mut self, path: &Path) -> Result<(), DiskError>
        ensures did { Did (unnamed path.now) (no_removal path.now) self.old self.new result }
        ensures answer { Answers (no_removal path.now) self.old result }
        ensures memory { TakesNoMemory result }
        ensures cause { HasCause self.old self.new result }
        ensures fault { FaultsAtEnd self.old result }
        ensures lawful { TellsLawful self.old }
    {
        if !has_folder(&self.names, path.as_bytes()) {
            self.refusals = self.refusals.saturating_add(1);
            return Err(DiskError::NotThere);
        }
        if self.names.is_occupied(path.as_bytes()) {
            self.refusals = self.refusals.saturating_add(1);
            return Err(DiskError::NotEmpty);
        }
        if self.history.is_full() {
            self.faults = self.faults.saturating_add(1);
            return Err(DiskError::Fault);
        }
        let key = self.names.take(path.as_bytes()).unwrap();
        self.names_synced = false;
        self.history.push(What::Unname(key));
        Ok(())
    }

    pub fn sync_names(&mut self) -> Result<(), DiskError>
        ensures did { Did names_synced never self.old self.new result }
        ensures answer { Answers never self.old result }
        ensures memory { TakesNoMemory result }
        ensures cause { HasCause self.old self.new result }
        ensures fault { FaultsAtEnd self.old result }
        ensures lawful { TellsLawful self.old }
    {
        if self.history.is_full() {
            self.faults = self.faults.saturating_add(1);
            return Err(DiskError::Fault);
        }
        if self.names_synced {
            self.history.idle();
            return Ok(());
        }
        self.names_synced = true;
        self.history.push(What::SyncNames);
        Ok(())
    }
}
