//! The calls that change a file's bytes.
ghost use Rattle.std.specs.Prelude.{◌≡◌, ◌+◌, ◌<◌, ◌^◌};
ghost use Rattle.lsm_disk.specs.State.{appended, file_synced};
ghost use Rattle.lsm_disk.specs.Tree.{TellsLawful};
ghost use Rattle.lsm_disk.specs.Refusals.{no_file};
ghost use Rattle.lsm_disk.specs.Answers.{Did, Appends, Answers, TakesNoMemory, HasCause};
ghost use Rattle.lsm_volume.specs.Room.{newly_loose};
ghost use Rattle.lsm_volume.specs.Clock.{FaultsAtEnd};

use super::{Volume, room_for_more};
use lsm_changes::{What, append_at, is_synced_at, sync_at};
use lsm_disk::DiskError;
use lsm_names::Path;
use lsm_nametable::find_file;

/// How many files an append makes loose.
fn newly_loose(was_synced: bool, bytes: &[u8]) -> usize
    ensures { result ≡ newly_loose was_synced bytes.now }
{
    if was_synced && !bytes.is_empty() {
        1
    } else {
        0
    }
}

impl Volume {
    pub fn append(&mut self, path: &Path, bytes: &[u8]) -> Result<(), DiskError>
        ensures did { Appends path.now bytes.now self.old self.new result }
        ensures answer { Answers (no_file path.now) self.old result }
        ensures cause { HasCause self.old self.new result }
        ensures fault { FaultsAtEnd self.old result }
        ensures lawful { TellsLawful self.old }
    {
        let Some(id) = find_file(&self.names, path.as_bytes()) else {
            self.refusals = self.refusals.saturating_add(1);
            return Err(DiskError::NotThere);
        };
        if self.history.is_full() {
            self.faults = self.faults.saturating_add(1);
            return Err(DiskError::Fault);
        }
        let kept = Vec::from_slice(self.alloc, bytes)?;
        let room = room_for_more(self.names.len(), self.loose)?;
        self.history.reserve(room)?;
        let more = newly_loose(is_synced_at(&self.files, id), bytes);
        append_at(&mut self.files, id, bytes)?;
        self.loose += more;
        self.history.push(What::Append(id, kept));
        Ok(())
    }

    pub fn sync(&mut self, path: &Path) -> Result<(), DiskError>
        ensures did { Did (file_synced path.now) (no_file path.now) self.old self.new result }
        ensures answer { Answers (no_file path.now) self.old result }
        ensures memory { TakesNoMemory result }
        ensures cause { HasCause self.old self.new result }
        ensures fault { FaultsAtEnd self.old result }
        ensures lawful { TellsLawful self.old }
    {
        let Some(id) = find_file(&self.names, path.as_bytes()) else {
            self.refusals = self.refusals.saturating_add(1);
            return Err(DiskError::NotThere);
        };
        if self.history.is_full() {
            self.faults = self.faults.saturating_add(1);
            return Err(DiskError::Fault);
        }
        if is_synced_at(&self.files, id) {
            self.history.idle();
            return Ok(());
        }
        sync_at(&mut self.files, id);
        self.loose -= 1;
        self.history.push(What::Sync(id));
        Ok(())
    }
}
