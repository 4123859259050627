//! The calls of a disk over the host's files, without counts.

use crate::answers;
use crate::changed::Changed;
use crate::handles::{Handle, Handles, is_inside};
use crate::place::{Place, kind_of};
use crate::root::{make_root, sync_folder};
use lsm_disk::{DiskError, Entry, Kind};
use lsm_names::Path;
use std::alloc::Global;
use std::fs;
use std::fs::{File, Files, Metadata, OpenOptions};
use std::io::Read;
use std::os::unix::fs::MetadataExt;

/// How many bytes of a folder's names are read at a time; a name of the host has at most 255.
const NAMES: usize = 4096;

/// The files under a root.
#[derive(Drop)]
pub(crate) struct HostFiles {
    rt: HostRuntime,
    alloc: Global,
    // the place in hand
    place: Place,
    // the place of a second path
    other: Place,
    handles: Handles,
    changed: Changed,
}

impl HostFiles {
    /// The files under this root, which is made where it isn't there.
    pub(crate) fn new(rt: HostRuntime, alloc: Global, root: &str) -> Result<HostFiles, DiskError> {
        let place = Place::new(alloc, root)?;
        let other = Place::new(alloc, root)?;
        let handles = Handles::new(alloc)?;
        make_root(&rt, root)?;
        Ok(HostFiles {
            rt,
            alloc,
            place,
            other,
            handles,
            changed: Changed::new(alloc),
        })
    }

    pub(crate) fn kind(&mut self, path: &Path) -> Result<Option<Kind>, DiskError> {
        match self.place.found(&self.rt, path)? {
            Some(found) => Ok(kind_of(&found)),
            None => Ok(None),
        }
    }

    pub(crate) fn list(&mut self, folder: &Path) -> Result<Vec<Entry>, DiskError> {
        self.place.found_folder(&self.rt, folder)?;
        let mut names = answers::of_a_name(self.rt.open_dir(self.place.as_str()))?;
        let mut entries = Vec::new(self.alloc);
        let mut buffer = [0u8; NAMES];
        for _ in 0..u64::MAX {
            match names.read(&mut buffer) {
                Ok(0) => {
                    entries.sort_by_key(|entry: &Entry| entry.name)?;
                    return Ok(entries);
                }
                Ok(count) => self.add_entries(folder, &buffer[..count], &mut entries)?,
                Err(error) if answers::is_interrupted(&error) => {}
                Err(_) => return Err(DiskError::Fault),
            }
        }
        Err(DiskError::Fault)
    }

    /// Adds what stands under these names, each of which ends with a zero.
    fn add_entries(
        &mut self,
        folder: &Path,
        names: &[u8],
        entries: &mut Vec<Entry>,
    ) -> Result<(), DiskError> {
        for name in names.split(|byte| *byte == 0) {
            if let Ok(name) = Path::parse(name) {
                if let Some(kind) = self.kind_in(folder, &name)? {
                    entries.push(Entry { name, kind })?;
                }
            }
        }
        Ok(())
    }

    /// The kind of what stands in a folder that was looked at. What has no path there is nothing.
    fn kind_in(&mut self, folder: &Path, name: &Path) -> Result<Option<Kind>, DiskError> {
        let Ok(path) = folder.join(name) else {
            return Ok(None);
        };
        self.other.set(&path)?;
        match self.other.look(&self.rt)? {
            Some(found) => Ok(kind_of(&found)),
            None => Ok(None),
        }
    }

    pub(crate) fn size(&mut self, path: &Path) -> Result<u64, DiskError> {
        Ok(self.place.found_file(&self.rt, path)?.len())
    }

    /// Opens a file that was looked at, and makes sure that it is the one. A name that is no file's
    /// isn't opened: that could wait for ever.
    fn opened(&mut self, path: &Path, how: &OpenOptions) -> Result<File, DiskError> {
        let found = self.place.found_file(&self.rt, path)?;
        let file = answers::of_a_name(how.open(&self.rt, self.place.as_str()))?;
        let now = answers::or_fault(file.metadata())?;
        if is_same(&found, &now) {
            Ok(file)
        } else {
            Err(DiskError::NotThere)
        }
    }

    pub(crate) fn open(&mut self, path: &Path, len: u64) -> Result<File, DiskError> {
        let mut how = OpenOptions::new();
        how.read(true);
        let file = self.opened(path, &how)?;
        let found = answers::or_fault(file.metadata())?.len();
        if found < len {
            Err(DiskError::Short { found })
        } else {
            Ok(file)
        }
    }

    pub(crate) fn create(&mut self, path: &Path) -> Result<(), DiskError> {
        self.changed.note(path)?;
        self.handles.make_room()?;
        if !self.place.go(&self.rt, path)? {
            return Err(DiskError::NotThere);
        }
        let mut how = OpenOptions::new();
        how.append(true).create_new(true);
        let file = answers::of_a_new_name(how.open(&self.rt, self.place.as_str()))?;
        self.handles.let_go(path);
        self.handles.keep(Handle::new(path, file))
    }

    /// The handle to write with. It comes back to the kept ones where all went well.
    fn writer(&mut self, path: &Path) -> Result<Handle, DiskError> {
        if let Some(handle) = self.handles.take(path) {
            return Ok(handle);
        }
        self.handles.make_room()?;
        let mut how = OpenOptions::new();
        how.append(true);
        let file = self.opened(path, &how)?;
        Ok(Handle::new(path, file))
    }

    pub(crate) fn append(&mut self, path: &Path, bytes: &[u8]) -> Result<(), DiskError> {
        let mut handle = self.writer(path)?;
        handle.append(bytes)?;
        self.handles.keep(handle)
    }

    pub(crate) fn sync(&mut self, path: &Path) -> Result<(), DiskError> {
        let mut handle = self.writer(path)?;
        handle.sync()?;
        self.handles.keep(handle)
    }

    pub(crate) fn link(&mut self, from: &Path, to: &Path) -> Result<(), DiskError> {
        self.changed.note(to)?;
        self.place.found_file(&self.rt, from)?;
        if !self.other.go(&self.rt, to)? {
            return Err(DiskError::NotThere);
        }
        if self.other.look(&self.rt)?.is_some() {
            return Err(DiskError::Exists);
        }
        let given = fs::hard_link(&self.rt, self.place.as_str(), self.other.as_str());
        answers::of_a_link(given)
    }

    /// Names inside a folder that is to move are made durable first, while they can be found.
    pub(crate) fn rename(&mut self, from: &Path, to: &Path) -> Result<(), DiskError> {
        if self.changed.has_inside(from) {
            self.sync_names()?;
        }
        self.changed.note(from)?;
        self.changed.note(to)?;
        let Some(found) = self.place.found(&self.rt, from)? else {
            return Err(DiskError::NotThere);
        };
        match kind_of(&found) {
            Some(Kind::File) => self.rename_file(&found, from, to),
            Some(Kind::Folder) => self.rename_folder(from, to),
            None => Err(DiskError::NotThere),
        }
    }

    /// Where both names are of one file the host's rename would do nothing: the old one is taken
    /// away.
    fn rename_file(&mut self, found: &Metadata, from: &Path, to: &Path) -> Result<(), DiskError> {
        let is_other_name = self.replaces_itself(found, to)? && from != to;
        self.handles.let_go(from);
        self.handles.let_go(to);
        let given = if is_other_name {
            fs::remove_file(&self.rt, self.place.as_str())
        } else {
            fs::rename(&self.rt, self.place.as_str(), self.other.as_str())
        };
        answers::of_a_rename(given)
    }

    /// Whether the file that is to be renamed has the new name already. Only a file is replaced.
    fn replaces_itself(&mut self, found: &Metadata, to: &Path) -> Result<bool, DiskError> {
        if !self.other.go(&self.rt, to)? {
            return Err(DiskError::NotThere);
        }
        match self.other.look(&self.rt)? {
            Some(there) if there.is_file() => Ok(is_same(found, &there)),
            Some(_) => Err(DiskError::Exists),
            None => Ok(false),
        }
    }

    /// The host's rename would replace an empty folder: the new name has to be free.
    fn rename_folder(&mut self, from: &Path, to: &Path) -> Result<(), DiskError> {
        if is_inside(from, to) || !self.other.go(&self.rt, to)? {
            return Err(DiskError::NotThere);
        }
        if self.other.look(&self.rt)?.is_some() {
            return Err(DiskError::Exists);
        }
        self.handles.let_go_inside(from);
        let given = fs::rename(&self.rt, self.place.as_str(), self.other.as_str());
        answers::of_a_rename(given)
    }

    pub(crate) fn unlink(&mut self, path: &Path) -> Result<(), DiskError> {
        self.changed.note(path)?;
        self.place.found_file(&self.rt, path)?;
        self.handles.let_go(path);
        answers::of_a_name(fs::remove_file(&self.rt, self.place.as_str()))
    }

    pub(crate) fn make_folder(&mut self, path: &Path) -> Result<(), DiskError> {
        self.changed.note(path)?;
        if !self.place.go(&self.rt, path)? {
            return Err(DiskError::NotThere);
        }
        answers::of_a_new_name(fs::create_dir(&self.rt, self.place.as_str()))
    }

    pub(crate) fn remove_folder(&mut self, path: &Path) -> Result<(), DiskError> {
        self.changed.note(path)?;
        self.place.found_folder(&self.rt, path)?;
        self.handles.let_go_inside(path);
        answers::of_a_removal(fs::remove_dir(&self.rt, self.place.as_str()))
    }

    /// A folder is noted until it is durable, and those inside others come first.
    pub(crate) fn sync_names(&mut self) -> Result<(), DiskError> {
        self.changed.put_parents_first();
        for _ in 0..u64::MAX {
            let Some(folder) = self.changed.last() else {
                return self.sync_root();
            };
            self.sync_names_in(&folder)?;
            self.changed.forget_last();
        }
        Err(DiskError::Fault)
    }

    /// A folder that is gone has no names to make durable.
    fn sync_names_in(&mut self, folder: &Path) -> Result<(), DiskError> {
        match self.place.found(&self.rt, folder)? {
            Some(found) if found.is_dir() => sync_folder(&self.rt, self.place.as_str()),
            _ => Ok(()),
        }
    }

    fn sync_root(&mut self) -> Result<(), DiskError> {
        if self.changed.has_root() {
            sync_folder(&self.rt, self.place.root())?;
            self.changed.forget_root();
        }
        Ok(())
    }
}

/// Whether it is one file.
fn is_same(one: &Metadata, other: &Metadata) -> bool {
    one.ino() == other.ino() && one.dev() == other.dev()
}
