//! Places of the host: where a path of the disk stands under the root, and what stands there.
ghost use Rattle.std.specs.Prelude.{◌≡◌, ◌∷◌, ◌++◌, OnOk};
ghost use Rattle.std.specs.String.{string_bytes};

use crate::answers::{is_interrupted, means_nothing_there};
use lsm_disk::{DiskError, Kind};
use lsm_names::Path;
use std::alloc::{AllocError, Global};
use std::fs;
use std::fs::Metadata;

/// How much longer a place is than the root: a slash, and a path.
const BELOW_ROOT: usize = 161;

/// The place of a path: the root, a slash, and the path. The path has no component `.` or `..`, so
/// its place is under the root where no component on the way is a link.
#[derive(Drop)]
pub(crate) struct Place {
    root: String,
    text: String,
}

impl Place {
    /// A place under this root. It has the room for each path.
    pub(crate) fn new(alloc: Global, root: &str) -> Result<Place, AllocError> {
        let text = String::with_capacity(alloc, root.len().saturating_add(BELOW_ROOT))?;
        let root = String::from_str(alloc, root)?;
        Ok(Place { root, text })
    }

    pub(crate) fn root(&self) -> &str {
        self.root.as_str()
    }

    pub(crate) fn as_str(&self) -> &str {
        self.text.as_str()
    }

    /// Makes this the place of a path.
    pub(crate) fn set(&mut self, path: &Path) -> Result<(), AllocError>
        ensures root { string_bytes self.new.root ≡ string_bytes self.old.root }
        ensures below { OnOk result (string_bytes self.new.text ≡ string_bytes self.old.root ++ 47 ∷ path.now) }
    {
        self.text.clear();
        self.text.push_str(self.root.as_str())?;
        self.text.push('/')?;
        self.text.push_str(path.as_str())?;
        Ok(())
    }

    /// Makes this the place of a path. It is false where something on the way isn't a folder.
    pub(crate) fn go(&mut self, rt: &HostRuntime, path: &Path) -> Result<bool, DiskError> {
        self.set(path)?;
        self.is_reached(rt)
    }

    fn is_reached(&self, rt: &HostRuntime) -> Result<bool, DiskError> {
        let text = self.text.as_str();
        for end in self.root.len().saturating_add(1)..text.len() {
            if text.as_bytes()[end] == b'/' && !is_folder_before(rt, text, end)? {
                return Ok(false);
            }
        }
        Ok(true)
    }

    /// What stands at this place, once it was reached.
    pub(crate) fn look(&self, rt: &HostRuntime) -> Result<Option<Metadata>, DiskError> {
        look(rt, self.text.as_str())
    }

    /// Makes this the place of a path, and gives what stands there.
    pub(crate) fn found(
        &mut self,
        rt: &HostRuntime,
        path: &Path,
    ) -> Result<Option<Metadata>, DiskError> {
        if self.go(rt, path)? {
            self.look(rt)
        } else {
            Ok(None)
        }
    }

    /// The same of a path that has to be that of a file.
    pub(crate) fn found_file(
        &mut self,
        rt: &HostRuntime,
        path: &Path,
    ) -> Result<Metadata, DiskError> {
        match self.found(rt, path)? {
            Some(found) if found.is_file() => Ok(found),
            _ => Err(DiskError::NotThere),
        }
    }

    /// The same of a path that has to be that of a folder.
    pub(crate) fn found_folder(&mut self, rt: &HostRuntime, path: &Path) -> Result<(), DiskError> {
        match self.found(rt, path)? {
            Some(found) if found.is_dir() => Ok(()),
            _ => Err(DiskError::NotThere),
        }
    }
}

/// A file or a folder, or else nothing of the disk's.
pub(crate) fn kind_of(found: &Metadata) -> Option<Kind> {
    if found.is_dir() {
        Some(Kind::Folder)
    } else if found.is_file() {
        Some(Kind::File)
    } else {
        None
    }
}

/// What stands at a place of the host. A link is looked at itself.
fn look(rt: &HostRuntime, place: &str) -> Result<Option<Metadata>, DiskError> {
    for _ in 0..u64::MAX {
        match fs::symlink_metadata(rt, place) {
            Ok(found) => return Ok(Some(found)),
            Err(error) if is_interrupted(&error) => {}
            Err(error) if means_nothing_there(&error) => return Ok(None),
            Err(_) => return Err(DiskError::Fault),
        }
    }
    Err(DiskError::Fault)
}

fn is_folder_before(rt: &HostRuntime, text: &str, end: usize) -> Result<bool, DiskError> {
    let Some((folder, _)) = text.split_at_checked(end) else {
        return Err(DiskError::Fault);
    };
    match look(rt, folder)? {
        Some(found) => Ok(found.is_dir()),
        None => Ok(false),
    }
}
