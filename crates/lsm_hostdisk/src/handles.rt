//! Handles to append with, kept open for the files that were written last, so that a write costs no
//! open.

use crate::answers::or_fault;
use crate::write::write_whole;
use lsm_disk::DiskError;
use lsm_names::Path;
use std::alloc::{AllocError, Global};
use std::fs::File;

/// How many handles are kept, besides those with bytes that no sync has made durable: were such a
/// handle closed, the host could lose the error of a late write.
const KEPT: usize = 8;

/// A file that is open to be appended to.
#[derive(Drop)]
pub(crate) struct Handle {
    path: Path,
    file: File,
    is_unsynced: bool,
}

impl Handle {
    pub(crate) fn new(path: &Path, file: File) -> Handle {
        Handle {
            path: *path,
            file,
            is_unsynced: false,
        }
    }

    /// Adds bytes at the file's end.
    pub(crate) fn append(&mut self, bytes: &[u8]) -> Result<(), DiskError> {
        self.is_unsynced = true;
        write_whole(&mut self.file, bytes)
    }

    /// Makes the file's bytes durable.
    pub(crate) fn sync(&mut self) -> Result<(), DiskError> {
        or_fault(self.file.sync_data())?;
        self.is_unsynced = false;
        Ok(())
    }
}

/// The kept handles, the one that was used last at the end.
#[derive(Drop)]
pub(crate) struct Handles {
    handles: Vec<Handle>,
}

impl Handles {
    pub(crate) fn new(alloc: Global) -> Result<Handles, AllocError> {
        Ok(Handles {
            handles: Vec::with_capacity(alloc, KEPT)?,
        })
    }

    /// Hands out the handle of a path. What goes wrong with it isn't kept again.
    pub(crate) fn take(&mut self, path: &Path) -> Option<Handle> {
        let place = self.handles.iter().position(|handle| handle.path == *path)?;
        if place < self.handles.len() {
            Some(self.handles.remove(place))
        } else {
            None
        }
    }

    /// Takes the room for one more handle: closes those that were used least lately, as long as
    /// there are too many and one has nothing unsynced.
    pub(crate) fn make_room(&mut self) -> Result<(), AllocError> {
        for _ in 0..self.handles.len() {
            if self.handles.len() >= KEPT {
                self.close_one();
            }
        }
        self.handles.reserve(1)
    }

    fn close_one(&mut self) {
        let found = self.handles.iter().position(|handle| !handle.is_unsynced);
        if let Some(place) = found {
            if place < self.handles.len() {
                drop(self.handles.remove(place));
            }
        }
    }

    /// Keeps a handle, for which there is room.
    pub(crate) fn keep(&mut self, handle: Handle) -> Result<(), DiskError> {
        match self.handles.push(handle) {
            Ok(()) => Ok(()),
            Err(_) => Err(DiskError::Fault),
        }
    }

    /// Closes the handle of a path.
    pub(crate) fn let_go(&mut self, path: &Path) {
        drop(self.take(path));
    }

    /// Closes the handles of all files inside a folder.
    pub(crate) fn let_go_inside(&mut self, folder: &Path) {
        self.handles
            .retain(|handle| !is_inside(folder, &handle.path));
    }
}

/// Whether the path leads below the folder.
pub(crate) fn is_inside(folder: &Path, path: &Path) -> bool {
    match path.as_str().strip_prefix(folder.as_str()) {
        Some(rest) => rest.starts_with('/'),
        None => false,
    }
}
