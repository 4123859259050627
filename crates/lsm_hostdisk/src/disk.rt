//! The disk: each call is that of the host's files, and its answer is counted.
ghost use Rattle.lsm_hostdisk.specs.Told.{counts_seen};

use crate::counts::{Counts, without_memory};
use crate::files::HostFiles;
use crate::view::HostView;
use lsm_disk::{Disk, DiskError, Kind, Listing};
use lsm_names::Path;
use std::alloc::Global;

/// A disk over the files under a folder of the host. It tells nothing.
#[derive(Drop)]
pub struct HostDisk {
    files: HostFiles,
    counts: Counts,
}

impl HostDisk {
    /// The disk under this root, which is made where it isn't there. The folder that the root
    /// stands in has to be there. It is refused as `Fault` or `NoMemory`.
    pub fn new(rt: HostRuntime, alloc: Global, root: &str) -> Result<HostDisk, DiskError> {
        match HostFiles::new(rt, alloc, root) {
            Ok(files) => Ok(HostDisk {
                files,
                counts: Counts::new(),
            }),
            Err(error) => Err(error),
        }
    }
}

impl Disk for HostDisk {
    type View = HostView;

    ghost seen = { λ d. counts_seen d.counts };

    fn kind(&mut self, path: &Path) -> Result<Option<Kind>, DiskError> {
        let given = without_memory(self.files.kind(path));
        self.counts.answer(given)
    }

    fn list(&mut self, folder: &Path) -> Result<Listing, DiskError> {
        let given = match self.files.list(folder) {
            Ok(entries) => Ok(Listing::of(entries)),
            Err(error) => Err(error),
        };
        self.counts.answer(given)
    }

    fn size(&mut self, path: &Path) -> Result<u64, DiskError> {
        let given = without_memory(self.files.size(path));
        self.counts.answer(given)
    }

    fn open(&mut self, path: &Path, len: u64) -> Result<HostView, DiskError> {
        let given = self.files.open(path, len);
        match self.counts.answer(given) {
            Ok(file) => Ok(HostView::new(file, len)),
            Err(error) => Err(error),
        }
    }

    fn close(&mut self, view: HostView) {
        if view.has_faults() {
            self.counts.count_fault();
        }
    }

    fn create(&mut self, path: &Path) -> Result<(), DiskError> {
        let given = self.files.create(path);
        self.counts.answer(given)
    }

    fn append(&mut self, path: &Path, bytes: &[u8]) -> Result<(), DiskError> {
        let given = self.files.append(path, bytes);
        self.counts.answer(given)
    }

    fn sync(&mut self, path: &Path) -> Result<(), DiskError> {
        let given = without_memory(self.files.sync(path));
        self.counts.answer(given)
    }

    fn link(&mut self, from: &Path, to: &Path) -> Result<(), DiskError> {
        let given = self.files.link(from, to);
        self.counts.answer(given)
    }

    fn rename(&mut self, from: &Path, to: &Path) -> Result<(), DiskError> {
        let given = self.files.rename(from, to);
        self.counts.answer(given)
    }

    fn unlink(&mut self, path: &Path) -> Result<(), DiskError> {
        let given = without_memory(self.files.unlink(path));
        self.counts.answer(given)
    }

    fn make_folder(&mut self, path: &Path) -> Result<(), DiskError> {
        let given = self.files.make_folder(path);
        self.counts.answer(given)
    }

    fn remove_folder(&mut self, path: &Path) -> Result<(), DiskError> {
        let given = without_memory(self.files.remove_folder(path));
        self.counts.answer(given)
    }

    fn sync_names(&mut self) -> Result<(), DiskError> {
        let given = without_memory(self.files.sync_names());
        self.counts.answer(given)
    }
}
