//! Views of files of the host. Each reads through a handle of its own, so it outlives the name.
ghost use Rattle.std.specs.Prelude.{◌≡◌, ◌+◌, ◌≤◌, ◌<◌, ◌↔◌, IsTrue, None, length};
ghost use Rattle.lsm_disk.specs.Viewed.{Viewed};

use lsm_disk::{View, ViewFault};
use std::fs::File;
use std::os::unix::fs::FileExt;

/// The first bytes of a file, as many as it was opened for. They never change, since files are only
/// appended to.
#[derive(Drop)]
pub struct HostView {
    file: File,
    len: u64,
    faults: u64,
}

impl HostView {
    pub(crate) fn new(file: File, len: u64) -> HostView
        ensures len { result.len ≡ len }
        ensures faults { result.faults ≡ 0 }
    {
        HostView {
            file,
            len,
            faults: 0,
        }
    }

    pub(crate) fn has_faults(&self) -> bool
        ensures { IsTrue result ↔ (0 < self.now.faults) }
    {
        self.faults > 0
    }
}

impl View for HostView {
    ghost viewed = { λ v. record { bytes = None; len = v.len; faults = v.faults } };

    fn len(&self) -> u64 {
        self.len
    }

    fn read_at(&mut self, at: u64, into: &mut [u8]) -> Result<(), ViewFault> {
        match self.file.read_exact_at(into, at) {
            Ok(()) => Ok(()),
            Err(_) => {
                self.faults = self.faults.saturating_add(1);
                Err(ViewFault)
            }
        }
    }
}
