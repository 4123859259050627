//! A destination over a disk.
ghost use Rattle.std.specs.Prelude.{◌≡◌, [], None};

use crate::restoring::{Building, Restoring};
use lsm_disk::{Dest, DestError, Disk, Halt};
use lsm_names::{FileName, Folder};
use std::alloc::Global;

/// A destination that owns its disk. Its folders stand in the disk's root.
///
/// The first disk call that fails, or that finds the disk changed by others, halts it: each later
/// call answers `Halted` with this disk call, and does nothing.
#[derive(Drop)]
pub struct FolderDest<D> {
    disk: D,
    halt: Option<Halt>,
    built: Restoring,
}

impl<D: Disk> FolderDest<D> {
    /// A destination on this disk, with no folder begun.
    pub fn new(alloc: Global, disk: D) -> FolderDest<D>
        ensures { ⟦<FolderDest<D> as Dest>⟧.seen result ≡ record { disk = D.seen disk; halt = None; begun = None; hand = None } }
    {
        FolderDest {
            disk,
            halt: None,
            built: Restoring::new(alloc),
        }
    }

    /// The disk, handed back.
    pub fn into_disk(self) -> D
        ensures { D.seen result ≡ (⟦<FolderDest<D> as Dest>⟧.seen self).disk }
    {
        self.disk
    }
}

impl<D: Disk> Dest for FolderDest<D> {
    ghost use Rattle.std.proofs.Common.{arith};
    ghost use Rattle.lsm_dest.specs.FolderDests.{dest_seen, IsLater};

    ghost seen = { λ d. dest_seen (D.seen d.disk) d.halt d.built };

    ghost leads = { λ a b. IsLater (D.seen a.disk) (D.seen b.disk) };

    ghost stays = { λ d. record { faults = Prim.omega arith; refusals = Prim.omega arith } };

    fn begin(&mut self, dir: &Folder) -> Result<(), DestError> {
        self.disk.begin_in(&mut self.built, &mut self.halt, dir)
    }

    fn file(&mut self, name: &FileName) -> Result<(), DestError> {
        self.disk.file_in(&mut self.built, &mut self.halt, name)
    }

    fn append(&mut self, bytes: &[u8]) -> Result<(), DestError> {
        self.disk.append_in(&mut self.built, &mut self.halt, bytes)
    }

    fn seal(&mut self) -> Result<(), DestError> {
        self.disk.seal_in(&mut self.built, &mut self.halt)
    }

    fn finish(&mut self, current: &[u8]) -> Result<(), DestError> {
        self.disk
            .finish_in(&mut self.built, &mut self.halt, current)
    }
}
