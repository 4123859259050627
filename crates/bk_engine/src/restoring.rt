//! The restore of a backup.
ghost use Rattle.std.specs.Prelude.{◌≡◌, ◌↔◌, ℕ, Some, None, option_map, Result, Err};
ghost use Rattle.bk_meta.specs.declared.metas.Meta.{Meta};
ghost use Rattle.bk_restore.specs.declared.errors.RestoreError.{RestoreError};
ghost use Rattle.bk_engine.specs.declared.errors.EngineError.TheVariants as errors;
ghost use Rattle.bk_engine.specs.Restoring.{meta_by, engine_error, answered, Restores};

use crate::engine::BackupEngine;
use crate::errors::EngineError;
use bk_meta::Meta;
use bk_restore::{RestoreError, restore};
use lsm_disk::{Dest, Disk};
use lsm_names::Folder;

impl From<RestoreError> for EngineError {
    ghost from_gives = { λ refusal e. e ≡ engine_error refusal };

    fn from(refusal: RestoreError) -> Self {
        match refusal {
            RestoreError::DiskFault => EngineError::DiskFault,
            RestoreError::DestFault => EngineError::DestFault,
            RestoreError::Halted { first } => EngineError::Halted { first },
            RestoreError::DestinationExists { dir } => EngineError::DestinationExists { dir },
            RestoreError::Missing { name } => EngineError::Missing { name },
            RestoreError::Changed { call, path } => EngineError::Changed { call, path },
            RestoreError::WrongSize { name, kept, found } => {
                EngineError::WrongSize { name, kept, found }
            }
            RestoreError::Damaged { name, kept, found } => {
                EngineError::Damaged { name, kept, found }
            }
            RestoreError::NoMemory => EngineError::NoMemory,
        }
    }
}

/// The first meta of this identifier.
fn meta_by(metas: &[Meta], id: u32) -> Option<&Meta>
    ensures { option_map (λ meta. meta.now) result ≡ meta_by id metas.now }
{
    metas.iter().find(|meta| meta.id == id)
}

impl<B: Disk> BackupEngine<B> {
    /// Restores the backup of this identifier into the new folder `dir` of the destination, and gives the sequence number of
    /// its store. The backup disk is only read. `Halted` is the destination's: an engine that has halted still restores.
    ///
    /// Nothing is done where no backup of this identifier is kept. After any other refusal but `DestFault` the folder has no
    /// `CURRENT`, or wasn't begun; after a `DestFault` it has none or is whole.
    pub fn restore<T: Dest>(
        &mut self,
        id: u32,
        dest: &mut T,
        dir: &Folder,
    ) -> Result<u64, EngineError>
        // No backup of this identifier is kept.
        ensures unlisted { (result ≡ Err (errors.NoSuchBackup id)) ↔ (meta_by id self.old.metas ≡ None) }
        ensures untouched { meta_by id self.old.metas ≡ None → (self.new ≡ self.old) × (dest.new ≡ dest.old) }

        // One is: it is restored, or the restore was refused.
        ensures restored { (meta : Meta) → meta_by id self.old.metas ≡ Some meta → (r : Result ℕ RestoreError) × (result ≡ answered r)
            × Restores meta self.old.disk self.new.disk (T.seen dest.old) (T.seen dest.new) dir.now r }
        ensures told { self.new.disk.told ≡ self.old.disk.told }
        ensures metas { self.new.metas ≡ self.old.metas }
        ensures given { self.new.given ≡ self.old.given }
        ensures halt { self.new.halt ≡ self.old.halt }
        ensures more { (first : T) → T.leads first dest.old → T.leads first dest.new }
    {
        match meta_by(&self.metas, id) {
            Some(meta) => Ok(restore(self.alloc, &mut self.disk, meta, dest, dir)?),
            None => Err(EngineError::NoSuchBackup { id }),
        }
    }
}
