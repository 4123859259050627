//! The restore of a backup onto a store's disk.
ghost use Rattle.std.specs.Prelude.{◌≡◌, ◌⊎◌, ◌==◌, ℕ, Some, None, is_some, option_map, Err};
ghost use Rattle.std.specs.List.{find};
ghost use Rattle.bk_meta.specs.declared.metas.Meta.{Meta};
ghost use Rattle.bk_engine.specs.Restoring.{meta_by};
ghost use Rattle.bk_engine.specs.declared.errors.EngineError.TheVariants as errors;
ghost use Rattle.ldb_script.specs.Opening.{SeenStay};
ghost use Rattle.ldb_script.specs.Restoring.{RestoresOnto, taken_answer};

use bk_engine::{BackupEngine, BackupInfo, EngineError};
use lsm_dest::FolderDest;
use lsm_disk::Disk;
use lsm_names::Folder;
use std::alloc::Global;

// What is told of the first backup of this identifier.
fn info_by(infos: &[BackupInfo], id: u32) -> Option<&BackupInfo>
    ensures { option_map (λ info. info.now) result ≡ find (λ info. info.id == id) infos.now }
{
    infos.iter().find(|info| info.id == id)
}

// Why a backup is not restored under a name that the store itself has.
pub(crate) fn refuse_name<B: Disk>(
    alloc: Global,
    engine: &BackupEngine<B>,
    id: u32,
    name: &Folder,
) -> EngineError
    ensures { (result ≡ taken_answer id name.now (is_some (meta_by id engine.now.metas))) ⊎ (result ≡ errors.NoMemory) }
{
    match engine.list(alloc) {
        Ok(infos) => match info_by(infos.as_slice(), id) {
            Some(_) => EngineError::DestinationExists { dir: *name },
            None => EngineError::NoSuchBackup { id },
        },
        Err(why) => why,
    }
}

// Restores a backup into a new folder of the disk, and hands the disk back.
pub(crate) fn restore_onto<D: Disk, B: Disk>(
    alloc: Global,
    disk: D,
    engine: &mut BackupEngine<B>,
    id: u32,
    name: &Folder,
) -> (D, Result<u64, EngineError>)
    ensures unlisted { meta_by id engine.old.metas ≡ None → (result.1 ≡ Err (errors.NoSuchBackup id)) × (D.seen result.0 ≡ D.seen disk) }
    ensures restored { (meta : Meta) → meta_by id engine.old.metas ≡ Some meta
        → RestoresOnto meta engine.old.disk engine.new.disk (D.seen disk) (D.seen result.0) name.now
        result.1 }
    ensures told { engine.new.disk.told ≡ engine.old.disk.told }
    ensures metas { engine.new.metas ≡ engine.old.metas }
    ensures given { engine.new.given ≡ engine.old.given }
    ensures halt { engine.new.halt ≡ engine.old.halt }
    ensures counts { SeenStay (D.seen disk) (D.seen result.0) }
    ensures vault { SeenStay engine.old.disk engine.new.disk }
{
    let mut dest = FolderDest::new(alloc, disk);
    let result = engine.restore(id, &mut dest, name);
    (dest.into_disk(), result)
}
