//! The folders of a backup disk.
ghost use Rattle.std.specs.Prelude.{◌≡◌, Some, None, IfOk, IfErr, OnOk};
ghost use Rattle.lsm_disk.specs.Names.{stands};
ghost use Rattle.lsm_disk.specs.State.{Story, state_of, names_now};
ghost use Rattle.lsm_disk.specs.Goes.{Went};
ghost use Rattle.bk_restore.specs.Causes.{AreLater};
ghost use Rattle.bk_tree.specs.Places.{meta_folder, private_root, shared_root};
ghost use Rattle.bk_engine.specs.Copying.{Whatever, Anything};
ghost use Rattle.bk_engine.specs.Opening.{
  IsRoot,
  MakesRoots,
  MakesFolder,
  HasFolder,
  HasRoots,
  IsFree,
  IsMissing,
  AreMissing,
  strange_by,
  no_opening,
  IsRefusal,
  NotMade,
  NoOpening,
};

use crate::errors::EngineError;
use crate::stopping::error_by;
use lsm_disk::{Disk, DiskCall, Halt, Kind};
use lsm_names::Path;

/// Which folders are missing, besides that of the metas.
#[derive(Clone, Copy, Debug, PartialEq, Eq)]
struct Missing {
    own: bool,
    shared: bool,
}

/// The folder of the metas.
fn meta_folder() -> Path
    ensures { result ≡ meta_folder }
{
    Path::parse(b"meta").unwrap()
}

/// The folder of the backups' own folders.
fn private_root() -> Path
    ensures { result ≡ private_root }
{
    Path::parse(b"private").unwrap()
}

/// The folder of the tables that backups share.
fn shared_root() -> Path
    ensures { result ≡ shared_root }
{
    Path::parse(b"shared_checksum").unwrap()
}

/// Whether no folder stands there yet.
fn is_missing<B: Disk>(disk: &mut B, path: &Path) -> Result<bool, EngineError>
    requires { IsRoot path.now }
    ensures told { (B.seen disk.new).told ≡ (B.seen disk.old).told }
    ensures missing { IfOk result (λ missing. (story : Story) → (B.seen disk.old).told ≡ Some story → IsMissing path.now missing
        (state_of story)) }
    ensures answer { IfErr result (λ e. (story : Story) → (B.seen disk.old).told ≡ Some story → IsRefusal
        (strange_by path.now (stands (names_now (state_of story)) path.now)) e) }
    ensures cause { IfErr result (NoOpening (B.seen disk.old) (B.seen disk.new)) }
    ensures counts { AreLater (B.seen disk.old) (B.seen disk.new) }
{
    match disk.kind(path) {
        Ok(None) => Ok(true),
        Ok(Some(Kind::Folder)) => Ok(false),
        Ok(Some(Kind::File)) => Err(EngineError::StrangeFolder { path: *path }),
        Err(why) => Err(error_by(
            &Halt {
                call: DiskCall::Kind,
                path: *path,
            },
            why,
        )),
    }
}

/// Which folders are missing, where the disk has no backups.
fn missing_folders<B: Disk>(disk: &mut B) -> Result<Missing, EngineError>
    ensures told { (B.seen disk.new).told ≡ (B.seen disk.old).told }
    ensures missing { IfOk result (λ missing. (story : Story) → (B.seen disk.old).told ≡ Some story
        → AreMissing missing.own missing.shared (state_of story)) }
    ensures answer { IfErr result (λ e. (story : Story) → (B.seen disk.old).told ≡ Some story → IsRefusal (no_opening (state_of story)) e) }
    ensures cause { IfErr result (NoOpening (B.seen disk.old) (B.seen disk.new)) }
    ensures counts { AreLater (B.seen disk.old) (B.seen disk.new) }
{
    let metas = meta_folder();
    if !is_missing(disk, &metas)? {
        return Err(EngineError::Found { path: metas });
    }
    let own = is_missing(disk, &private_root())?;
    let shared = is_missing(disk, &shared_root())?;
    Ok(Missing { own, shared })
}

/// Makes a folder that is missing.
fn make_missing<B: Disk>(disk: &mut B, path: &Path, missing: bool) -> Result<(), EngineError>
    requires { IsRoot path.now }
    ensures made { OnOk result ((story : Story) → (B.seen disk.old).told ≡ Some story → IsMissing path.now missing (state_of story)
        → Went story (B.seen disk.new).told (MakesFolder path.now) Anything (HasFolder path.now)) }
    ensures went { (story : Story) → (B.seen disk.old).told ≡ Some story → Went story (B.seen disk.new).told
        (MakesFolder path.now) Anything Whatever }
    ensures answer { IfErr result (λ e. (story : Story) → (B.seen disk.old).told ≡ Some story → IsMissing path.now missing
        (state_of story) → IsRefusal None e) }
    ensures cause { IfErr result (NotMade (B.seen disk.old) (B.seen disk.new)) }
    ensures counts { AreLater (B.seen disk.old) (B.seen disk.new) }
{
    if !missing {
        return Ok(());
    }
    match disk.make_folder(path) {
        Ok(()) => Ok(()),
        Err(why) => Err(error_by(
            &Halt {
                call: DiskCall::MakeFolder,
                path: *path,
            },
            why,
        )),
    }
}

/// Makes the three folders, where none has the name of the first.
pub(crate) fn make_folders<B: Disk>(disk: &mut B) -> Result<(), EngineError>
    ensures made { OnOk result ((story : Story) → (B.seen disk.old).told ≡ Some story → Went story
        (B.seen disk.new).told MakesRoots Anything HasRoots) }
    ensures went { (story : Story) → (B.seen disk.old).told ≡ Some story → Went story (B.seen disk.new).told MakesRoots Anything Whatever }
    ensures free { OnOk result ((story : Story) → (B.seen disk.old).told ≡ Some story → no_opening (state_of story) ≡ None) }
    ensures fresh { OnOk result ((story : Story) → (B.seen disk.old).told ≡ Some story → IsFree meta_folder (state_of story)) }
    ensures answer { IfErr result (λ e. (story : Story) → (B.seen disk.old).told ≡ Some story → IsRefusal (no_opening (state_of story)) e) }
    ensures cause { IfErr result (NoOpening (B.seen disk.old) (B.seen disk.new)) }
    ensures counts { AreLater (B.seen disk.old) (B.seen disk.new) }
{
    let missing = missing_folders(disk)?;
    make_missing(disk, &meta_folder(), true)?;
    make_missing(disk, &private_root(), missing.own)?;
    make_missing(disk, &shared_root(), missing.shared)?;
    Ok(())
}
