//! How a refused call of the backup disk or of the destination is answered.
ghost use Rattle.std.specs.Prelude.{◌≡◌, ◌≢◌, ℕ, List, Some, None, OnOk, IfErr};
ghost use Rattle.lsm_disk.specs.declared.dest.DestError.TheVariants as dest_error;
ghost use Rattle.bk_restore.specs.Wrong.{wrong_crc};
ghost use Rattle.bk_restore.specs.Refusals.{disk_answer, dest_answer, IsPastBegin};

use crate::RestoreError;
use bk_meta::MetaFile;
use lsm_disk::{DestError, DiskCall, DiskError};
use lsm_names::Path;

/// The answer where this call of the backup disk on a file was refused.
pub(crate) fn disk_refused(call: DiskCall, path: &Path, why: DiskError) -> RestoreError
    ensures { result ≡ disk_answer call path.now why }
{
    match why {
        DiskError::Fault => RestoreError::DiskFault,
        DiskError::NotThere => RestoreError::Missing { name: *path },
        DiskError::NoMemory => RestoreError::NoMemory,
        DiskError::Exists | DiskError::NoLinks | DiskError::NotEmpty | DiskError::Short { .. } =>
            RestoreError::Changed { call, path: *path },
    }
}

/// The answer where the destination refused a call past the begin of its folder.
pub(crate) fn dest_refused(why: DestError) -> RestoreError
    requires { why ≢ dest_error.Exists }
    ensures { (dir : List ℕ) → result ≡ dest_answer dir why }
{
    match why {
        DestError::Fault => RestoreError::DestFault,
        DestError::Halted { first } => RestoreError::Halted { first },
        DestError::Exists => unreachable!(),
        DestError::Changed { call, path } => RestoreError::Changed { call, path },
        DestError::NoMemory => RestoreError::NoMemory,
    }
}

/// Refuses a checksum that isn't the meta's.
pub(crate) fn compare(file: &MetaFile, found: u32) -> Result<(), RestoreError>
    ensures ok { OnOk result (wrong_crc file.now found ≡ None) }
    ensures err { IfErr result (λ e. wrong_crc file.now found ≡ Some e) }
    ensures past { IfErr result IsPastBegin }
{
    if found == file.crc {
        Ok(())
    } else {
        Err(RestoreError::Damaged {
            name: file.path,
            kept: file.crc,
            found,
        })
    }
}
