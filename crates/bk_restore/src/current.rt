//! `CURRENT`, found among a meta's files and read whole.
ghost use Rattle.std.specs.Prelude.{◌≡◌, [], ◌∷◌, Some, None, IfOk, IfErr};
ghost use Rattle.lsm_bytes.specs.Checksum.{crc32c};
ghost use Rattle.lsm_names.specs.declared.file_names.FileName.TheVariants.{Current};
ghost use Rattle.bk_meta.specs.declared.backup_files.BackupFile.TheVariants.{Private};
ghost use Rattle.bk_meta.specs.BackupFiles.{file_at};
ghost use Rattle.bk_restore.specs.Causes.{HasCauses, counts_of, silent};
ghost use Rattle.bk_restore.specs.Refusals.{IsOfCopying, IsPastBegin};
ghost use Rattle.bk_restore.specs.Wrong.{currents, wrong_crc, IsToldOf};
ghost use Rattle.bk_restore.specs.Sources.{IsCopyOf, IsSameView, IsTextOf};
ghost use Rattle.bk_restore.specs.Restored.{AreMetaFiles};

use crate::RestoreError;
use crate::named::{file_of, is_current};
use crate::refusals::compare;
use crate::sources::open_file;
use bk_meta::{BackupFile, MetaFile};
use lsm_bytes::{Bytes, Crc};
use lsm_disk::{Disk, View};
use lsm_names::FileName;
use std::alloc::Global;

/// The file of a meta that is `CURRENT`.
pub(crate) fn current_of(id: u32, files: &[MetaFile]) -> MetaFile
    requires { AreMetaFiles id files.now }
    ensures only { currents id files.now ≡ result ∷ [] }
    ensures named { file_at id result.path ≡ Some (Private Current) }
{
    for file in files {
        if is_current(&file_of(id, file)) {
            return *file;
        }
    }
    unreachable!()
}

/// All bytes of a view.
fn read_whole<V: View>(alloc: Global, view: &mut V) -> Result<Bytes, RestoreError>
    ensures read { IfOk result (λ text. IsCopyOf (V.viewed view.old) (crc32c text) text) }
    ensures kind { IfErr result IsOfCopying }
    ensures view { IsSameView (V.viewed view.old) (V.viewed view.new) }
    ensures cause { HasCauses (counts_of (V.viewed view.old)) (counts_of (V.viewed view.new)) silent silent result }
{
    let mut bytes = vec![in alloc; 0u8; view.len() as usize]?;
    view.read_at(0, &mut bytes)?;
    Ok(Bytes::from_vec(bytes))
}

/// The CRC32C of bytes.
fn checksum(bytes: &[u8]) -> u32
    ensures { result ≡ crc32c bytes.now }
{
    let mut crc = Crc::new();
    crc.update(bytes);
    crc.value()
}

/// The bytes of the file, which is `CURRENT`, read whole.
fn read_file<B: Disk>(alloc: Global, disk: &mut B, file: &MetaFile) -> Result<Bytes, RestoreError>
    ensures told { (B.seen disk.new).told ≡ (B.seen disk.old).told }
    ensures read { IfOk result (λ text. IsTextOf (B.seen disk.old).told file.now (Private Current) (crc32c text) text) }
    ensures wrong { IfErr result (IsToldOf (B.seen disk.old).told file.now (Private Current)) }
    ensures past { IfErr result IsPastBegin }
    ensures cause { HasCauses (B.seen disk.old) (B.seen disk.new) silent silent result }
{
    let mut view = open_file(disk, file, &BackupFile::Private(FileName::Current))?;
    let read = read_whole(alloc, &mut view);
    disk.close(view);
    match read {
        Ok(text) => Ok(text),
        Err(e) => Err(e),
    }
}

/// The bytes of the file, which is `CURRENT`, with the checksum of its meta.
pub(crate) fn read_current<B: Disk>(
    alloc: Global,
    disk: &mut B,
    file: &MetaFile,
) -> Result<Bytes, RestoreError>
    ensures told { (B.seen disk.new).told ≡ (B.seen disk.old).told }
    ensures read { IfOk result (λ text. IsTextOf (B.seen disk.old).told file.now (Private Current) (crc32c text) text) }
    ensures right { IfOk result (λ text. wrong_crc file.now (crc32c text) ≡ None) }
    ensures wrong { IfErr result (IsToldOf (B.seen disk.old).told file.now (Private Current)) }
    ensures past { IfErr result IsPastBegin }
    ensures cause { HasCauses (B.seen disk.old) (B.seen disk.new) silent silent result }
{
    let text = read_file(alloc, disk, file)?;
    match compare(file, checksum(text.as_slice())) {
        Ok(()) => Ok(text),
        Err(e) => Err(e),
    }
}
