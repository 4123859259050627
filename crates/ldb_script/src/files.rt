//! Views of a store's files, as a backup takes them.
ghost use Rattle.std.specs.Prelude.{◌≡◌, ◌<◌, ℕ, None, IfOk, IfErr, option_map};
ghost use Rattle.lsm_io.specs.Causes.{Rose};
ghost use Rattle.lsm_disk.specs.Refusals.{no_view};
ghost use Rattle.lsm_disk.specs.Viewed.{opened};
ghost use Rattle.bk_engine.specs.Preparing.{views_of, log_views, faults_of};
ghost use Rattle.ldb_script.specs.Stored.{current_path, manifest_path};
ghost use Rattle.ldb_script.specs.Opening.{SeenStay};
ghost use Rattle.ldb_script.specs.Files.{where_any, HasPair, HasViews, IsRefused};

use crate::opening::{LOG, MANIFEST};
use crate::store::{StoreError, store_refused};
use bk_engine::{PlainFile, PlainFiles};
use lsm_disk::{Disk, DiskCall};
use lsm_names::{FileName, Folder, Path};

/// How many bytes `CURRENT` of a store has.
const CURRENT_LEN: u64 = 16;

/// How many bytes the manifest of a store has.
const MANIFEST_LEN: u64 = 13;

// A view of a file's first bytes.
fn open_view<D: Disk>(disk: &mut D, path: &Path, len: u64) -> Result<D::View, StoreError>
    ensures view { IfOk result (λ view. D.View.viewed view ≡ opened path.now len (D.seen disk.old).told) }
    ensures told { (D.seen disk.new).told ≡ (D.seen disk.old).told }
    ensures refused { IfErr result (IsRefused (λ s. no_view path.now len s ≡ None) (D.seen disk.old) (D.seen disk.new)) }
    ensures counts { SeenStay (D.seen disk.old) (D.seen disk.new) }
{
    match disk.open(path, len) {
        Ok(view) => Ok(view),
        Err(error) => Err(store_refused(DiskCall::Open, path, error)),
    }
}

// Views of `CURRENT` and of the manifest.
struct Pair<V> {
    current: V,
    manifest: V,
}

fn open_pair<D: Disk>(disk: &mut D, home: &Folder) -> Result<Pair<D::View>, StoreError>
    ensures current { IfOk result (λ pair. D.View.viewed pair.current ≡ opened (current_path home.now) 16 (D.seen disk.old).told) }
    ensures manifest { IfOk result (λ pair. D.View.viewed pair.manifest ≡ opened (manifest_path home.now) 13 (D.seen disk.old).told) }
    ensures told { (D.seen disk.new).told ≡ (D.seen disk.old).told }
    ensures refused { IfErr result (IsRefused (HasPair home.now) (D.seen disk.old) (D.seen disk.new)) }
    ensures counts { SeenStay (D.seen disk.old) (D.seen disk.new) }
{
    let current = open_view(disk, &home.file(&FileName::Current), CURRENT_LEN)?;
    match open_view(
        disk,
        &home.file(&FileName::Manifest(MANIFEST)),
        MANIFEST_LEN,
    ) {
        Ok(manifest) => Ok(Pair { current, manifest }),
        Err(why) => {
            disk.close(current);
            Err(why)
        }
    }
}

// Views of the three files, or of two where the log has no bytes.
pub(crate) fn open_files<D: Disk>(
    disk: &mut D,
    home: &Folder,
    log: &Path,
    len: u64,
) -> Result<PlainFiles<D::View>, StoreError>
    ensures log { IfOk result (λ files. option_map (λ file. D.View.viewed file.view) files.log ≡
        where_any len (opened log.now len (D.seen disk.old).told)) }
    ensures log_number { IfOk result (λ files. option_map (λ file. file.number) files.log ≡ where_any len 2) }
    ensures current { IfOk result (λ files. D.View.viewed files.current ≡ opened (current_path home.now) 16 (D.seen disk.old).told) }
    ensures manifest { IfOk result (λ files. D.View.viewed files.manifest.view ≡ opened
        (manifest_path home.now) 13 (D.seen disk.old).told) }
    ensures manifest_number { IfOk result (λ files. files.manifest.number ≡ 1) }
    ensures told { (D.seen disk.new).told ≡ (D.seen disk.old).told }
    ensures refused { IfErr result (IsRefused (HasViews home.now log.now len) (D.seen disk.old) (D.seen disk.new)) }
    ensures counts { SeenStay (D.seen disk.old) (D.seen disk.new) }
{
    if len == 0 {
        let pair = open_pair(disk, home)?;
        return Ok(plain_files(None, pair));
    }
    let view = open_view(disk, log, len)?;
    match open_pair(disk, home) {
        Ok(pair) => Ok(plain_files(Some(PlainFile { number: LOG, view }), pair)),
        Err(why) => {
            disk.close(view);
            Err(why)
        }
    }
}

fn plain_files<V>(log: Option<PlainFile<V>>, pair: Pair<V>) -> PlainFiles<V>
    ensures { result ≡ record { log = log; current = pair.current; manifest = record { number = 1; view = pair.manifest } } }
{
    let Pair { current, manifest } = pair;
    PlainFiles {
        log,
        current,
        manifest: PlainFile {
            number: MANIFEST,
            view: manifest,
        },
    }
}

// Takes the log's view back, where there is one.
fn close_log<D: Disk>(disk: &mut D, log: Option<PlainFile<D::View>>)
    ensures told { (D.seen disk.new).told ≡ (D.seen disk.old).told }
    ensures faults { 0 < faults_of (log_views (option_map (λ file. D.View.viewed file.view) log))
        → Rose (D.seen disk.old).faults (D.seen disk.new).faults }
    ensures counts { SeenStay (D.seen disk.old) (D.seen disk.new) }
{
    match log {
        Some(file) => disk.close(file.view),
        None => {}
    }
}

// Takes the views back. One that had a fault raises the disk's count.
pub(crate) fn close_files<D: Disk>(disk: &mut D, files: PlainFiles<D::View>)
    ensures told { (D.seen disk.new).told ≡ (D.seen disk.old).told }
    ensures faults { 0 < faults_of (views_of D.View.viewed files)
        → Rose (D.seen disk.old).faults (D.seen disk.new).faults }
    ensures counts { SeenStay (D.seen disk.old) (D.seen disk.new) }
{
    let PlainFiles {
        log,
        current,
        manifest,
    } = files;
    close_log(disk, log);
    disk.close(current);
    disk.close(manifest.view);
}
