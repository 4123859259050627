//! The opening of a store.
ghost use Rattle.std.specs.Prelude.{◌≡◌, ℕ, ◌+◌, ◌^◌, ◌<◌, Some, Ok, Err, IfOk, IfErr, MatchResult};
ghost use Rattle.std.specs.FinMap as finmap;
ghost use Rattle.lsm_disk.specs.State.{Story};
ghost use Rattle.lsm_refine.specs.Openings.{HasOpened, LosesNothing};
ghost use Rattle.lsm_store.specs.Opening.{Begins, IsBegunBy, IsSoundBegun, OpenedBy, Opens, begun_store, new_begun, open_error, own_error};

use crate::closing::OpenRefusal;
use crate::opening_new::{NewParts, make_anew, make_beside, refusal};
use crate::refused::error_of;
use crate::showing::folder_error;
use crate::store::Store;
use lsm_core::{Catalog, OpenTables};
use lsm_dest::Restoring;
use lsm_disk::{Disk, DiskCall};
use lsm_flush::Frozen;
use lsm_manifest::Manifest;
use lsm_memtable::MemTable;
use lsm_model::StoreError;
use lsm_names::{FileName, Folder, Session};
use lsm_opening::{OpenError, Recovered, recover};
use lsm_recover::{FolderError, Site, find_site};
use lsm_version::Version;
use lsm_wal::Wal;
use std::alloc::Global;

impl<D: Disk> Store<D> {
    /// Opens the store of a folder, or makes a new one where nothing has the folder's name or a
    /// folder stands there in which no store was begun. The session is one that no other opening
    /// had. What the folder stood for is in tables then, and no row in memory.
    ///
    /// It is refused where the folder has no `CURRENT` but other files of a store, where it can't
    /// be read, where the file numbers don't suffice or tables would be too many, where memory is
    /// wanting, and where the disk fails or somebody else changes it. Whatever the answer, nothing
    /// that was written is lost, and the opening may be tried again.
    pub fn open(
        alloc: Global,
        disk: D,
        dir: &Folder,
        session: Session,
    ) -> Result<Store<D>, OpenRefusal<D>>
        // Where the disk tells, the store is good for whatever state was found, a fresh folder has
        // a new store, and no image on the way loses anything.
        ensures opened { IfOk result (λ store. (before : Story) → (D.seen disk).told ≡ Some before
            → HasOpened before dir.now store) }

        // Nor does one on the way of a refused opening.
        ensures moments { IfErr result (λ refused. (before : Story) → (D.seen disk).told ≡ Some before
            → LosesNothing before dir.now (D.seen refused.disk).told) }

        ensures causes { MatchResult result
            (λ store. OpenedBy {T = Unit {0}} dir.now (D.seen disk) store.disk (Ok tt))
            (λ refused. OpenedBy {T = Unit {0}} dir.now (D.seen disk) (D.seen refused.disk) (Err refused.why)) }
    {
        let mut disk = disk;
        let _name = dir.as_bytes();
        let Ok(tables) = OpenTables::new(alloc) else {
            return Err(OpenRefusal {
                why: StoreError::NoMemory,
                disk,
            });
        };
        match begin(alloc, &mut disk, dir, session) {
            Ok(begun) => Ok(store_of(alloc, disk, dir, session, tables, begun)),
            Err(why) => Err(OpenRefusal { why, disk }),
        }
    }
}

/// What a store begins with: its live tables, the names of its files, its manifest, its empty log
/// with its number, and the last sequence. The next file number comes behind the log's.
#[derive(Drop)]
pub(crate) struct Begun {
    pub(crate) version: Version,
    pub(crate) known: Vec<FileName>,
    pub(crate) manifest: Manifest,
    pub(crate) wal: Wal,
    pub(crate) log: u64,
    pub(crate) sequence: u64,
}

// The store of what it begins with. No table is open.
fn store_of<D: Disk>(
    alloc: Global,
    disk: D,
    home: &Folder,
    session: Session,
    tables: OpenTables<D::View>,
    begun: Begun,
) -> Store<D>
    requires sound { IsSoundBegun home.now begun }
    requires none { tables ≡ finmap.empty }
    ensures { result ≡ begun_store (D.seen disk) home.now begun }
{
    let Begun {
        version,
        known,
        manifest,
        wal,
        log,
        sequence,
    } = begun;
    Store {
        alloc,
        disk,
        home: *home,
        session,
        wal,
        log,
        older: None,
        older_len: 0,
        active: MemTable::new(alloc),
        frozen: Frozen::new(MemTable::new(alloc)),
        sequence,
        next: log + 1,
        known,
        halt: None,
        manifest,
        catalog: Catalog::new(alloc, version, tables, log, sequence),
        restoring: Restoring::new(alloc),
    }
}

// Brings the folder to where a store may begin. All names are synced first, so that each image of
// the disk has the names that are read.
fn begin<D: Disk>(
    alloc: Global,
    disk: &mut D,
    dir: &Folder,
    session: Session,
) -> Result<Begun, StoreError>
    ensures { Opens dir.now (D.seen disk.old) (D.seen disk.new) result }
{
    let _name = dir.as_bytes();
    match disk.sync_names() {
        Ok(()) => begin_synced(alloc, disk, dir, session),
        Err(why) => Err(error_of(&refusal(DiskCall::SyncNames, &dir.path(), why))),
    }
}

// Looks what stands under the folder's name, and makes a new store or goes on with the old one. All
// names have been synced.
fn begin_synced<D: Disk>(
    alloc: Global,
    disk: &mut D,
    dir: &Folder,
    session: Session,
) -> Result<Begun, StoreError>
    ensures { Begins dir.now (D.seen disk.old) (D.seen disk.new) result }
{
    let _name = dir.as_bytes();
    match find_site(alloc, disk, &dir.path()) {
        Ok(Site::Nothing) => match make_anew(alloc, disk, dir) {
            Ok(parts) => Ok(new_begun(alloc, parts, 1)),
            Err(why) => Err(why),
        },
        Ok(Site::Fresh { names, next }) => match make_beside(alloc, disk, dir, &names, next) {
            Ok(parts) => Ok(new_begun(alloc, parts, next)),
            Err(why) => Err(why),
        },
        Ok(Site::Store) => match recover(alloc, disk, dir, session) {
            Ok(recovered) => Ok(begun_by(recovered)),
            Err(why) => Err(open_error(why)),
        },
        Err(why) => Err(own_error(why)),
    }
}

// What a new store begins with, whose manifest has this number.
fn new_begun(alloc: Global, parts: NewParts, number: u64) -> Begun
    requires { number + 2 < 2 ^ 56 }
    ensures { result ≡ new_begun parts number }
{
    Begun {
        version: Version::empty(alloc),
        known: parts.known,
        manifest: parts.manifest,
        wal: parts.wal,
        log: number + 1,
        sequence: 0,
    }
}

// What a store begins with that goes on with an old one's files.
fn begun_by(recovered: Recovered) -> Begun
    ensures { IsBegunBy recovered result }
{
    let Recovered {
        version,
        names,
        manifest,
        wal,
        log,
        sequence,
    } = recovered;
    Begun {
        version,
        known: names.into_vec(),
        manifest,
        wal,
        log,
        sequence,
    }
}

// How a store tells why its folder can't be opened.
fn open_error(why: OpenError) -> StoreError
    ensures { result ≡ open_error why }
{
    match why {
        OpenError::Folder(why) => own_error(why),
        OpenError::Disk(refused) => error_of(&refused),
        OpenError::TablesFull { live, adding } => StoreError::TablesFull { live, adding },
        OpenError::NumbersFull { next } => StoreError::NumbersFull { next },
    }
}

// How a store tells why its own folder can't be read: as that of any other, but that a folder that
// stood there and is gone has changed.
fn own_error(why: FolderError) -> StoreError
    ensures { result ≡ own_error why }
{
    match why {
        FolderError::NoFolder { dir } => StoreError::Changed {
            call: DiskCall::List,
            path: dir,
        },
        why => folder_error(why),
    }
}
