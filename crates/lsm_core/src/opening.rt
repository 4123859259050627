//! Opening live tables over the files of a store's folder.
ghost use Rattle.std.specs.Prelude.{◌≡◌, true, Some, None, if◌then◌else◌, IfOk};
ghost use Rattle.lsm_names.specs.FileNames.{is_file_number};
ghost use Rattle.lsm_names.specs.declared.file_names.FileName.TheVariants.{Table as Named};
ghost use Rattle.lsm_disk.specs.Dest.{path_in};
ghost use Rattle.lsm_core.specs.Catalogs.{IsWholeView};
ghost use Rattle.lsm_disk.specs.Viewed.{opened};
ghost use Rattle.lsm_core.specs.Reading.{Asks, HasFile, HoldsTable, IsOpened, IsTableOf, IsNamed, ShowsTable, file_error, read_error};

use lsm_disk::{Disk, DiskError};
use lsm_model::StoreError;
use lsm_names::{FileName, Folder, Path, is_file_number};
use lsm_table::{Table, TableError, TableFault};
use lsm_version::Placed;
use std::alloc::Global;

// How many bytes before a table's end its properties begin: they are stored in 41 bytes, and the
// footer has 36.
const BEFORE_END: u64 = 77;

/// The store's answer where a table can't be read.
pub(crate) fn read_error(name: FileName, fault: TableFault) -> StoreError
    ensures { result ≡ read_error name fault }
{
    match fault {
        TableFault::ReadFault => StoreError::DiskFault,
        TableFault::Damaged { place, kept, found } => StoreError::Damaged {
            name,
            place,
            kept,
            found,
        },
        TableFault::Malformed { place } => StoreError::Malformed { name, place },
        TableFault::NoMemory => StoreError::NoMemory,
    }
}

// The store's answer where a disk call refuses a file that should have so many bytes.
fn file_error(name: FileName, len: u64, why: DiskError) -> StoreError
    ensures { result ≡ file_error name len why }
{
    match why {
        DiskError::Fault => StoreError::DiskFault,
        DiskError::Short { found } => StoreError::Short {
            name,
            kept: len,
            found,
        },
        DiskError::NoMemory => StoreError::NoMemory,
        DiskError::NotThere | DiskError::Exists | DiskError::NoLinks | DiskError::NotEmpty => {
            StoreError::Missing { name }
        }
    }
}

// Refuses a file that hasn't so many bytes.
#[tactic(auto, unfolding(crate::specs::Reading::IsUnread, crate::specs::Reading::IsOutside))]
fn test_size<D: Disk>(disk: &mut D, path: &Path, name: FileName, len: u64) -> Result<(), StoreError>
    ensures { Asks name (HasFile path.now len) (D.seen disk.old) (D.seen disk.new) result }
{
    match disk.size(path) {
        Ok(found) => {
            if found != len {
                return Err(StoreError::Short {
                    name,
                    kept: len,
                    found,
                });
            }
            Ok(())
        }
        Err(why) => Err(file_error(name, len, why)),
    }
}

// A view of a file's first bytes, so many.
#[tactic(auto, unfolding(crate::specs::Reading::IsUnread, crate::specs::Reading::IsOutside))]
fn open_front<D: Disk>(
    disk: &mut D,
    path: &Path,
    name: FileName,
    len: u64,
) -> Result<D::View, StoreError>
    ensures asks { Asks name (HasFile path.now len) (D.seen disk.old) (D.seen disk.new) result }
    ensures opened { IfOk result (λ view. IsOpened path.now len (D.seen disk.old) (D.View.viewed view)) }
{
    match disk.open(path, len) {
        Ok(view) => Ok(view),
        Err(why) => Err(file_error(name, len, why)),
    }
}

// A view of a file that has so many bytes.
fn open_view<D: Disk>(
    disk: &mut D,
    path: &Path,
    name: FileName,
    len: u64,
) -> Result<D::View, StoreError>
    ensures asks { Asks name (HasFile path.now len) (D.seen disk.old) (D.seen disk.new) result }
    ensures opened { IfOk result (λ view. IsOpened path.now len (D.seen disk.old) (D.View.viewed view)) }
{
    match test_size(disk, path, name, len) {
        Ok(()) => open_front(disk, path, name, len),
        Err(refused) => Err(refused),
    }
}

// The table, where it has this number and the session that the version says. Else its view is
// closed: the properties are another table's.
fn take_named<D: Disk>(
    disk: &mut D,
    table: Table<D::View>,
    number: u64,
    placed: &Placed,
) -> Result<Table<D::View>, StoreError>
    ensures asks { Asks (Named number) (λ _. IsNamed number placed.now.info.session table) (D.seen disk.old) (D.seen
        disk.new) result }
    ensures ok { IfOk result (λ taken. (taken ≡ table) × (table.properties.number ≡ number)) }
{
    let found = table.properties();
    if found.number == number && found.session == placed.info.session {
        return Ok(table);
    }
    disk.close(table.into_view());
    Err(StoreError::Malformed {
        name: FileName::Table(number),
        place: placed.info.size.saturating_sub(BEFORE_END),
    })
}

// The table that a view shows. Where it is refused the view is closed.
fn read_table<D: Disk>(
    alloc: Global,
    disk: &mut D,
    view: D::View,
    number: u64,
    placed: &Placed,
) -> Result<Table<D::View>, StoreError>
    requires whole { IsWholeView (D.View.viewed view) }
    ensures asks { Asks (Named number) (λ _. ShowsTable (D.View.viewed view) number placed.now.info.session)
        (D.seen disk.old) (D.seen disk.new) result }
    ensures ok { IfOk result (IsTableOf (D.View.viewed view).bytes number) }
{
    match Table::open(alloc, view) {
        Ok(table) => take_named(disk, table, number, placed),
        Err(TableError { why, view }) => {
            disk.close(view);
            Err(read_error(FileName::Table(number), why))
        }
    }
}

// The path of a table's file, where the number is a file's.
fn table_path(home: &Folder, number: u64) -> Option<Path>
    ensures { result ≡ (if is_file_number number then Some (path_in home.now (Named number)) else None) }
{
    if !is_file_number(number) {
        return None;
    }
    Some(home.file(&FileName::Table(number)))
}

/// Opens a live table, as the version places it. No view stays open where it is refused.
pub(crate) fn open_table<D: Disk>(
    alloc: Global,
    disk: &mut D,
    home: &Folder,
    number: u64,
    placed: &Placed,
) -> Result<Table<D::View>, StoreError>
    ensures asks { Asks (Named number) (HoldsTable home.now number placed.now) (D.seen disk.old) (D.seen disk.new) result }
    ensures ok { IfOk result (IsTableOf (opened (path_in home.now (Named number)) placed.now.info.size (D.seen
        disk.old).told).bytes number) }
{
    let name = FileName::Table(number);
    let Some(path) = table_path(home, number) else {
        return Err(StoreError::Malformed { name, place: 0 });
    };
    match open_view(disk, &path, name, placed.info.size) {
        Ok(view) => read_table(alloc, disk, view, number, placed),
        Err(refused) => Err(refused),
    }
}
