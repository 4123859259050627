//! The rows of logs as a new table.
ghost use Rattle.std.specs.Prelude.{◌≡◌, ◌≤◌, ◌<◌, ◌++◌, [], ℕ, List, Some, length, IsTrue, IfOk, IfErr};
ghost use Rattle.lsm_names.specs.Numbers.{is_file_number};
ghost use Rattle.lsm_names.specs.declared.file_names.FileName.TheVariants.{Table as TableName};
ghost use Rattle.lsm_disk.specs.State.{Story};
ghost use Rattle.lsm_disk.specs.Answers.{HasDiskCause};
ghost use Rattle.lsm_disk.specs.Dest.{path_in};
ghost use Rattle.lsm_memtable.specs.Flushes.{bytes_of};
ghost use Rattle.lsm_memtable.specs.Newest.{newest_each};
ghost use Rattle.lsm_opening.specs.RowFiles.{WritesFile, HasSoFar, IsSealedAs, WhereOk};
ghost use Rattle.lsm_opening.specs.RowTables.{IsEndOf, IsStepped, IsSameFlush, HasRowTable, flushed_text, bytes_with};

use lsm_bytes::NoMemory;
use lsm_disk::{Disk, DiskCall, DiskError, DiskRefusal, Halt};
use lsm_memtable::{Flush, FlushPiece, MemTable};
use lsm_names::{FileName, Folder, Path, Session};
use lsm_rows::Row;
use lsm_table::Finished;
use lsm_version::TableInfo;
use std::alloc::Global;

// A disk call that was refused.
fn refusal(call: DiskCall, path: &Path, why: DiskError) -> DiskRefusal
    ensures why { result.why ≡ why }
{
    DiskRefusal {
        at: Halt { call, path: *path },
        why,
    }
}

/// Writes rows, by ascending sequences, as the table of this number in a folder: of each key the
/// newest. The table's file is made, filled and synced, and so is its name. It is refused where the
/// disk fails, and where memory is wanting or the rows are more than one table takes.
pub fn write_rows<D: Disk>(
    alloc: Global,
    disk: &mut D,
    dir: &Folder,
    rows: &[Row],
    number: u64,
    session: Session,
) -> Result<TableInfo, DiskRefusal>
    requires some { 1 ≤ length rows.now }
    requires number { IsTrue (is_file_number number) }
    ensures table { IfOk result (HasRowTable dir.now rows.now number (D.seen disk.old).told (D.seen disk.new).told) }

    // A refusal has made and written the file, if anything.
    ensures stopped { IfErr result (λ _. (start : Story) → (D.seen disk.old).told ≡ Some start
        → WritesFile (path_in dir.now (TableName number)) start (D.seen disk.new).told (λ _. Unit {0})) }
    ensures cause { HasDiskCause (D.seen disk.old) (D.seen disk.new) result }
{
    let path = dir.file(&FileName::Table(number));
    let _session = session.as_bytes();
    match MemTable::of_rows(alloc, rows) {
        Ok(table) => {
            let mut flush = Flush::new(alloc, table, number, session);
            match write_table(disk, &path, &mut flush) {
                Ok(last) => Ok(TableInfo {
                    number,
                    session,
                    size: last.size,
                    smallest: last.smallest,
                    largest: last.largest,
                }),
                Err(refused) => Err(refused),
            }
        }
        Err(NoMemory) => Err(refusal(DiskCall::Create, &path, DiskError::NoMemory)),
    }
}

// Writes the table of a flush, whose file is new.
fn write_table<D: Disk>(
    disk: &mut D,
    path: &Path,
    flush: &mut Flush,
) -> Result<Finished, DiskRefusal>
    requires new { flush.old.taken ≡ 0 }
    requires left { flush.old.taken < length (newest_each flush.old.rows) }
    ensures went { (start : Story) → (D.seen disk.old).told ≡ Some start → WritesFile path.now start (D.seen disk.new).told
        (WhereOk (λ _. IsSealedAs path.now start (flushed_text flush.old)) result) }
    ensures last { IfOk result (IsEndOf flush.old) }
    ensures cause { HasDiskCause (D.seen disk.old) (D.seen disk.new) result }
{
    if let Err(why) = disk.create(path) {
        return Err(refusal(DiskCall::Create, path, why));
    }
    match write_pieces(disk, path, flush) {
        Ok(last) => match seal(disk, path) {
            Ok(()) => Ok(last),
            Err(refused) => Err(refused),
        },
        Err(refused) => Err(refused),
    }
}

// Adds all pieces of a flush's table at the end of its file.
fn write_pieces<D: Disk>(
    disk: &mut D,
    path: &Path,
    flush: &mut Flush,
) -> Result<Finished, DiskRefusal>
    requires new { flush.old.taken ≡ 0 }
    requires left { flush.old.taken < length (newest_each flush.old.rows) }
    ensures went { (start : Story) → WritesFile path.now start (D.seen disk.old).told (HasSoFar path.now start [])
        → WritesFile path.now start (D.seen disk.new).told
        (WhereOk (λ _. HasSoFar path.now start (flushed_text flush.old)) result) }
    ensures last { IfOk result (IsEndOf flush.old) }
    ensures cause { HasDiskCause (D.seen disk.old) (D.seen disk.new) result }
{
    loop {
        match write_piece(disk, path, flush) {
            Ok(Some(last)) => return Ok(last),
            Ok(None) => {}
            Err(refused) => return Err(refused),
        }
    }
}

// Adds the next piece of a flush's table at the end of its file, and gives what is said of the table
// where it was the last one.
fn write_piece<D: Disk>(
    disk: &mut D,
    path: &Path,
    flush: &mut Flush,
) -> Result<Option<Finished>, DiskRefusal>
    requires left { flush.old.taken < length (newest_each flush.old.rows) }
    ensures went { (start : Story) → WritesFile path.now start (D.seen disk.old).told
        (HasSoFar path.now start (bytes_of (newest_each flush.old.rows) flush.old.taken))
        → WritesFile path.now start (D.seen disk.new).told
        (WhereOk (λ last. HasSoFar path.now start (bytes_with flush.old flush.new last)) result) }
    ensures stepped { IfOk result (IsStepped flush.old flush.new) }
    ensures same { IsSameFlush flush.old flush.new }
    ensures cause { HasDiskCause (D.seen disk.old) (D.seen disk.new) result }
{
    match flush.step() {
        Ok(FlushPiece::Piece(piece)) => match append(disk, path, piece.as_slice()) {
            Ok(()) => Ok(None),
            Err(refused) => Err(refused),
        },
        Ok(FlushPiece::Last(last)) => match append(disk, path, last.tail.as_slice()) {
            Ok(()) => Ok(Some(last)),
            Err(refused) => Err(refused),
        },
        Err(NoMemory) => Err(refusal(DiskCall::Append, path, DiskError::NoMemory)),
    }
}

// Adds bytes at a file's end.
fn append<D: Disk>(disk: &mut D, path: &Path, bytes: &[u8]) -> Result<(), DiskRefusal>
    ensures went { (start : Story) (before : List ℕ) → WritesFile path.now start (D.seen disk.old).told
        (HasSoFar path.now start before) → WritesFile path.now start (D.seen disk.new).told
        (WhereOk (λ _. HasSoFar path.now start (before ++ bytes.now)) result) }
    ensures cause { HasDiskCause (D.seen disk.old) (D.seen disk.new) result }
{
    match disk.append(path, bytes) {
        Ok(()) => Ok(()),
        Err(why) => Err(refusal(DiskCall::Append, path, why)),
    }
}

// The file and its name outlive a crash.
fn seal<D: Disk>(disk: &mut D, path: &Path) -> Result<(), DiskRefusal>
    ensures went { (start : Story) (bytes : List ℕ) → WritesFile path.now start (D.seen disk.old).told
        (HasSoFar path.now start bytes) → WritesFile path.now start (D.seen disk.new).told
        (WhereOk (λ _. IsSealedAs path.now start bytes) result) }
    ensures cause { HasDiskCause (D.seen disk.old) (D.seen disk.new) result }
{
    if let Err(why) = disk.sync(path) {
        return Err(refusal(DiskCall::Sync, path, why));
    }
    if let Err(why) = disk.sync_names() {
        return Err(refusal(DiskCall::SyncNames, path, why));
    }
    Ok(())
}
