//! The logs of a folder.
ghost use Rattle.std.specs.Prelude.{◌≡◌, ◌+◌, ◌^◌, ◌<◌, ◌≤◌, Bool, Some, None, Ok, [], OnOk, IfOk, IfErr, IfSome, IsTrue, length, if◌then◌else◌, map};
ghost use Rattle.std.specs.FinMap as finmap;
ghost use Rattle.lsm_names.specs.FileNames.{is_file_number};
ghost use Rattle.lsm_disk.specs.State.{state_of, file_now, bytes_of};
ghost use Rattle.lsm_folder.specs.Files.{file_at};
ghost use Rattle.lsm_names.specs.declared.file_names.FileName.TheVariants.{Log};
ghost use Rattle.lsm_folder.specs.Logs.{logs_of, log_of, batches_of, all_batches};
ghost use Rattle.lsm_folder.specs.Names.{name_of};
ghost use Rattle.lsm_recover.specs.Answers.{files_now};
ghost use Rattle.lsm_recover.specs.Causes.{HasFolderCause, wal_error};
ghost use Rattle.lsm_recover.specs.Logs.{AddsRows, AnswersReplay, AnswersLog, IsNotTaken, hindering};
ghost use Rattle.lsm_recover.specs.Listed.{IsListing};

use crate::errors::{FolderError, error_by};
use crate::listed::next_log;
use crate::opening::{file_path, open_whole};
use crate::rows::push_batches;
use lsm_disk::{Disk, Entry};
use lsm_names::{FileName, Path};
use lsm_rows::Rows;
use lsm_wal::{Batches, WalWhy, read_wal};
use std::alloc::Global;

// What a log was read to, apart from its view.
#[derive(Drop)]
struct Taken {
    batches: Batches,
    last: u64,
    torn: Option<u64>,
}

// Adds the rows of all logs from a number on, whose first batch comes behind a sequence, and gives
// the last sequence.
pub(crate) fn read_logs<D: Disk>(
    alloc: Global,
    disk: &mut D,
    dir: &Path,
    entries: &[Entry],
    log: u64,
    last: u64,
    rows: &mut Rows,
) -> Result<u64, FolderError>
    requires room { length dir.now + 30 ≤ 160 }
    requires small { last < 2 ^ 56 }
    ensures told { (D.seen disk.new).told ≡ (D.seen disk.old).told }
    ensures answer { IfSome (D.seen disk.old).told (λ story. IsListing dir.now story entries.now
        → AnswersReplay last (all_batches (last + 1) (finmap.entries (logs_of log (files_now dir.now story)))) (λ _. Ok [])
        rows.old rows.new result) }
    ensures cause { HasFolderCause dir.now (D.seen disk.old) (D.seen disk.new) result }
{
    let _front = dir.as_bytes();
    let mut least = log;
    let mut last = last;
    while let Some(number) = next_log(least, entries) {
        least = number + 1;
        let is_last = next_log(least, entries).is_none();
        last = read_log(alloc, disk, dir, number, last, is_last, rows)?;
    }
    Ok(last)
}

// Adds the rows of one log, whose first batch comes behind a sequence, and gives its last sequence.
fn read_log<D: Disk>(
    alloc: Global,
    disk: &mut D,
    dir: &Path,
    number: u64,
    last: u64,
    is_last: bool,
    rows: &mut Rows,
) -> Result<u64, FolderError>
    requires room { length dir.now + 30 ≤ 160 }
    requires number { IsTrue (is_file_number number) }
    ensures told { (D.seen disk.new).told ≡ (D.seen disk.old).told }
    ensures answer { IfSome (D.seen disk.old).told (λ story. last < 2 ^ 56
        → AnswersLog (file_at (files_now dir.now story) (Log number))
        (λ text. batches_of is_last (last + 1) number (log_of text)) last rows.old rows.new result) }
    ensures cause { HasFolderCause dir.now (D.seen disk.old) (D.seen disk.new) result }
{
    let name = FileName::Log(number);
    let path = file_path(dir, name);
    match open_whole(disk, &path) {
        Ok(view) => match read_wal(alloc, view, last.saturating_add(1)) {
            Ok(log) => {
                disk.close(log.view);
                let taken = Taken {
                    batches: log.batches,
                    last: log.last,
                    torn: log.torn,
                };
                take_log(alloc, name, is_last, last, taken, rows)
            }
            Err(error) => {
                disk.close(error.view);
                Err(error_of(name, error.why))
            }
        },
        Err(refused) => Err(error_by(FolderError::Missing { name }, refused)),
    }
}

// Adds the rows of the batches that a log was read to, which come behind a sequence, unless its
// torn end hinders.
fn take_log(
    alloc: Global,
    name: FileName,
    is_last: bool,
    last: u64,
    log: Taken,
    rows: &mut Rows,
) -> Result<u64, FolderError>
    ensures taken { IfOk result (λ found. (hindering is_last log.torn ≡ None) × (found ≡ log.last)) }
    ensures rows { OnOk result (AddsRows last log.batches rows.old rows.new) }
    ensures refused { IfErr result (IsNotTaken name (hindering is_last log.torn)) }
{
    if let Some(place) = hindering(is_last, log.torn) {
        return Err(FolderError::TornLog { name, place });
    }
    push_batches(alloc, rows, last, log.batches.as_slice())?;
    Ok(log.last)
}

// The place of a torn end, which hinders in all logs but the last.
fn hindering(is_last: bool, torn: Option<u64>) -> Option<u64>
    ensures { result ≡ hindering is_last torn }
{
    if is_last {
        return None;
    }
    torn
}

// How a log's trouble is told of its folder.
fn error_of(name: FileName, why: WalWhy) -> FolderError
    ensures { result ≡ wal_error name why }
{
    match why {
        WalWhy::ReadFault => FolderError::DiskFault,
        WalWhy::Damaged { place, kept, found } => FolderError::Damaged {
            name,
            place,
            kept,
            found,
        },
        WalWhy::Malformed { place } => FolderError::Malformed { name, place },
        WalWhy::NoMemory => FolderError::NoMemory,
        WalWhy::BadBatch { place } => FolderError::Malformed { name, place },
        WalWhy::Gap { kept, found } => FolderError::Gap { name, kept, found },
    }
}
