//! Reading a folder from a disk.
ghost use Rattle.std.specs.Prelude.{◌≡◌, ◌+◌, ◌≤◌, IfOk, IfErr, IfSome, length};
ghost use Rattle.lsm_folder.specs.Reading.{reading};
ghost use Rattle.lsm_recover.specs.declared.errors.FolderError.TheVariants.{NoMemory};
ghost use Rattle.lsm_recover.specs.Answers.{place_now};
ghost use Rattle.lsm_recover.specs.Causes.{HasFolderCause};
ghost use Rattle.lsm_recover.specs.Gathered.{with_rows};
ghost use Rattle.lsm_recover.specs.Listed.{names_in, next_number};
ghost use Rattle.lsm_recover.specs.Shown.{AnswersShown, IsOfFolder};

use crate::errors::FolderError;
use crate::head::{Head, read_head};
use crate::known::Known;
use crate::listed::{names_in, next_number};
use crate::logs::read_logs;
use crate::newest::NewestRows;
use crate::tables::read_tables;
use lsm_disk::Disk;
use lsm_names::Path;
use lsm_rows::{Pairs, Rows};
use lsm_version::Version;
use std::alloc::Global;

/// What a folder stands for.
#[derive(Drop)]
pub struct Found {
    /// The pairs of all keys.
    pub contents: Pairs,
    /// The last sequence, 0 where nothing was written.
    pub sequence: u64,
    /// The live tables.
    pub version: Version,
    /// The number from which on logs are needed.
    pub log: u64,
    /// The next file number: the manifest's, or one past the greatest number among the names of the
    /// folder's files.
    pub next: u64,
    /// The names of a store's files that stand in the folder, in the order of their bytes.
    pub names: Known,
}

/// Reads a store's folder, whose path has at most 130 bytes, and writes nothing. `CURRENT` is read
/// first, then the manifest that it names, then each table of the version by its number, one data
/// block at a time, and then each log by its number; the first trouble is answered. Views are
/// closed again. Memory grows with the keys, with their newest values, with the rows of the logs
/// and with the index of one table.
pub fn read_folder<D: Disk>(alloc: Global, disk: &mut D, dir: &Path) -> Result<Found, FolderError>
    requires { length dir.now + 30 ≤ 160 }
    ensures told { (D.seen disk.new).told ≡ (D.seen disk.old).told }

    // Where the disk tells, the answer is what the folder reads as, or its first refusal, and it
    // has not changed.
    ensures answer { IfSome (D.seen disk.old).told (λ story. AnswersShown (reading (place_now dir.now story)) result) }

    // What else is found is what the folder's manifest and its listing say.
    ensures found { IfOk result (λ found. IfSome (D.seen disk.old).told (λ story.
        IsOfFolder dir.now story found.version found.log found.next found.names)) }

    // On every disk a fault raised the count of faults, and what isn't there or has changed raised
    // that of refusals.
    ensures cause { HasFolderCause dir.now (D.seen disk.old) (D.seen disk.new) result }
{
    let head = read_head(alloc, disk, dir)?;
    let mut newest = NewestRows::new(alloc);
    read_tables(alloc, disk, dir, &head.stated.version, &mut newest)?;
    let mut rows = Rows::new(alloc);
    let sequence = read_logs(
        alloc,
        disk,
        dir,
        head.listing.as_slice(),
        head.stated.log,
        head.stated.last,
        &mut rows,
    )?;
    found_by(alloc, head, newest, rows, sequence)
}

// What was found, from the newest rows of the tables and the rows of the logs behind them.
fn found_by(
    alloc: Global,
    head: Head,
    newest: NewestRows,
    rows: Rows,
    sequence: u64,
) -> Result<Found, FolderError>
    ensures contents { IfOk result (λ found. found.contents ≡ (with_rows newest rows).contents) }
    ensures sequence { IfOk result (λ found. found.sequence ≡ sequence) }
    ensures version { IfOk result (λ found. found.version ≡ head.stated.version) }
    ensures log { IfOk result (λ found. found.log ≡ head.stated.log) }
    ensures next { IfOk result (λ found. found.next ≡ next_number head.stated.next head.listing) }
    ensures names { IfOk result (λ found. found.names ≡ names_in head.listing) }
    ensures refused { IfErr result (λ e. e ≡ NoMemory) }
{
    let mut newest = newest;
    newest.add_all(rows.as_slice())?;
    let entries = head.listing.as_slice();
    let names = names_in(alloc, entries)?;
    let next = next_number(head.stated.next, entries);
    Ok(Found {
        contents: newest.into_contents(),
        sequence,
        version: head.stated.version,
        log: head.stated.log,
        next,
        names,
    })
}
