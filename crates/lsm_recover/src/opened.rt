//! Opening a folder on a disk: what a store needs of it to go on.
ghost use Rattle.std.specs.Prelude.{◌≡◌, ◌+◌, ◌≤◌, Ok, [], All, IfOk, IfErr, IfSome, length};
ghost use Rattle.std.specs.FinMap as finmap;
ghost use Rattle.lsm_names.specs.FileNames.{IsFileName};
ghost use Rattle.lsm_recover.specs.Answers.{IsRefusedBy, files_now, place_now};
ghost use Rattle.lsm_recover.specs.Causes.{HasFolderCause};
ghost use Rattle.lsm_recover.specs.Head.{IsHead};
ghost use Rattle.lsm_recover.specs.Listed.{AreBefore, names_in};
ghost use Rattle.lsm_recover.specs.Opening.{AreOpenOn, IsOpenBehind, opening};
ghost use Rattle.lsm_recover.specs.Shown.{IsOfFolder};
ghost use Rattle.lsm_recover.specs.Stated.{AreSaid, IsSound};

use crate::errors::FolderError;
use crate::head::{Head, read_head};
use crate::known::Known;
use crate::listed::{names_in, next_number};
use crate::logs::read_logs;
use crate::open_tables::{close_tables, open_tables};
use lsm_disk::{Disk, View};
use lsm_names::Path;
use lsm_rows::Rows;
use lsm_table::Tables;
use lsm_version::Version;
use std::alloc::Global;

/// What an opened folder holds.
#[derive(Drop)]
pub struct Opened<V: View> {
    /// The live tables.
    pub version: Version,
    /// The rows of the logs, which the tables don't have, by their sequences.
    pub rows: Rows,
    /// The last sequence: that of the last row, or of the tables, and 0 where nothing was written.
    pub sequence: u64,
    /// The tables of the version, each open, by their numbers.
    pub tables: Tables<V>,
}

/// A folder that is open, and the numbers and names of its files.
#[derive(Drop)]
pub struct OpenedFolder<V: View> {
    pub opened: Opened<V>,
    /// The number from which on logs are needed.
    pub log: u64,
    /// The next file number: the manifest's, or one past the greatest number among the names of the
    /// folder's files.
    pub next: u64,
    /// The names of a store's files that stand in the folder, in the order of their bytes.
    pub names: Known,
}

/// Opens a store's folder, whose path has at most 130 bytes, and writes nothing. `CURRENT` is read
/// first, then the manifest that it names; then each table of the version is opened by its number,
/// of which the index, the properties and the footer are read; and then each log is read by its
/// number. The first trouble is answered, and views that were opened are closed again. No file is
/// held whole: memory grows with the indexes of the tables and with the rows of the logs.
pub fn open_folder<D: Disk>(
    alloc: Global,
    disk: &mut D,
    dir: &Path,
) -> Result<OpenedFolder<D::View>, FolderError>
    requires { length dir.now + 30 ≤ 160 }
    ensures told { (D.seen disk.new).told ≡ (D.seen disk.old).told }

    // Where the disk tells, the rows and the sequence are those that the folder opens to, or the
    // error is its first refusal.
    ensures opened { IfOk result (λ folder. IfSome (D.seen disk.old).told (λ story.
        opening (place_now dir.now story) ≡ Ok (record { sequence = folder.opened.sequence; rows = folder.opened.rows }))) }
    ensures refused { IfErr result (λ e. IfSome (D.seen disk.old).told (λ story.
        IsRefusedBy (opening (place_now dir.now story)) e)) }

    // Each table is open on its file, and what else is found is what the folder's manifest and its
    // listing say.
    ensures tables { IfOk result (λ folder. IfSome (D.seen disk.old).told (λ story.
        AreOpenOn (files_now dir.now story) (finmap.entries folder.opened.version) folder.opened.tables)) }
    ensures found { IfOk result (λ folder. IfSome (D.seen disk.old).told (λ story.
        IsOfFolder dir.now story folder.opened.version folder.log folder.next folder.names)) }

    // On every disk the tables are as edits may say them, the names are files', and the next number
    // is behind those of all names.
    ensures said { IfOk result (λ folder. AreSaid folder.opened.version) }
    ensures fit { IfOk result (λ folder. All IsFileName folder.names) }
    ensures behind { IfOk result (λ folder. AreBefore folder.next folder.names) }

    // On every disk a fault raised the count of faults, and what isn't there or has changed raised
    // that of refusals.
    ensures cause { HasFolderCause dir.now (D.seen disk.old) (D.seen disk.new) result }
{
    let head = read_head(alloc, disk, dir)?;
    let mut tables = Tables::new(alloc);
    match open_parts(alloc, disk, dir, &head, &mut tables) {
        Ok(parts) => {
            let next = next_number(head.stated.next, head.listing.as_slice());
            Ok(OpenedFolder {
                opened: Opened {
                    version: head.stated.version,
                    rows: parts.rows,
                    sequence: parts.sequence,
                    tables,
                },
                log: head.stated.log,
                next,
                names: parts.names,
            })
        }
        Err(error) => {
            close_tables(disk, tables);
            Err(error)
        }
    }
}

// What is read of a folder besides its head and its tables.
#[derive(Drop)]
struct Parts {
    rows: Rows,
    sequence: u64,
    names: Known,
}

// Opens the tables, reads the logs, and gathers the names. After a refusal tables may be left open.
fn open_parts<D: Disk>(
    alloc: Global,
    disk: &mut D,
    dir: &Path,
    head: &Head,
    tables: &mut Tables<D::View>,
) -> Result<Parts, FolderError>
    requires room { length dir.now + 30 ≤ 160 }
    requires sound { IsSound head.now.stated }
    ensures told { (D.seen disk.new).told ≡ (D.seen disk.old).told }
    ensures opened { IfOk result (λ parts. IfSome (D.seen disk.old).told (λ story. IsHead dir.now story head.now
        → opening (place_now dir.now story) ≡ Ok (record { sequence = parts.sequence; rows = parts.rows }))) }
    ensures tables { IfOk result (λ _. IfSome (D.seen disk.old).told (λ story.
        IsOpenBehind (files_now dir.now story) (finmap.entries head.now.stated.version) tables.old tables.new)) }
    ensures names { IfOk result (λ parts. parts.names ≡ names_in head.now.listing) }
    ensures refused { IfErr result (λ e. IfSome (D.seen disk.old).told (λ story. IsHead dir.now story head.now
        → IsRefusedBy (opening (place_now dir.now story)) e)) }
    ensures cause { HasFolderCause dir.now (D.seen disk.old) (D.seen disk.new) result }
{
    open_tables(alloc, disk, dir, &head.stated.version, tables)?;
    let mut rows = Rows::new(alloc);
    let entries = head.listing.as_slice();
    let sequence = read_logs(
        alloc,
        disk,
        dir,
        entries,
        head.stated.log,
        head.stated.last,
        &mut rows,
    )?;
    let names = names_in(alloc, entries)?;
    Ok(Parts {
        rows,
        sequence,
        names,
    })
}
