//! The file numbers that an opening draws, and how many tables there may be.
ghost use Rattle.std.specs.Prelude.{◌≡◌, ◌≤◌, [], ◌∷◌, IfOk, IfErr};
ghost use Rattle.lsm_recover.specs.Stated.{AreSaid};
ghost use Rattle.lsm_opening.specs.Numbers.{AreTablesBefore, IsBehindOne, IsDrawn, IsNotDrawn, tables_of};

use crate::errors::OpenError;
use crate::found::Found;
use lsm_rows::Rows;
use lsm_version::Version;

// One past the last file number that there is.
const NUMBER_END: u64 = (1 << 56) - 1;

// So many tables may be live.
const TABLE_LIMIT: usize = 4_096;

/// The numbers of an opening's files: the first of them, which is that of the table of the logs'
/// rows, if there is one, and those of the manifest and of the log.
#[derive(Clone, Copy)]
pub(crate) struct Numbers {
    pub(crate) first: u64,
    pub(crate) manifest: u64,
    pub(crate) log: u64,
}

// How many tables these rows make: one, where there are any.
fn tables_of(rows: &Rows) -> u32
    ensures tables { result ≡ tables_of rows.now }
    ensures one { result ≤ 1 }
{
    if rows.is_empty() { 0 } else { 1 }
}

// The number behind those of all tables, and 1 where there is none.
fn behind_tables(version: &Version) -> u64
    requires said { AreSaid version.now }
    ensures before { AreTablesBefore result version.now }
    ensures least { IsBehindOne result version.now }
{
    match version.tables().last_key_value() {
        Some((number, _)) => *number + 1,
        None => 1,
    }
}

// Draws the numbers behind those of all files and tables. It is refused where there would be more tables than
// there may be, and where too few numbers are left.
pub(crate) fn draw(found: &Found) -> Result<Numbers, OpenError>
    requires said { AreSaid found.now.version }
    ensures ok { IfOk result (IsDrawn found.now) }
    ensures err { IfErr result (IsNotDrawn found.now) }
{
    let adding = tables_of(&found.rows);
    let live = found.version.len();
    if live > TABLE_LIMIT - adding as usize {
        return Err(OpenError::TablesFull {
            live: live.min(u32::MAX as usize) as u32,
            adding,
        });
    }
    let first = found.next.max(behind_tables(&found.version));
    if first >= NUMBER_END - 1 - adding as u64 {
        return Err(OpenError::NumbersFull { next: NUMBER_END });
    }
    let manifest = first + adding as u64;
    Ok(Numbers {
        first,
        manifest,
        log: manifest + 1,
    })
}
