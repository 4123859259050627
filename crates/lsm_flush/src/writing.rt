//! A table's file that is being written.
ghost use Rattle.std.specs.Prelude.{◌≡◌, ◌<◌, ◌≤◌, None, Some, false, length, OnOk, OnErr, IfErr, option_map};
ghost use Rattle.lsm_memtable.specs.Newest.{newest_each};
ghost use Rattle.lsm_version.specs.declared.tables.TableInfo.{TableInfo};
ghost use Rattle.lsm_disk.specs.Answers.{HasDiskCause};
ghost use Rattle.lsm_flush.specs.Writing.{Written, ahead_bytes, begun, whole, IsWholeTable, HasTaken, settled};
ghost use Rattle.lsm_flush.specs.Adding.{not_appended, HasAdded, HasNotAdded};

use lsm_bytes::{Bytes, NoMemory};
use lsm_disk::{Disk, DiskCall, DiskError, DiskRefusal, Halt};
use lsm_memtable::{Flush, FlushPiece, MemTable};
use lsm_names::{Path, Session};
use lsm_table::Finished;
use lsm_version::TableInfo;
use std::alloc::Global;
use std::marker::Model;
use std::mem::replace;

/// What was taken of a flush and isn't in the table's file yet.
#[derive(Drop)]
pub enum Ahead {
    /// Nothing: all that was taken is in the file, and rows are left.
    Nothing,
    /// The bytes of some rows.
    Piece(Bytes),
    /// The last of the table.
    Last(Finished),
    /// Nothing: the whole table is in the file, which an edit may say this of.
    Whole(TableInfo),
}

/// The file of a table that rows in memory become. A piece that the disk doesn't take for want of
/// memory stays ahead, and comes with the next call.
#[derive(Drop)]
pub struct Writing {
    flush: Flush,
    number: u64,
    session: Session,
    ahead: Ahead,
}

impl Model for Writing {
    ghost use Rattle.lsm_flush.specs.Writing.{Written, IsWriting};

    ghost Value = { Written };

    ghost view = { λ w. record { rows = w.flush.rows; number = w.number; session = w.session; taken = w.flush.taken; ahead = w.ahead } };

    ghost invariant = { λ w. IsWriting w.flush w.number w.session w.ahead };
}

impl Writing {
    /// Begins the table of these rows, one at least, with its number and the session that writes it.
    pub fn new(alloc: Global, rows: MemTable, number: u64, session: Session) -> Self
        requires { 1 ≤ length rows }
        ensures { result ≡ begun rows number session }
    {
        Writing {
            flush: Flush::new(alloc, rows, number, session),
            number,
            session,
            ahead: Ahead::Nothing,
        }
    }

    /// The rows that become the table.
    pub fn rows(&self) -> &MemTable
        ensures { result.now ≡ self.now.rows }
    {
        self.flush.rows()
    }

    /// Whether there are no rows, which is never so.
    pub fn is_empty(&self) -> bool
        ensures never { result ≡ false }
        ensures some { 1 ≤ length self.now.rows }
    {
        self.flush.rows().is_empty()
    }

    /// The table's number.
    pub fn number(&self) -> u64
        ensures { result ≡ self.now.number }
    {
        self.number
    }

    /// What an edit says of the table, once its file is whole.
    pub fn whole(&self) -> Option<&TableInfo>
        ensures whole { option_map (λ info. info.now) result ≡ whole self.now }
        ensures is { (info : TableInfo) → whole self.now ≡ Some info → IsWholeTable self.now.rows self.now.number self.now.session info }
    {
        match &self.ahead {
            Ahead::Whole(info) => Some(info),
            Ahead::Nothing | Ahead::Piece(_) | Ahead::Last(_) => None,
        }
    }

    // Takes the next rows where nothing is ahead.
    fn take(&mut self) -> Result<(), NoMemory>
        requires { whole self.old ≡ None }
        ensures ok { OnOk result (HasTaken self.old self.new) }
        ensures err { OnErr result (self.new ≡ self.old) }
    {
        match &self.ahead {
            Ahead::Nothing => {
                match self.flush.step()? {
                    FlushPiece::Piece(bytes) => self.ahead = Ahead::Piece(bytes),
                    FlushPiece::Last(last) => self.ahead = Ahead::Last(last),
                }
                Ok(())
            }
            Ahead::Piece(_) | Ahead::Last(_) | Ahead::Whole(_) => Ok(()),
        }
    }

    // The bytes that are ahead.
    fn ahead_bytes(&self) -> &[u8]
        ensures { result.now ≡ ahead_bytes self.now.ahead }
    {
        match &self.ahead {
            Ahead::Piece(bytes) => bytes.as_slice(),
            Ahead::Last(last) => last.tail.as_slice(),
            Ahead::Nothing | Ahead::Whole(_) => b"".as_slice(),
        }
    }

    // What is ahead has come into the file.
    fn settle(&mut self)
        ensures { self.new ≡ settled self.old }
    {
        match replace(&mut self.ahead, Ahead::Nothing) {
            Ahead::Last(last) => {
                self.ahead = Ahead::Whole(TableInfo {
                    number: self.number,
                    session: self.session,
                    size: last.size,
                    smallest: last.smallest,
                    largest: last.largest,
                });
            }
            Ahead::Whole(info) => self.ahead = Ahead::Whole(info),
            Ahead::Nothing | Ahead::Piece(_) => {}
        }
    }

    /// Adds the next rows to the table's file, which isn't whole. It takes one call of the disk. After want of memory it may
    /// be asked again.
    pub fn write_on<D: Disk>(&mut self, disk: &mut D, path: &Path) -> Result<(), DiskRefusal>
        requires { whole self.old ≡ None }
        ensures ok { OnOk result (HasAdded path.now (D.seen disk.old) (D.seen disk.new) self.old self.new) }
        ensures err { IfErr result (HasNotAdded path.now (D.seen disk.old) (D.seen disk.new) self.old self.new) }
        ensures cause { HasDiskCause (D.seen disk.old) (D.seen disk.new) result }
    {
        let Ok(()) = self.take() else {
            return Err(refusal(path, DiskError::NoMemory));
        };
        match disk.append(path, self.ahead_bytes()) {
            Ok(()) => {
                self.settle();
                Ok(())
            }
            Err(why) => Err(refusal(path, why)),
        }
    }
}

// The refusal of an append to this path.
fn refusal(path: &Path, why: DiskError) -> DiskRefusal
    ensures { result ≡ not_appended path.now why }
{
    DiskRefusal {
        at: Halt {
            call: DiskCall::Append,
            path: *path,
        },
        why,
    }
}
