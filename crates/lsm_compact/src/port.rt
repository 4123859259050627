//! What a compaction needs of a store: rows of its inputs, and files for its outputs.
ghost use Rattle.std.specs.Prelude.{◌≡◌, ◌∷◌, ◌++◌, [], ℕ, List, length, take, Option, IfOk, IfErr, IfSome, option_map, ◌≤◌};
ghost use Rattle.std.specs.Option.{ForSome};
ghost use Rattle.lsm_rows.specs.declared.rows.Row.{Row};
ghost use Rattle.lsm_block.specs.Runs.{rows_after};
ghost use Rattle.lsm_compact.specs.Calls.{Called, Read, Drew, Appended, Sealed, IsRun, HasCause};

use lsm_bytes::NoMemory;
use lsm_disk::DiskRefusal;
use lsm_names::Session;
use lsm_rows::Rows;
use lsm_table::TableFault;

/// Why a port refuses a call.
#[derive(Clone, Copy, Debug, PartialEq, Eq)]
pub enum PortFault {
    /// The input with this number could not be read.
    Table { number: u64, fault: TableFault },
    /// A call of the disk was refused.
    Disk(DiskRefusal),
    /// No file number is left; the next one would be this.
    NumbersFull { next: u64 },
    /// Memory was wanted and not there. Nothing was done.
    NoMemory,
}

impl From<NoMemory> for PortFault {
    ghost use Rattle.lsm_compact.specs.declared.port.PortFault.TheVariants.{NoMemory};

    ghost from_gives = { λ _ f. f ≡ NoMemory };

    fn from(_: NoMemory) -> Self {
        PortFault::NoMemory
    }
}

/// Where a compaction reads its inputs and writes its outputs.
pub trait TablePort {
    /// How many of its calls the outside has failed.
    ghost faults: { Self → ℕ };

    /// The rows of its tables by their numbers, where it tells its bytes.
    ghost told: { Self → Option (ℕ → List Row) };

    /// It was this, these calls were made and answered so, and now it is that.
    ghost went: { Self → List Called → Self → Type 0 };

    /// Where nothing was called it is as it was.
    ghost stays: { (port : Self) → went port [] port };

    /// The next rows of an input after an internal key, which has 8 bytes at least, in the order of internal keys; where
    /// there is none the first. There are at most so many, and none exactly where none is left or the count is 0.
    fn rows(&mut self, number: u64, after: Option<&[u8]>, count: u32) -> Result<Rows, PortFault>
        requires { ForSome (option_map (λ key. key.now) after) (λ key. 8 ≤ length key) }
        ensures run { IfOk result (λ run. IfSome (told self.old)
            (λ rows. run ≡ take count (rows_after (option_map (λ key. key.now) after.entry) (rows number)))) }
        ensures order { IfOk result (λ run. IsRun (option_map (λ key. key.now) after.entry) count run) }
        ensures told { told self.new ≡ told self.old }
        ensures went { (start : Self) (calls : List Called) → went start calls self.old
            → went start (calls ++ Read number (option_map (λ key. key.now) after.entry) count result ∷ []) self.new }
        ensures cause { HasCause (faults self.old) (faults self.new) result };

    /// Draws a number and makes the file of the table with that number, which the store of this session writes.
    fn create(&mut self) -> Result<(u64, Session), PortFault>
        ensures told { told self.new ≡ told self.old }
        ensures went { (start : Self) (calls : List Called) → went start calls self.old
            → went start (calls ++ Drew result ∷ []) self.new }
        ensures cause { HasCause (faults self.old) (faults self.new) result };

    /// Adds bytes at the end of the file of the table with this number.
    fn append(&mut self, number: u64, bytes: &[u8]) -> Result<(), PortFault>
        ensures told { told self.new ≡ told self.old }
        ensures went { (start : Self) (calls : List Called) → went start calls self.old
            → went start (calls ++ Appended number bytes.now result ∷ []) self.new }
        ensures cause { HasCause (faults self.old) (faults self.new) result };

    /// Syncs the file of the table with this number, and then the names.
    fn seal(&mut self, number: u64) -> Result<(), PortFault>
        ensures told { told self.new ≡ told self.old }
        ensures went { (start : Self) (calls : List Called) → went start calls self.old
            → went start (calls ++ Sealed number result ∷ []) self.new }
        ensures cause { HasCause (faults self.old) (faults self.new) result };
}

/// Why a compaction's step gives nothing.
#[derive(Clone, Copy, Debug, PartialEq, Eq)]
pub enum CompactFault {
    /// The port refused a call so.
    Port(PortFault),
    /// Memory was wanted and not there. The step may be asked again.
    NoMemory,
}
