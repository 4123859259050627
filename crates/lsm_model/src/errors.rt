//! Why a call of a store is refused.
use lsm_disk::{DiskCall, Halt};
use lsm_names::{FileName, Folder, Path};

/// Why a call of a store is refused. What stands after it is said with each call; where nothing is said, the store is as
/// it was.
#[derive(Clone, Copy, Debug, PartialEq, Eq)]
pub enum StoreError {
    /// The disk failed in this call, or a view of it did: its count of faults rose.
    DiskFault,
    /// An earlier changing disk call of this open failed, `first`. Calls that would change the disk answer this until the
    /// store is opened anew.
    Halted {
        first: Halt,
    },
    /// The batch of `count` operations would pass the last sequence that there is, 2^56 - 1.
    SequenceFull {
        last: u64,
        count: u32,
    },
    /// A file's number is wanted, and `next` is past the last one, 2^56 - 2.
    NumbersFull {
        next: u64,
    },
    /// With `adding` tables there would be more than 4,096 live ones, where `live` stay.
    TablesFull {
        live: u32,
        adding: u32,
    },
    /// 64 pins live, and there may be no more.
    PinsFull {
        live: u32,
    },
    /// The deletion of files is disabled 1,000,000 times, and may be no more.
    DisablesFull {
        count: u32,
    },
    /// No such pin lives, or it belongs to a checkpoint where a pin of the caller's own is wanted, or to none where a
    /// checkpoint's is.
    NoSuchPin {
        pin: u64,
    },
    /// The pin lists no file of this name.
    NotInPin {
        pin: u64,
        name: FileName,
    },
    /// The deletion of files isn't disabled.
    NotDisabled,
    /// The name is taken on the disk.
    CheckpointExists {
        dir: Folder,
    },
    /// A checkpoint of this open builds that folder.
    UnderWay {
        dir: Folder,
    },
    /// No folder stands there.
    NoFolder {
        dir: Path,
    },
    /// The folder has no `CURRENT`.
    NoCurrent {
        dir: Path,
    },
    /// A file that is needed isn't there: a disk call for it was refused.
    Missing {
        name: FileName,
    },
    /// A disk call was refused in a way that says that somebody else changed the disk.
    Changed {
        call: DiskCall,
        path: Path,
    },
    /// The file has `found` bytes, and `kept` were wanted.
    Short {
        name: FileName,
        kept: u64,
        found: u64,
    },
    /// The piece at this byte is whole, and its checksum differs: the one that it keeps, and the one that its bytes have,
    /// both masked.
    Damaged {
        name: FileName,
        place: u64,
        kept: u32,
        found: u32,
    },
    /// What begins at this byte isn't what the file may hold here.
    Malformed {
        name: FileName,
        place: u64,
    },
    /// A log ends inside the record that begins at this byte, and it isn't the last log.
    TornLog {
        name: FileName,
        place: u64,
    },
    /// A batch's first sequence isn't the expected one, `kept`, but `found`.
    Gap {
        name: FileName,
        kept: u64,
        found: u64,
    },
    /// Two tables of a level from 1 on overlap, `left` with the smaller number.
    BadLevels {
        level: u8,
        left: u64,
        right: u64,
    },
    /// Memory was wanted and not there.
    NoMemory,
}
