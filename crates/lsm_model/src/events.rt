//! The calls of a store, each with its arguments, as one list of calls names them.
use crate::FlushRule;
use lsm_bytes::Bytes;
use lsm_names::{FileName, Folder};
use lsm_rows::Batch;

/// Which tables a compaction is to take.
#[derive(Clone, Copy, Debug, PartialEq, Eq)]
pub enum Which {
    /// Those by which a level is beyond its target.
    Shape,
    /// All.
    All,
}

/// A call of a store. The calls on a checkpoint name it by its pin.
#[derive(Drop)]
pub enum Event {
    /// Adds a batch, which isn't empty, and makes all writes durable where `sync` says so.
    Write {
        batch: Batch,
        sync: bool,
    },
    /// Makes all writes durable.
    SyncLog,
    /// Asks for a key's value.
    Get {
        key: Bytes,
    },
    /// Asks for all pairs.
    Scan,
    /// Asks for the last sequence.
    Last,
    /// Asks whether the rows in memory are so many that they should be frozen.
    WantsFreeze,
    /// Freezes the active rows, so that they can be flushed while new ones come.
    Freeze,
    /// Writes on at the table of the frozen rows.
    FlushStep,
    /// Begins a compaction.
    CompactBegin {
        which: Which,
    },
    /// Merges at most so many rows, one at least.
    CompactStep {
        rows: u32,
    },
    /// Removes one file that nothing needs any more.
    DeleteStep,
    /// Pins the files of the contents as they are now.
    Cut {
        rule: FlushRule,
    },
    /// Asks for the files that a cut would list.
    LiveFiles {
        flush: bool,
    },
    /// Ends a pin of the caller's own.
    Unpin {
        pin: u64,
    },
    /// Disables the deletion of files once more.
    Disable,
    /// Takes one `Disable` back.
    Enable,
    /// Cuts, and begins to build a folder of the cut's files. It flushes before as `AtLeast(log_size_for_flush)` does, and
    /// as `Always` does where that is 0.
    CheckpointBegin {
        dir: Folder,
        log_size_for_flush: u64,
    },
    /// Links or copies on.
    CheckpointStep {
        pin: u64,
    },
    /// Does the steps that are left, gives the folder its name, and ends the pin.
    CheckpointFinish {
        pin: u64,
    },
    /// Gives the checkpoint up, and ends its pin.
    CheckpointStop {
        pin: u64,
    },
    /// Asks what a folder of the disk reads as.
    Show {
        dir: Folder,
    },
    /// Asks what a pin's files read as.
    ShowPin {
        pin: u64,
    },
    /// Asks for the bytes of a pinned file.
    ReadPinned {
        pin: u64,
        name: FileName,
    },
}
