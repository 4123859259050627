//! The abstract store. A state is what calls and crashes are said of; no code makes one.
use crate::{Shown, StoreError};
use lsm_bytes::Bytes;
use lsm_disk::Halt;
use lsm_names::{FileName, Folder};
use lsm_rows::{Batch, Pairs};
use lsm_version::Inputs;
use std::collections::LinkedList;

/// A file that a pin holds.
#[derive(Drop)]
pub struct PinnedFile {
    pub name: FileName,
    pub bytes: Bytes,
}

/// Whose a pin is.
#[derive(Clone, Copy, Drop)]
pub enum Holder {
    /// The caller's, who ends it.
    Caller,
    /// A checkpoint's that builds a folder. `left` of the pin's files aren't whole there yet.
    Checkpoint { dir: Folder, left: u64 },
}

/// A pin that lives. Its contents are those after the first `batches` accepted batches.
#[derive(Drop)]
pub struct Pin {
    pub number: u64,
    pub batches: u64,
    /// The number of the manifest that `CURRENT` names for these files.
    pub manifest: u64,
    pub files: LinkedList<PinnedFile>,
    pub holder: Holder,
}

/// A folder of the disk and what it reads as. It is `sure` where it reads so after a crash too.
pub struct FolderRead {
    pub name: Folder,
    pub reading: Result<Shown, StoreError>,
    pub sure: bool,
}

/// A live table: its level, its number and the size of its file in bytes.
pub struct LiveTable {
    pub level: u8,
    pub number: u64,
    pub size: u64,
}

/// The abstract store: what it holds, and as much of how it works as answers depend on.
pub struct State {
    /// The store's own folder.
    pub own: Folder,
    /// The contents when the store was opened.
    pub opening: Pairs,
    /// The last sequence when the store was opened.
    pub began: u64,
    /// The accepted batches since, the first one first.
    pub accepted: LinkedList<Batch>,
    /// How many of them a crash leaves at least.
    pub durable: u64,
    /// The batch whose write met a fault: it may be there after the next opening, behind the accepted ones.
    pub doubtful: Option<Batch>,
    /// The live pins, in the order in which they were given.
    pub pins: LinkedList<Pin>,
    /// The greatest number that a pin of this open had, or 0.
    pub greatest_pin: u64,
    /// The other folders of the disk's root, each once.
    pub folders: LinkedList<FolderRead>,
    /// The folder that was begun as a place for a restored one, and not finished yet.
    pub begun: Option<Folder>,
    /// How many times the deletion of files is disabled.
    pub disables: u64,
    /// How many of the last accepted batches have their rows in memory, active: those since the last freeze.
    pub active: u64,
    /// How many of the batches before them have frozen rows, which are in no table yet.
    pub frozen: u64,
    /// How many bytes the last log has, in which the active rows are.
    pub active_len: u64,
    /// How many bytes the older logs have, in which the frozen rows are.
    pub frozen_len: u64,
    /// The live tables.
    pub tables: LinkedList<LiveTable>,
    /// The inputs of the compaction under way.
    pub merging: Option<Inputs>,
    /// How many tables that compaction has begun.
    pub outputs: u64,
    /// The number of the next file.
    pub next: u64,
    /// The length of the manifest in bytes.
    pub manifest_len: u64,
    /// The disk call that halted the store.
    pub halt: Option<Halt>,
    /// The disk's count of faults.
    pub faults: u64,
    /// The disk's count of refusals.
    pub refusals: u64,
}
