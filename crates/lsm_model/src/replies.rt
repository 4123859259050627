//! What the calls of a store answer.
use crate::{Cut, LiveFiles, StoreError};
use lsm_bytes::Bytes;
use lsm_names::FileName;
use lsm_rows::Pairs;
use lsm_version::Inputs;

/// What a step of a flush did.
#[derive(Clone, Copy, Debug, PartialEq, Eq)]
pub enum Flushed {
    /// No rows are frozen.
    NoJob,
    /// Some rows were written.
    More,
    /// The table is whole and live, and no rows are frozen now.
    Installed,
}

/// How a compaction began.
#[derive(Drop)]
pub enum Begun {
    /// It is under way now.
    Started,
    /// One is under way already, with these inputs.
    UnderWay { inputs: Inputs },
    /// No level is beyond its target; or all tables were asked for, and there is none.
    Nothing,
}

/// What a step of a compaction did.
#[derive(Clone, Copy, Debug, PartialEq, Eq)]
pub enum Stepped {
    /// None is under way.
    NoJob,
    /// Some rows were merged.
    More,
    /// The outputs are live in the place of the inputs, and none is under way now.
    Installed,
}

/// What a step of deletion did.
#[derive(Clone, Copy, Debug, PartialEq, Eq)]
pub enum Deleted {
    /// Nothing: deletion is disabled so many times.
    Disabled { count: u32 },
    /// It removed this file.
    Removed(FileName),
    /// Nothing: each file is needed.
    Nothing,
}

/// A checkpoint that has begun.
#[derive(Clone, Copy, Debug, PartialEq, Eq)]
pub struct JobStart {
    /// The pin of its cut, which names the checkpoint from now on.
    pub pin: u64,
    /// The last sequence of the contents that it has.
    pub sequence: u64,
}

/// What a folder or a pin reads as.
#[derive(Drop)]
pub struct Shown {
    /// The last sequence.
    pub sequence: u64,
    pub contents: Pairs,
}

/// The answer of a call of a store.
#[derive(Drop)]
pub enum Reply {
    /// The last sequence.
    Write(Result<u64, StoreError>),
    SyncLog(Result<(), StoreError>),
    /// The key's value, None where it has none.
    Get(Result<Option<Bytes>, StoreError>),
    Scan(Result<Pairs, StoreError>),
    Last(u64),
    WantsFreeze(bool),
    /// Whether rows were frozen.
    Freeze(Result<bool, StoreError>),
    FlushStep(Result<Flushed, StoreError>),
    CompactBegin(Result<Begun, StoreError>),
    CompactStep(Result<Stepped, StoreError>),
    DeleteStep(Result<Deleted, StoreError>),
    Cut(Result<Cut, StoreError>),
    LiveFiles(Result<LiveFiles, StoreError>),
    Unpin(Result<(), StoreError>),
    /// How many times deletion is disabled now.
    Disable(Result<u32, StoreError>),
    /// How many times deletion is disabled now.
    Enable(Result<u32, StoreError>),
    CheckpointBegin(Result<JobStart, StoreError>),
    /// Whether a file is left to link or to copy.
    CheckpointStep(Result<bool, StoreError>),
    /// The last sequence of the contents that the folder has.
    CheckpointFinish(Result<u64, StoreError>),
    CheckpointStop(Result<(), StoreError>),
    Show(Result<Shown, StoreError>),
    ShowPin(Result<Shown, StoreError>),
    ReadPinned(Result<Bytes, StoreError>),
}
