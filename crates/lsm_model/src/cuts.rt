//! Lists of a store's files as they stand at one event.
ghost use Rattle.std.specs.Prelude.{◌≡◌, ◌<◌, ◌^◌, ◌∷◌, ◌++◌, [], List, length, OnOk, OnErr};
ghost use Rattle.lsm_model.specs.declared.cuts.CutFile.{CutFile};

use lsm_bytes::NoMemory;
use lsm_names::{FileName, Session};
use std::alloc::Global;
use std::marker::Model;

/// A file as a cut lists it.
#[derive(Clone, Copy, Debug, PartialEq, Eq)]
pub struct CutFile {
    pub name: FileName,
    /// How many of the file's bytes belong to the cut.
    pub len: u64,
    /// The session that wrote it, where it is a table.
    pub session: Option<Session>,
}

/// The files of a cut: tables, then logs, by their numbers, and the manifest. Contracts see the list.
#[derive(Drop)]
pub struct CutFiles {
    items: Vec<CutFile>,
}

impl Model for CutFiles {
    ghost Value = { List CutFile };

    ghost view = { λ f. f.items.items };
}

impl CutFiles {
    /// No files. It takes its memory from `alloc` as files come in.
    pub fn new(alloc: Global) -> Self
        ensures { result ≡ [] }
    {
        CutFiles {
            items: Vec::new(alloc),
        }
    }

    /// The files, in their order.
    pub fn as_slice(&self) -> &[CutFile]
        ensures { result.now ≡ self.now }
    {
        &self.items
    }

    /// Adds a file at the end.
    pub fn push(
        &mut self,
        name: FileName,
        len: u64,
        session: Option<Session>,
    ) -> Result<(), NoMemory>
        ensures ok { OnOk result (self.new ≡ self.old ++ (record { name = name; len = len; session = session }) ∷ []) }
        ensures err { OnErr result (self.new ≡ self.old) }
    {
        self.items.push(CutFile { name, len, session })?;
        Ok(())
    }
}

/// What a cut took: from now on the files stand for the contents at this sequence, and none of them goes while its pin
/// lives.
#[derive(Drop)]
pub struct Cut {
    /// The pin that holds the files.
    pub pin: u64,
    /// The last sequence of the contents.
    pub sequence: u64,
    /// The number of the manifest, which `CURRENT` names for these files.
    pub manifest: u64,
    pub files: CutFiles,
}

/// When a cut writes the rows in memory into tables before it takes its files.
#[derive(Clone, Copy, Debug, PartialEq, Eq)]
pub enum FlushRule {
    /// It doesn't.
    Never,
    /// It does, so that no log is among the files.
    Always,
    /// It does exactly where the live logs have so many bytes or more.
    AtLeast(u64),
}

/// The live files as a cut would list them, without a pin.
#[derive(Drop)]
pub struct LiveFiles {
    /// The last sequence of the contents.
    pub sequence: u64,
    /// The number of the manifest.
    pub manifest: u64,
    /// How many bytes the manifest has.
    pub manifest_len: u64,
    pub files: CutFiles,
}
