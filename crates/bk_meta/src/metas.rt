//! A meta: the list of a backup's files, and what it says of the backup.
ghost use Rattle.std.specs.Prelude.{◌≡◌, ◌∷◌, ◌++◌, [], length, OnOk, IfOk, if◌then◌else◌, is_ok};

use lsm_bytes::{Bytes, NoMemory};
use lsm_names::Path;
use std::alloc::Global;
use std::marker::Model;

/// A file of a backup: its path in the backup folder, and the CRC32C of its bytes, unmasked.
#[derive(Clone, Copy, Debug, PartialEq, Eq)]
pub struct MetaFile {
    pub path: Path,
    pub crc: u32,
}

/// The files of a meta, in the order of its lines. A contract sees it as their list.
///
/// After a refused call the list is as it was.
#[derive(Debug, Drop)]
pub struct MetaFiles {
    items: Vec<MetaFile>,
}

impl Model for MetaFiles {
    ghost use Rattle.std.specs.Prelude.{List};
    ghost use Rattle.bk_meta.specs.declared.metas.MetaFile.{MetaFile};

    ghost Value = { List MetaFile };

    ghost view = { λ f. f.items.items };
}

impl MetaFiles {
    /// No files. It takes no memory yet, and grows by the allocator that it keeps.
    pub fn new(alloc: Global) -> Self
        ensures { result ≡ [] }
    {
        MetaFiles {
            items: Vec::new(alloc),
        }
    }

    /// Adds a file at the end.
    pub fn push(&mut self, file: MetaFile) -> Result<(), NoMemory>
        ensures { self.new ≡ (if is_ok result then self.old ++ file ∷ [] else self.old) }
    {
        self.items.push(file)?;
        Ok(())
    }

    /// The files, lent.
    pub fn as_slice(&self) -> &[MetaFile]
        ensures { result.now ≡ self.now }
    {
        self.items.as_slice()
    }
}

/// What the text `meta/<id>` says of a backup.
#[derive(Debug, Drop)]
pub struct Meta {
    /// The backup's identifier, from 1 on. The text doesn't have it: it is the name of its file.
    pub id: u32,
    /// When the backup was made, in seconds since 1970 by the clock of its maker.
    pub timestamp: u64,
    /// The last sequence that the backup has.
    pub sequence: u64,
    /// What its maker noted, at most 1,024 bytes.
    pub metadata: Bytes,
    /// 2 to 10,000 files, in the order of the bytes of their paths.
    pub files: MetaFiles,
}
