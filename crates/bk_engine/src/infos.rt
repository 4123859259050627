//! What is told of backups.
ghost use Rattle.std.specs.Prelude.{◌≡◌, ◌++◌, ◌∷◌, [], if◌then◌else◌, is_ok};

use lsm_bytes::{Bytes, NoMemory};
use std::alloc::Global;
use std::marker::Model;

/// What a backup's meta says of it.
#[derive(Debug, Drop)]
pub struct BackupInfo {
    pub id: u32,
    /// When the backup was made, in seconds since 1970 by the clock of its maker.
    pub timestamp: u64,
    /// The last sequence that the backup has.
    pub sequence: u64,
    /// How many files the meta names.
    pub files: u32,
    /// What its maker noted.
    pub metadata: Bytes,
}

/// What is told of several backups. A contract sees it as their list.
#[derive(Debug, Drop)]
pub struct Infos {
    items: Vec<BackupInfo>,
}

impl Model for Infos {
    ghost use Rattle.std.specs.Prelude.{List};
    ghost use Rattle.bk_engine.specs.declared.infos.BackupInfo.{BackupInfo};

    ghost Value = { List BackupInfo };

    ghost view = { λ f. f.items.items };
}

impl Infos {
    /// No backups.
    pub(crate) fn new(alloc: Global) -> Self
        ensures { result ≡ [] }
    {
        Infos {
            items: Vec::new(alloc),
        }
    }

    /// Adds a backup at the end.
    pub(crate) fn push(&mut self, info: BackupInfo) -> Result<(), NoMemory>
        ensures { self.new ≡ (if is_ok result then self.old ++ info ∷ [] else self.old) }
    {
        self.items.push(info)?;
        Ok(())
    }

    /// The backups, lent.
    pub fn as_slice(&self) -> &[BackupInfo]
        ensures { result.now ≡ self.now }
    {
        self.items.as_slice()
    }
}
