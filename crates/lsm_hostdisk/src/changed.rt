//! The folders whose names changed since they were made durable.

use crate::handles::is_inside;
use lsm_names::Path;
use std::alloc::{AllocFailed, Global};

#[derive(Drop)]
pub(crate) struct Changed {
    folders: Vec<Path>,
    is_root: bool,
}

impl Changed {
    pub(crate) fn new(alloc: Global) -> Changed {
        Changed {
            folders: Vec::new(alloc),
            is_root: false,
        }
    }

    /// Notes the folder of a name that is to change. So the room is taken before the change, and a
    /// change whose outcome isn't known is noted as well.
    pub(crate) fn note(&mut self, path: &Path) -> Result<(), AllocFailed<Path>> {
        let Ok(folder) = Path::parse(path.parent()) else {
            self.is_root = true;
            return Ok(());
        };
        if self.folders.contains(&folder) {
            return Ok(());
        }
        self.folders.push(folder)
    }

    /// Whether this folder or one inside it is noted.
    pub(crate) fn has_inside(&self, folder: &Path) -> bool {
        self.folders
            .iter()
            .any(|noted| noted == folder || is_inside(folder, noted))
    }

    /// Puts folders inside others behind them: in the order of bytes a folder comes before all that
    /// is inside it.
    pub(crate) fn put_parents_first(&mut self) {
        self.folders.sort_unstable();
    }

    pub(crate) fn last(&self) -> Option<Path> {
        match self.folders.as_slice().last() {
            Some(folder) => Some(*folder),
            None => None,
        }
    }

    /// The last folder was made durable.
    pub(crate) fn forget_last(&mut self) {
        drop(self.folders.pop());
    }

    pub(crate) fn has_root(&self) -> bool {
        self.is_root
    }

    /// The root was made durable.
    pub(crate) fn forget_root(&mut self) {
        self.is_root = false;
    }
}
