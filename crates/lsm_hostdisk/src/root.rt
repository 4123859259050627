//! Folders of the host: making the root, and making a folder's names durable.

use crate::answers::or_fault;
use lsm_disk::DiskError;
use std::fs;
use std::fs::File;
use std::io::ErrorKind;

/// Makes the root where it isn't there; the folder around it has to be. A root that was made
/// outlives a crash. A link that leads to a folder serves as the root.
pub(crate) fn make_root(rt: &HostRuntime, root: &str) -> Result<(), DiskError> {
    match fs::metadata(rt, root) {
        Ok(found) if found.is_dir() => Ok(()),
        Ok(_) => Err(DiskError::Fault),
        Err(error) if error.kind() == ErrorKind::NotFound => make_missing(rt, root),
        Err(_) => Err(DiskError::Fault),
    }
}

fn make_missing(rt: &HostRuntime, root: &str) -> Result<(), DiskError> {
    or_fault(fs::create_dir(rt, root))?;
    sync_folder(rt, around(root))
}

/// The folder that the root stands in.
fn around(root: &str) -> &str {
    match root.trim_end_matches('/').rsplit_once('/') {
        None => ".",
        Some((parent, _)) => { if parent.is_empty() { "/" } else { parent } }
    }
}

/// Makes the names in a folder durable.
pub(crate) fn sync_folder(rt: &HostRuntime, place: &str) -> Result<(), DiskError> {
    let folder = or_fault(File::open(rt, place))?;
    or_fault(folder.sync_all())
}
