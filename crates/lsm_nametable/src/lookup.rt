//! What stands under a name of the table, and why a new name or a move is refused.
ghost use Rattle.std.specs.Prelude.{◌≡◌, option_map};
ghost use Rattle.std.specs.FinMap as map;
ghost use Rattle.lsm_disk.specs.Names.{id_of, stands, is_folder};
ghost use Rattle.lsm_disk.specs.Refusals.{no_room_in, no_move_in};
ghost use Rattle.lsm_nametable.specs.Target.{node_of};

use crate::places::is_within;
use crate::table::{NameTable, Target};
use lsm_disk::DiskError;
use lsm_names::Path;

/// What stands under a name; the root is a folder.
pub fn standing(names: &NameTable, path: &[u8]) -> Option<Target>
    ensures { option_map node_of result ≡ stands names.now path.now }
{
    if path.is_empty() {
        Some(Target::Folder)
    } else {
        names.get(path)
    }
}

pub fn has_folder(names: &NameTable, path: &[u8]) -> bool
    ensures { result ≡ is_folder names.now path.now }
{
    matches!(standing(names, path), Some(Target::Folder))
}

/// The number of the file that a name has.
pub fn find_file(names: &NameTable, path: &[u8]) -> Option<usize>
    ensures { result ≡ id_of (map.get names.now path.now) }
{
    match names.get(path) {
        Some(Target::File(id)) => Some(id),
        _ => None,
    }
}

/// Why a new name is refused.
pub fn refusal_of_new(names: &NameTable, path: &Path) -> Option<DiskError>
    ensures { result ≡ no_room_in names.now path.now }
{
    if !has_folder(names, path.parent()) {
        Some(DiskError::NotThere)
    } else if standing(names, path.as_bytes()).is_some() {
        Some(DiskError::Exists)
    } else {
        None
    }
}

/// Why a rename of what stands there is refused.
pub fn refusal_of_move(
    names: &NameTable,
    from: &Path,
    to: &Path,
    target: Option<Target>,
) -> Option<DiskError>
    ensures { result ≡ no_move_in from.now to.now names.now (option_map node_of target) }
{
    match target {
        None => Some(DiskError::NotThere),
        Some(Target::File(_)) => {
            if !has_folder(names, to.parent()) {
                Some(DiskError::NotThere)
            } else if has_folder(names, to.as_bytes()) {
                Some(DiskError::Exists)
            } else {
                None
            }
        }
        Some(Target::Folder) => {
            if is_within(from.as_bytes(), to.parent()) {
                Some(DiskError::NotThere)
            } else {
                refusal_of_new(names, to)
            }
        }
    }
}
