// What the definitions of names say of each other, for the proofs of the crates above.
ghost use Rattle.std.specs.Prelude.{◌≡◌, ◌+◌, ◌<◌, ◌≤◌, ℕ, List, [], ◌∷◌, ◌++◌, length, IsTrue};
ghost use Rattle.std.specs.Cmp.Lexicographic.{slice_cmp};
ghost use Rattle.std.specs.Ordering.{nat_cmp};
ghost use Rattle.lsm_names.specs.declared.file_names.FileName.{FileName};
ghost use Rattle.lsm_names.specs.declared.shared_names.SharedName.{SharedName};
ghost use Rattle.lsm_names.specs.FileNames.{spelled, IsFileName};
ghost use Rattle.lsm_names.specs.Folders.{is_folder_name};
ghost use Rattle.lsm_names.specs.Paths.{is_component, is_path, parent_of};
ghost use Rattle.lsm_names.specs.SharedNames.{spelled_shared, IsSharedName};

use crate::paths::Path;
use std::cmp::Ordering;

/// No two files have one name.
pub fn file_names_differ()
    ensures { (a b : FileName) → IsFileName a → IsFileName b → spelled a ≡ spelled b → a ≡ b }
{}

/// No two shared tables have one name.
pub fn shared_names_differ()
    ensures { (a b : SharedName) → IsSharedName a → IsSharedName b
        → spelled_shared a ≡ spelled_shared b → a ≡ b }
{}

/// A component is a path, and stands in the root.
pub fn component_is_path()
    ensures path { (part : List ℕ) → IsTrue (is_component part) → IsTrue (is_path part) }
    ensures parent { (part : List ℕ) → IsTrue (is_component part) → parent_of part ≡ [] }
{}

/// A folder's name, a file's and a shared table's are components.
pub fn names_are_components()
    ensures folder { (name : List ℕ) → IsTrue (is_folder_name name) → IsTrue (is_component name) }
    ensures file { (name : FileName) → IsFileName name → IsTrue (is_component (spelled name)) }
    ensures shared { (name : SharedName) → IsSharedName name → IsTrue (is_component (spelled_shared name)) }
{}

/// Two paths that fit make a path, and what follows a folder by one component stands in it.
pub fn joined_is_path()
    ensures path { (front part : List ℕ) → IsTrue (is_path front) → IsTrue (is_path part)
        → length front + 1 + length part ≤ 160 → IsTrue (is_path (front ++ 47 ∷ part)) }
    ensures parent { (front part : List ℕ) → IsTrue (is_component part)
        → parent_of (front ++ 47 ∷ part) ≡ front }
{}

/// The sizes of names, in bytes: a path is no empty text.
pub fn names_are_short()
    ensures path_has_bytes { (path : List ℕ) → IsTrue (is_path path) → 1 ≤ length path }
    ensures path { (path : List ℕ) → IsTrue (is_path path) → length path ≤ 160 }
    ensures folder { (name : List ℕ) → IsTrue (is_folder_name name) → length name ≤ 64 }
    ensures file { (name : FileName) → IsFileName name → length (spelled name) ≤ 29 }
{}

/// Paths are ordered as their bytes are.
pub fn order_of_paths(left: &Path, right: &Path) -> Ordering
    ensures { result ≡ slice_cmp nat_cmp left.now right.now }
{
    left.cmp(right)
}
