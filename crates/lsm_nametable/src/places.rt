//! Which paths are inside a folder, by their bytes.
ghost use Rattle.std.specs.Prelude.{◌≡◌, ◌+◌, ◌≤◌, Option, Some, IfSome, option_map, drop, length, is_none};
ghost use Rattle.lsm_disk.specs.Names.{under, inside, is_in};
ghost use Rattle.lsm_names.specs.Paths.{cut_last};

/// Where what follows the folder begins, if the path is the folder or inside it.
pub fn after_folder(folder: &[u8], path: &[u8]) -> Option<usize>
    ensures rest { option_map (λ k. drop k path.now) result ≡ under folder.now path.now }
    ensures within { IfSome result (λ k. k ≤ length path.now) }
{
    let mut at = 0;
    for byte in folder {
        if at >= path.len() {
            return None;
        }
        if *byte != path[at] {
            return None;
        }
        at += 1;
    }
    if at < path.len() && path[at] != b'/' {
        return None;
    }
    Some(at)
}

/// Where the path in the folder begins, without the folder and its slash.
pub fn in_folder(folder: &[u8], path: &[u8]) -> Option<usize>
    ensures rest { option_map (λ k. drop k path.now) result ≡ inside folder.now path.now }
    ensures within { IfSome result (λ k. k ≤ length path.now) }
{
    if folder.is_empty() {
        return Some(0);
    }
    match after_folder(folder, path) {
        None => None,
        Some(at) => { if at < path.len() { Some(at + 1) } else { None } }
    }
}

/// Whether the path is the folder or inside it; all is in the root.
pub fn is_within(folder: &[u8], path: &[u8]) -> bool
    ensures { result ≡ is_in folder.now path.now }
{
    folder.is_empty() || after_folder(folder, path).is_some()
}

/// Whether the bytes have no slash.
pub fn is_one_part(bytes: &[u8]) -> bool
    ensures { result ≡ is_none (cut_last bytes.now) }
{
    for byte in bytes {
        if *byte == b'/' {
            return false;
        }
    }
    true
}
