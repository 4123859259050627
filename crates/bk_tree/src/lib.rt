//! What a backup folder holds: which backups a tree lists, which folder each of them holds, and
//! which paths they reach. These are definitions, and the functions are laws.
#![tactic(auto)]

mod laws;

pub use laws::{
    held_by_reached_paths, kept_backup_is_held, kept_backup_stays, listed_are_those_listed,
};
