//! A backup read back: its files go to a destination, and `CURRENT` comes last.
#![tactic(auto)]

mod copying;
mod current;
mod errors;
mod files;
mod laws;
mod named;
mod others;
mod refusals;
mod restoring;
mod sources;

pub use errors::RestoreError;
pub use laws::{held_backup_is_right, restored_parts_are_held};
pub use restoring::restore;
