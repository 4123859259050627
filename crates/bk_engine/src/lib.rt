//! Backups on a disk of their own.
#![tactic(auto)]

mod copying;
mod engine;
mod errors;
mod infos;
mod laws;
mod opening;
mod opening_laws;
mod places;
mod plain;
mod publishing;
mod restoring;
mod standing;
mod stopping;

pub use engine::{BackupEngine, EngineOpen, LAST_IDENTIFIER};
pub use errors::EngineError;
pub use infos::{BackupInfo, Infos};
pub use laws::{no_other_is_listed, other_backups_stay, other_backups_stay_held};
pub use opening_laws::no_backup_is_listed_by_an_opening;
pub use plain::{PlainFile, PlainFiles, PlainRefusal};
pub use standing::{
    a_new_folder_has_new_files, built_folder_stays, kept_plain_backup_stands, no_log_stands,
    no_name_of_a_file_comes, plain_backup_stands, restored_folder_stands, restored_parts_are_files,
};
