//! Metas: the list of a backup's files, with their checksums, as one text.
//!
//! [`print_meta`] writes a [`Meta`] and [`read_meta`] reads it. Each meta has one text, and every other
//! text is refused by its first bad line. [`BackupFile`] says which file a path of a backup names.
#![tactic(auto)]

mod backup_files;
mod errors;
pub mod laws;
mod lines;
mod metas;
mod numbers;
mod printing;
mod reading;
mod sets;

pub use backup_files::BackupFile;
pub use errors::{MetaError, MetaWhy};
pub use metas::{Meta, MetaFile, MetaFiles};
pub use printing::print_meta;
pub use reading::read_meta;
