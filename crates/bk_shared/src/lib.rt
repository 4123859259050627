//! Shared files: how many backups name each file that backups share, and its one checksum.
//!
//! [`Shared::build`] reads the metas of all backups once, and refuses metas that give one file two
//! checksums. A file that no other backup names may go when its backup does.
#![tactic(auto)]

mod counting;
mod errors;
mod keys;
pub mod laws;

pub use counting::Shared;
pub use errors::SharedError;
