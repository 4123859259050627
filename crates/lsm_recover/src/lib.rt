//! Recovery: reading a store's folder from a disk, to its contents or to what a store needs to go
//! on, or to the first refusal. It writes nothing.
#![tactic(auto)]

mod current;
mod errors;
mod folder;
mod head;
mod known;
mod laws;
mod listed;
mod logs;
mod manifest;
mod newest;
mod open_tables;
mod opened;
mod opening;
mod rows;
mod site;
mod tables;

pub use current::read_current;
pub use errors::{FolderError, error_by};
pub use folder::{Found, read_folder};
pub use known::Known;
pub use laws::a_folder_that_reads_opens;
pub use open_tables::close_tables;
pub use opened::{Opened, OpenedFolder, open_folder};
pub use site::{Site, find_site};
