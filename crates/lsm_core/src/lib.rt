//! Catalog: what a store keeps of itself beside its disk, its last log, its manifest and its rows
//! in memory, and readings of its tables.
#![tactic(auto)]

mod catalog;
mod looking;
mod meeting;
mod obsolete;
mod opening;
mod pins;
mod scanning;
mod searching;
mod tables;

pub use catalog::{Catalog, close_tables, find_row, open_tables, read_rows};
pub use looking::{Tables, close_looked, look};
pub use obsolete::next_obsolete;
pub use pins::{Job, Pin};
pub use tables::OpenTables;
