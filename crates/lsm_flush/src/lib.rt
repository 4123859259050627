//! Flush: rows that no new ones join, and the file of the table that they become. A step writes at
//! most 1,024 rows. What installs the table is the store's.
#![tactic(auto)]

mod frozen;
mod writing;

pub use frozen::Frozen;
pub use writing::{Ahead, Writing};
