//! A disk in memory none of whose calls is made to fail: its names and files, and its record of
//! changes, which is its story.
#![tactic(auto)]

mod volume;

pub use volume::Volume;
