//! The words of a command line: where the two disks are, which folder is the store's, and which
//! command is asked for. What commands there are the caller says.
#![tactic(auto)]

mod command;
mod given;
mod options;
mod reading;

pub use reading::{Asked, WordsError, read_words};
