//! The program as a function: what `ldb` does with its words, its input, its output and its disks.
#![tactic(auto)]

mod top;

pub use top::ldb;
