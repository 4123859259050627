//! Scan: the pairs that rows stand for, in whatever order the rows come.
#![tactic(auto)]

mod pairs;

pub use pairs::pairs_of;
