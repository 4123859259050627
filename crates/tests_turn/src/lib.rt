//! Tests of turn_lock: a counter to which three threads add, and the list of their additions as its history.
#![tactic(auto)]

mod counter;
#[cfg(test)]
mod tests;

pub use counter::{Addition, Count, Opening, counted_by_three};
