//! The choice of a compaction by the shape of the levels: which tables go one level deeper, and with which of that
//! level they are merged.
#![tactic(auto)]

mod going;
mod keys;
mod laws;
mod picking;
mod shape;

pub use laws::{compactions_lower_the_weight, picked_inputs_stand};
pub use picking::pick;
