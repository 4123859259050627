//! Store: a log-structured store over a disk. Each call is a step of the abstract store, from a
//! state for which the store was good to one for which it is.
#![tactic(auto)]

mod closing;
mod deleting;
mod flushing;
mod freezing;
mod installing;
mod making;
mod opening;
mod opening_new;
mod pinning;
mod probing;
mod reading;
mod refused;
mod restoring;
mod scanning;
mod showing;
mod store;
mod syncing;
mod telling;

pub use closing::OpenRefusal;
pub use lsm_core::{Tables, look};
pub use lsm_model::{Deleted, Flushed, StoreError};
pub use probing::Probe;
pub use store::Store;
