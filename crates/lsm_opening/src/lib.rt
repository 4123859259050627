//! Opening a store's folder that stands: what is read of it, and what is written before a store may
//! go on there. The rows of its logs go into a table, a new manifest says all tables, and a new log
//! is begun.
#![tactic(auto)]

mod edits;
mod errors;
mod found;
mod installing;
mod numbers;
mod recovering;
mod row_table;

pub use edits::whole_edit;
pub use errors::OpenError;
pub use found::{Found, read_found};
pub use installing::Recovered;
pub use recovering::recover;
pub use row_table::write_rows;
