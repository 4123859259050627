//! Tests of internal keys, batches, lists of rows and rows in memory, in a crate above theirs, so
//! that no proof of theirs is made again for a test.
//!
//! A case is a function that tells whether it holds. Each call under test stands in a helper with
//! no clauses, so that the proof of a case carries no fact about what was called. What owns rows
//! lends them to a function that goes on with them, so that few refusals have something to let go.
#![tactic(auto)]

#[cfg(test)]
mod batches;
#[cfg(test)]
mod claims;
#[cfg(test)]
mod keys;
#[cfg(test)]
mod memtable;
#[cfg(test)]
mod rows;
