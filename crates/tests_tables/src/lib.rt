//! Tests of blocks, tables and kept blocks, in a crate above theirs, so that no proof of theirs is
//! made again for a test.
//!
//! A case is a function that tells whether it holds. Each call under test stands in a helper with
//! no clauses, so that the proof of a case carries no fact about what was called. What owns a table
//! or a builder lends it to a function that goes on with it, so that few refusals have something to
//! let go.
#![tactic(auto)]

#[cfg(test)]
mod block;
#[cfg(test)]
mod cache;
#[cfg(test)]
mod claims;
#[cfg(test)]
mod numbered;
#[cfg(test)]
mod rows;
#[cfg(test)]
mod searching;
#[cfg(test)]
mod table;
#[cfg(test)]
mod views;
