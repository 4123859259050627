//! Tests of edits, of versions and of what a compaction takes, in a crate above theirs, so that no
//! proof of theirs is made again for a test.
//!
//! A case is a function that tells whether it holds. Each call under test stands in a helper with
//! no clauses, so that the proof of a case carries no fact about what was called. What owns an edit
//! or a version lends it to a function that goes on with it, so that few refusals have something to
//! let go.
#![tactic(auto)]

#[cfg(test)]
mod claims;
#[cfg(test)]
mod edits;
#[cfg(test)]
mod picking;
#[cfg(test)]
mod shapes;
#[cfg(test)]
mod versions;
