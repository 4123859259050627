//! Tests of lsm_store: stores over a disk in memory that are opened, written, closed, cut off and
//! opened again.
//!
//! A case is a function that tells whether it holds, and a test claims it by `sure` alone. The
//! calls that are tried stand in functions without clauses.
#![tactic(auto)]

#[cfg(test)]
mod crashes;
#[cfg(test)]
mod deletes;
#[cfg(test)]
mod flushes;
#[cfg(test)]
mod openings;
#[cfg(test)]
mod stores;
