//! Tests of manifests over a disk in memory: what is made, appended to, rolled and read again.
//!
//! A case is a function that tells whether it holds, and a test claims it by `sure` alone. The
//! calls that are tried stand in functions without clauses.
#![tactic(auto)]

#[cfg(test)]
mod tests;
