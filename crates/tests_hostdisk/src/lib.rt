//! Tests of the disk over the host's files: what its calls answer where the host does as it is told,
//! in a folder of its own for each test.
//!
//! A case is a function that tells whether it holds, and a test claims it by [`claims::sure`]
//! alone. The calls that are tried stand in functions without clauses.
#![tactic(auto)]

#[cfg(test)]
mod claims;
#[cfg(test)]
mod disk;
#[cfg(test)]
mod probe;
#[cfg(test)]
mod roots;
