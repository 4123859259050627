//! Tests of the crates from bytes up to destinations: known vectors, printed texts, and each call
//! once where memory is ample.
//!
//! A case is a function that tells whether it holds, and a test claims it by [`claims::sure`]
//! alone. The calls that are tried stand in functions without clauses, so that no fact about a disk
//! is carried through a case.
#![tactic(auto)]

#[cfg(test)]
mod bytes;
#[cfg(test)]
mod claims;
#[cfg(test)]
mod dest;
#[cfg(test)]
mod disk;
#[cfg(test)]
mod io;
#[cfg(test)]
mod names;
#[cfg(test)]
mod probe;
#[cfg(test)]
mod publish;
