//! Tests of logs, their frames and their readers, against bytes that another program wrote.
//!
//! A case is a function that tells whether it holds, and a test claims it by [`claims::sure`]
//! alone. The calls that are tried stand in functions without clauses, so that no fact about a log
//! is carried through a case.
#![tactic(auto)]

#[cfg(test)]
mod claims;
#[cfg(test)]
mod frame;
#[cfg(test)]
mod log;
#[cfg(test)]
mod reading;
#[cfg(test)]
mod view;
