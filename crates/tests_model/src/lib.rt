//! Tests of the plain store: tables of events with the answers that the abstract store allows, a restore's calls, and a
//! write that fails.
#![tactic(auto)]

#[cfg(test)]
mod events;
#[cfg(test)]
mod restores;
