//! Tests of the program: scripts and what it prints for them, its faults, what it leaves on its
//! disks, and what a crash leaves of that. The calls are in `probe`, the scripts in `scripts`, the
//! examples of docs/SCRIPT.md in `documents`, the words of command lines in `words`.
#![tactic(auto)]

#[cfg(test)]
mod documents;
#[cfg(test)]
mod probe;
#[cfg(test)]
mod scripts;
#[cfg(test)]
mod tests;
#[cfg(test)]
mod words;
