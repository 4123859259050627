//! Tests of lsm_recover: folders of a disk in memory with bytes that another program wrote, cut,
//! damaged and put together wrongly.
//!
//! A case is a function that tells whether it holds, and a test claims it by `sure` alone. What a
//! folder is to read as is what `tools/read-folder` prints, a second reader in another language,
//! written from docs/FORMATS.md.
#![tactic(auto)]

#[cfg(test)]
mod cuts;
#[cfg(test)]
mod folders;
#[cfg(test)]
mod logs;
#[cfg(test)]
mod manifests;
#[cfg(test)]
mod on_disk;
#[cfg(test)]
mod opened;
#[cfg(test)]
mod sure;
#[cfg(test)]
mod table_texts;
#[cfg(test)]
mod tables;
#[cfg(test)]
mod texts;
