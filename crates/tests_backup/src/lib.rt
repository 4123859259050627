//! Tests of bk_meta, bk_restore and bk_engine: metas from outside, and backups on disks in memory.
#![tactic(auto)]

#[cfg(test)]
mod disks;
#[cfg(test)]
mod engine;
#[cfg(test)]
mod meta_texts;
#[cfg(test)]
mod metas;
#[cfg(test)]
mod restore;
#[cfg(test)]
mod sure;
