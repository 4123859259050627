//! The write-ahead log: one file of batches, each a record. What a crash leaves of it reads as a prefix of its batches that
//! has the synced ones.
#![tactic(auto)]

mod batches;
mod laws;
mod log;
mod reading;
mod why;

pub use batches::Batches;
pub use laws::{
    a_log_grows_by_one_record, a_log_stands_on, a_synced_log_has_all, a_text_reads_in_one_way,
    a_whole_log_reads_to_its_batches, an_image_has_the_durable_batches, an_image_reads_to_a_front,
};
pub use log::Wal;
pub use reading::{WalError, WalRead, read_wal};
pub use why::WalWhy;
