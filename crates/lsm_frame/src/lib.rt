//! Records in blocks: how a log lays its records out in pieces, so that a damaged or torn end is told from whole
//! records.
#![tactic(auto)]

mod ending;
mod found;
mod laws;
mod loaded;
mod next;
mod pieces;
mod reader;
mod steps;
mod writer;

pub use ending::Ending;
pub use laws::{
    alike_reads_alike, crashed_log_is_read, cut_log_is_read, grammar_ends_whole, log_is_read,
    log_text_grows, longer_cut_reads_more, record_is_read, records_come_in_turn, stays_read,
    writer_stays_at_the_end,
};
pub use next::{FrameError, Next};
pub use reader::FrameReader;
pub use writer::FrameWriter;
