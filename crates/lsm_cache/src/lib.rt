//! Kept blocks: data blocks of tables that were read, so that they needn't be read again.
#![tactic(auto)]

mod blocks;
mod getting;
mod laws;

pub use blocks::{BlockCache, BlockPlace};
pub use getting::cached_get;
pub use laws::{
    a_block_may_be_put_for_its_table, a_forgotten_number_may_be_given_again,
    a_put_block_is_of_no_other_table, a_table_that_stays_keeps_its_blocks,
    blocks_of_one_table_change_no_other, forgetting_keeps_what_is_left,
    no_blocks_are_those_of_a_table,
};
