//! Tables: sorted files of rows, in data blocks with an index.
#![tactic(auto)]

mod building;
mod data_blocks;
mod faults;
mod index;
mod laws;
mod opening;
mod parts;
mod rows;
mod searching;
mod storing;
mod table;
mod tables;
mod walk;

pub use building::{Finished, TableBuilder};
pub use faults::{TableError, TableFault};
pub use laws::{
    a_footer_is_read, a_row_with_a_later_key_may_be_added, a_table_has_the_newest_row_of_a_key,
    a_table_opens, a_table_refuses_no_key, a_text_is_of_one_table, a_text_is_refused_in_one_way,
    a_text_opens_in_one_way, a_text_that_opens_is_not_refused, data_blocks_have_the_rows,
    data_blocks_stand_where_the_index_tells, stored_contents_are_read,
};
pub use parts::Properties;
pub use rows::rows_of;
pub use searching::row_of;
pub use table::Table;
pub use tables::Tables;
