//! The table of names of a disk in memory: what stands under each name, what a move makes of
//! it, and what is listed of a folder.
#![tactic(auto)]

mod lookup;
mod places;
mod table;

pub use lookup::{find_file, has_folder, refusal_of_move, refusal_of_new, standing};
pub use table::{NameTable, Target};
