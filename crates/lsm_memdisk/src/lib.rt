//! A disk in memory. It tells all that it holds and all images of each moment: its record of
//! changes is its story.
#![tactic(auto)]

mod disk;
mod plan;
mod view;

pub use disk::MemDisk;
pub use plan::Effect;
pub use view::MemView;
