//! A file's bytes under a name, whole or not at all: they are written under a temporary name,
//! which then takes the place of what stood under the name.
#![tactic(auto)]

mod publishing;

pub use publishing::{publish, published_in_each_image, switch, write_temporary};
