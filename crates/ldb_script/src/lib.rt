//! Scripts: the language, what each line prints, and the run of a script over a source, a sink and a disk.
#![tactic(auto)]

mod actors;
mod answering;
mod backups;
mod ending;
mod files;
mod input;
mod line;
mod listing;
mod opening;
mod operations;
mod place;
mod printing;
mod restoring;
mod script;
mod showing;
mod store;
mod words;

pub use ending::say;
pub use line::{Command, Line};
pub use operations::Operations;
pub use script::{Done, run_script};
