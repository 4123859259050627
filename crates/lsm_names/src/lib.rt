// The names of a store's files, of its folders and of the paths to them. No call takes memory.
#![tactic(auto)]

mod errors;
mod file_names;
mod folders;
pub mod laws;
mod numbers;
mod paths;
mod sessions;
mod shared_names;
mod text;

pub use errors::{NotAName, TooLong};
pub use file_names::FileName;
pub use folders::{FOLDER_LIMIT, Folder};
pub use numbers::{LAST_FILE_NUMBER, is_file_number};
pub use paths::{PATH_LIMIT, Path};
pub use sessions::{SESSION_LENGTH, Session};
pub use shared_names::SharedName;
