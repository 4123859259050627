//! Manifests: a log of a version's edits, each a record, and the name `CURRENT` that leads to it.
//! What a crash leaves reads as the edits that were acknowledged, or these and the one under way.
#![tactic(auto)]

mod edits;
mod installing;
mod laws;
mod manifest;
mod reading;
mod why;
mod writing;

pub use edits::Edits;
pub use laws::{
    a_manifest_grows_by_one_record, a_manifest_of_before_is_whole, a_standing_manifest_is_whole,
    an_image_has_the_edits, an_image_reads_to_the_edits, an_installed_manifest_is_named,
    another_number_is_apart,
};
pub use manifest::Manifest;
pub use reading::{ManifestError, ManifestRead, read_manifest};
pub use why::ManifestWhy;
