//! A restore onto a store's own disk: laws of what each of its calls leaves of a good store.
#![tactic(auto)]

mod call_laws;
mod change_laws;
mod restore_laws;
mod step_laws;

pub use call_laws::{a_restores_calls_are_steps, runs_of_a_restore_lead_on};
pub use change_laws::a_restores_calls_change_its_folder_alone;
pub use restore_laws::{
    a_restore_leaves_a_good_store, a_restores_folder_reads_so, images_of_a_restore_show_the_state,
};
pub use step_laws::{a_begun_folder_is_filled, a_begun_folder_is_finished, a_folder_is_begun};
