//! What holds of every state that a journal leads to, over the definitions alone.
#![tactic(auto)]

mod laws;

pub use laws::{
    reached_states_are_sound, rungs_can_run, states_are_reachable, tasks_are_at_programs,
    words_lie_in_image,
};
