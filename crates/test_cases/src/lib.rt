//! Worked runs and cases: what the definitions of the ladder machine give on projects, texts and traces of our own. Each
//! function is a law: it does nothing, and its contract is what is computed.
#![tactic(auto)]

mod change_cases;
mod duty_cases;
mod duty_stages;
mod journal_cases;
mod law_runs;
mod legal_cases;
mod link_cases;
mod mark_stages;
mod project_cases;
mod question_cases;
mod read_cases;
mod runs;
mod text_cases;
mod trace_laws;

pub use change_cases::{
    others_change_none, packets_are_broken, packets_are_whole, writers_change_tags,
};
pub use duty_cases::{duties_are_broken, duties_are_kept, lazy_traces_are_legal};
pub use duty_stages::{
    books_are_broken, duties_of_stages_are_broken, duties_of_stages_are_kept, retaken_rungs,
};
pub use journal_cases::{
    journals_are_read, journals_are_refused, journals_are_written, scripts_are_read,
    scripts_are_refused,
};
pub use law_runs::{
    copies_and_refusals, doctored_runs_break_laws, runs_are_legal, scans_keep_rungs,
    scripts_are_not_run, scripts_are_run,
};
pub use legal_cases::{laws_are_broken, laws_hold};
pub use link_cases::{links_are_refused, links_are_run};
pub use mark_stages::{base_is_edited, marks_and_order_are_broken, marks_and_order_are_kept};
pub use project_cases::{project_is_valid, projects_are_invalid};
pub use question_cases::{
    lines_are_shown, questions_are_read, questions_are_refused, windows_and_moments,
};
pub use read_cases::{readers_are_left_out, readers_are_listed};
pub use runs::{
    arithmetic_runs, conveyor_run, copy_runs, edit_runs, inhibited_runs, ladder_runs,
    parameter_runs, routine_runs, task_runs, timer_runs, word_runs,
};
pub use text_cases::{
    cause_cases, check_code_cases, conveyor_checked, conveyor_layout, conveyor_places,
    declare_cases, layout_cases, operand_cases, parameter_cases, resolution_cases, routine_cases,
    type_fault_cases,
};
pub use trace_laws::{trace_laws_are_broken, trace_laws_are_kept};
