//! What every command has of its files and of its run.
//!
//! What a file is judged to be, one reader for each kind: a project, a journal, a script; and the line that says why it isn't. The
//! plans of specs/Plans say what each leads to. And the report of what was recorded, handed out line by line: whoever writes a
//! report asks for its lines by number, one after another, and needs room for one line at a time.
#![tactic(auto)]

mod causes;
mod codes;
mod ends;
mod judged;
mod report;

pub use causes::project_cause_line;
pub use ends::{End, end_of};
pub use judged::{Judged, judge_journal, judge_project, judge_script};
pub use report::{end_line, report_line};
