//! The commands `check P`, `text P` and `migrate P`: what is said of one project.
#![tactic(auto)]

mod check;
mod lines;
mod migrate;
mod text;

pub use check::check_project;
pub use migrate::migrate_project;
pub use text::spell_project;
