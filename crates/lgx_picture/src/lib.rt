//! A report as a drawing for a document: one file of Scalable Vector Graphics, readable on light and on dark pages.
//!
//! Each line of the times that are shown is drawn. What the drawing says of a lane's marks is said of the last of those in one
//! place, and a viewer shows all of them when their stroke is pointed at. Many begins that are close together are one bar with
//! their count; pointing at it shows the first and the last.
#![tactic(auto)]

mod lanes;
mod looks;
mod marks;
mod runs;
mod scale;
mod shapes;
mod sizes;
mod strokes;
mod svg;
mod timeline;
mod values;

pub use svg::svg_text;
pub use timeline::{TimelineProgram, USAGE, draw_timeline};
