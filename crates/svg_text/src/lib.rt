//! The drawing of a run as SVG: whole numbers, ASCII, one element a line.
#![tactic(auto)]

mod endings;
mod filling;
mod grid;
mod marks;
mod shapes;
pub mod svg;
