//! The picture of a run, as SVG: a row for each line of the script, a lane for each member, an
//! arrow for each message that a line brings.
#![tactic(auto)]

mod arrows;
mod elements;
mod flights;
mod frame;
mod keys;
mod labels;
mod lanes;
mod lines;
mod links;
mod live;
mod marks;
mod rows;
mod steps;
mod style;
mod told;
mod whole;

pub use steps::Step;
pub use told::{Said, Says, says_of};
pub use whole::picture;
