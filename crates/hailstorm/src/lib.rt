//! The cluster that a script runs whose blocks travel in chunks, with lanes too, what is reported
//! of the run, storms, and the programs from bytes to bytes.
#![tactic(auto)]

mod cursors;
mod lane_program;
mod lanes;
mod program;
mod reply;
mod text;
mod turning;
mod world;

pub use hail_report::{
    Acked, Early, Entry, Exit, Sent, end_early, finish, opening_laws, storm_laws, storm_script,
    words_of,
};
pub use hail_script::{LaneScript, RunError, Script};
pub use lane_program::lanes_program;
pub use program::run_program;
pub use text::report_text;
pub use world::{Report, World};
