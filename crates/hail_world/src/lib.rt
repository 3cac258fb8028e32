//! The cluster that a script runs, for both ways in which blocks travel, what is reported of the
//! run, and the frame of a program from bytes to bytes.
#![tactic(auto)]

mod blocks;
mod chain;
mod clash;
mod cluster;
mod event;
mod fault;
mod frame;
mod line_turn;
mod live_node;
mod place;
mod play;
mod program;
mod report;
mod setting;
mod turn;
mod world;

pub use cluster::Cluster;
pub use frame::{Made, end_made, run_source};
pub use live_node::{LiveNode, MemoryNode};
pub use program::run_input;
pub use report::{Ran, Report, report_text};
pub use world::run_text;
