//! The cluster whose blocks travel whole: the run of a script, and the program from bytes to bytes.
//! It is the world of any way in which blocks travel, for this one.
#![tactic(auto)]

mod program;
mod run;

pub use hail_script::RunError;
pub use program::whole_program;
pub use run::{Report, whole_run};
pub use whole_node::WholeNode;
