//! The light client over a run: from a script's bytes to what the honest members' disks show of a
//! height. It is a library, so that others than the program `hail_light` can call it.
#![tactic(auto)]

mod program;
mod search;
mod table;
mod text;
mod told;

pub use program::light_program;
