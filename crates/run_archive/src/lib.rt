//! The archive over a run: from a script's bytes to which links an archive of the chunks that were
//! sent gives back. It is a library, so that others than the program `hail_archive` can call it.
#![tactic(auto)]

mod filling;
mod program;
mod text;

pub use program::archive_program;
