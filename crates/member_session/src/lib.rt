//! One member of a cluster as a process: the talk of a member with its host, line by line, and the
//! program that answers each line of a source on a sink.
#![tactic(auto)]

mod heading;
mod opening;
mod program;
mod running;
mod session;
mod telling;

pub use hail_report::words_of;
pub use heading::Heading;
pub use opening::Opening;
pub use program::{End, member_program};
pub use running::Running;
pub use session::Session;
