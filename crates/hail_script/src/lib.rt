//! Scripts: what a cluster is asked to do, line by line, and which texts are scripts.
#![tactic(auto)]

mod error;
mod event;
mod headers;
mod lanes;
mod laws;
mod lines;
mod parse;
mod pieces;
mod raw;
mod script;
mod stop;
mod views;

pub use error::RunError;
pub use event::{Ask, AskKind, EventLine, Fault, FaultKind, LineKind};
pub use headers::Header;
pub use lanes::LaneScript;
pub use laws::script_laws;
pub use pieces::{bytes_of, number_of, numbers_of, pieces_of};
pub use script::Script;
pub use stop::Stop;
pub use views::view_text;
