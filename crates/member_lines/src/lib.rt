//! What a member's process and its host say to each other, a line at a time: what a host's line
//! asks for, why it is refused, and the lines of an answer. It holds no node.
#![tactic(auto)]

mod answer;
mod claim;
mod fields;
mod input;
mod line;
mod refusal;

pub use answer::{
    put_block, put_final, put_handed, put_names, put_no, put_ok, put_place, put_send, put_sync,
    put_ticket, put_write,
};
pub use claim::Claim;
pub use input::{Input, LONGEST, Next};
pub use line::{HostLine, Question};
pub use refusal::Refusal;
