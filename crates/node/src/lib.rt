//! One member of a cluster, step by step, by the full rules.
#![tactic(auto)]

mod accept;
mod act;
mod answers;
mod arrival;
mod blocks;
mod came;
mod direct;
mod fits;
mod holding;
mod host;
mod laws;
mod leads;
mod member;
mod missing;
mod naming;
mod owed;
mod seat;
mod sends;
mod start;
mod store;
mod voting;
mod way;
mod write;

pub use arrival::{Arrival, Shown};
pub use laws::life_laws;
pub use mailbox;
pub use member::{Member, Node, NodeError};
pub use naming::whole_commit;
pub use seat::{MemberSeat, Seat, step_seat};
pub use way::{Chunked, Uncut, Way};
