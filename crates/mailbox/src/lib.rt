//! A state that turns on events, shared by threads under one lock. What lies under the lock knows
//! its history, and whoever closes the session learns that it is the calls that were made.
#![tactic(auto)]

mod call;
mod kept;
mod mailbox;
mod mark;
mod room;
mod session;
mod slot;
mod turn;

pub use call::Call;
pub use kept::Kept;
pub use mailbox::{CloseError, Mailbox};
pub use session::Session;
pub use turn::{Turn, TurnAlone};
