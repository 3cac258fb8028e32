//! A light client: it holds no chain, and believes a block that a finalization leads down to.
#![tactic(auto)]

mod check;
mod laws;
mod path;
mod signers;

pub use check::{Answer, light_check};
pub use laws::light_laws;
pub use signers::is_valid;
