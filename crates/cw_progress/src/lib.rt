//! Laws on what a cluster can still do, wherever a script has brought it.
//!
//! No member stands on this crate. The definitions stand in specs/; the laws, and worked runs that
//! the checker computes, are functions with an empty body, so that they can't go unproved.
#![tactic(auto)]

mod going_law;
mod handing_laws;
mod laws;
mod offer_laws;
mod settling_laws;
mod worked;

pub use going_law::goes_on_law;
pub use handing_laws::{ack_law, hand_out_law};
pub use laws::{
    able_laws, catch_up_laws, delivery_law, ended_laws, final_laws, fresh_law, further_laws,
    held_laws, new_view_law, one_view_law, over_laws, quorum_laws, sent_laws,
};
pub use offer_laws::{notarize_law, propose_law};
pub use settling_laws::{certify_law, finalize_law, hold_law, stocked_law};
pub use worked::{
    a_floor_within_an_epoch_keeps_its_member_out, a_split_view_goes_on,
    acknowledgements_let_a_block_go, all_come_to_one_view, all_vote_for_an_offer,
    what_is_certified_goes_over,
};
