//! Runs of whole clusters, computed from the definitions of the cluster rules by the checker, under
//! a hash that computes: contracts of functions with empty bodies.
#![tactic(auto)]

mod random;
mod worked;

pub use random::{
    a_block_is_proposed_again_in_each_epoch, a_committee_of_four_is_followed_by_one_of_six,
    a_faulty_member_in_each_of_two_committees, a_member_of_a_later_committee_follows,
    a_restart_sends_the_last_vote_again, a_silent_leader_is_passed_over_in_each_epoch,
    an_acknowledged_block_is_not_handed_out_again, members_outside_the_committee_follow,
    the_last_block_is_finalized_in_two_views, three_blocks_fill_an_epoch, two_blocks_fill_an_epoch,
    two_blocks_in_each_of_two_epochs,
};
pub use worked::{
    a_block_at_the_end_of_its_epoch_is_proposed_again, a_block_is_finalized, a_clash_ends_the_run,
    a_cut_leaves_all_or_none, a_faulty_leader_offers_two_blocks,
    a_payload_that_was_not_seen_gets_no_vote, a_whole_block_is_finalized,
    a_whole_block_is_notarized, premises_met, the_next_epochs_leader_proposes,
    three_epochs_follow_one_another, tickets_wait_for_blocks,
    timeouts_and_a_block_in_the_next_view,
};
