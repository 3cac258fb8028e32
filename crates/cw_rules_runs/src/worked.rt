//! Worked runs, computed from the definitions: who sends what in which order, how many notes each
//! member has and how many blocks it handed out, what ends the run, and the chain.
//!
//! A message is told as its sender, whom it goes to (100 for all) and what it says: the tag of its
//! kind (0 shard, 1 vote, 2 certificate, 3 and 4 questions, 5 block) and its numbers.
#![tactic(auto, unfolding(cw_types::specs::Same::same_commitment, cw_types::specs::Same::same_context, cw_types::specs::Same::same_proposal, cw_types::specs::Same::same_vote, cw_types::specs::Same::same_cert, cw_types::specs::Same::same_block))]

ghost use Rattle.std.specs.Prelude.{◌≡◌, ℕ, List, [], ◌∷◌, None, Some, map};
ghost use Rattle.cw_types.specs.declared.event.Event.{Event};
ghost use Rattle.cw_types.specs.declared.message.Message.{Message};
ghost use Rattle.cw_rules.specs.Chains.{Clashes, Ends, outcome};
ghost use Rattle.cw_rules.specs.Reached.{IsCluster, ReachesClear};
ghost use Rattle.cw_rules.specs.Report.{report_of};
ghost use Rattle.cw_rules.specs.Rules.{commit, digest, genesis, genesis_commitment};
ghost use Rattle.cw_rules.specs.World.{opening, world_of};
ghost use Rattle.cw_rules_runs.specs.Toy.{kinds, payloads, signers, told_from, told_short, totals};
ghost use Rattle.cw_rules_runs.specs.Toy.{toy_block_bytes};
ghost use Rattle.cw_rules_runs.specs.Scenes.{adding, ascending, chain_heights, colliding};
ghost use Rattle.cw_rules_runs.specs.Scenes.{proposed_again};
ghost use Rattle.cw_rules_runs.specs.Scenes.{cut_run, descending, finalized_run, first_block, four};
ghost use Rattle.cw_rules_runs.specs.Scenes.{fresh, next_epoch, proposed_next, short_epochs};
ghost use Rattle.cw_rules_runs.specs.Scenes.{steps_from, three_epochs, tickets_of, timeouts};
ghost use Rattle.cw_rules_runs.specs.Scenes.{two_committees, two_offers, whole_cut};
ghost use Rattle.cw_rules_runs.specs.Scenes.{whole_finalized, whole_four, whole_offer, whole_voted};

/// Three timeouts, a nullification, and a block in the next view, which is not finalized.
pub fn timeouts_and_a_block_in_the_next_view()
    ensures sent { told_from 0 (world_of four timeouts).pool
        ≡ (0 ∷ 100 ∷ 1 ∷ 0 ∷ 1 ∷ 0 ∷ 1 ∷ []) ∷ (1 ∷ 100 ∷ 1 ∷ 1 ∷ 1 ∷ 0 ∷ 1 ∷ []) ∷
        (2 ∷ 100 ∷ 1 ∷ 2 ∷ 1 ∷ 0 ∷ 1 ∷ []) ∷ (2 ∷ 100 ∷ 2 ∷ 3 ∷ 1 ∷ 0 ∷ 1 ∷ [])
        ∷ (2 ∷ 0 ∷ 0 ∷ 0 ∷ []) ∷ (2 ∷ 1 ∷ 0 ∷ 1 ∷ []) ∷ (2 ∷ 100 ∷ 0 ∷ 2 ∷ []) ∷
        (2 ∷ 3 ∷ 0 ∷ 3 ∷ [])
        ∷ (2 ∷ 100 ∷ 1 ∷ 2 ∷ 0 ∷ 0 ∷ 2 ∷ 0 ∷ []) ∷ (0 ∷ 100 ∷ 2 ∷ 3 ∷ 1 ∷ 0 ∷ 1 ∷ []) ∷
        (0 ∷ 100 ∷ 0 ∷ 0 ∷ []) ∷ (0 ∷ 100 ∷ 1 ∷ 0 ∷ 0 ∷ 0 ∷ 2 ∷ 0 ∷ []) ∷ [] }
    // the nullification is of three members, and goes on with their names
    ensures signers { signers (world_of four timeouts).pool ≡ (0 ∷ 1 ∷ 2 ∷ []) ∷ (0 ∷ 1 ∷ 2 ∷ [])
        ∷ [] }
    ensures entries { steps_from 0 four timeouts ≡ (2, None, 0 ∷ [], []) ∷ (3, None, 1 ∷ [], []) ∷
        (4, None, 2 ∷ [], []) ∷ (5, None, [], []) ∷ (6, None, 3 ∷ [], []) ∷
        (7, None, 4 ∷ 5 ∷ 6 ∷ 7 ∷ 8 ∷ [], []) ∷ (8, None, 9 ∷ [], []) ∷ (9, None, 10 ∷ [], []) ∷
        (10, None, 11 ∷ [], []) ∷ [] }
    ensures counts { totals (world_of four timeouts) ≡ (3, 1) ∷ (1, 1) ∷ (5, 1) ∷ (0, 1) ∷ [] }
    ensures chain { chain_heights four timeouts ≡ 0 ∷ [] }
{}

/// A block is proposed, notarized and finalized. What is sent, and how many notes and handed blocks
/// each member has.
pub fn a_block_is_finalized()
    ensures sent { kinds (world_of four finalized_run).pool
        ≡ (1, 0) ∷ (1, 0) ∷ (1, 0) ∷ (1, 0) ∷ (1, 1) ∷ (0, 0) ∷ (0, 1) ∷ (2, 0) ∷ (2, 1) ∷ (0, 2) ∷
        (0, 1) ∷ (1, 2) ∷ (1, 1) ∷ (2, 2) ∷ (2, 3) ∷ (2, 1) ∷ (2, 2) ∷ [] }
    ensures entries { steps_from 0 four finalized_run ≡ (2, None, 0 ∷ 1 ∷ 2 ∷ 3 ∷ 4 ∷ [], []) ∷
        (3, None, 5 ∷ [], []) ∷ (4, None, [], []) ∷ (5, None, 6 ∷ [], []) ∷ (6, None, 7 ∷ [], []) ∷
        (7, None, 8 ∷ [], []) ∷ (8, None, 9 ∷ 10 ∷ [], []) ∷ (9, None, 11 ∷ 12 ∷ [], []) ∷
        (10, None, 13 ∷ 14 ∷ [], []) ∷ (11, None, 15 ∷ [], []) ∷ (12, None, [], []) ∷
        (13, None, 16 ∷ [], 1 ∷ []) ∷ [] }
    ensures counts { totals (world_of four finalized_run) ≡ (5, 1) ∷ (6, 1) ∷ (6, 2) ∷ (0, 1) ∷ [] }
{}

/// The last step is cut: its notes are lost, or stay, and the restart sends what the last frame
/// gives.
pub fn a_cut_leaves_all_or_none()
    ensures lost { kinds (world_of four (cut_run 0)).pool
        ≡ (1, 0) ∷ (1, 0) ∷ (1, 0) ∷ (1, 0) ∷ (1, 1) ∷ (0, 0) ∷ (0, 1) ∷ (2, 0) ∷ (2, 1) ∷ (0, 2) ∷
        (0, 1) ∷ (1, 2) ∷ (1, 1) ∷ (2, 2) ∷ (2, 3) ∷ (2, 1) ∷ (2, 1) ∷ [] }
    ensures lost_counts { totals (world_of four (cut_run 0)) ≡ (5, 1) ∷ (6, 1) ∷ (5, 1) ∷ (0, 1)
        ∷ [] }
    ensures kept { kinds (world_of four (cut_run 1)).pool
        ≡ (1, 0) ∷ (1, 0) ∷ (1, 0) ∷ (1, 0) ∷ (1, 1) ∷ (0, 0) ∷ (0, 1) ∷ (2, 0) ∷ (2, 1) ∷ (0, 2) ∷
        (0, 1) ∷ (1, 2) ∷ (1, 1) ∷ (2, 2) ∷ (2, 3) ∷ (2, 1) ∷ (2, 2) ∷ [] }
    ensures kept_counts { totals (world_of four (cut_run 1)) ≡ (5, 1) ∷ (6, 1) ∷ (6, 2) ∷ (0, 1)
        ∷ [] }
    ensures lost_chain { chain_heights four (cut_run 0) ≡ 0 ∷ [] }
    ensures kept_chain { chain_heights four (cut_run 1) ≡ 0 ∷ 1 ∷ [] }
    // the cut's entry is empty; the restart finds the notes, sends one message and hands out what
    // it holds
    ensures lost_entries { steps_from 11 four (cut_run 0) ≡ (13, None, [], []) ∷
        (14, Some 5, 16 ∷ [], 0 ∷ []) ∷ [] }
    ensures kept_entries { steps_from 11 four (cut_run 1) ≡ (13, None, [], []) ∷
        (14, Some 6, 16 ∷ [], 0 ∷ 1 ∷ []) ∷ [] }
{}

/// A ticket is answered when it is given, and again once its block is held, unless it was
/// cancelled.
pub fn tickets_wait_for_blocks()
    ensures served { tickets_of four fresh
        (Event.WatchDigest (digest four (genesis four)) ∷ Event.WatchCommitment
        (commit four first_block) ∷ Event.Deliver (Message.Block first_block) ∷ [])
        ≡ (record { number = 0; commitment = None }
        ∷ record { number = 0; commitment = Some (genesis_commitment four) } ∷ [])
        ∷ (record { number = 1; commitment = None } ∷ []) ∷
        (record { number = 1; commitment = Some (commit four first_block) } ∷ []) ∷ [] }
    ensures cancelled { tickets_of four fresh
        (Event.WatchDigest (digest four first_block) ∷ Event.Cancel 0 ∷ Event.Deliver
        (Message.Block first_block) ∷ [])
        ≡ (record { number = 0; commitment = None } ∷ []) ∷ [] ∷ [] ∷ [] }
{}

/// A faulty leader offers two blocks in one view. The first is notarized, and a vote for the second
/// changes nothing.
pub fn a_faulty_leader_offers_two_blocks()
    ensures sent { told_from 0 (world_of four two_offers).pool
        ≡ (1 ∷ 0 ∷ 0 ∷ 0 ∷ []) ∷ (1 ∷ 100 ∷ 0 ∷ 1 ∷ []) ∷ (1 ∷ 2 ∷ 0 ∷ 2 ∷ []) ∷
        (1 ∷ 3 ∷ 0 ∷ 3 ∷ []) ∷ (1 ∷ 100 ∷ 1 ∷ 1 ∷ 0 ∷ 0 ∷ 1 ∷ 0 ∷ [])
        ∷ (1 ∷ 0 ∷ 0 ∷ 0 ∷ []) ∷ (1 ∷ 100 ∷ 0 ∷ 1 ∷ []) ∷ (1 ∷ 2 ∷ 0 ∷ 2 ∷ []) ∷
        (1 ∷ 3 ∷ 0 ∷ 3 ∷ []) ∷ (1 ∷ 100 ∷ 1 ∷ 1 ∷ 0 ∷ 0 ∷ 1 ∷ 0 ∷ [])
        ∷ (0 ∷ 100 ∷ 0 ∷ 0 ∷ []) ∷ (0 ∷ 100 ∷ 1 ∷ 0 ∷ 0 ∷ 0 ∷ 1 ∷ 0 ∷ []) ∷ (2 ∷ 100 ∷ 0 ∷ 2 ∷ []) ∷
        (2 ∷ 100 ∷ 1 ∷ 2 ∷ 0 ∷ 0 ∷ 1 ∷ 0 ∷ []) ∷ (3 ∷ 100 ∷ 0 ∷ 3 ∷ [])
        ∷ (3 ∷ 100 ∷ 1 ∷ 3 ∷ 0 ∷ 0 ∷ 1 ∷ 0 ∷ []) ∷ (0 ∷ 100 ∷ 2 ∷ 3 ∷ 0 ∷ 0 ∷ 1 ∷ 0 ∷ []) ∷
        (0 ∷ 100 ∷ 3 ∷ 0 ∷ []) ∷ [] }
    // the votes are for the one block and the other, and the notarization is of the first
    ensures payloads { payloads (world_of four two_offers).pool ≡ 61 ∷ 62 ∷ 61 ∷ 62 ∷ 61 ∷ 61 ∷ [] }
    ensures signers { signers (world_of four two_offers).pool ≡ (0 ∷ 1 ∷ 3 ∷ []) ∷ [] }
    ensures entries { steps_from 0 four two_offers ≡ (2, None, 0 ∷ 1 ∷ 2 ∷ 3 ∷ 4 ∷ [], []) ∷
        (3, None, 5 ∷ 6 ∷ 7 ∷ 8 ∷ 9 ∷ [], []) ∷ (4, None, 10 ∷ [], []) ∷ (5, None, 11 ∷ [], []) ∷
        (6, None, 12 ∷ [], []) ∷ (7, None, 13 ∷ [], []) ∷ (8, None, 14 ∷ [], []) ∷
        (9, None, 15 ∷ [], []) ∷ (10, None, 16 ∷ 17 ∷ [], []) ∷ (11, None, [], []) ∷ [] }
    ensures counts { totals (world_of four two_offers) ≡ (2, 1) ∷ (0, 0) ∷ (1, 1) ∷ (1, 1) ∷ [] }
    ensures chain { chain_heights four two_offers ≡ 0 ∷ [] }
{}

/// Two blocks of one digest end the run, and without such a pair it ends in the script's world.
pub fn a_clash_ends_the_run()
    ensures clash { outcome adding (opening adding colliding) colliding ≡ Clashes
        (toy_block_bytes ascending) (toy_block_bytes descending) }
    ensures clear { outcome four (opening four finalized_run) finalized_run ≡ Ends
        (world_of four finalized_run) }
    ensures chain { map (λ b. b.height)
        (report_of four finalized_run (world_of four finalized_run)).chain ≡ 0 ∷ 1 ∷ [] }
{}

/// A block at the end of its epoch is certified and proposed again, without a new block, until it
/// is finalized.
pub fn a_block_at_the_end_of_its_epoch_is_proposed_again()
    ensures sent { told_from 16 (world_of short_epochs proposed_again).pool
        ≡ (2 ∷ 100 ∷ 1 ∷ 2 ∷ 0 ∷ 0 ∷ 2 ∷ 1 ∷ []) ∷ (0 ∷ 100 ∷ 1 ∷ 0 ∷ 0 ∷ 0 ∷ 2 ∷ 1 ∷ []) ∷
        (1 ∷ 100 ∷ 1 ∷ 1 ∷ 0 ∷ 0 ∷ 2 ∷ 1 ∷ [])
        ∷ (2 ∷ 100 ∷ 2 ∷ 3 ∷ 0 ∷ 0 ∷ 2 ∷ 1 ∷ []) ∷ (2 ∷ 100 ∷ 1 ∷ 2 ∷ 2 ∷ 0 ∷ 2 ∷ 1 ∷ []) ∷ [] }
    ensures chain { chain_heights short_epochs proposed_again ≡ 0 ∷ [] }
    // without an end of the epoch the same events make a new block
    ensures new { told_from 16 (world_of four proposed_next).pool
        ≡ (2 ∷ 0 ∷ 0 ∷ 0 ∷ []) ∷ (2 ∷ 1 ∷ 0 ∷ 1 ∷ []) ∷ (2 ∷ 100 ∷ 0 ∷ 2 ∷ []) ∷
        (2 ∷ 3 ∷ 0 ∷ 3 ∷ []) ∷ (2 ∷ 100 ∷ 1 ∷ 2 ∷ 0 ∷ 0 ∷ 2 ∷ 1 ∷ []) ∷ [] }
{}

/// The last block of an epoch is finalized, and the next epoch's leader proposes to the next
/// committee.
pub fn the_next_epochs_leader_proposes()
    ensures sent { told_from 17 (world_of two_committees next_epoch).pool
        ≡ (2 ∷ 1 ∷ 0 ∷ 0 ∷ []) ∷ (2 ∷ 100 ∷ 0 ∷ 1 ∷ []) ∷ (2 ∷ 3 ∷ 0 ∷ 2 ∷ []) ∷
        (2 ∷ 4 ∷ 0 ∷ 3 ∷ []) ∷ (2 ∷ 100 ∷ 1 ∷ 2 ∷ 0 ∷ 1 ∷ 1 ∷ 0 ∷ []) ∷ [] }
    ensures counts { totals (world_of two_committees next_epoch) ≡ (5, 1) ∷ (6, 1) ∷ (10, 2) ∷
        (0, 1) ∷ (0, 1) ∷ [] }
    ensures chain { chain_heights two_committees next_epoch ≡ 0 ∷ 1 ∷ [] }
    // the header has two more lines, of the committees
    ensures entries { steps_from 12 two_committees next_epoch
        ≡ (16, None, 17 ∷ 18 ∷ 19 ∷ 20 ∷ 21 ∷ [], []) ∷ [] }
{}

/// Two epochs end and a third begins, by two committees. Computed elsewhere by a program of its
/// own.
pub fn three_epochs_follow_one_another()
    ensures sent { told_short (world_of two_committees three_epochs).pool
        ≡ (1 ∷ 0 ∷ 0 ∷ 0 ∷ []) ∷ (1 ∷ 100 ∷ 0 ∷ 1 ∷ []) ∷ (1 ∷ 2 ∷ 0 ∷ 2 ∷ []) ∷
        (1 ∷ 3 ∷ 0 ∷ 3 ∷ []) ∷ (1 ∷ 100 ∷ 1 ∷ 1 ∷ 0 ∷ 0 ∷ 1 ∷ []) ∷ (0 ∷ 100 ∷ 0 ∷ 0 ∷ []) ∷
        (0 ∷ 100 ∷ 1 ∷ 0 ∷ 0 ∷ 0 ∷ 1 ∷ []) ∷ (2 ∷ 100 ∷ 0 ∷ 2 ∷ [])
        ∷ (2 ∷ 100 ∷ 1 ∷ 2 ∷ 0 ∷ 0 ∷ 1 ∷ []) ∷ (0 ∷ 100 ∷ 2 ∷ 3 ∷ 0 ∷ 0 ∷ 1 ∷ []) ∷
        (0 ∷ 100 ∷ 1 ∷ 0 ∷ 2 ∷ 0 ∷ 1 ∷ []) ∷ (1 ∷ 100 ∷ 2 ∷ 3 ∷ 0 ∷ 0 ∷ 1 ∷ []) ∷
        (1 ∷ 100 ∷ 1 ∷ 1 ∷ 2 ∷ 0 ∷ 1 ∷ []) ∷ (2 ∷ 100 ∷ 2 ∷ 3 ∷ 0 ∷ 0 ∷ 1 ∷ []) ∷
        (2 ∷ 100 ∷ 3 ∷ []) ∷ (2 ∷ 100 ∷ 1 ∷ 2 ∷ 2 ∷ 0 ∷ 1 ∷ [])
        ∷ (2 ∷ 100 ∷ 2 ∷ 3 ∷ 2 ∷ 0 ∷ 1 ∷ []) ∷ (2 ∷ 1 ∷ 0 ∷ 0 ∷ []) ∷ (2 ∷ 100 ∷ 0 ∷ 1 ∷ []) ∷
        (2 ∷ 3 ∷ 0 ∷ 2 ∷ []) ∷ (2 ∷ 4 ∷ 0 ∷ 3 ∷ []) ∷ (2 ∷ 100 ∷ 1 ∷ 2 ∷ 0 ∷ 1 ∷ 1 ∷ []) ∷
        (1 ∷ 100 ∷ 2 ∷ 3 ∷ 2 ∷ 0 ∷ 1 ∷ []) ∷ (1 ∷ 100 ∷ 0 ∷ 0 ∷ [])
        ∷ (1 ∷ 100 ∷ 1 ∷ 1 ∷ 0 ∷ 1 ∷ 1 ∷ []) ∷ (4 ∷ 100 ∷ 2 ∷ 3 ∷ 2 ∷ 0 ∷ 1 ∷ []) ∷
        (4 ∷ 100 ∷ 3 ∷ []) ∷ (2 ∷ 4 ∷ 5 ∷ 1 ∷ []) ∷ (4 ∷ 100 ∷ 0 ∷ 3 ∷ []) ∷
        (4 ∷ 100 ∷ 1 ∷ 4 ∷ 0 ∷ 1 ∷ 1 ∷ []) ∷ (2 ∷ 100 ∷ 2 ∷ 3 ∷ 0 ∷ 1 ∷ 1 ∷ []) ∷
        (2 ∷ 100 ∷ 1 ∷ 2 ∷ 2 ∷ 1 ∷ 1 ∷ [])
        ∷ (1 ∷ 100 ∷ 2 ∷ 3 ∷ 0 ∷ 1 ∷ 1 ∷ []) ∷ (1 ∷ 100 ∷ 1 ∷ 1 ∷ 2 ∷ 1 ∷ 1 ∷ []) ∷
        (4 ∷ 100 ∷ 2 ∷ 3 ∷ 0 ∷ 1 ∷ 1 ∷ []) ∷ (4 ∷ 100 ∷ 1 ∷ 4 ∷ 2 ∷ 1 ∷ 1 ∷ []) ∷
        (2 ∷ 100 ∷ 2 ∷ 3 ∷ 2 ∷ 1 ∷ 1 ∷ []) ∷ (2 ∷ 1 ∷ 0 ∷ 0 ∷ []) ∷ (2 ∷ 100 ∷ 0 ∷ 1 ∷ []) ∷
        (2 ∷ 3 ∷ 0 ∷ 2 ∷ [])
        ∷ (2 ∷ 4 ∷ 0 ∷ 3 ∷ []) ∷ (2 ∷ 100 ∷ 1 ∷ 2 ∷ 0 ∷ 2 ∷ 1 ∷ []) ∷
        (4 ∷ 100 ∷ 2 ∷ 3 ∷ 2 ∷ 1 ∷ 1 ∷ []) ∷ [] }
    ensures counts { totals (world_of two_committees three_epochs) ≡ (5, 1) ∷ (13, 2) ∷ (18, 3) ∷
        (0, 1) ∷ (10, 3) ∷ [] }
    ensures clear { outcome two_committees (opening two_committees three_epochs) three_epochs ≡ Ends
        (world_of two_committees three_epochs) }
{}

/// The premises of the laws are met by two committees.
pub fn premises_met()
    ensures cluster { IsCluster two_committees three_epochs }
    ensures reached { ReachesClear two_committees three_epochs
        (world_of two_committees three_epochs) }
{}

/// Blocks travel whole: a block goes to all, and who has it and its leader's vote votes for it.
pub fn a_whole_block_is_notarized()
    ensures sent { told_from 0 (world_of whole_four whole_voted).pool
        ≡ (1 ∷ 100 ∷ 5 ∷ 1 ∷ []) ∷ (1 ∷ 100 ∷ 1 ∷ 1 ∷ 0 ∷ 0 ∷ 1 ∷ 0 ∷ []) ∷
        (0 ∷ 100 ∷ 1 ∷ 0 ∷ 0 ∷ 0 ∷ 1 ∷ 0 ∷ []) ∷ (2 ∷ 100 ∷ 1 ∷ 2 ∷ 0 ∷ 0 ∷ 1 ∷ 0 ∷ []) ∷
        (0 ∷ 100 ∷ 2 ∷ 3 ∷ 0 ∷ 0 ∷ 1 ∷ 0 ∷ []) ∷ (0 ∷ 100 ∷ 1 ∷ 0 ∷ 2 ∷ 0 ∷ 1 ∷ 0 ∷ []) ∷ [] }
    ensures entries { steps_from 0 whole_four whole_voted ≡ (2, None, 0 ∷ 1 ∷ [], []) ∷
        (3, None, [], []) ∷ (4, None, 2 ∷ [], []) ∷ (5, None, [], []) ∷ (6, None, 3 ∷ [], []) ∷
        (7, None, 4 ∷ 5 ∷ [], []) ∷ [] }
    ensures counts { totals (world_of whole_four whole_voted) ≡ (5, 1) ∷ (3, 1) ∷ (2, 1) ∷ (0, 1)
        ∷ [] }
    ensures chain { chain_heights whole_four whole_voted ≡ 0 ∷ [] }
{}

/// It is finalized and handed out. Where the last step is cut, the member finds five notes, and
/// sends its last certificate and its last vote again.
pub fn a_whole_block_is_finalized()
    ensures entries { steps_from 6 whole_four whole_finalized ≡ (8, None, 6 ∷ 7 ∷ [], []) ∷
        (9, None, 8 ∷ 9 ∷ [], []) ∷ (10, None, [], []) ∷ (11, None, 10 ∷ [], 1 ∷ []) ∷ [] }
    ensures counts { totals (world_of whole_four whole_finalized) ≡ (5, 1) ∷ (6, 1) ∷ (6, 2) ∷
        (0, 1) ∷ [] }
    ensures chain { chain_heights whole_four whole_finalized ≡ 0 ∷ 1 ∷ [] }
    ensures cut { steps_from 9 whole_four whole_cut ≡ (11, None, [], []) ∷
        (12, Some 5, 10 ∷ 11 ∷ [], 0 ∷ []) ∷ [] }
    ensures cut_sent { told_from 10 (world_of whole_four whole_cut).pool
        ≡ (2 ∷ 100 ∷ 2 ∷ 3 ∷ 0 ∷ 0 ∷ 1 ∷ 0 ∷ []) ∷ (2 ∷ 100 ∷ 1 ∷ 2 ∷ 2 ∷ 0 ∷ 1 ∷ 0 ∷ []) ∷ [] }
{}

/// A member votes for no payload that it never saw: with the proposal alone it waits for the block.
pub fn a_payload_that_was_not_seen_gets_no_vote()
    ensures entries { steps_from 0 whole_four whole_offer ≡ (2, None, 0 ∷ 1 ∷ [], []) ∷
        (3, None, [], []) ∷ (4, None, 2 ∷ [], []) ∷ (5, None, [], []) ∷ [] }
    ensures sent { told_from 0 (world_of whole_four whole_offer).pool
        ≡ (1 ∷ 100 ∷ 5 ∷ 1 ∷ []) ∷ (1 ∷ 100 ∷ 1 ∷ 1 ∷ 0 ∷ 0 ∷ 1 ∷ 0 ∷ []) ∷
        (0 ∷ 100 ∷ 1 ∷ 0 ∷ 0 ∷ 0 ∷ 1 ∷ 0 ∷ []) ∷ [] }
{}
