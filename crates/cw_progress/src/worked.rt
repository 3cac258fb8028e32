//! Worked runs, computed from the definitions: a cluster that goes on, and one that can't.
#![tactic(auto, unfolding(cw_types::specs::Same::same_commitment, cw_types::specs::Same::same_context, cw_types::specs::Same::same_proposal, cw_types::specs::Same::same_vote, cw_types::specs::Same::same_cert, cw_types::specs::Same::same_block))]

ghost use Rattle.std.specs.Prelude.{[], ℕ, List, Some, false, map, option_map, true, ◌++◌};
ghost use Rattle.std.specs.Prelude.{◌∷◌, ◌≡◌};
ghost use Rattle.std.specs.List.{list_all};
ghost use Rattle.cw_rules.specs.Notes.{view_of};
ghost use Rattle.cw_rules.specs.Owed.{has_voted};
ghost use Rattle.cw_rules.specs.Step.{member_notes};
ghost use Rattle.cw_rules.specs.World.{member_at, run, world_of};
ghost use Rattle.cw_progress.specs.Going.{goes_on, helps, is_able, is_stocked};
ghost use Rattle.cw_progress.specs.Going.{numbered_members, shows_twins};
ghost use Rattle.cw_progress.specs.Handing.{is_ack};
ghost use Rattle.cw_progress.specs.Over.{is_delivery};
ghost use Rattle.cw_progress.specs.Scenes.{all_acknowledge, one_pending_rules};
ghost use Rattle.cw_progress.specs.Scenes.{endless_rules, floor_at_the_end, floor_within};
ghost use Rattle.cw_progress.specs.Scenes.{one_certified, one_certified_lines, one_offer_lines};
ghost use Rattle.cw_progress.specs.Scenes.{one_view_lines};
ghost use Rattle.cw_progress.specs.Scenes.{split_view, split_view_lines, two_epochs_without_one};
ghost use Rattle.cw_progress.specs.Scenes.{two_heights_rules};
ghost use Rattle.cw_progress.specs.Views.{views_of};

/// Two members vote for a block and two to end its view, one of which was stopped before it sent
/// its vote. Lines that help lead on.
pub fn a_split_view_goes_on()
    ensures able { is_able endless_rules (world_of endless_rules split_view) ≡ true }
    // each line helps
    ensures helps { list_all (helps (world_of endless_rules split_view) (62 ∷ []))
        split_view_lines ≡ true }
    // each member hands out a block above genesis
    ensures goes { goes_on endless_rules (world_of endless_rules split_view) split_view_lines
        ≡ true }
    // no twins are shown
    ensures clear { shows_twins endless_rules (world_of endless_rules split_view) (62 ∷ [])
        split_view_lines ≡ false }
    // no lines at all lead nowhere
    ensures nothing { goes_on endless_rules (world_of endless_rules split_view) [] ≡ false }
{}

/// What one member certified goes over to another, which had nothing.
pub fn what_is_certified_goes_over()
    // that one is in the first view
    ensures before { option_map (λ m. view_of (member_notes m) 0)
        (member_at (world_of endless_rules one_certified) 3) ≡ Some 1 }
    // by deliveries alone
    ensures delivers { list_all is_delivery one_certified_lines ≡ true }
    // that view ends for it, since it certifies the block too
    ensures after { option_map (λ m. view_of (member_notes m) 0)
        (member_at (run endless_rules (world_of endless_rules one_certified) one_certified_lines) 3)
        ≡ Some 2 }
{}

/// One member has ended the view that all were in. By lines that help all come to the next.
pub fn all_come_to_one_view()
    ensures before { views_of (world_of endless_rules one_certified) ≡ 1 ∷ 2 ∷ 1 ∷ 1 ∷ [] }
    // each line helps
    ensures helps { list_all (helps (world_of endless_rules one_certified) (62 ∷ []))
        one_view_lines ≡ true }
    ensures after { views_of (run endless_rules (world_of endless_rules one_certified)
        one_view_lines) ≡ 2 ∷ 2 ∷ 2 ∷ 2 ∷ [] }
{}

/// All are in the first view. Its leader proposes, and by lines that help each votes for its block.
pub fn all_vote_for_an_offer()
    ensures before { map (λ at. has_voted (member_notes at.1) 0 1)
        (numbered_members (world_of endless_rules [])) ≡ false ∷ false ∷ false ∷ false ∷ [] }
    // each line helps
    ensures helps { list_all (helps (world_of endless_rules []) (61 ∷ [])) one_offer_lines
        ≡ true }
    ensures after { map (λ at. has_voted (member_notes at.1) 0 1)
        (numbered_members (run endless_rules (world_of endless_rules []) one_offer_lines))
        ≡ true ∷ true ∷ true ∷ true ∷ [] }
    // they stay in that view
    ensures stays { views_of (run endless_rules (world_of endless_rules []) one_offer_lines)
        ≡ 1 ∷ 1 ∷ 1 ∷ 1 ∷ [] }
{}

/// A member that lags raises a floor within an epoch that it hasn't entered. Then it can't enter
/// that epoch, and the cluster lacks its votes.
pub fn a_floor_within_an_epoch_keeps_its_member_out()
    // before it the cluster can go on
    ensures before { is_able two_heights_rules
        (world_of two_heights_rules two_epochs_without_one) ≡ true }
    // with it the cluster can't, though every block is still there
    ensures within { is_able two_heights_rules (world_of two_heights_rules floor_within) ≡ false }
    ensures stocked { is_stocked (world_of two_heights_rules floor_within) ≡ true }
    // a floor at the last block of the epoch before does no harm
    ensures at_the_end { is_able two_heights_rules
        (world_of two_heights_rules floor_at_the_end) ≡ true }
{}

/// Where one block at most may be pending, genesis keeps the next one back. Once each member
/// acknowledges genesis it hands that one out.
pub fn acknowledgements_let_a_block_go()
    // the lines that lead on where three may be pending don't here
    ensures before { goes_on one_pending_rules (world_of one_pending_rules split_view)
        split_view_lines ≡ false }
    ensures acks { list_all is_ack all_acknowledge ≡ true }
    // but with acknowledgements behind them
    ensures after { goes_on one_pending_rules (world_of one_pending_rules split_view)
        (split_view_lines ++ all_acknowledge) ≡ true }
{}
