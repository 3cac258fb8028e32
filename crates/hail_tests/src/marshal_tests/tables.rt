//! Calls of stores, and what they answer, as text.

/// A line `== NAME` begins a table. The next line has the backlog and the blocks of the list: the
/// chain of these heights over the first block; two rivals of height 1; or the chain with a block
/// of height 5 behind it. Each further line is a call, which `answers.rt` says, with its numbers,
/// and the answer. Names that speak of recovery, subscriptions and infos are the harness's own.
pub(crate) const STORES: &str = "== proposed_success_implies_recoverable_after_restart
3 chain 1 1
has 1: false
verified 1: None
verify 1: true
verified 1: Some(1)
has 1: true
restart: None
verified 1: Some(1)
has 1: true
restart: None
verified 1: Some(1)
has 1: true
== verified_success_implies_recoverable_after_restart
3 chain 1 3
verify 1: true
restart: None
verified 1: Some(1)
has 1: true
restart: None
verified 1: Some(1)
has 1: true
verify 2: true
restart: None
verified 2: Some(2)
has 2: true
verify 3: true
restart: None
restart: None
restart: None
restart: None
verified 1: Some(1)
verified 2: Some(2)
verified 3: Some(3)
verified 4: None
has 3: true
== certified_success_implies_recoverable_after_restart
3 chain 1 3
certify 1 5: true
restart: None
has 1: true
certify 2 5: true
restart: None
has 2: true
certify 3 5: true
restart: None
restart: None
restart: None
has 3: true
has 1: true
== verified_after_restart_reverify_same_round_implies_recoverable
3 rivals
verify 1: true
restart: None
verified 1: Some(1)
verify 1: true
verify 2: true
verified 1: Some(2)
restart: None
verified 1: Some(2)
has 1: true
has 2: true
verify 1: true
restart: None
restart: None
verified 1: Some(1)
has 1: true
has 2: true
== certify_after_restart_reverify_same_round_implies_recoverable
3 rivals
verify 1: true
restart: None
verified 1: Some(1)
verify 2: true
certify 2 1: true
restart: None
restart: None
verified 1: Some(2)
has 1: true
has 2: true
== delivery_visibility_implies_recoverable_after_restart
10 chain 1 5
verify_to 5: 5
report_to 5: 5
deliver: [0, 1, 2, 3, 4, 5]
finalization 3: Some(3)
restart: None
final: 5
finalization 1: Some(1)
finalization 5: Some(5)
restart: None
restart: None
final: 5
finalization 3: Some(3)
finalization 5: Some(5)
finalization 6: None
== a_height_is_delivered_once_in_a_start
3 chain 1 2
anchor: None
deliver: [0]
acknowledge: Some(0)
anchor: Some((0, 0))
verify_to 2: 2
report_to 2: 2
deliver: [1, 2]
acknowledge: Some(1)
anchor: Some((1, 1))
restart: Some(1)
anchor: Some((1, 1))
deliver: [2]
deliver: []
== ack_pipeline_backlog_persists_on_restart
3 chain 1 5
deliver: [0]
acknowledge: Some(0)
verify_to 5: 5
report_to 5: 5
deliver: [1, 2, 3]
acknowledge: Some(1)
deliver: [4]
acknowledge: Some(2)
deliver: [5]
acknowledge: Some(3)
restart: Some(3)
deliver: [4, 5]
acknowledge: Some(4)
deliver: []
acknowledge: Some(5)
acknowledge: None
== get_info_basic_queries_present_and_missing
3 chain 1 2
latest: None
at 0: Some(0)
of 0: Some(0)
at 1: None
of 1: None
verify 1: true
of 1: Some(1)
at 1: None
latest: None
report 1 1: true
at 1: Some(1)
of 1: Some(1)
latest: Some(1)
at 2: None
of 2: None
== get_info_latest_progression_multiple_finalizations
3 chain 1 5
verify 1: true
report 1 1: true
latest: Some(1)
verify 2: true
report 2 2: true
latest: Some(2)
verify 3: true
report 3 3: true
latest: Some(3)
verify 4: true
report 4 4: true
latest: Some(4)
verify 5: true
report 5 5: true
latest: Some(5)
at 1: Some(1)
at 2: Some(2)
at 3: Some(3)
at 4: Some(4)
at 5: Some(5)
at 6: None
== get_block_by_height_and_latest
3 chain 1 3
at 1: None
latest: None
verify_to 3: 3
report_to 3: 3
at 1: Some(1)
at 2: Some(2)
at 3: Some(3)
latest: Some(3)
at 10: None
== get_block_by_commitment_from_sources_and_missing
3 chain 1 4
verify 1: true
report 1 1: true
certify 2 2: true
report 3 3: true
has 3: false
verify 3: true
has 1: true
has 2: true
has 3: true
finalization 3: Some(3)
has 4: false
== a_round_has_a_verified_and_a_certified_block
3 rivals
verify 1: true
certify 2 1: true
has 1: true
has 2: true
report 1 1: true
report 1 2: true
report 1 2: false
finalization 1: Some(1)
== a_floor_jumps_over_heights
100 behind 100 160
deliver: [0]
set_floor 1 100: false
floor: None
report 61 160: true
verify_to 61: 61
floor: Some(100)
deliver_run: Some((100, 160, 61))
count_at 1 99: 0
count_at 100 160: 61
at 100: Some(1)
verify 62: false
has 62: false
== pruned_blocks_are_gone
4 chain 1 20
verify_to 20: 20
report_to 20: 20
process: 21
prune 25: false
final: 20
finalization 5: Some(5)
prune 10: true
final: 11
has 9: false
finalization 5: None
finalization 9: None
has 10: true
prune 10: false
final: 11
prune 20: true
final: 1
has 19: false
finalization 10: None
finalization 19: None
restart: Some(20)
final: 1
at 20: Some(20)
finalization 19: None
finalization 20: Some(20)
== ancestry_goes_down_to_genesis
3 chain 1 5
ancestry 5: []
verify_to 5: 5
report_to 5: 5
ancestry 5: [5, 4, 3, 2, 1, 0]
== subscribe_basic_block_delivery
3 chain 1 1
watch_digest 1: 0
tickets: []
verify 1: true
tickets: [(0, 1)]
tickets: []
== subscribe_multiple_subscriptions
3 chain 1 2
watch_digest 1: 0
watch_digest 2: 1
watch_commitment 1: 2
verify 1: true
tickets: [(0, 1), (2, 1)]
verify 2: true
tickets: [(1, 2)]
== subscribe_canceled_subscriptions
3 chain 1 2
watch_digest 1: 0
watch_digest 2: 1
cancel 1: true
cancel 1: false
verify_to 2: 2
report_to 2: 2
tickets: [(0, 1)]
cancel 0: false
== subscribe_blocks_from_different_sources
3 chain 1 6
watch_digest 1: 0
watch_digest 2: 1
watch_digest 3: 2
watch_digest 4: 3
watch_digest 5: 4
watch_digest 6: 5
verify 1: true
tickets: [(0, 1)]
verify 2: true
verify 2: true
tickets: [(1, 2)]
notarize 3 3: true
tickets: []
verify 3: true
tickets: [(2, 3)]
report 4 4: true
tickets: []
verify 4: true
tickets: [(3, 4)]
notarize 5 5: true
report 5 5: true
tickets: []
verify 5: true
tickets: [(4, 5)]
certify 6 6: true
tickets: [(5, 6)]
tickets: []
== noted_block_has_its_place
3 chain 1 2
places: []
verify 1: true
places: [(1, 0)]
verify 1: true
places: [(1, 0)]
restart: None
places: [(1, 0)]
== a_hole_is_filled_late
9 chain 1 5
verify 2: true
verify 3: true
verify 4: true
report 4 4: true
at 1: None
at 2: Some(2)
at 5: None
finalization 2: None
finalization 4: Some(4)
deliver: [0]
report 5 5: true
finalization 5: None
verify 5: true
at 5: Some(5)
finalization 5: Some(5)
verify 1: true
at 1: Some(1)
finalization 1: None
deliver: [1, 2, 3, 4, 5]
restart: None
at 1: Some(1)
final: 2
== two_finalizations_reach_one_height
9 chain 1 3
verify_to 3: 3
report 3 3: true
at 2: Some(2)
finalization 2: None
report 2 2: true
report 2 4: true
at 2: Some(2)
finalization 2: Some(2)
finalization 1: None
final: 2
== the_first_of_two_that_disagree_is_told
9 rivals
verify 2: true
report 1 1: true
at 1: None
report 2 2: true
at 1: Some(2)
finalization 1: Some(2)
verify 1: true
at 1: Some(1)
finalization 1: Some(1)
restart: None
at 1: Some(1)
finalization 1: Some(1)
== a_prune_above_a_hole
9 chain 1 5
verify 1: true
verify 3: true
verify 4: true
report 1 1: true
report 4 4: true
process: 2
at 2: None
set_floor 3 3: true
process: 2
prune 3: true
at 1: None
finalization 1: None
at 2: None
at 3: Some(3)
finalization 4: Some(4)
verify 5: true
report 5 5: true
at 5: Some(5)
at 1: None
restart: Some(4)
at 1: None
finalization 1: None
at 3: Some(3)
";
