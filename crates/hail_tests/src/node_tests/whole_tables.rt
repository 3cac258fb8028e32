//! What happens to members to which blocks come whole, and what they answer.

use super::play::Fronts;

/// Nothing, and the run in which member 1 proposes a block that is finalized, as members 0, 1 and 2
/// have it. Four members are one committee; member 1 leads view 1.
pub(crate) const WHOLE_FRONTS: Fronts = ["", FIRST, SECOND, THIRD];

const FIRST: &str = "block 1:
notarize 1 1 1: all vote 0 notarize 1 in 0/1 over 0
notarize 2 1 1: all cert notarize 1 in 0/1 over 0 by [0, 1, 2]; all vote 0 finalize 1 in 0/1 \
    over 0
notes: 5
";

const SECOND: &str = "propose 1: all block 1; all vote 1 notarize 1 in 0/1 over 0
notes: 3
notarization 1 1: all cert notarize 1 in 0/1 over 0 by [0, 1, 2]; all vote 1 finalize 1 in 0/1 \
    over 0
notes: 6
";

const THIRD: &str = "block 1:
notarize 1 1 1: all vote 2 notarize 1 in 0/1 over 0
notes: 2
notarization 1 1: all cert notarize 1 in 0/1 over 0 by [0, 1, 2]; all vote 2 finalize 1 in 0/1 \
    over 0
finalize 0 1 1:
finalize 1 1 1: all cert finalize 1 in 0/1 over 0 by [0, 1, 2]; hand 1
notes: 6
";

/// Tables, as `play.rt` says. The leader's proposal alone gets no vote, and none where chunks of
/// the block came. Member 2 doesn't lead view 1, and view 2, which it leads, isn't the member's
/// until view 1 is over. What is missing is asked for, and what is held is answered with, whole. A
/// block that has the commitment of genesis is shown as nothing, so it isn't noted.
pub(crate) const WHOLE_MEMBERS: &str = "== a whole block is voted on
whole: play 0 1 4
== a whole block is proposed
whole: play 1 2 4
== a whole block is finalized
whole: play 2 3 7
== an event that comes twice changes nothing: who votes
whole: twice 0 1 0
== an event that comes twice changes nothing: who proposes
whole: twice 1 2 0
== an event that comes twice changes nothing: who hands out
whole: twice 2 3 0
== a block that was never seen gets no vote
whole: play 0 0 0
notarize 1 1 1:
shard 1 0:
shard 1 1:
shard 1 2:
shard 1 3:
notes: 0
block 1: all vote 0 notarize 1 in 0/1 over 0
notes: 2
== a block gets no vote before its view
whole: play 0 0 0
block 1:
block 2:
notarize 2 2 2:
notarize 2 1 1:
notes: 2
notarize 1 1 1: all vote 0 notarize 1 in 0/1 over 0; all cert notarize 1 in 0/1 over 0 by \
    [0, 1, 2]; all vote 0 notarize 2 in 0/2 over 1; all vote 0 finalize 1 in 0/1 over 0
== a stop before anything is on the disk, and a start that sends again
whole: play 2 3 5
stop_at 3 0 0:
finalize 1 1 1: Disk
timeout 2: Failed
restart: all cert notarize 1 in 0/1 over 0 by [0, 1, 2]; all vote 2 finalize 1 in 0/1 over 0; \
    hand 0
notes: 5
finalize 1 1 1:
== a stopped step is found whole or not at all
whole: stop 2 3 5
1: 555555555
3: 565666666
5: 666666666
== a whole member asks and answers
whole: play 0 0 0
block 2: all ask 0 1
ask 3 2: 3 block 2
ask 3 1:
block 1:
ask 3 1: 3 block 1
finalization 1 1: all cert finalize 1 in 0/1 over 0 by [0, 1, 2]; hand 1
ask_height 2 1: 2 cert finalize 1 in 0/1 over 0 by [0, 1, 2]; 2 block 1
== no block is shown as genesis
whole as genesis: play 0 0 0
block 1:
notes: 0
";
