//! What happens to members to which blocks come in chunks, and what they answer.

use super::play::Fronts;

/// Nothing, and the run in which member 1 proposes a block that is finalized, as members 0, 1 and 2
/// have it. Four members are one committee; member 1 leads view 1.
pub(crate) const FRONTS: Fronts = ["", FIRST, SECOND, THIRD];

const FIRST: &str = "shard 1 0: all shard 0 of 1
shard 1 1:
notarize 1 1 1: all vote 0 notarize 1 in 0/1 over 0
notarize 2 1 1: all cert notarize 1 in 0/1 over 0 by [0, 1, 2]; all vote 0 finalize 1 in 0/1 \
    over 0
notes: 5
";

const SECOND: &str = "propose 1: 0 shard 0 of 1; all shard 1 of 1; 2 shard 2 of 1; 3 shard 3 of \
    1; all vote 1 notarize 1 in 0/1 over 0
notarization 1 1: all cert notarize 1 in 0/1 over 0 by [0, 1, 2]; all vote 1 finalize 1 in 0/1 \
    over 0
notes: 6
";

const THIRD: &str = "shard 1 2: all shard 2 of 1
notarize 1 1 1: all vote 2 notarize 1 in 0/1 over 0
notarization 1 1: all cert notarize 1 in 0/1 over 0 by [0, 1, 2]; all ask 2 1
shard 1 0: all vote 2 finalize 1 in 0/1 over 0
finalize 0 1 1:
notes: 5
finalize 1 1 1: all cert finalize 1 in 0/1 over 0 by [0, 1, 2]; hand 1
notes: 6
";

/// Tables, as `play.rt` says. A start sends again what the last whole step sent. There is no member
/// 4, and member 3 signed nothing, so a vote in its name isn't counted. In short epochs the block
/// of height 1 ends its epoch: it is proposed again in view 2, and no other block ever is. Its
/// finalization ends the epoch, and member 2 leads the first view of the next.
pub(crate) const MEMBERS: &str = "== a block is voted on
one epoch: play 0 1 5
== a block is proposed
one epoch: play 1 2 3
== a block is finalized
one epoch: play 2 3 8
== a member to which nothing comes
one epoch: play 3 0 0
restart: hand 0
notes: 0
== an event that comes twice changes nothing: who votes
one epoch: twice 0 1 0
== an event that comes twice changes nothing: who proposes
one epoch: twice 1 2 0
== an event that comes twice changes nothing: who hands out
one epoch: twice 2 3 0
== copies of all in the run are equal: who votes
one epoch: copy 0 1 0
== copies of all in the run are equal: who proposes
one epoch: copy 1 2 0
== copies of all in the run are equal: who hands out
one epoch: copy 2 3 0
== a start sends again what the last whole step sent, and the stopped one is lost
one epoch: play 2 3 6
stop_at 3 0 0:
finalize 1 1 1: Disk
timeout 2: Failed
restart: all vote 2 finalize 1 in 0/1 over 0; hand 0
notes: 5
finalize 1 1 1:
== a start sends again what the last whole step sent, and the stopped one is whole
one epoch: play 2 3 6
stop_at 3 1 0:
finalize 1 1 1: Disk
restart: all cert finalize 1 in 0/1 over 0 by [0, 1, 2]; hand 0; hand 1
notes: 6
notarization 1 1:
== the first write is stopped behind three bytes, and the rest is filled
one epoch: play 2 0 0
stop_at 1 3 255:
timeout 1: Disk
disk: [0, 0, 0, 0, 255, 255, 255, 255, 255, 255, 255, 255, 255, 255, 255, 255, 255, 255, 255, 255]
restart: hand 0
notes: 0
== the write of the gate is stopped at once, and filled with an open gate
one epoch: play 2 0 0
stop_at 3 0 1:
timeout 1: Disk
disk: [1, 0, 0, 0, 0, 0, 0, 0, 10, 3, 1, 0, 0, 0, 0, 0, 0, 0, 1, 0]
restart: all vote 2 nullify 0/1; hand 0
notes: 1
== a stopped step is found whole or not at all
one epoch: stop 2 3 6
1: 555555555
2: 555555555
3: 565666666
4: 565666666
5: 666666666
== the block of height 2 comes before the one that it stands over
one epoch: play 0 0 0
block 2: all ask 0 1
notes: 1
ask 3 2: 3 block 2
ask 3 1:
ask 4 2:
ask 3 0:
block 1:
notes: 2
ask 3 1: 3 block 1
== tickets are served once
one epoch: play 0 0 0
watch_digest 0: ticket 0; ticket 0 has 0
watch_digest 1: ticket 1
watch_commitment 2: ticket 2
cancel 1:
block 1:
block 2: ticket 2 has 2
== a vote that its member didn't sign isn't counted
one epoch: play 0 0 0
shard 1 0: all shard 0 of 1
notarize 1 1 1: all vote 0 notarize 1 in 0/1 over 0
notarize 3 1 1:
notes: 1
notarize 2 1 1: all cert notarize 1 in 0/1 over 0 by [0, 1, 2]; all ask 0 1
== what is final is told, acknowledged and pruned
one epoch: play 2 3 8
hint 1:
hint 2: all ask 2 height 2
ask_height 0 1: 0 cert finalize 1 in 0/1 over 0 by [0, 1, 2]; 0 block 1
ask_height 0 2:
prune 1:
ack:
ack:
ack:
notes: 8
prune 1:
prune 1:
notes: 9
== a floor of a block that is held and only certified
one epoch: play 0 1 4
floor 1 1: all cert finalize 1 in 0/1 over 0 by [0, 1, 2]; hand 1
notes: 7
finalization 1 1:
restart: all cert finalize 1 in 0/1 over 0 by [0, 1, 2]; hand 1
== a hint of a block that is held and only certified
one epoch: play 0 1 4
hint 1: all ask 0 height 1
finalization 1 1: all cert finalize 1 in 0/1 over 0 by [0, 1, 2]; hand 1
hint 1:
block 1:
== the last block of an epoch is proposed again
short epochs: play 2 3 4
propose 2: all vote 2 notarize 1 in 0/2 over 1
notarize 0 1 2:
notarize 1 1 2: all cert notarize 1 in 0/2 over 1 by [0, 1, 2]; all vote 2 finalize 1 in 0/2 \
    over 1
notes: 9
== the last block of an epoch is voted for again by who voted
short epochs: play 0 1 4
notarize 2 1 2: all vote 0 notarize 1 in 0/2 over 1
== the last block of an epoch is voted for again by who proposed it
short epochs: play 1 2 2
notarize 2 1 2: all vote 1 notarize 1 in 0/2 over 1
== no other block is proposed again
one epoch: play 2 3 4
propose 2: 0 shard 0 of 2; 1 shard 1 of 2; all shard 2 of 2; 3 shard 3 of 2; all vote 2 \
    notarize 2 in 0/2 over 1
== no other block is voted for again by who voted
one epoch: play 0 1 4
notarize 2 1 2:
== no other block is voted for again by who proposed it
one epoch: play 1 2 2
notarize 2 1 2:
== the next epoch has a leader of its own
two epochs: play 2 3 5
finalize 1 1 1: all cert finalize 1 in 0/1 over 0 by [0, 1, 2]; hand 1
notes: 7
propose 2: 1 shard 0 of 2; all shard 1 of 2; 3 shard 2 of 2; 4 shard 3 of 2; all vote 2 \
    notarize 2 in 1/1 over 0
notes: 10
";
