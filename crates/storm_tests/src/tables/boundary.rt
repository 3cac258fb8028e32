//! Runs over the boundary of an epoch: scripts, and the reports of their runs.

/// Where an epoch has one height.
pub(crate) const BOUNDARY: &str = "== 0 the last block of an epoch is proposed again
epochs 4 3 1 1
members 0 1 2 3
propose 1 6869
deliver 0 0
deliver 1 0
deliver 4 0
deliver 2 2
deliver 4 2
deliver 8 0
deliver 9 1
deliver 9 2
deliver 5 2
propose 2 62
deliver 16 0
deliver 16 1
deliver 17 2
deliver 18 2
--
open 0
hand 0 0 *02
open 1
hand 1 0 *02
open 2
hand 2 0 *02
open 3
hand 3 0 *02
step 3
sent 0 1 0 shard 0 *a1
sent 1 1 all shard 1 *c5
sent 2 1 2 shard 2 *4c
sent 3 1 3 shard 3 *e6
sent 4 1 all vote 1 notarize 1 *07
step 4
sent 5 0 all shard 0 *a1
step 5
step 6
sent 6 0 all vote 0 notarize 1 *06
step 7
sent 7 2 all shard 2 *4c
step 8
sent 8 2 all vote 2 notarize 1 *08
step 9
sent 9 0 all cert notarize 1 3 *0d
sent 10 0 all vote 0 finalize 1 *08
step 10
sent 11 1 all cert notarize 1 3 *0d
sent 12 1 all vote 1 finalize 1 *09
step 11
sent 13 2 all cert notarize 1 3 *0d
sent 14 2 all ask *09
step 12
sent 15 2 all vote 2 finalize 1 *0a
step 13
sent 16 2 all vote 2 notarize 2 *0a
step 14
sent 17 0 all vote 0 notarize 2 *08
step 15
sent 18 1 all vote 1 notarize 2 *09
step 16
step 17
sent 19 2 all cert notarize 2 3 *0f
sent 20 2 all vote 2 finalize 2 *0c
member 0 live acked none notes 6
member 1 live acked none notes 7
member 2 live acked none notes 9
member 3 live acked none notes 0
chain 0 *02
done 15
== 0 the same events in one epoch
cluster 4 3
propose 1 6869
deliver 0 0
deliver 1 0
deliver 4 0
deliver 2 2
deliver 4 2
deliver 8 0
deliver 9 1
deliver 9 2
deliver 5 2
propose 2 62
deliver 16 0
deliver 16 1
deliver 17 2
deliver 18 2
--
open 0
hand 0 0 *02
open 1
hand 1 0 *02
open 2
hand 2 0 *02
open 3
hand 3 0 *02
step 2
sent 0 1 0 shard 0 *a1
sent 1 1 all shard 1 *c5
sent 2 1 2 shard 2 *4c
sent 3 1 3 shard 3 *e6
sent 4 1 all vote 1 notarize 1 *07
step 3
sent 5 0 all shard 0 *a1
step 4
step 5
sent 6 0 all vote 0 notarize 1 *06
step 6
sent 7 2 all shard 2 *4c
step 7
sent 8 2 all vote 2 notarize 1 *08
step 8
sent 9 0 all cert notarize 1 3 *0d
sent 10 0 all vote 0 finalize 1 *08
step 9
sent 11 1 all cert notarize 1 3 *0d
sent 12 1 all vote 1 finalize 1 *09
step 10
sent 13 2 all cert notarize 1 3 *0d
sent 14 2 all ask *09
step 11
sent 15 2 all vote 2 finalize 1 *0a
step 12
sent 16 2 0 shard 0 *ed
sent 17 2 1 shard 1 *ca
sent 18 2 all shard 2 *39
sent 19 2 3 shard 3 *66
sent 20 2 all vote 2 notarize 2 *6a
step 13
sent 21 0 all shard 0 *ed
step 14
step 15
step 16
sent 22 2 all shard 2 *39
member 0 live acked none notes 5
member 1 live acked none notes 6
member 2 live acked none notes 8
member 3 live acked none notes 0
chain 0 *02
done 15
== 0 the next epoch's first leader
epochs 5 3 1 2
members 0 1 2 3
members 1 2 3 4
propose 1 6869
deliver 0 0
deliver 1 0
deliver 4 0
deliver 2 2
deliver 4 2
deliver 8 0
deliver 9 1
deliver 9 2
deliver 5 2
deliver 10 2
deliver 12 2
propose 2 63
--
open 0
hand 0 0 *02
open 1
hand 1 0 *02
open 2
hand 2 0 *02
open 3
hand 3 0 *02
open 4
hand 4 0 *02
step 4
sent 0 1 0 shard 0 *a1
sent 1 1 all shard 1 *c5
sent 2 1 2 shard 2 *4c
sent 3 1 3 shard 3 *e6
sent 4 1 all vote 1 notarize 1 *07
step 5
sent 5 0 all shard 0 *a1
step 6
step 7
sent 6 0 all vote 0 notarize 1 *06
step 8
sent 7 2 all shard 2 *4c
step 9
sent 8 2 all vote 2 notarize 1 *08
step 10
sent 9 0 all cert notarize 1 3 *0d
sent 10 0 all vote 0 finalize 1 *08
step 11
sent 11 1 all cert notarize 1 3 *0d
sent 12 1 all vote 1 finalize 1 *09
step 12
sent 13 2 all cert notarize 1 3 *0d
sent 14 2 all ask *09
step 13
sent 15 2 all vote 2 finalize 1 *0a
step 14
step 15
sent 16 2 all cert finalize 1 3 *0f
hand 2 1 *d8
step 16
sent 17 2 1 shard 0 *cc
sent 18 2 all shard 1 *ab
sent 19 2 3 shard 2 *19
sent 20 2 4 shard 3 *46
sent 21 2 all vote 2 notarize 1/1 *4c
member 0 live acked none notes 5
member 1 live acked none notes 6
member 2 live acked none notes 10
member 3 live acked none notes 0
member 4 live acked none notes 0
chain 0 *02
chain 1 *d8
done 13
";
