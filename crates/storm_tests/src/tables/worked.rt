//! Worked runs: scripts, and the reports of their runs.

/// Runs of a cluster of one epoch.
pub(crate) const WORKED: &str = "== 0 a header alone
cluster 4 3
--
open 0
hand 0 0 *02
open 1
hand 1 0 *02
open 2
hand 2 0 *02
open 3
hand 3 0 *02
member 0 live acked none notes 0
member 1 live acked none notes 0
member 2 live acked none notes 0
member 3 live acked none notes 0
chain 0 *02
done 0
== 0 a vote
cluster 4 3
timeout 0 1
--
open 0
hand 0 0 *02
open 1
hand 1 0 *02
open 2
hand 2 0 *02
open 3
hand 3 0 *02
step 2
sent 0 0 all vote 0 nullify 1 *03
member 0 live acked none notes 1
member 1 live acked none notes 0
member 2 live acked none notes 0
member 3 live acked none notes 0
chain 0 *02
done 1
== 0 sixteen messages, a block is handed out
cluster 4 3
propose 1 6869
deliver 0 0
deliver 1 0
deliver 4 0
deliver 2 2
deliver 4 2
deliver 8 0
deliver 9 1
deliver 9 2
deliver 5 2
deliver 10 2
deliver 12 2
--
open 0
hand 0 0 *02
open 1
hand 1 0 *02
open 2
hand 2 0 *02
open 3
hand 3 0 *02
step 2
sent 0 1 0 shard 0 *a1
sent 1 1 all shard 1 *c5
sent 2 1 2 shard 2 *4c
sent 3 1 3 shard 3 *e6
sent 4 1 all vote 1 notarize 1 *07
step 3
sent 5 0 all shard 0 *a1
step 4
step 5
sent 6 0 all vote 0 notarize 1 *06
step 6
sent 7 2 all shard 2 *4c
step 7
sent 8 2 all vote 2 notarize 1 *08
step 8
sent 9 0 all cert notarize 1 3 *0d
sent 10 0 all vote 0 finalize 1 *08
step 9
sent 11 1 all cert notarize 1 3 *0d
sent 12 1 all vote 1 finalize 1 *09
step 10
sent 13 2 all cert notarize 1 3 *0d
sent 14 2 all ask *09
step 11
sent 15 2 all vote 2 finalize 1 *0a
step 12
step 13
sent 16 2 all cert finalize 1 3 *0f
hand 2 1 *d8
member 0 live acked none notes 5
member 1 live acked none notes 6
member 2 live acked none notes 6
member 3 live acked none notes 0
chain 0 *02
chain 1 *d8
done 12
== 0 a stop in the first device call
cluster 4 3
cut 1 3 255 timeout 0 1
restart 0
--
open 0
hand 0 0 *02
open 1
hand 1 0 *02
open 2
hand 2 0 *02
open 3
hand 3 0 *02
step 2
step 3
found 0
hand 0 0 *02
member 0 live acked none notes 0
member 1 live acked none notes 0
member 2 live acked none notes 0
member 3 live acked none notes 0
chain 0 *02
done 2
== 0 a stop behind the second gate
cluster 4 3
cut 3 0 1 timeout 0 1
restart 0
--
open 0
hand 0 0 *02
open 1
hand 1 0 *02
open 2
hand 2 0 *02
open 3
hand 3 0 *02
step 2
step 3
found 1
sent 0 0 all vote 0 nullify 1 *03
hand 0 0 *02
member 0 live acked none notes 1
member 1 live acked none notes 0
member 2 live acked none notes 0
member 3 live acked none notes 0
chain 0 *02
done 2
== 0 a proposal in view 2
cluster 4 3
timeout 0 1
timeout 1 1
timeout 2 1
deliver 0 2
deliver 1 2
propose 2 61
deliver 3 0
deliver 4 0
deliver 8 0
--
open 0
hand 0 0 *02
open 1
hand 1 0 *02
open 2
hand 2 0 *02
open 3
hand 3 0 *02
step 2
sent 0 0 all vote 0 nullify 1 *03
step 3
sent 1 1 all vote 1 nullify 1 *04
step 4
sent 2 2 all vote 2 nullify 1 *05
step 5
step 6
sent 3 2 all cert nullify 1 3 *0a
step 7
sent 4 2 0 shard 0 *fc
sent 5 2 1 shard 1 *b6
sent 6 2 all shard 2 *ea
sent 7 2 3 shard 3 *5e
sent 8 2 all vote 2 notarize 2 *69
step 8
sent 9 0 all cert nullify 1 3 *0a
step 9
sent 10 0 all shard 0 *fc
step 10
sent 11 0 all vote 0 notarize 2 *67
member 0 live acked none notes 3
member 1 live acked none notes 1
member 2 live acked none notes 5
member 3 live acked none notes 0
chain 0 *02
done 9
== 0 a leader that offers two blocks
cluster 4 3
faulty 1 offer 1 61
faulty 1 offer 1 62
deliver 0 0
deliver 4 0
deliver 7 2
deliver 9 2
deliver 3 3
deliver 4 3
deliver 15 0
deliver 13 0
--
open 0
hand 0 0 *02
open 2
hand 2 0 *02
open 3
hand 3 0 *02
step 2
sent 0 1 0 shard 0 *7a
sent 1 1 all shard 1 *36
sent 2 1 2 shard 2 *66
sent 3 1 3 shard 3 *e0
sent 4 1 all vote 1 notarize 1 *e7
step 3
sent 5 1 0 shard 0 *9a
sent 6 1 all shard 1 *57
sent 7 1 2 shard 2 *85
sent 8 1 3 shard 3 *02
sent 9 1 all vote 1 notarize 1 *07
step 4
sent 10 0 all shard 0 *7a
step 5
sent 11 0 all vote 0 notarize 1 *e6
step 6
sent 12 2 all shard 2 *85
step 7
sent 13 2 all vote 2 notarize 1 *08
step 8
sent 14 3 all shard 3 *e0
step 9
sent 15 3 all vote 3 notarize 1 *e9
step 10
sent 16 0 all cert notarize 1 3 *ee
sent 17 0 all ask *e7
step 11
member 0 live acked none notes 2
member 2 live acked none notes 1
member 3 live acked none notes 1
chain 0 *02
done 10
== 0 lines of a live, a stopped and a faulty member, and a stop behind an acknowledgement
cluster 4 1
deliver 7 0
restart 0
faulty 3 silent
ack 3
cut 9 0 0 ack 0
timeout 0 1
restart 0
--
open 0
hand 0 0 *02
open 1
hand 1 0 *02
open 2
hand 2 0 *02
step 2
step 3
step 4
step 5
step 6
step 7
step 8
found 1
member 0 live acked 0 notes 1
member 1 live acked none notes 0
member 2 live acked none notes 0
chain 0 *02
done 7
== 0 an ask and its answer
cluster 4 3
propose 1 6869
deliver 0 0
deliver 1 0
deliver 4 0
deliver 2 2
deliver 4 2
deliver 8 0
deliver 9 1
deliver 9 2
deliver 5 2
deliver 10 2
deliver 12 2
deliver 14 0
deliver 17 2
--
open 0
hand 0 0 *02
open 1
hand 1 0 *02
open 2
hand 2 0 *02
open 3
hand 3 0 *02
step 2
sent 0 1 0 shard 0 *a1
sent 1 1 all shard 1 *c5
sent 2 1 2 shard 2 *4c
sent 3 1 3 shard 3 *e6
sent 4 1 all vote 1 notarize 1 *07
step 3
sent 5 0 all shard 0 *a1
step 4
step 5
sent 6 0 all vote 0 notarize 1 *06
step 6
sent 7 2 all shard 2 *4c
step 7
sent 8 2 all vote 2 notarize 1 *08
step 8
sent 9 0 all cert notarize 1 3 *0d
sent 10 0 all vote 0 finalize 1 *08
step 9
sent 11 1 all cert notarize 1 3 *0d
sent 12 1 all vote 1 finalize 1 *09
step 10
sent 13 2 all cert notarize 1 3 *0d
sent 14 2 all ask *09
step 11
sent 15 2 all vote 2 finalize 1 *0a
step 12
step 13
sent 16 2 all cert finalize 1 3 *0f
hand 2 1 *d8
step 14
sent 17 0 2 block 1 *dd
step 15
member 0 live acked none notes 5
member 1 live acked none notes 6
member 2 live acked none notes 6
member 3 live acked none notes 0
chain 0 *02
chain 1 *d8
done 14
== 0 a hint, and the answer to what it asks for
cluster 4 3
propose 1 6869
deliver 0 0
deliver 1 0
deliver 4 0
deliver 2 2
deliver 4 2
deliver 8 0
deliver 9 1
deliver 9 2
deliver 5 2
deliver 10 2
deliver 12 2
hint 0 1
deliver 17 2
deliver 18 0
--
open 0
hand 0 0 *02
open 1
hand 1 0 *02
open 2
hand 2 0 *02
open 3
hand 3 0 *02
step 2
sent 0 1 0 shard 0 *a1
sent 1 1 all shard 1 *c5
sent 2 1 2 shard 2 *4c
sent 3 1 3 shard 3 *e6
sent 4 1 all vote 1 notarize 1 *07
step 3
sent 5 0 all shard 0 *a1
step 4
step 5
sent 6 0 all vote 0 notarize 1 *06
step 6
sent 7 2 all shard 2 *4c
step 7
sent 8 2 all vote 2 notarize 1 *08
step 8
sent 9 0 all cert notarize 1 3 *0d
sent 10 0 all vote 0 finalize 1 *08
step 9
sent 11 1 all cert notarize 1 3 *0d
sent 12 1 all vote 1 finalize 1 *09
step 10
sent 13 2 all cert notarize 1 3 *0d
sent 14 2 all ask *09
step 11
sent 15 2 all vote 2 finalize 1 *0a
step 12
step 13
sent 16 2 all cert finalize 1 3 *0f
hand 2 1 *d8
step 14
sent 17 0 all askheight 1 *05
step 15
sent 18 2 0 cert finalize 1 3 *0f
sent 19 2 0 block 1 *dd
step 16
sent 20 0 all cert finalize 1 3 *0f
hand 0 1 *d8
member 0 live acked none notes 6
member 1 live acked none notes 6
member 2 live acked none notes 6
member 3 live acked none notes 0
chain 0 *02
chain 1 *d8
done 15
== 0 a proposal over a certified block
cluster 4 3
propose 1 6869
deliver 0 0
deliver 1 0
deliver 4 0
deliver 2 2
deliver 4 2
deliver 8 0
deliver 9 1
deliver 9 2
deliver 5 2
propose 2 62
--
open 0
hand 0 0 *02
open 1
hand 1 0 *02
open 2
hand 2 0 *02
open 3
hand 3 0 *02
step 2
sent 0 1 0 shard 0 *a1
sent 1 1 all shard 1 *c5
sent 2 1 2 shard 2 *4c
sent 3 1 3 shard 3 *e6
sent 4 1 all vote 1 notarize 1 *07
step 3
sent 5 0 all shard 0 *a1
step 4
step 5
sent 6 0 all vote 0 notarize 1 *06
step 6
sent 7 2 all shard 2 *4c
step 7
sent 8 2 all vote 2 notarize 1 *08
step 8
sent 9 0 all cert notarize 1 3 *0d
sent 10 0 all vote 0 finalize 1 *08
step 9
sent 11 1 all cert notarize 1 3 *0d
sent 12 1 all vote 1 finalize 1 *09
step 10
sent 13 2 all cert notarize 1 3 *0d
sent 14 2 all ask *09
step 11
sent 15 2 all vote 2 finalize 1 *0a
step 12
sent 16 2 0 shard 0 *ed
sent 17 2 1 shard 1 *ca
sent 18 2 all shard 2 *39
sent 19 2 3 shard 3 *66
sent 20 2 all vote 2 notarize 2 *6a
member 0 live acked none notes 5
member 1 live acked none notes 6
member 2 live acked none notes 8
member 3 live acked none notes 0
chain 0 *02
done 11
";
