//! Runs that are stopped, repeated and forged: scripts, and the reports of their runs.

/// The sixteen messages with a stop in the last step, at each of the places that stand in the name.
pub(crate) const STOPPED: &str =
    "== 0 1 0 0,1 0 1,1 0 255,1 1 0,1 1 1,1 1 255,1 2 0,1 2 1,1 2 255,2 0 0,2 0 1,2 0 255,2 1 0,2 1 1,2 1 255,2 2 0,2 2 1,2 2 255,3 0 0,3 0 255,4 0 0,4 0 255
cluster 4 3
propose 1 6869
deliver 0 0
deliver 1 0
deliver 4 0
deliver 2 2
deliver 4 2
deliver 8 0
deliver 9 1
deliver 9 2
deliver 5 2
deliver 10 2
cut STOP deliver 12 2
restart 2
--
open 0
hand 0 0 *02
open 1
hand 1 0 *02
open 2
hand 2 0 *02
open 3
hand 3 0 *02
step 2
sent 0 1 0 shard 0 *a1
sent 1 1 all shard 1 *c5
sent 2 1 2 shard 2 *4c
sent 3 1 3 shard 3 *e6
sent 4 1 all vote 1 notarize 1 *07
step 3
sent 5 0 all shard 0 *a1
step 4
step 5
sent 6 0 all vote 0 notarize 1 *06
step 6
sent 7 2 all shard 2 *4c
step 7
sent 8 2 all vote 2 notarize 1 *08
step 8
sent 9 0 all cert notarize 1 3 *0d
sent 10 0 all vote 0 finalize 1 *08
step 9
sent 11 1 all cert notarize 1 3 *0d
sent 12 1 all vote 1 finalize 1 *09
step 10
sent 13 2 all cert notarize 1 3 *0d
sent 14 2 all ask *09
step 11
sent 15 2 all vote 2 finalize 1 *0a
step 12
step 13
step 14
found 5
sent 16 2 all vote 2 finalize 1 *0a
hand 2 0 *02
member 0 live acked none notes 5
member 1 live acked none notes 6
member 2 live acked none notes 5
member 3 live acked none notes 0
chain 0 *02
done 13
== 0 3 0 1,3 1 0,3 1 1,3 1 255,3 2 0,3 2 1,3 2 255,4 0 1,4 1 0,4 1 1,4 1 255,4 2 0,4 2 1,4 2 255
cluster 4 3
propose 1 6869
deliver 0 0
deliver 1 0
deliver 4 0
deliver 2 2
deliver 4 2
deliver 8 0
deliver 9 1
deliver 9 2
deliver 5 2
deliver 10 2
cut STOP deliver 12 2
restart 2
--
open 0
hand 0 0 *02
open 1
hand 1 0 *02
open 2
hand 2 0 *02
open 3
hand 3 0 *02
step 2
sent 0 1 0 shard 0 *a1
sent 1 1 all shard 1 *c5
sent 2 1 2 shard 2 *4c
sent 3 1 3 shard 3 *e6
sent 4 1 all vote 1 notarize 1 *07
step 3
sent 5 0 all shard 0 *a1
step 4
step 5
sent 6 0 all vote 0 notarize 1 *06
step 6
sent 7 2 all shard 2 *4c
step 7
sent 8 2 all vote 2 notarize 1 *08
step 8
sent 9 0 all cert notarize 1 3 *0d
sent 10 0 all vote 0 finalize 1 *08
step 9
sent 11 1 all cert notarize 1 3 *0d
sent 12 1 all vote 1 finalize 1 *09
step 10
sent 13 2 all cert notarize 1 3 *0d
sent 14 2 all ask *09
step 11
sent 15 2 all vote 2 finalize 1 *0a
step 12
step 13
step 14
found 6
sent 16 2 all cert finalize 1 3 *0f
hand 2 0 *02
hand 2 1 *d8
member 0 live acked none notes 5
member 1 live acked none notes 6
member 2 live acked none notes 6
member 3 live acked none notes 0
chain 0 *02
chain 1 *d8
done 13
== 0 5 0 0,5 0 1,5 0 255,5 1 0,5 1 1,5 1 255,5 2 0,5 2 1,5 2 255
cluster 4 3
propose 1 6869
deliver 0 0
deliver 1 0
deliver 4 0
deliver 2 2
deliver 4 2
deliver 8 0
deliver 9 1
deliver 9 2
deliver 5 2
deliver 10 2
cut STOP deliver 12 2
restart 2
--
open 0
hand 0 0 *02
open 1
hand 1 0 *02
open 2
hand 2 0 *02
open 3
hand 3 0 *02
step 2
sent 0 1 0 shard 0 *a1
sent 1 1 all shard 1 *c5
sent 2 1 2 shard 2 *4c
sent 3 1 3 shard 3 *e6
sent 4 1 all vote 1 notarize 1 *07
step 3
sent 5 0 all shard 0 *a1
step 4
step 5
sent 6 0 all vote 0 notarize 1 *06
step 6
sent 7 2 all shard 2 *4c
step 7
sent 8 2 all vote 2 notarize 1 *08
step 8
sent 9 0 all cert notarize 1 3 *0d
sent 10 0 all vote 0 finalize 1 *08
step 9
sent 11 1 all cert notarize 1 3 *0d
sent 12 1 all vote 1 finalize 1 *09
step 10
sent 13 2 all cert notarize 1 3 *0d
sent 14 2 all ask *09
step 11
sent 15 2 all vote 2 finalize 1 *0a
step 12
step 13
sent 16 2 all cert finalize 1 3 *0f
hand 2 1 *d8
step 14
found 6
sent 17 2 all cert finalize 1 3 *0f
hand 2 0 *02
hand 2 1 *d8
member 0 live acked none notes 5
member 1 live acked none notes 6
member 2 live acked none notes 6
member 3 live acked none notes 0
chain 0 *02
chain 1 *d8
done 13
";

/// Messages that come twice, bytes that are no message, and a certificate with a forged signer.
pub(crate) const REPEATED: &str = "== 0 each message comes twice
cluster 4 3
propose 1 6869
deliver 0 0
deliver 0 0
deliver 1 0
deliver 1 0
deliver 4 0
deliver 4 0
deliver 2 2
deliver 2 2
deliver 4 2
deliver 4 2
deliver 8 0
deliver 8 0
deliver 9 1
deliver 9 1
deliver 9 2
deliver 9 2
deliver 5 2
deliver 5 2
deliver 10 2
deliver 10 2
deliver 12 2
deliver 12 2
--
open 0
hand 0 0 *02
open 1
hand 1 0 *02
open 2
hand 2 0 *02
open 3
hand 3 0 *02
step 2
sent 0 1 0 shard 0 *a1
sent 1 1 all shard 1 *c5
sent 2 1 2 shard 2 *4c
sent 3 1 3 shard 3 *e6
sent 4 1 all vote 1 notarize 1 *07
step 3
sent 5 0 all shard 0 *a1
step 4
step 5
step 6
step 7
sent 6 0 all vote 0 notarize 1 *06
step 8
step 9
sent 7 2 all shard 2 *4c
step 10
step 11
sent 8 2 all vote 2 notarize 1 *08
step 12
step 13
sent 9 0 all cert notarize 1 3 *0d
sent 10 0 all vote 0 finalize 1 *08
step 14
step 15
sent 11 1 all cert notarize 1 3 *0d
sent 12 1 all vote 1 finalize 1 *09
step 16
step 17
sent 13 2 all cert notarize 1 3 *0d
sent 14 2 all ask *09
step 18
step 19
sent 15 2 all vote 2 finalize 1 *0a
step 20
step 21
step 22
step 23
sent 16 2 all cert finalize 1 3 *0f
hand 2 1 *d8
step 24
member 0 live acked none notes 5
member 1 live acked none notes 6
member 2 live acked none notes 6
member 3 live acked none notes 0
chain 0 *02
chain 1 *d8
done 23
== 0 a byte that is no message
cluster 4 3
faulty 1 raw 05
deliver 0 0
deliver 0 1
--
open 0
hand 0 0 *02
open 2
hand 2 0 *02
open 3
hand 3 0 *02
step 2
sent 0 1 all junk 1 *05
step 3
step 4
member 0 live acked none notes 0
member 2 live acked none notes 0
member 3 live acked none notes 0
chain 0 *02
done 3
== 0 a finalization whose third signer is a faulty member
cluster 4 3
propose 1 6869
deliver 0 0
deliver 1 0
deliver 4 0
deliver 2 2
deliver 4 2
deliver 8 0
deliver 9 1
deliver 9 2
deliver 5 2
deliver 10 2
deliver 12 2
faulty 3 raw 020200000000000000010000000000000000d8d8d8d8d8d8d8d8d8d8d8d8d8d8d8d8d8d8d8d8d8d8d8d8d8d8d8d8d8d8d8d80404040404040404040404040404040404040404040404040404040404040404c4c4c4c4c4c4c4c4c4c4c4c4c4c4c4c4c4c4c4c4c4c4c4c4c4c4c4c4c4c4c4c4000200020003000000010003
deliver 17 0
deliver 17 1
deliver 17 2
--
open 0
hand 0 0 *02
open 1
hand 1 0 *02
open 2
hand 2 0 *02
step 2
sent 0 1 0 shard 0 *a1
sent 1 1 all shard 1 *c5
sent 2 1 2 shard 2 *4c
sent 3 1 3 shard 3 *e6
sent 4 1 all vote 1 notarize 1 *07
step 3
sent 5 0 all shard 0 *a1
step 4
step 5
sent 6 0 all vote 0 notarize 1 *06
step 6
sent 7 2 all shard 2 *4c
step 7
sent 8 2 all vote 2 notarize 1 *08
step 8
sent 9 0 all cert notarize 1 3 *0d
sent 10 0 all vote 0 finalize 1 *08
step 9
sent 11 1 all cert notarize 1 3 *0d
sent 12 1 all vote 1 finalize 1 *09
step 10
sent 13 2 all cert notarize 1 3 *0d
sent 14 2 all ask *09
step 11
sent 15 2 all vote 2 finalize 1 *0a
step 12
step 13
sent 16 2 all cert finalize 1 3 *0f
hand 2 1 *d8
step 14
sent 17 3 all cert finalize 1 3 *10
step 15
sent 18 0 all cert finalize 1 3 *10
hand 0 1 *d8
step 16
sent 19 1 all cert finalize 1 3 *10
hand 1 1 *d8
step 17
member 0 live acked none notes 6
member 1 live acked none notes 7
member 2 live acked none notes 6
chain 0 *02
chain 1 *d8
done 16
";
