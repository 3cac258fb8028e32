//! Runs to which an independent program gave these answers.

/// To member 2 of the first run genesis alone was handed out.
pub(crate) const CHECKED: &str = "\
== three blocks of transfers, and nobody stops
cluster 4 18446744073709551615
propose 1 -
deliver 1 3
deliver 4 0
deliver 0 0
deliver 5 3
deliver 1 1
deliver 3 3
deliver 5 1
deliver 4 1
deliver 4 3
deliver 1 0
deliver 9 1
deliver 5 0
deliver 9 0
deliver 11 0
ack 1
ack 1
deliver 11 3
deliver 13 3
deliver 13 1
deliver 13 0
ack 0
deliver 11 1
deliver 15 1
deliver 17 3
timeout 0 2
timeout 1 2
timeout 3 2
deliver 21 3
deliver 20 0
deliver 20 3
deliver 21 0
deliver 21 1
deliver 22 1
deliver 22 3
propose 3 -
deliver 29 3
deliver 28 3
deliver 25 0
deliver 28 0
deliver 26 1
deliver 28 1
deliver 29 0
deliver 30 1
deliver 33 0
deliver 33 3
deliver 1000000 3
ack 3
ack 3
deliver 29 1
deliver 34 0
propose 0 081c4bbc7a3badeeb68fc886b07569
deliver 33 1
deliver 37 2
deliver 34 3
deliver 41 2
deliver 37 3
deliver 40 3
deliver 37 0
deliver 42 2
deliver 43 3
prune 0 0
deliver 36 3
deliver 39 2
deliver 41 0
deliver 35 2
deliver 37 1
deliver 38 1
deliver 43 0
deliver 41 3
deliver 44 0
deliver 45 2
deliver 36 1
deliver 43 2
prune 0 0
deliver 41 1
ack 2
deliver 36 0
deliver 50 2
deliver 45 0
deliver 53 2
ack 2
deliver 53 0
ack 3
floor 2 18
deliver 45 1
ack 3
deliver 53 3
deliver 51 1
deliver 54 3
deliver 60 2
deliver 56 0
deliver 63 2
deliver 65 2
deliver 049 1
deliver 54 1
deliver 63 3
deliver 55 1
deliver 65 3
deliver 056 1
deliver 68 3
propose 1 0000000000000008000000003b9aca0000000009000000090000000000000001
deliver 68 2
deliver 66 2
deliver 71 3
deliver 73 3
deliver 72 2
deliver 71 2
deliver 74 3
ack 2
deliver 77 3
deliver 54 0
deliver 63 1
deliver 60 1
deliver 74 2
deliver 68 1
deliver 65 1
deliver 76 3
deliver 74 1
--
> 0 ledger
ledger 0 2
balance 0 0 1000000000
ledger 1 3
balance 1 0 1000000000
ledger 2 0
balance 2 0 1000000000
ledger 3 3
balance 3 0 1000000000

> 0 light 3
yes 3 61825e16c84282e387235f90ab8670e3fe20e739d2bc08c6265165dc9d77034a

> 0 archive 1000
archive 1 no
archive 2 yes
archive 3 yes
used 956

== members that stop and come back, one that is faulty, and floors
cluster 4 18446744073709551615
faulty 1 silent
floor 0 0
timeout 0 1
timeout 2 1
timeout 3 1
deliver 1 3
deliver 1 0
prune 3 0
deliver 0 0
deliver 2 0
deliver 2 3
deliver 2 2
deliver 0 3
deliver 1 2
deliver 0 2
propose 2 0000000000000007ffffffffffffffff
deliver 10 3
deliver 10 2
prune 0 1
deliver 8 3
deliver 8 2
deliver 9 3
deliver 12 2
deliver 11 0
deliver 10 0
deliver 13 0
deliver 13 3
floor 3 5
deliver 6 0
deliver 14 3
deliver 11 3
deliver 3 0
ack 3
deliver 17 2
deliver 17 3
deliver 5 2
faulty 1 offer 2 000000000000000000000000000003e8
deliver 22 0
deliver 15 3
deliver 16 0
deliver 14 2
propose 3 0000000000000009000000000000000100000009000000000000000000000005
deliver 26 0
deliver 20 2
deliver 19 0
deliver 26 2
deliver 18 0
deliver 33 3
deliver 1000000 0
deliver 29 2
deliver 21 3
deliver 22 2
deliver 31 0
deliver 22 3
ack 1
deliver 24 2
cut 3 2 1 deliver 36 3
deliver 31 2
deliver 27 0
deliver 38 2
deliver 35 2
deliver 30 2
deliver 16 2
cut 1 18446744073709551615 255 ack 0
deliver 41 2
deliver 42 2
timeout 2 4
cut 2 0 1 floor 2 36
restart 3
deliver 23 3
deliver 31 3
deliver 30 3
deliver 40 3
deliver 12 3
deliver 42 3
deliver 35 3
deliver 41 3
floor 3 45
deliver 44 3
deliver 48 3
cut 3 18446744073709551615 1 hint 3 9
restart 2
deliver 44 2
deliver 46 2
deliver 48 2
restart 0
deliver 24 0
deliver 0030 0
deliver 17 0
deliver 33 0
deliver 34 0
deliver 36 0
deliver 41 0
deliver 37 0
deliver 53 0
deliver 39 0
ack 2
deliver 40 0
ack 2
deliver 48 0
deliver 44 0
ack 0
deliver 42 0
ack 2
restart 3
deliver 13 3
deliver 22 3
deliver 60 3
deliver 52 3
deliver 61 3
deliver 51 0
hint 3 2
deliver 59 2
ack 3
propose 0 -
prune 3 1
deliver 69 3
deliver 70 3
deliver 70 0
--
> 0 ledger
ledger 0 2
balance 0 0 999999999
balance 0 9 1
ledger 2 2
balance 2 0 999999999
balance 2 9 1
ledger 3 2
balance 3 0 999999999
balance 3 9 1

> 0 light 1
yes 1 c5f846aa0c7d5cc9a2785766f9a531a249f3eebc0225455d145c044f043a4960

> 0 archive 1000
archive 1 no
archive 2 yes
used 940

== three epochs, stops, and members that are faulty
epochs 6 3 1 3
members 0 1 2 3 4 5
members 0 2 3 4
members 0 1 2 3 4 5
faulty 5 silent
propose 1 7e8a829525e69beecbc93c8672a1b785b84c528c5405233eac0e2a8c68c3cee030
deliver 6 1
deliver 6 3
deliver 1 3
deliver 0 0
deliver 6 4
deliver 6 2
deliver 2 2
deliver 1 2
deliver 6 4
deliver 8 0
deliver 9 0
deliver 9 3
deliver 1 4
deliver 6 0
deliver 10 0
deliver 10 4
deliver 1 1
deliver 8 2
deliver 4 4
deliver 12 0
hint 1 4
deliver 12 3
deliver 8 4
deliver 8 1
timeout 4 1
deliver 8 3
deliver 3 3
ack 0
deliver 15 0
deliver 15 3
deliver 14 1
deliver 16 0
deliver 16 3
deliver 10 2
floor 4 16
deliver 19 0
deliver 19 2
deliver 12 1
deliver 19 3
deliver 15 2
deliver 18 1
deliver 12 2
deliver 21 0
deliver 15 1
deliver 16 2
deliver 23 2
deliver 23 0
propose 5 -
deliver 22 3
deliver 16 4
faulty 5 silent
deliver 21 1
deliver 21 3
deliver 25 0
deliver 25 2
deliver 23 3
propose 2 0000000000000000000000003b9aca0000000008ffffffff000000003b9aca00
deliver 27 0
deliver 28 0
deliver 22 1
deliver 19 1
deliver 22 2
deliver 15 4
deliver 27 3
deliver 29 0
deliver 29 2
deliver 18446744073709551615 4
deliver 27 4
deliver 30 0
faulty 5 silent
ack 2
deliver 19 4
deliver 25 3
deliver 25 1
cut 2 140 1 ack 4
deliver 27 2
deliver 30 3
deliver 21 2
deliver 30 2
ack 5
deliver 29 3
deliver 28 2
deliver 23 1
deliver 27 1
deliver 31 2
deliver 32 0
deliver 30 1
deliver 35 1
deliver 33 0
deliver 35 0
deliver 29 1
deliver 16 1
timeout 0 3
deliver 32 3
deliver 36 0
deliver 33 3
deliver 36 2
deliver 34 1
ack 0
deliver 40 0
deliver 33 2
deliver 33 1
deliver 38 2
deliver 36 1
deliver 35 2
propose 3 6ff89082343e2d8e8f3c0e52d23a2fd9f556c5e99ef8ebdfd53083f2
deliver 38 0
deliver 41 0
deliver 38 3
faulty 5 finalize 31
restart 4
deliver 42 0
deliver 41 2
cut 4 0 1 floor 1 44
--
> 0 ledger
ledger 0 1
balance 0 0 1000000000
ledger 1 0
balance 1 0 1000000000
ledger 2 0
balance 2 0 1000000000
ledger 3 0
balance 3 0 1000000000
ledger 4 0
balance 4 0 1000000000

> 0 light 2
none

> 0 archive 87
archive 1 no
used 0

";
