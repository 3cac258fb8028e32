//! Worked runs of a few messages, by which one block is handed out to member 2 alone.

/// The digests of genesis and of the block are those of the report that `tools/oracle` gives.
pub(crate) const SMALL: &str = "\
== a transfer of 5 from account 0 to account 7
cluster 4 3
propose 1 00000000000000070000000000000005
deliver 0 0
deliver 1 0
deliver 4 0
deliver 2 2
deliver 4 2
deliver 8 0
deliver 9 1
deliver 9 2
deliver 5 2
deliver 10 2
deliver 12 2
--
> 0 ledger
ledger 0 0
balance 0 0 1000000000
ledger 1 0
balance 1 0 1000000000
ledger 2 1
balance 2 0 999999995
balance 2 7 5
ledger 3 0
balance 3 0 1000000000

> 2 ledger 1
usage: hail_ledger

> 2 ledger x
usage: hail_ledger

> 2 ledger storm 7
usage: hail_ledger

== two bytes, which are no transfers
cluster 4 3
propose 1 6869
deliver 0 0
deliver 1 0
deliver 4 0
deliver 2 2
deliver 4 2
deliver 8 0
deliver 9 1
deliver 9 2
deliver 5 2
deliver 10 2
deliver 12 2
--
> 0 light 0
yes 0 ff354cf9c98f186dee4cd1958ac80f9137f10971067bd2da8dedd6176d591ba7

> 0 light 1
yes 1 f546062ba1da8aceae130abaff68bdbc95b4fcba69daa66cfdac14f44bac836c

> 0 light 001
yes 1 f546062ba1da8aceae130abaff68bdbc95b4fcba69daa66cfdac14f44bac836c

> 0 light 2
none

> 0 light 18446744073709551615
none

> 2 light
usage: hail_light

> 2 light x
usage: hail_light

> 2 light -1
usage: hail_light

> 2 light +1
usage: hail_light

> 2 light 1x
usage: hail_light

> 2 light 1 1
usage: hail_light

> 2 light 18446744073709551616
usage: hail_light

> 0 archive 200
archive 1 yes
used 176

> 0 archive 100
archive 1 no
used 88

> 0 archive 1000
archive 1 yes
used 352

> 0 archive 87
archive 1 no
used 0

> 0 archive 0
archive 1 no
used 0

> 2 archive
usage: hail_archive

> 2 archive x
usage: hail_archive

> 2 archive -1
usage: hail_archive

> 2 archive 1x
usage: hail_archive

> 2 archive 1 1
usage: hail_archive

> 2 archive 18446744073709551616
usage: hail_archive

== nothing happens
cluster 4 3
--
> 0 light 0
none

> 0 archive 0
used 0

";
