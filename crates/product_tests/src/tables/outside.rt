//! What comes from outside fails, or is too large. The texts follow from what each program writes
//! of a cluster in which nothing happens.

/// The source fails.
pub(crate) const SOURCE_FAILS: &str = "\
== the source fails
cluster 4 3
--
> 5 ledger

> 5 light 0

> 5 archive 0

";

/// The sink takes three bytes, and fails in its second call.
pub(crate) const SINK_FAILS: &str = "\
== a report
cluster 4 3
--
> 6 ledger
led
> 6 light 0
non
> 6 archive 0
use
== no report
--
> 6 ledger
err
> 6 light 0
err
> 6 archive 0
err
== no number
--
> 6 ledger x
usa
> 6 light x
usa
> 6 archive x
usa
";

/// Behind the script stand digits, up to 16,777,216 bytes in all.
pub(crate) const FULL: &str = "\
== as long as a script may be
--
> 3 ledger
error 1 Syntax 1

> 3 light 0
error 1 Syntax 1

> 3 archive 0
error 1 Syntax 1

";

/// The same with one byte more.
pub(crate) const TOO_LONG: &str = "\
== a byte more
--
> 3 ledger
error TooLong

> 3 light 0
error TooLong

> 3 archive 0
error TooLong

";

/// The same up to 2,097,176 bytes, of which 22 are no digits of the payload.
pub(crate) const PAYLOAD: &str = "\
== a payload of a byte too many
cluster 4 3
propose 1 0
--
> 3 ledger
error 5 OversizeBlock 2

> 3 light 0
error 5 OversizeBlock 2

> 3 archive 0
error 5 OversizeBlock 2

";
