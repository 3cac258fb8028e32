//! The heights that were handed out, which rise.

ghost use Rattle.std.specs.Prelude.{◌≡◌, ◌≤◌, ◌<◌, ◌+◌, ◌-◌, ◌^◌, IfSome, None, drop, filter};
ghost use Rattle.std.specs.Prelude.{length, max};
ghost use Rattle.std.specs.List.{AllByRecursion, last_or};
ghost use Rattle.std.specs.List.Sorted.{IsNonDecreasing};
ghost use Rattle.std.specs.Option.{option_map_or};
ghost use Rattle.cw_rules.specs.Direct.{least};
ghost use Rattle.cw_rules.specs.Held.{is_pending};

/// Where the pending heights begin: those above what was acknowledged last that aren't given up.
pub(crate) fn pending_from(given: &[u64], acked: Option<u64>, floor: u64) -> usize
    requires rising { IsNonDecreasing given.now }
    requires acked { IfSome acked (λ a. a < 2 ^ 64 - 1) }
    ensures pending { filter (is_pending acked floor) given.now ≡ drop result given.now }
    ensures bound { result ≤ length given.now }
{
    let low = resume(acked, floor);
    given.partition_point(|height| *height < low)
}

/// The least pending height.
pub(crate) fn least_pending(given: &[u64], acked: Option<u64>, floor: u64) -> Option<u64>
    requires rising { IsNonDecreasing given.now }
    requires acked { IfSome acked (λ a. a < 2 ^ 64 - 1) }
    requires heights { AllByRecursion (λ h. h < 2 ^ 64 - 1) given.now }
    ensures value { result ≡ least (filter (is_pending acked floor) given.now) }
    ensures bound { IfSome result (λ h. h < 2 ^ 64 - 1) }
{
    given.get(pending_from(given, acked, floor)).copied()
}

/// The height to be handed out next: above the last of these, else above what was acknowledged
/// last, and never below what is given up.
pub(crate) fn next_height(given: &[u64], acked: Option<u64>, floor: u64) -> u64
    requires acked { IfSome acked (λ a. a < 2 ^ 64 - 1) }
    requires heights { AllByRecursion (λ h. h < 2 ^ 64 - 1) given.now }
    ensures { result ≡ max (option_map_or (λ h. h + 1) (last_or None given.now)
        (max (option_map_or (λ a. a + 1) acked 0) floor)) floor }
{
    match last_given(given) {
        Some(height) => (height + 1).max(floor),
        None => resume(acked, floor),
    }
}

// The height that was handed out last.
fn last_given(given: &[u64]) -> Option<u64>
    requires { AllByRecursion (λ h. h < 2 ^ 64 - 1) given.now }
    ensures value { result ≡ last_or None given.now }
    ensures bound { IfSome result (λ h. h < 2 ^ 64 - 1) }
{
    given.last().copied()
}

// The least height that may be pending, at which the deliveries of a start begin.
fn resume(acked: Option<u64>, floor: u64) -> u64
    requires { IfSome acked (λ a. a < 2 ^ 64 - 1) }
    ensures { result ≡ max (option_map_or (λ a. a + 1) acked 0) floor }
{
    match acked {
        Some(last) => (last + 1).max(floor),
        None => floor,
    }
}
