//! The next value of a count, which is kept up to date one change at a time while the counted things change.
ghost use Rattle.std.specs.Prelude.{◌≡◌, ◌+◌, ◌≤◌, ◌<◌, ◌^◌};
ghost use Rattle.cmd_types.specs.Counts.{one};

/// Whether a thing is counted, before (`was`) and after (`is`) a change (profile).
///
/// See the example of [`recounted`].
#[derive(Clone, Copy)]
pub struct Membership {
    pub was: bool,
    pub is: bool,
}

/// The new value of `count` after one thing has changed (profile). Requires that `count` is at least 1 if the thing was
/// counted before the change, and that the new value is below 2^64.
///
/// ```
/// // of three that were counted, one is counted no longer
/// let left = Membership {
///     was: true,
///     is: false,
/// };
/// assert_eq!(rt; recounted(3, left), 2);
/// ```
pub fn recounted(count: u64, membership: Membership) -> u64
    requires counted { one membership.was ≤ count }
    requires room { count + one membership.is < 2 ^ 64 + one membership.was }
    ensures { result + one membership.was ≡ count + one membership.is }
{
    count - membership.was as u64 + membership.is as u64
}
