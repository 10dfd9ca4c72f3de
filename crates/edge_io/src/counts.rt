ghost use Rattle.std.specs.Prelude.{◌≡◌, ◌↔◌, IsTrue, Contains};
ghost use Rattle.edge_io.specs.FailureCounts.{Rose, one_more};

use super::files::Failed;

/// Whether the call of this number is listed.
pub(super) fn is_listed(calls: &[u64], call: u64) -> bool
    ensures { IsTrue result ↔ Contains calls.now call }
{
    calls.contains(&call)
}

/// Adds one to a count, unless it is the greatest `u64` already.
pub(super) fn count_up(count: &mut u64)
    ensures counted { count.new ≡ one_more count.old }
    ensures rose { Rose count.old count.new }
{
    *count = count.saturating_add(1);
}

/// Counts a failure.
pub(super) fn failure(count: &mut u64) -> Failed
    ensures counted { count.new ≡ one_more count.old }
    ensures rose { Rose count.old count.new }
{
    count_up(count);
    Failed
}
