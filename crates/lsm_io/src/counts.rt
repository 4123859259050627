//! The counts that every object of this crate keeps, and the calls that an object in memory is to fail.
ghost use Rattle.std.specs.Prelude.{◌≡◌, ◌≤◌};
ghost use Rattle.lsm_io.specs.Causes.{risen};
ghost use Rattle.lsm_io.specs.Scripted.{fails_at};

use crate::Failed;

/// Raises a count by one, up to its last value.
pub(crate) fn raise(count: &mut u64)
    ensures risen { count.new ≡ risen count.old }
    ensures later { count.old ≤ count.new }
{
    *count = count.saturating_add(1);
}

/// Counts a fault.
pub(crate) fn fault(faults: &mut u64) -> Failed
    ensures risen { faults.new ≡ risen faults.old }
    ensures later { faults.old ≤ faults.new }
{
    raise(faults);
    Failed
}

/// Whether the call of this number is to fail.
pub(crate) fn is_to_fail(fails: &[u64], call: u64) -> bool
    ensures { result ≡ fails_at fails.now call }
{
    fails.contains(&call)
}
