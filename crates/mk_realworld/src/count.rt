ghost use Rattle.std.specs.Prelude.{◌≤◌};
ghost use Rattle.mk_world.specs.Causes.{Rose};

/// One fault more. At its last value the count stays there.
pub fn count_fault(faults: &mut u64)
    ensures kept { faults.old ≤ faults.new }
    ensures rose { Rose faults.old faults.new }
{
    *faults = faults.saturating_add(1);
}
