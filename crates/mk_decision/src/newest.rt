//! The newest time that was looked at.
ghost use Rattle.std.specs.Prelude.{◌≡◌};
ghost use Rattle.mk_decision.specs.Newest.{node_whens, raised, raised_all};

use crate::sight::NodeTimes;
use mk_world::{Time, When};

/// Raises a time to that of a file, where this is known and newer.
pub fn raise(newest: &mut Time, when: When)
    ensures { newest.new.0 ≡ raised newest.old.0 when }
{
    if let When::At(time) = when {
        if newest.0 < time.0 {
            *newest = time;
        }
    }
}

/// Raises a time to the newest known one of a node and of those that count for it.
pub fn raise_by(newest: &mut Time, times: &NodeTimes)
    ensures { newest.new.0
        ≡ raised_all newest.old.0 (node_whens times.now.target times.now.sources) }
{
    raise(newest, times.target);
    for one in times.sources.as_slice() {
        raise(newest, one.when);
    }
}
