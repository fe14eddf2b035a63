//! Counts of predecessors that are not settled.
ghost use Rattle.std.specs.Prelude.{◌≡◌, ◌≢◌, ◌+◌, ◌-◌, ◌<◌, ◌≤◌, ◌^◌, ℕ, length, set, get_or};
ghost use Rattle.mk_plan.specs.declared.plan.NodeState.TheVariants.{Settled as settled};
ghost use Rattle.mk_sched.specs.Counts.{times};
ghost use Rattle.mk_sched.specs.Least.{AreEntered};

use crate::least::{change, enter_again};
use mk_plan::NodeState;

/// A node waits for one less.
fn count_one(nodes: &[NodeState], counts: &mut Vec<usize>, entries: &mut Vec<u32>, node: usize)
    requires short { length nodes.now < 2 ^ 32 }
    requires some { 0 < get_or counts.old.items node 0 }
    requires entered { AreEntered nodes.now counts.old.items entries.old.items }
    ensures less { counts.new.items ≡ set counts.old.items node (get_or counts.old.items node 0 - 1) }
    ensures entered { AreEntered nodes.now counts.new.items entries.new.items }
{
    counts[node] -= 1;
    if counts[node] == 0 {
        enter_again(nodes, counts, entries, node);
    }
}

// Each of these waits for one less.
fn count_down(
    nodes: &[NodeState],
    counts: &mut Vec<usize>,
    entries: &mut Vec<u32>,
    followers: &[u32],
)
    requires short { length nodes.now < 2 ^ 32 }
    requires enough { (node : ℕ) → times node followers.now ≤ get_or counts.old.items node 0 }
    requires entered { AreEntered nodes.now counts.old.items entries.old.items }
    ensures long { length counts.new.items ≡ length counts.old.items }
    ensures less { (node : ℕ) → get_or counts.new.items node 0 + times node followers.now
        ≡ get_or counts.old.items node 0 }
    ensures entered { AreEntered nodes.now counts.new.items entries.new.items }
{
    for node in followers {
        count_one(nodes, counts, entries, *node as usize);
    }
}

/// A node is settled, and each of its followers waits for one less.
pub fn settle(
    nodes: &mut Vec<NodeState>,
    counts: &mut Vec<usize>,
    entries: &mut Vec<u32>,
    followers: &[u32],
    node: usize,
)
    requires short { length nodes.old.items < 2 ^ 32 }
    requires node { node < length nodes.old.items }
    requires enough { (other : ℕ) → times other followers.now ≤ get_or counts.old.items other 0 }
    requires entered { AreEntered nodes.old.items counts.old.items entries.old.items }
    ensures nodes { nodes.new.items ≡ set nodes.old.items node settled }
    ensures long { length counts.new.items ≡ length counts.old.items }
    ensures less { (other : ℕ) → get_or counts.new.items other 0 + times other followers.now
        ≡ get_or counts.old.items other 0 }
    ensures entered { AreEntered nodes.new.items counts.new.items entries.new.items }
{
    change(nodes, counts, entries, node, NodeState::Settled);
    count_down(nodes, counts, entries, followers);
}
