//! The least of the ready nodes. A node is entered with its number where it is ready, and else with
//! the number of nodes. These entries are the later half of a list, and each earlier entry is the
//! lesser of the two at twice its place.
ghost use Rattle.std.specs.Prelude.{◌≡◌, ◌≢◌, ◌+◌, ◌*◌, ◌/◌, ◌<◌, ◌≤◌, ◌^◌, ℕ, List, length, min};
ghost use Rattle.std.specs.Prelude.{set};
ghost use Rattle.mk_plan.specs.Deciding.{first_ready};
ghost use Rattle.mk_plan.specs.declared.plan.NodeState.{NodeState};
ghost use Rattle.mk_sched.specs.Counts.{AreCounts, is_ready};
ghost use Rattle.mk_sched.specs.Least as spec;

use mk_plan::NodeState;

// The lesser of the two entries below a place.
fn lesser(entries: &[u32], place: usize) -> u32
    requires { 2 * place + 1 < length entries.now }
    ensures { result
        ≡ min (spec.entry entries.now (2 * place)) (spec.entry entries.now (2 * place + 1)) }
{
    entries[2 * place].min(entries[2 * place + 1])
}

/// Makes each entry above those of the nodes the lesser of its two.
pub fn compare_all(entries: &mut Vec<u32>, count: usize)
    requires { length entries.old.items ≡ 2 * count }
    ensures tournament { spec.IsTournament count entries.new.items }
    ensures nodes { (node : ℕ) → node < count → spec.entry entries.new.items (count + node)
        ≡ spec.entry entries.old.items (count + node) }
{
    let mut place = count;
    while place > 1 {
        place -= 1;
        entries[place] = lesser(entries, place);
    }
}

// The lesser of an entry and of the one beside it, with which it is below the same place.
fn lesser_beside(entries: &[u32], place: usize, value: u32) -> u32
    requires some { 1 < place }
    requires within { 2 * (place / 2) + 1 < length entries.now }
    requires here { value ≡ spec.entry entries.now place }
    ensures { result ≡ min (spec.entry entries.now (2 * (place / 2)))
        (spec.entry entries.now (2 * (place / 2) + 1)) }
{
    let beside = if place % 2 == 0 { place + 1 } else { place - 1 };
    value.min(entries[beside])
}

// Enters a node, and lets the entries above it follow.
fn enter(entries: &mut Vec<u32>, count: usize, node: usize, value: u32)
    requires tournament { spec.IsTournament count entries.old.items }
    requires node { node < count }
    ensures tournament { spec.IsTournament count entries.new.items }
    ensures here { spec.entry entries.new.items (count + node) ≡ value }
    ensures others { (other : ℕ) → other < count → other ≢ node
        → spec.entry entries.new.items (count + other)
        ≡ spec.entry entries.old.items (count + other) }
{
    let mut place = count + node;
    let mut least = value;
    entries[place] = least;
    while place > 1 {
        least = lesser_beside(entries, place, least);
        place /= 2;
        entries[place] = least;
    }
}

/// Whether a node is undecided and has all predecessors settled.
pub fn is_ready_now(nodes: &[NodeState], counts: &[usize], node: usize) -> bool
    requires node { node < length nodes.now }
    requires counted { node < length counts.now }
    ensures { result ≡ is_ready nodes.now counts.now node }
{
    counts[node] == 0 && nodes[node] == NodeState::Undecided
}

/// Enters a node as it stands.
pub fn enter_again(nodes: &[NodeState], counts: &[usize], entries: &mut Vec<u32>, node: usize)
    requires short { length nodes.now < 2 ^ 32 }
    requires node { node < length nodes.now }
    requires entered { spec.AreEnteredBut node nodes.now counts.now entries.old.items }
    ensures { spec.AreEntered nodes.now counts.now entries.new.items }
{
    let count = nodes.len();
    let value = if is_ready_now(nodes, counts, node) {
        node
    } else {
        count
    };
    enter(entries, count, node, value as u32);
}

/// Lets a node stand otherwise.
pub fn change(
    nodes: &mut Vec<NodeState>,
    counts: &[usize],
    entries: &mut Vec<u32>,
    node: usize,
    state: NodeState,
)
    requires short { length nodes.old.items < 2 ^ 32 }
    requires node { node < length nodes.old.items }
    requires entered { spec.AreEntered nodes.old.items counts.now entries.old.items }
    ensures nodes { nodes.new.items ≡ set nodes.old.items node state }
    ensures entered { spec.AreEntered nodes.new.items counts.now entries.new.items }
{
    nodes[node] = state;
    enter_again(nodes, counts, entries, node);
}

/// The first node that is ready.
pub fn least(entries: &[u32], count: u32) -> Option<u32>
    ensures { (before : List (List ℕ)) (nodes : List NodeState) (counts : List ℕ)
        → spec.AreEntered nodes counts entries.now → AreCounts before nodes counts
        → count ≡ length before → length nodes ≡ length before
        → result ≡ first_ready nodes 0 before }
{
    let node = *entries.get(1)?;
    if node < count { Some(node) } else { None }
}
