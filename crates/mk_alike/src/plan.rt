//! Plans, compared.
ghost use Rattle.std.specs.Prelude.{◌≡◌, ◌↔◌, true};

use crate::marks::same_marks;
use mk_bytes::same_texts;
use mk_plan::{Plan, PlanNode};

// Whether these are the same places in the same order.
fn same_places(places: &[u32], others: &[u32]) -> bool
    ensures { (result ≡ true) ↔ (places.now ≡ others.now) }
{
    let mut rest = places;
    let mut behind = others;
    'places: while let Some((place, more)) = rest.split_first() {
        let Some((other, left)) = behind.split_first() else {
            return false;
        };
        if *place != *other {
            return false;
        }
        rest = more;
        behind = left;
    }
    behind.is_empty()
}

// Whether two nodes have the same name, implied source and attributes.
fn same_face(one: &PlanNode, other: &PlanNode) -> bool
    ensures { (result ≡ true) ↔ ((one.now.name ≡ other.now.name)
        × (one.now.implied ≡ other.now.implied) × (one.now.marks ≡ other.now.marks)) }
{
    one.name.bytes() == other.name.bytes()
        && one.implied.bytes() == other.implied.bytes()
        && same_marks(one.marks, other.marks)
}

// Whether two nodes have the same sources, predecessors and commands.
fn same_body(one: &PlanNode, other: &PlanNode) -> bool
    ensures { (result ≡ true) ↔ ((one.now.sources ≡ other.now.sources)
        × (one.now.before ≡ other.now.before) × (one.now.commands ≡ other.now.commands)) }
{
    same_places(one.sources.as_slice(), other.sources.as_slice())
        && same_places(one.before.as_slice(), other.before.as_slice())
        && same_texts(one.commands.as_slice(), other.commands.as_slice())
}

fn same_node(one: &PlanNode, other: &PlanNode) -> bool
    ensures { (result ≡ true) ↔ (one.now ≡ other.now) }
{
    same_face(one, other) && same_body(one, other)
}

/// Whether two plans have the same nodes in the same order. Takes no memory.
pub fn same_plan(plan: &Plan, other: &Plan) -> bool
    ensures { (result ≡ true) ↔ (plan.now ≡ other.now) }
{
    let mut rest = plan.nodes();
    let mut behind = other.nodes();
    'nodes: while let Some((node, more)) = rest.split_first() {
        let Some((its, left)) = behind.split_first() else {
            return false;
        };
        if !same_node(node, its) {
            return false;
        }
        rest = more;
        behind = left;
    }
    behind.is_empty()
}
