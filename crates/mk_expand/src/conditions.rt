//! The truth of conditions. What does not decide is not evaluated.
ghost use Rattle.std.specs.Prelude.{◌≡◌, ◌∷◌, [], false, OnOk};
ghost use Rattle.mk_ast.specs.View.{tree_view};
ghost use Rattle.mk_cond.specs.View.{cond_view, side_view};
ghost use Rattle.mk_values.specs.Calls.{AsksOf, Finds, Keeps};
ghost use Rattle.mk_values.specs.Conditions as spec;
ghost use Rattle.mk_values.specs.Value.{found_at};

use crate::evaluation::{found, tree_value};
use mk_ast::Tree;
use mk_bytes::Text;
use mk_cond::{CmpOp, Cond, Fun, Leaf, Side, Step, compare, entered, left_behind, truth};
use mk_values::{
    ExpandFault, Facts, Names, Run, answer_of, if_defined, lone_reference, plain_bytes,
};

/// The truth of a condition. The conditions round the one that is evaluated stand in a list.
#[cycle(value)]
pub fn truth_of<F: Facts>(
    names: &Names<'_>,
    run: &mut Run,
    facts: &mut F,
    room: usize,
    cond: &Cond,
) -> Result<bool, ExpandFault>
    ensures value { Finds F.Facts names.now false run.old run.new facts.old facts.new result
        (λ c p. spec.truth_of (found_at room) c p (cond_view cond.now)) }
    ensures run { OnOk result (Keeps run.old run.new) }
    ensures facts { AsksOf F.Facts facts.old facts.new result }
{
    let mut outer = Vec::new(names.alloc);
    let mut step = Step::Inside(cond);
    'steps: loop {
        match step {
            Step::Inside(cond) => step = entered(&mut outer, cond)?,
            Step::AtLeaf(leaf) => {
                let truth = leaf_truth(names, run, facts, room, leaf)?;
                match outer.pop() {
                    Some(one) => step = left_behind(&mut outer, one, truth)?,
                    None => return Ok(truth),
                }
            }
        }
    }
}

// The truth of a condition without conditions inside.
#[cycle(value)]
fn leaf_truth<F: Facts>(
    names: &Names<'_>,
    run: &mut Run,
    facts: &mut F,
    room: usize,
    leaf: Leaf<'_>,
) -> Result<bool, ExpandFault>
    ensures value { Finds F.Facts names.now false run.old run.new facts.old facts.new result
        (λ c p. spec.leaf_truth (found_at room) c p leaf.entry) }
    ensures run { OnOk result (Keeps run.old run.new) }
    ensures facts { AsksOf F.Facts facts.old facts.new result }
{
    match leaf {
        Leaf::Known(truth) => Ok(truth),
        Leaf::Test(fun, argument) => test_truth(names, run, facts, room, fun, argument),
        Leaf::Alone(side) => alone_truth(names, run, facts, room, side),
        Leaf::Both(left, op, right) => both_truth(names, run, facts, room, left, op, right),
    }
}

// The answer of a function.
#[cycle(value)]
fn test_truth<F: Facts>(
    names: &Names<'_>,
    run: &mut Run,
    facts: &mut F,
    room: usize,
    fun: Fun,
    argument: &Tree,
) -> Result<bool, ExpandFault>
    ensures value { Finds F.Facts names.now false run.old run.new facts.old facts.new result
        (λ c p. spec.test_truth (found_at room) c p fun (tree_view argument.now)) }
    ensures run { OnOk result (Keeps run.old run.new) }
    ensures facts { AsksOf F.Facts facts.old facts.new result }
{
    if let Some(value) = plain_bytes(argument.as_slice()) {
        return answer_of(names, run, facts, fun, value);
    }
    let value = tree_value(names, run, facts, room, false, argument)?;
    answer_of(names, run, facts, fun, value.bytes())
}

// The truth of a value that stands alone.
#[cycle(value)]
fn alone_truth<F: Facts>(
    names: &Names<'_>,
    run: &mut Run,
    facts: &mut F,
    room: usize,
    side: &Side,
) -> Result<bool, ExpandFault>
    ensures value { Finds F.Facts names.now false run.old run.new facts.old facts.new result
        (λ c p. spec.alone_truth (found_at room) c p (side_view side.now)) }
    ensures run { OnOk result (Keeps run.old run.new) }
    ensures facts { AsksOf F.Facts facts.old facts.new result }
{
    let value = side_value(names, run, facts, room, side)?;
    Ok(truth(value.bytes(), side.quoted))
}

// The truth of a comparison. Both sides are evaluated first.
#[cycle(value)]
fn both_truth<F: Facts>(
    names: &Names<'_>,
    run: &mut Run,
    facts: &mut F,
    room: usize,
    left: &Side,
    op: CmpOp,
    right: &Side,
) -> Result<bool, ExpandFault>
    ensures value { Finds F.Facts names.now false run.old run.new facts.old facts.new result
        (λ c p. spec.both_truth (found_at room) c p (side_view left.now) op (side_view right.now)) }
    ensures run { OnOk result (Keeps run.old run.new) }
    ensures facts { AsksOf F.Facts facts.old facts.new result }
{
    let first = side_value(names, run, facts, room, left)?;
    if let Some(second) = plain_bytes(right.text.as_slice()) {
        return Ok(compare(first.bytes(), left.quoted, op, second, right.quoted)?);
    }
    let second = side_value(names, run, facts, room, right)?;
    Ok(compare(first.bytes(), left.quoted, op, second.bytes(), right.quoted)?)
}

// The value of a side. One that is not quoted and is one reference has to be defined.
#[cycle(value)]
fn side_value<F: Facts>(
    names: &Names<'_>,
    run: &mut Run,
    facts: &mut F,
    room: usize,
    side: &Side,
) -> Result<Text, ExpandFault>
    ensures value { Finds F.Facts names.now false run.old run.new facts.old facts.new result
        (λ c p. spec.side_value (found_at room) c p (side_view side.now)) }
    ensures run { OnOk result (Keeps run.old run.new) }
    ensures facts { AsksOf F.Facts facts.old facts.new result }
{
    if side.quoted {
        return tree_value(names, run, facts, room, false, &side.text);
    }
    match lone_reference(side.text.as_slice()) {
        Some(part) => if_defined(found(names, run, facts, room, false, part)?),
        None => tree_value(names, run, facts, room, false, &side.text),
    }
}
