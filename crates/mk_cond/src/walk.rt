//! The order in which the parts of a condition are evaluated. The conditions round the one that is
//! evaluated stand in a list and not on the stack, so that conditions in the names of `:?` inside
//! conditions may each be as deep as the grammar allows.
ghost use Rattle.std.specs.Prelude.{◌≡◌, ◌+◌, ◌<◌, IfOk};
ghost use Rattle.mk_cond.specs.View.{cond_view, conds_view};
ghost use Rattle.mk_cond.specs.Walk as spec;

use crate::cond::{CmpOp, Cond, Fun, Side};
use mk_ast::Tree;
use mk_bytes::NoMemory;

/// What is left to do behind a condition for one that is round it.
#[derive(Clone, Copy)]
pub enum Outer<'c> {
    /// `!`: the truth is turned round.
    Not,
    /// `||`: where it is false, these decide.
    Any(&'c [Cond]),
    /// `&&`: where it is true, these decide.
    All(&'c [Cond]),
}

/// A condition without conditions inside.
#[derive(Clone, Copy)]
pub enum Leaf<'c> {
    /// One whose truth is known.
    Known(bool),
    /// A function and its argument.
    Test(Fun, &'c Tree),
    /// A value that stands alone.
    Alone(&'c Side),
    /// A comparison.
    Both(&'c Side, CmpOp, &'c Side),
}

/// What is to be evaluated next.
#[derive(Clone, Copy)]
pub enum Step<'c> {
    /// A condition that is entered first.
    Inside(&'c Cond),
    /// A leaf, which is evaluated by itself.
    AtLeaf(Leaf<'c>),
}

// The first of some conditions between which `||` stands.
fn any_of<'c>(outer: &mut Vec<Outer<'c>>, conds: &'c [Cond]) -> Result<Step<'c>, NoMemory>
    ensures same { IfOk result (λ step. (ways : spec.Ways)
        → spec.step_walk step (spec.behind_all outer.new.items ways)
        ≡ spec.any_walk (conds_view conds.now) (spec.behind_all outer.old.items ways)) }
    ensures less { IfOk result (λ step. spec.weight outer.new.items + spec.step_size step
        < spec.weight outer.old.items + (1 + spec.conds_size (conds_view conds.now))) }
{
    let [first, left @ ..] = conds else {
        return Ok(Step::AtLeaf(Leaf::Known(false)));
    };
    outer.push(Outer::Any(left))?;
    Ok(Step::Inside(first))
}

// The first of some conditions between which `&&` stands.
fn all_of<'c>(outer: &mut Vec<Outer<'c>>, conds: &'c [Cond]) -> Result<Step<'c>, NoMemory>
    ensures same { IfOk result (λ step. (ways : spec.Ways)
        → spec.step_walk step (spec.behind_all outer.new.items ways)
        ≡ spec.all_walk (conds_view conds.now) (spec.behind_all outer.old.items ways)) }
    ensures less { IfOk result (λ step. spec.weight outer.new.items + spec.step_size step
        < spec.weight outer.old.items + (1 + spec.conds_size (conds_view conds.now))) }
{
    let [first, left @ ..] = conds else {
        return Ok(Step::AtLeaf(Leaf::Known(true)));
    };
    outer.push(Outer::All(left))?;
    Ok(Step::Inside(first))
}

/// What is evaluated first of a condition. What is left of it is kept behind the conditions round
/// it, in `outer`, the innermost last: the walk goes on with it as the condition's own does.
/// `NoMemory` where the list cannot grow.
pub fn entered<'c>(outer: &mut Vec<Outer<'c>>, cond: &'c Cond) -> Result<Step<'c>, NoMemory>
    ensures same { IfOk result (λ step. (ways : spec.Ways)
        → spec.step_walk step (spec.behind_all outer.new.items ways)
        ≡ spec.walk (cond_view cond.now) (spec.behind_all outer.old.items ways)) }
    ensures less { IfOk result (λ step. spec.weight outer.new.items + spec.step_size step
        < spec.weight outer.old.items + spec.cond_size (cond_view cond.now)) }
{
    match cond {
        Cond::Any(conds) => any_of(outer, conds.as_slice()),
        Cond::All(conds) => all_of(outer, conds.as_slice()),
        Cond::Not(inner) => {
            outer.push(Outer::Not)?;
            Ok(Step::Inside(inner))
        }
        Cond::Test(fun, argument) => Ok(Step::AtLeaf(Leaf::Test(*fun, argument))),
        Cond::Alone(side) => Ok(Step::AtLeaf(Leaf::Alone(side))),
        Cond::Both(left, op, right) => Ok(Step::AtLeaf(Leaf::Both(left, *op, right))),
    }
}

/// What is evaluated next behind a condition whose truth is known, by the innermost one round it,
/// `one`, which is taken from the list `outer`: nothing of it where that truth decides. `NoMemory`
/// where the list cannot grow.
pub fn left_behind<'c>(
    outer: &mut Vec<Outer<'c>>,
    one: Outer<'c>,
    truth: bool,
) -> Result<Step<'c>, NoMemory>
    ensures same { IfOk result (λ step. (ways : spec.Ways)
        → spec.step_walk step (spec.behind_all outer.new.items ways)
        ≡ spec.way truth (spec.behind one.entry (spec.behind_all outer.old.items ways))) }
    ensures less { IfOk result (λ step. spec.weight outer.new.items + spec.step_size step
        < spec.weight outer.old.items + spec.outer_size one.entry) }
{
    match one {
        Outer::Any(left) if !truth => any_of(outer, left),
        Outer::Any(_) => Ok(Step::AtLeaf(Leaf::Known(truth))),
        Outer::All(left) if truth => all_of(outer, left),
        Outer::All(_) => Ok(Step::AtLeaf(Leaf::Known(truth))),
        Outer::Not => Ok(Step::AtLeaf(Leaf::Known(!truth))),
    }
}
