//! The parser of conditions. It goes forwards only, and each function gives what it read and the
//! bytes behind it. At most 256 parentheses and `!` are open at once, which bounds how deep the
//! functions call one another.
ghost use Rattle.std.specs.Prelude.{◌≡◌, ◌<◌, ◌≤◌, true, length, IfOk};
ghost use Rattle.mk_bytes.specs.Agrees.{Agrees};
ghost use Rattle.mk_cond.specs.Conditions as spec;
ghost use Rattle.mk_cond.specs.View.{cond_view, conds_view};
ghost use Rattle.mk_cond.specs.declared.fault.CondFault.TheVariants.{NoMemory as no_memory};

use crate::bytes::{begins, skip_blanks};
use crate::cond::{Cond, Conds, Form};
use crate::fault::CondFault;
use crate::term::{negated, term_at};
use mk_bytes::{Items, skip};
use std::alloc::Global;

/// The sign between conditions.
#[derive(Clone, Copy)]
pub enum Joint {
    /// `||`
    Or,

    /// `&&`
    And,
}

/// How deep a reading is in a text of `total` bytes: `depth` more parentheses and `!` may be open
/// at once.
#[derive(Clone, Copy)]
pub struct Level {
    pub total: usize,
    pub form: Form,
    pub depth: usize,
}

fn joint_text(joint: Joint) -> &'static [u8]
    ensures { result.now ≡ spec.joint_text joint }
{
    match joint {
        Joint::Or => b"||",
        Joint::And => b"&&",
    }
}

// Whether the sign is in front.
#[tactic(auto, using(crate::proofs::Turns::a_sign_is_there))]
fn begins_joint(joint: Joint, text: &[u8]) -> bool
    ensures same { result ≡ spec.begins_joint joint text.now }
    ensures some { result ≡ true → 0 < length text.now }
{
    begins(joint_text(joint), text)
}

#[tactic(auto, using(crate::proofs::Views::views))]
fn join(joint: Joint, conds: Conds) -> Cond
    ensures { cond_view result ≡ spec.joint_cond joint (conds_view conds) }
{
    match joint {
        Joint::Or => Cond::Any(conds),
        Joint::And => Cond::All(conds),
    }
}

/// Conditions with a sign between them, and the blanks behind them.
#[cycle(read)]
pub fn joined_at<'t>(
    alloc: Global,
    level: Level,
    joint: Joint,
    text: &'t [u8],
) -> Result<(Cond, &'t [u8]), CondFault>
    requires { length text.now ≤ level.total }
    ensures gives { Agrees no_memory (λ x. (cond_view x.0, x.1.now)) result
        (spec.joined_at joint (spec.parts_of joint
        (spec.unit_at level.total level.form level.depth)) text.now) }
    ensures shorter { IfOk result (λ x. length x.1.now ≤ length text.now) }
{
    let (first, rest) = part_at(alloc, level, joint, text)?;
    let mut rest = skip_blanks(rest);
    if !begins_joint(joint, rest) {
        return Ok((first, rest));
    }
    let mut conds = Items::new(alloc, 2)?;
    conds.push(first)?;
    'more: loop {
        let (next, left) = part_at(alloc, level, joint, skip(rest, 2))?;
        conds.push(next)?;
        rest = skip_blanks(left);
        if !begins_joint(joint, rest) {
            return Ok((join(joint, conds), rest));
        }
    }
}

// What stands between the signs.
#[cycle(read)]
fn part_at<'t>(
    alloc: Global,
    level: Level,
    joint: Joint,
    text: &'t [u8],
) -> Result<(Cond, &'t [u8]), CondFault>
    requires { length text.now ≤ level.total }
    ensures gives { Agrees no_memory (λ x. (cond_view x.0, x.1.now)) result
        (spec.parts_of joint (spec.unit_at level.total level.form level.depth) text.now) }
    ensures shorter { IfOk result (λ x. length x.1.now ≤ length text.now) }
{
    match joint {
        Joint::Or => joined_at(alloc, level, Joint::And, text),
        Joint::And => unit_at(alloc, level, text),
    }
}

// A term, one in parentheses, or one that is turned round.
#[cycle(read)]
fn unit_at<'t>(alloc: Global, level: Level, text: &'t [u8]) -> Result<(Cond, &'t [u8]), CondFault>
    requires { length text.now ≤ level.total }
    ensures gives { Agrees no_memory (λ x. (cond_view x.0, x.1.now)) result
        (spec.unit_at level.total level.form level.depth text.now) }
    ensures shorter { IfOk result (λ x. length x.1.now ≤ length text.now) }
{
    let text = skip_blanks(text);
    if begins(b"!", text) || begins(b"(", text) {
        return opened_at(alloc, level, text);
    }
    term_at(alloc, level.total, level.form, text)
}

// A `!` or a parenthesis, with what is inside.
#[cycle(read)]
fn opened_at<'t>(alloc: Global, level: Level, text: &'t [u8]) -> Result<(Cond, &'t [u8]), CondFault>
    requires { length text.now ≤ level.total }
    ensures gives { Agrees no_memory (λ x. (cond_view x.0, x.1.now)) result
        (spec.opened_at level.total (spec.inner_at level.total level.form level.depth) text.now) }
    ensures shorter { IfOk result (λ x. length x.1.now ≤ length text.now) }
{
    if level.depth == 0 {
        return Err(CondFault::TooDeep(level.total - text.len()));
    }
    let inner = Level {
        total: level.total,
        form: level.form,
        depth: level.depth - 1,
    };
    let behind = skip(text, 1);
    if begins(b"!", text) {
        return negated_at(alloc, inner, behind);
    }
    grouped_at(alloc, inner, behind)
}

// What a `!` stands before.
#[cycle(read)]
fn negated_at<'t>(
    alloc: Global,
    level: Level,
    text: &'t [u8],
) -> Result<(Cond, &'t [u8]), CondFault>
    requires { length text.now ≤ level.total }
    ensures gives { Agrees no_memory (λ x. (cond_view x.0, x.1.now)) result
        (spec.negated_at (spec.unit_at level.total level.form level.depth) text.now) }
    ensures shorter { IfOk result (λ x. length x.1.now ≤ length text.now) }
{
    let (cond, rest) = unit_at(alloc, level, text)?;
    let cond = negated(alloc, cond)?;
    Ok((cond, rest))
}

// What stands in parentheses, behind the first.
#[cycle(read)]
fn grouped_at<'t>(
    alloc: Global,
    level: Level,
    text: &'t [u8],
) -> Result<(Cond, &'t [u8]), CondFault>
    requires { length text.now ≤ level.total }
    ensures gives { Agrees no_memory (λ x. (cond_view x.0, x.1.now)) result
        (spec.grouped_at level.total (spec.unit_at level.total level.form level.depth) text.now) }
    ensures shorter { IfOk result (λ x. length x.1.now ≤ length text.now) }
{
    let (cond, rest) = joined_at(alloc, level, Joint::Or, text)?;
    if !begins(b")", rest) {
        return Err(CondFault::Bad(level.total - rest.len()));
    }
    Ok((cond, skip(rest, 1)))
}
