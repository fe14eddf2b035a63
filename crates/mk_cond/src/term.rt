//! The terms of a condition: functions, sides and words. Each function gives what it read and the
//! bytes behind it, in a text that is `total` bytes long.
ghost use Rattle.std.specs.Prelude.{◌≡◌, ◌≤◌, length, IfOk, IfSome};
ghost use Rattle.std.specs.Option.{option_map};
ghost use Rattle.mk_bytes.specs.Agrees.{Agrees};
ghost use Rattle.mk_ast.specs.View.{tree_view};
ghost use Rattle.mk_cond.specs.Cond as plain;
ghost use Rattle.mk_cond.specs.Terms as spec;
ghost use Rattle.mk_cond.specs.View.{side_view, cond_view};
ghost use Rattle.mk_cond.specs.declared.cond.Fun.TheVariants as fun;
ghost use Rattle.mk_cond.specs.declared.fault.CondFault.TheVariants.{NoMemory as no_memory};

use crate::bytes::{begins, skip_blanks};
use crate::cond::{CmpOp, Cond, Form, Fun, Side};
use crate::fault::CondFault;
use mk_ast::{AstFault, Piece, Tree, bare_reference_at, piece_at};
use mk_bytes::skip;
use std::alloc::Global;

fn fun_text(fun: Fun) -> &'static [u8]
    ensures { result.now ≡ spec.fun_text fun }
{
    match fun {
        Fun::Defined => b"defined",
        Fun::Make => b"make",
        Fun::Empty => b"empty",
        Fun::Exists => b"exists",
        Fun::Target => b"target",
        Fun::Commands => b"commands",
    }
}

// What stands behind the name of a function and the blanks there.
fn behind_name(fun: Fun, text: &[u8]) -> &[u8]
    ensures same { result.now ≡ spec.behind_name fun text.now }
    ensures shorter { length result.now ≤ length text.now }
{
    let behind = skip(text, fun_text(fun).len());
    skip_blanks(behind)
}

#[tactic(auto, unfolding(crate::specs::Terms::is_call))]
fn is_call(fun: Fun, text: &[u8]) -> bool
    ensures { result ≡ spec.is_call fun text.now }
{
    begins(fun_text(fun), text) && begins(b"(", behind_name(fun, text))
}

// The function that is called here.
fn called(text: &[u8]) -> Option<Fun>
    ensures { result ≡ spec.called text.now }
{
    if is_call(Fun::Defined, text) {
        return Some(Fun::Defined);
    }
    if is_call(Fun::Make, text) {
        return Some(Fun::Make);
    }
    if is_call(Fun::Empty, text) {
        return Some(Fun::Empty);
    }
    if is_call(Fun::Exists, text) {
        return Some(Fun::Exists);
    }
    if is_call(Fun::Target, text) {
        return Some(Fun::Target);
    }
    if is_call(Fun::Commands, text) {
        return Some(Fun::Commands);
    }
    None
}

// The name and the modifiers of `empty`, behind its parenthesis.
fn bare_argument_at<'t>(
    alloc: Global,
    total: usize,
    text: &'t [u8],
) -> Result<(Tree, &'t [u8]), CondFault>
    requires { length text.now ≤ total }
    ensures gives { Agrees no_memory (λ x. (tree_view x.0, x.1.now)) result
        (spec.argument_at total fun.Empty text.now) }
    ensures shorter { IfOk result (λ x. length x.1.now ≤ length text.now) }
{
    match bare_reference_at(alloc, total, text) {
        Ok(given) => Ok(given),
        Err(AstFault::Unclosed(at)) if at == total => Err(CondFault::Bad(total)),
        Err(fault) => Err(CondFault::from(fault)),
    }
}

// A piece, and past the byte that ends it.
fn ended_piece_at<'t>(
    alloc: Global,
    total: usize,
    piece: Piece,
    text: &'t [u8],
) -> Result<(Tree, &'t [u8]), CondFault>
    requires { length text.now ≤ total }
    ensures gives { Agrees no_memory (λ x. (tree_view x.0, x.1.now)) result
        (spec.ended_piece_at total piece text.now) }
    ensures shorter { IfOk result (λ x. length x.1.now ≤ length text.now) }
{
    let (tree, rest) = piece_at(alloc, total, piece, text)?;
    if rest.is_empty() {
        return Err(CondFault::Bad(total));
    }
    Ok((tree, skip(rest, 1)))
}

// The argument of a function, behind its parenthesis.
fn argument_at<'t>(
    alloc: Global,
    total: usize,
    fun: Fun,
    text: &'t [u8],
) -> Result<(Tree, &'t [u8]), CondFault>
    requires { length text.now ≤ total }
    ensures gives { Agrees no_memory (λ x. (tree_view x.0, x.1.now)) result
        (spec.argument_at total fun text.now) }
    ensures shorter { IfOk result (λ x. length x.1.now ≤ length text.now) }
{
    match fun {
        Fun::Empty => bare_argument_at(alloc, total, text),
        _ => ended_piece_at(alloc, total, Piece::Argument, text),
    }
}

// A function from its name on.
#[tactic(auto, using(crate::proofs::Views::views))]
fn call_at<'t>(
    alloc: Global,
    total: usize,
    fun: Fun,
    text: &'t [u8],
) -> Result<(Cond, &'t [u8]), CondFault>
    requires { length text.now ≤ total }
    ensures gives { Agrees no_memory (λ x. (cond_view x.0, x.1.now)) result
        (spec.call_at total fun text.now) }
    ensures shorter { IfOk result (λ x. length x.1.now ≤ length text.now) }
{
    let (tree, rest) = argument_at(alloc, total, fun, skip(behind_name(fun, text), 1))?;
    Ok((Cond::Test(fun, tree), rest))
}

// An unquoted word, which is not empty.
fn word_at<'t>(alloc: Global, total: usize, text: &'t [u8]) -> Result<(Tree, &'t [u8]), CondFault>
    requires { length text.now ≤ total }
    ensures gives { Agrees no_memory (λ x. (tree_view x.0, x.1.now)) result
        (spec.word_at total text.now) }
    ensures shorter { IfOk result (λ x. length x.1.now ≤ length text.now) }
{
    let (tree, rest) = piece_at(alloc, total, Piece::Word, text)?;
    if tree.is_empty() {
        return Err(CondFault::Bad(total - text.len()));
    }
    Ok((tree, rest))
}

// A quoted text, behind its first quote.
fn quoted_at<'t>(alloc: Global, total: usize, text: &'t [u8]) -> Result<(Side, &'t [u8]), CondFault>
    requires { length text.now ≤ total }
    ensures gives { Agrees no_memory (λ x. (side_view x.0, x.1.now)) result
        (spec.quoted_at total text.now) }
    ensures shorter { IfOk result (λ x. length x.1.now ≤ length text.now) }
{
    let (text, rest) = ended_piece_at(alloc, total, Piece::Quoted, text)?;
    Ok((Side { text, quoted: true }, rest))
}

fn unquoted_at<'t>(
    alloc: Global,
    total: usize,
    text: &'t [u8],
) -> Result<(Side, &'t [u8]), CondFault>
    requires { length text.now ≤ total }
    ensures gives { Agrees no_memory (λ x. (side_view x.0, x.1.now)) result
        (spec.unquoted_at total text.now) }
    ensures shorter { IfOk result (λ x. length x.1.now ≤ length text.now) }
{
    let (text, rest) = word_at(alloc, total, text)?;
    Ok((unquoted(text), rest))
}

fn unquoted(text: Tree) -> Side
    ensures { side_view result ≡ spec.unquoted (tree_view text) }
{
    Side {
        text,
        quoted: false,
    }
}

fn side_at<'t>(alloc: Global, total: usize, text: &'t [u8]) -> Result<(Side, &'t [u8]), CondFault>
    requires { length text.now ≤ total }
    ensures gives { Agrees no_memory (λ x. (side_view x.0, x.1.now)) result
        (spec.side_at total text.now) }
    ensures shorter { IfOk result (λ x. length x.1.now ≤ length text.now) }
{
    if begins(b"\"", text) {
        return quoted_at(alloc, total, skip(text, 1));
    }
    unquoted_at(alloc, total, text)
}

// An operator, and what is behind it.
fn op_at(text: &[u8]) -> Option<(CmpOp, &[u8])>
    ensures same { option_map (λ x. (x.0, x.1.now)) result ≡ spec.op_at text.now }
    ensures shorter { IfSome result (λ x. length x.1.now ≤ length text.now) }
{
    if begins(b"==", text) {
        return Some((CmpOp::Equal, skip(text, 2)));
    }
    if begins(b"!=", text) {
        return Some((CmpOp::NotEqual, skip(text, 2)));
    }
    if begins(b"<=", text) {
        return Some((CmpOp::LessOrEqual, skip(text, 2)));
    }
    if begins(b">=", text) {
        return Some((CmpOp::GreaterOrEqual, skip(text, 2)));
    }
    if begins(b"<", text) {
        return Some((CmpOp::Less, skip(text, 1)));
    }
    if begins(b">", text) {
        return Some((CmpOp::Greater, skip(text, 1)));
    }
    None
}

// A comparison from behind its operator.
#[tactic(auto, using(crate::proofs::Views::views))]
fn both_at<'t>(
    alloc: Global,
    total: usize,
    left: Side,
    op: CmpOp,
    text: &'t [u8],
) -> Result<(Cond, &'t [u8]), CondFault>
    requires { length text.now ≤ total }
    ensures gives { Agrees no_memory (λ x. (cond_view x.0, x.1.now)) result
        (spec.both_at total (side_view left) (op, text.now)) }
    ensures shorter { IfOk result (λ x. length x.1.now ≤ length text.now) }
{
    let (right, rest) = side_at(alloc, total, skip_blanks(text))?;
    Ok((Cond::Both(left, op, right), rest))
}

// A left side, with the right one where an operator follows.
#[tactic(auto, using(crate::proofs::Views::views))]
fn sides_at<'t>(alloc: Global, total: usize, text: &'t [u8]) -> Result<(Cond, &'t [u8]), CondFault>
    requires { length text.now ≤ total }
    ensures gives { Agrees no_memory (λ x. (cond_view x.0, x.1.now)) result
        (spec.sides_at total text.now) }
    ensures shorter { IfOk result (λ x. length x.1.now ≤ length text.now) }
{
    let (left, rest) = side_at(alloc, total, text)?;
    match op_at(skip_blanks(rest)) {
        Some((op, behind)) => both_at(alloc, total, left, op, behind),
        None => Ok((Cond::Alone(left), rest)),
    }
}

// What a bare word asks.
#[tactic(auto, using(crate::proofs::Views::views))]
fn asked(alloc: Global, form: Form, word: Tree) -> Result<Cond, CondFault>
    ensures { Agrees no_memory cond_view result (Ok (spec.asked form (tree_view word))) }
{
    match form {
        Form::If | Form::Def | Form::Inner => Ok(Cond::Test(Fun::Defined, word)),
        Form::Make => Ok(Cond::Test(Fun::Make, word)),
        Form::Ndef => negated(alloc, Cond::Test(Fun::Defined, word)),
        Form::Nmake => negated(alloc, Cond::Test(Fun::Make, word)),
    }
}

/// A condition, turned round.
#[tactic(auto, using(crate::proofs::Views::views))]
pub fn negated(alloc: Global, cond: Cond) -> Result<Cond, CondFault>
    ensures { Agrees no_memory cond_view result (Ok (plain.negate (cond_view cond))) }
{
    match Box::new(alloc, cond) {
        Ok(inner) => Ok(Cond::Not(inner)),
        Err(_) => Err(CondFault::NoMemory),
    }
}

// A bare word. In the name of a `:?` it is a left side where an operator follows.
#[tactic(auto, using(crate::proofs::Views::views))]
fn word_term_at<'t>(
    alloc: Global,
    total: usize,
    form: Form,
    text: &'t [u8],
) -> Result<(Cond, &'t [u8]), CondFault>
    requires { length text.now ≤ total }
    ensures gives { Agrees no_memory (λ x. (cond_view x.0, x.1.now)) result
        (spec.word_term_at total form text.now) }
    ensures shorter { IfOk result (λ x. length x.1.now ≤ length text.now) }
{
    let (word, rest) = word_at(alloc, total, text)?;
    if matches!(form, Form::Inner) {
        if let Some((op, behind)) = op_at(skip_blanks(rest)) {
            return both_at(alloc, total, unquoted(word), op, behind);
        }
    }
    let cond = asked(alloc, form, word)?;
    Ok((cond, rest))
}

fn begins_digit(text: &[u8]) -> bool
    ensures { result ≡ spec.begins_digit text.now }
{
    match text {
        [] => false,
        [first, ..] => first.is_ascii_digit(),
    }
}

// Whether a left side begins here.
fn begins_side(text: &[u8]) -> bool
    ensures { result ≡ spec.begins_side text.now }
{
    match text {
        [] => false,
        [first, rest @ ..] => {
            let byte = *first;
            byte == b'$'
                || byte == b'"'
                || byte.is_ascii_digit()
                || ((byte == b'+' || byte == b'-') && begins_digit(rest))
        }
    }
}

/// A term. Functions come first.
pub fn term_at<'t>(
    alloc: Global,
    total: usize,
    form: Form,
    text: &'t [u8],
) -> Result<(Cond, &'t [u8]), CondFault>
    requires { length text.now ≤ total }
    ensures gives { Agrees no_memory (λ x. (cond_view x.0, x.1.now)) result
        (spec.term_at total form text.now) }
    ensures shorter { IfOk result (λ x. length x.1.now ≤ length text.now) }
{
    if let Some(fun) = called(text) {
        return call_at(alloc, total, fun, text);
    }
    if begins_side(text) {
        return sides_at(alloc, total, text);
    }
    word_term_at(alloc, total, form, text)
}
