//! The lines that begin branches and loops, and their parts.
ghost use Rattle.std.specs.Prelude.{◌≡◌, ◌<◌, length};
ghost use Rattle.mk_makefile.specs.Blocks as spec;

use crate::fault::What;
use mk_blocks::Loop;
use mk_bytes::Texts;
use mk_cond::Form;
use mk_directive::{Directive, directive_on};

fn form_of(directive: Directive) -> Form
    ensures { result ≡ spec.form_of directive }
{
    match directive {
        Directive::If(form) => form,
        Directive::ElseIf(form) => form,
        _ => Form::If,
    }
}

/// The form of a line's condition, and its text.
pub fn condition_on<'t>(line: &'t [u8]) -> (Form, &'t [u8])
    ensures form { result.0 ≡ (spec.condition_on line.now).0 }
    ensures text { result.1.now ≡ (spec.condition_on line.now).1 }
{
    match directive_on(line) {
        Some(found) => (form_of(found.directive), found.argument),
        None => (Form::If, line),
    }
}

/// What follows the word of a line's directive, and the blanks behind that.
pub fn argument_on<'t>(line: &'t [u8]) -> &'t [u8]
    ensures { result.now ≡ spec.argument_on line.now }
{
    match directive_on(line) {
        Some(found) => found.argument,
        None => line,
    }
}

/// A loop whose names divide its words. `Count` with both numbers where they do not.
pub fn divide(names: Texts, words: Texts) -> Result<Loop, What>
    requires { 0 < length names }
    ensures { spec.IsDivided names words result }
{
    let count = names.len();
    if words.len() % count != 0 {
        return Err(What::Count(words.len(), count));
    }
    Ok(Loop { names, words })
}
