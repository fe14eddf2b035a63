//! The parts of a logical line, and what it is for the blocks of its file.
ghost use Rattle.std.specs.Prelude.{◌≡◌, ◌≤◌, length, take_while};
ghost use Rattle.std.specs.Option.{option_copied};
ghost use Rattle.mk_makefile.specs.Kinds as spec;

use mk_blocks::LineKind;
use mk_directive::{Directive, directive_on, is_white, without_blanks};

/// The command of a command line, which a tab begins. `None` for every other line.
pub fn command_in<'t>(text: &'t [u8]) -> Option<&'t [u8]>
    ensures { option_copied result ≡ spec.command_in text.now }
{
    match text {
        [b'\t', command @ ..] => Some(command),
        _ => None,
    }
}

/// Whether a text is white space alone.
pub fn is_only_white(text: &[u8]) -> bool
    ensures { result ≡ spec.is_only_white text.now }
{
    text.iter().all(|byte| is_white(*byte))
}

fn spaces_len(line: &[u8]) -> usize
    ensures len { result ≡ length (take_while spec.is_space line.now) }
    ensures within { result ≤ length line.now }
{
    line.iter().take_while(|byte| **byte == b' ').count()
}

/// A line without the spaces that begin it.
pub fn without_spaces<'t>(line: &'t [u8]) -> &'t [u8]
    ensures { result.now ≡ spec.without_spaces line.now }
{
    &line[spaces_len(line)..]
}

fn kind_of(directive: Directive) -> LineKind
    ensures { result ≡ spec.kind_of directive }
{
    match directive {
        Directive::If(_) => LineKind::If,
        Directive::ElseIf(_) => LineKind::ElseIf,
        Directive::Else => LineKind::Else,
        Directive::EndIf => LineKind::EndIf,
        Directive::For => LineKind::For,
        Directive::EndFor => LineKind::EndFor,
        Directive::Break => LineKind::Break,
        Directive::Include => LineKind::Include,
        Directive::TryInclude => LineKind::Include,
        Directive::Undef => LineKind::Plain,
        Directive::Error => LineKind::Plain,
        Directive::Warning => LineKind::Plain,
        Directive::Info => LineKind::Plain,
        Directive::Export => LineKind::Uncounted,
        Directive::Unexport => LineKind::Uncounted,
    }
}

fn begins_comment(text: &[u8]) -> bool
    ensures { result ≡ spec.begins_comment text.now }
{
    match text {
        [] => true,
        [first, ..] => *first == b'#',
    }
}

fn command_kind(command: &[u8]) -> LineKind
    ensures { result ≡ spec.command_kind command.now }
{
    if is_only_white(command) {
        return LineKind::Uncounted;
    }
    LineKind::Plain
}

// A line that is no command, without its leading spaces.
#[inline(always)]
fn plain_kind(line: &[u8]) -> LineKind
    ensures { result ≡ spec.plain_kind line.now }
{
    if let Some(found) = directive_on(line) {
        return kind_of(found.directive);
    }
    if begins_comment(without_blanks(line)) {
        return LineKind::Uncounted;
    }
    LineKind::Plain
}

/// What a logical line is for the blocks of its file: what its directive says, and else a line that
/// counts where it is something. Takes no memory.
#[inline(always)]
pub fn line_kind(text: &[u8]) -> LineKind
    ensures { result ≡ spec.line_kind text.now }
{
    match command_in(text) {
        Some(command) => command_kind(command),
        None => plain_kind(without_spaces(text)),
    }
}
