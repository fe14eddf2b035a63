//! Dependency lines (make(1), "FILE DEPENDENCY SPECIFICATIONS"), and the commands on them.
ghost use Rattle.std.specs.Prelude.{◌≡◌, ◌<◌, length, OnOk, IfOk, IfErr, IfSome, Ok};
ghost use Rattle.std.specs.Option.{option_copied};
ghost use Rattle.mk_ast.specs.declared.fault.AstFault.TheVariants.{NoMemory as no_memory};
ghost use Rattle.mk_bytes.specs.Agrees.{Agrees};
ghost use Rattle.mk_makefile.specs.Dependencies as spec;
ghost use Rattle.mk_makefile.specs.DependencyView.{IsRefusedLine, parts_seen};

use crate::fault::Refusal;
use mk_ast::AstFault;
use mk_bytes::without_blanks_before;
use mk_depline::DepLine;
use mk_form::reference_end;
use mk_rules::Rules;
use std::alloc::Global;

// The place of the first `;` that stands in no reference.
fn first_semicolon(alloc: Global, line: &[u8]) -> Result<Option<usize>, AstFault>
    ensures exact { Agrees no_memory (λ at. at) result (spec.first_semicolon line.now) }
    ensures within { IfOk result (λ found. IfSome found (λ at. at < length line.now)) }
{
    let mut at = 0;
    while at < line.len() {
        match line[at] {
            b';' => return Ok(Some(at)),
            b'$' => at = reference_end(alloc, line, at)?,
            _ => at += 1,
        }
    }
    Ok(None)
}

/// A line, and the command behind its first `;` that stands in no reference, without leading
/// blanks. A fault of a reference before it comes first.
pub fn parted<'t>(alloc: Global, line: &'t [u8]) -> Result<(&'t [u8], Option<&'t [u8]>), AstFault>
    ensures { Agrees no_memory parts_seen result (spec.parted line.now) }
{
    match first_semicolon(alloc, line)? {
        None => Ok((line, None)),
        Some(at) => Ok((&line[..at], Some(without_blanks_before(&line[at + 1..])))),
    }
}

/// Adds what a line says, with the first command of its group. After a refusal the rules are given
/// up.
pub fn add_line(rules: &mut Rules, command: Option<&[u8]>, line: &DepLine) -> Result<(), Refusal>
    ensures done { OnOk result
        (spec.ruled rules.old (option_copied command.entry) line.now ≡ Ok rules.new) }
    ensures refused { IfErr result (IsRefusedLine
        (spec.ruled rules.old (option_copied command.entry) line.now)) }
{
    rules.add_line(line)?;
    if let Some(command) = command {
        rules.add_command(command)?;
    }
    Ok(())
}
