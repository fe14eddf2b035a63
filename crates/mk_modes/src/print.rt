//! Prints of variables and texts (make(1), `-V` and `-v`).
ghost use Rattle.std.specs.Prelude.{◌≡◌, List, ◌++◌, ◌∷◌, [], unwrap_or, IfErr, OnOk, OnErr};
ghost use Rattle.mk_bytes.specs.Bytes.{newline};
ghost use Rattle.mk_values.specs.Calls.{Asks};
ghost use Rattle.mk_values.specs.Facts.{Answers, AnsweredBy, Means};
ghost use Rattle.mk_values.specs.Names as names;
ghost use Rattle.mk_values.specs.Texts as texts;
ghost use Rattle.mk_values.specs.declared.facts.Asked.{Asked};
ghost use Rattle.mk_plan.specs.Tasks.{setting_of};
ghost use Rattle.mk_modes.specs.Meaning as spec;
ghost use Rattle.mk_modes.specs.Modes as modes;
ghost use Rattle.mk_modes.specs.declared.report.End.TheVariants.{
  SinkFault as sink_failed,
  WorldFault
      as world_failed,
};
ghost use Rattle.mk_world.specs.Causes.{HasCause};
ghost use Rattle.mk_world.specs.Sinks.{Gains, GainsPart};
ghost use Rattle.mk_world.specs.declared.fault.SinkFault.TheVariants.{Failed};

use crate::report::End;
use mk_bytes::Text;
use mk_cli::{Print, Prints};
use mk_expand::{ExpandFault, Facts, Locals, expand, name_tree, value_of_text};
use mk_scopes::Scopes;
use mk_world::{Sink, SinkFault, write_all};
use std::alloc::Global;

fn has_dollar(text: &[u8]) -> bool
    ensures { result ≡ texts.has_dollar text.now }
{
    text.iter().any(|byte| *byte == b'$')
}

// The raw value of a name, or nothing. The empty name has none.
fn raw_value<'s>(scopes: &'s Scopes, name: &[u8]) -> &'s [u8]
    ensures { result.now ≡ unwrap_or (names.known scopes.now name.now) [] }
{
    if name.is_empty() {
        return b"";
    }
    match scopes.get(name) {
        Some(value) => value.bytes(),
        None => b"",
    }
}

// What a print shows.
fn shown<F: Facts>(
    alloc: Global,
    scopes: &Scopes,
    print: &Print,
    facts: &mut F,
) -> Result<Text, ExpandFault>
    ensures value { Means (F.asked facts.new) (λ line. (line, F.asked facts.new)) result
        (λ answers. spec.shown (setting_of scopes.now (F.lists facts.old) answers)
        (F.asked facts.old) print.now) }
    ensures facts { Asks (F.leads facts.old facts.new) (F.lists facts.old) (F.lists facts.new)
        (F.asked facts.old) (F.asked facts.new) (F.faults facts.old) (F.faults facts.new) result }
{
    let text = print.text.bytes();
    let locals = Locals::none(alloc)?;
    if has_dollar(text) {
        let value = value_of_text(alloc, scopes, &locals, text, facts, false);
        drop(locals);
        return value;
    }
    if print.full {
        let tree = name_tree(alloc, text)?;
        let value = expand(alloc, scopes, &locals, &tree, facts, false);
        drop(tree);
        drop(locals);
        return value;
    }
    drop(locals);
    Ok(Text::from_bytes(alloc, raw_value(scopes, text))?)
}

// Writes a line.
fn write_value<S: Sink>(out: &mut S, line: &[u8]) -> Result<(), SinkFault>
    ensures done { OnOk result
        (Gains (S.held out.old) (S.held out.new) (line.now ++ newline ∷ [])) }
    ensures cut { OnErr result
        (GainsPart (S.held out.old) (S.held out.new) (line.now ++ newline ∷ [])) }
    ensures cause { HasCause Failed (S.faults out.old) (S.faults out.new) result }
{
    write_all(out, &[line, b"\n"])
}

// The end of a run whose print at place `i` has this fault.
fn print_fault(i: u32, fault: ExpandFault) -> End
    ensures { result ≡ spec.print_end i fault }
{
    match fault {
        ExpandFault::NoMemory => End::NoMemory,
        ExpandFault::Failed => End::WorldFault,
        other => End::Print(i, other),
    }
}

// Prints one line.
fn print_one<S: Sink, F: Facts>(
    alloc: Global,
    scopes: &Scopes,
    i: u32,
    print: &Print,
    facts: &mut F,
    out: &mut S,
) -> Result<(), End>
    ensures line { OnOk result ((answers : Answers) → AnsweredBy answers (F.asked facts.new)
        → modes.PrintedLine (spec.shown (setting_of scopes.now (F.lists facts.old) answers)
        (F.asked facts.old) print.now) (F.asked facts.new)
        (record { before = S.held out.old; after = S.held out.new })) }
    ensures end { IfErr result (λ end. (answers : Answers)
        → AnsweredBy answers (F.asked facts.new) → (others : List Asked → spec.Outcome)
        → modes.Printed (spec.before_others i (spec.shown (setting_of scopes.now
        (F.lists facts.old) answers) (F.asked facts.old) print.now) others)
        (record { before = S.held out.old; after = S.held out.new }) end) }
    ensures facts { modes.Questions (F.leads facts.old facts.new) (F.lists facts.old)
        (F.lists facts.new) (F.asked facts.old) (F.asked facts.new) }
    ensures cause { HasCause sink_failed (S.faults out.old) (S.faults out.new) result }
    ensures world_cause { HasCause world_failed (F.faults facts.old) (F.faults facts.new) result }
{
    match shown(alloc, scopes, print, facts) {
        Ok(line) => Ok(write_value(out, line.bytes())?),
        Err(fault) => Err(print_fault(i, fault)),
    }
}

/// Prints in order, each on its line, as soon as it is evaluated. Ends at the first that has a
/// fault, at a write that fails, and at a fact that the outside does not tell.
pub fn print_all<S: Sink, F: Facts>(
    alloc: Global,
    scopes: &Scopes,
    prints: &Prints,
    facts: &mut F,
    out: &mut S,
) -> Result<(), End>
    ensures ends { (answers : Answers) → AnsweredBy answers (F.asked facts.new)
        → modes.Printed (spec.printed (setting_of scopes.now (F.lists facts.old) answers)
        (F.asked facts.old) 0 prints.now)
        (record { before = S.held out.old; after = S.held out.new }) (modes.end_of result) }
    ensures facts { modes.Questions (F.leads facts.old facts.new) (F.lists facts.old)
        (F.lists facts.new) (F.asked facts.old) (F.asked facts.new) }
    ensures cause { HasCause sink_failed (S.faults out.old) (S.faults out.new) result }
    ensures world_cause { HasCause world_failed (F.faults facts.old) (F.faults facts.new) result }
{
    for (i, print) in prints.as_slice().iter().enumerate() {
        print_one(alloc, scopes, i as u32, print, facts, out)?;
    }
    Ok(())
}
