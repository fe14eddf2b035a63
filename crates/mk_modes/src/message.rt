//! The line on standard error with which a run ends.
ghost use Rattle.std.specs.Prelude.{◌≡◌, ◌++◌, codes, decimal, OnOk, OnErr};
ghost use Rattle.mk_modes.specs.Messages as spec;
ghost use Rattle.mk_world.specs.Causes.{HasCause};
ghost use Rattle.mk_world.specs.Sinks.{Gains, GainsPart, all_of};
ghost use Rattle.mk_world.specs.declared.fault.SinkFault.TheVariants.{Failed};

use crate::report::End;
use crate::words::word_at;
use itoa::Buffer;
use mk_ast::TreeFault;
use mk_bytes::{Kind, Texts};
use mk_expand::ExpandFault;
use mk_reader::What;
use mk_world::{Sink, SinkFault, write_all};

// The place that the text of a fault shows, or 0.
fn tree_place(fault: &TreeFault) -> usize
    ensures { result ≡ spec.tree_place fault.now }
{
    match fault {
        TreeFault::Unclosed(at) => *at,
        TreeFault::UnknownModifier(at) => *at,
        TreeFault::BadModifier(at) => *at,
        TreeFault::TooDeep(at) => *at,
    }
}

fn fault_place(fault: &ExpandFault) -> usize
    ensures { result ≡ spec.fault_place fault.now }
{
    match fault {
        ExpandFault::Tree(tree) => tree_place(tree),
        ExpandFault::Cond(at) => *at,
        _ => 0,
    }
}

fn what_place(what: &What) -> usize
    ensures { result ≡ spec.what_place what.now }
{
    match what {
        What::Expand(fault) => fault_place(fault),
        What::Cond(at) => *at,
        What::Count(words, _) => *words,
        _ => 0,
    }
}

// The number of names of a loop, or 0.
fn name_count(what: &What) -> usize
    ensures { result ≡ spec.name_count what.now }
{
    match what {
        What::Count(_, names) => *names,
        _ => 0,
    }
}

// The text of a fault in three pieces, with its place in decimal.
fn tree_text<'t>(fault: &TreeFault, at: &'t [u8]) -> [&'t [u8]; 3]
    requires { at.now ≡ decimal (spec.tree_place fault.now) }
    ensures { all_of result ≡ spec.tree_text fault.now }
{
    match fault {
        TreeFault::Unclosed(_) => [b"unclosed reference at ", at, b""],
        TreeFault::UnknownModifier(_) => [b"unknown modifier at ", at, b""],
        TreeFault::BadModifier(_) => [b"bad modifier at ", at, b""],
        TreeFault::TooDeep(_) => [b"nested too deeply at ", at, b""],
    }
}

fn fault_text<'t>(fault: &'t ExpandFault, at: &'t [u8]) -> [&'t [u8]; 3]
    requires { at.now ≡ decimal (spec.fault_place fault.now) }
    ensures { all_of result ≡ spec.fault_text fault.now }
{
    match fault {
        ExpandFault::Recursive(name) => [b"variable ", name.bytes(), b" is recursive"],
        ExpandFault::TooDeep => [b"nested too deeply", b"", b""],
        ExpandFault::TooManyReferences => [b"too many references", b"", b""],
        ExpandFault::TooLong => [b"value too long", b"", b""],
        ExpandFault::Tree(tree) => tree_text(tree, at),
        ExpandFault::Cond(_) => [b"bad condition at ", at, b""],
        ExpandFault::NoNumber => [b"not a number", b"", b""],
        ExpandFault::Undefined => [b"undefined variable in condition", b"", b""],
        ExpandFault::BadPlace => [b"bad word selection", b"", b""],
        ExpandFault::Failed => [b"an outside call failed", b"", b""],
        ExpandFault::NoMemory => [b"out of memory", b"", b""],
    }
}

// The text of what is wrong with a line, where it has no number.
fn plain_text(what: &What) -> [&[u8]; 2]
    ensures { all_of result ≡ spec.plain_text what.now }
{
    match what {
        What::TooLong => [b"line too long", b""],
        What::Zero => [b"zero byte", b""],
        What::LostCommand => [b"command without target", b""],
        What::EmptyName => [b"empty variable name", b""],
        What::ForForm => [b"bad .for", b""],
        What::Else => [b"misplaced .else", b""],
        What::Endif => [b"misplaced .endif", b""],
        What::Endfor => [b"misplaced .endfor", b""],
        What::Break => [b"misplaced .break", b""],
        What::OpenBlock => [b"block is not closed", b""],
        What::IncludeForm => [b"bad .include", b""],
        What::ExportForm => [b"bad .export", b""],
        What::Include(file) => [b"can't find ", file.bytes()],
        What::NoOperator => [b"no operator", b""],
        What::DoubleColon => [b":: is not supported", b""],
        What::NoTargets => [b"no targets", b""],
        What::MixedSpecial => [b"special target with others", b""],
        What::Operators => [b"inconsistent operators", b""],
        What::Brace => [b"open brace", b""],
        What::RuleSources => [b"rule with sources", b""],
        What::TooManyNames => [b"too many names", b""],
        What::Error(text) => [text.bytes(), b""],
        What::Cond(_) | What::Count(_, _) | What::Expand(_) => [b"", b""],
    }
}

// The text of what is wrong with a line in five pieces, with its numbers in decimal.
fn what_text<'t>(what: &'t What, at: &'t [u8], names: &'t [u8]) -> [&'t [u8]; 5]
    requires place { at.now ≡ decimal (spec.what_place what.now) }
    requires names { names.now ≡ decimal (spec.name_count what.now) }
    ensures { all_of result ≡ spec.what_text what.now }
{
    match what {
        What::Cond(_) => [b"bad condition at ", at, b"", b"", b""],
        What::Count(_, _) => [b".for has ", at, b" words for ", names, b" names"],
        What::Expand(fault) => {
            let [before, middle, after] = fault_text(fault, at);
            [before, middle, after, b"", b""]
        }
        other => {
            let [before, after] = plain_text(other);
            [before, after, b"", b"", b""]
        }
    }
}

// Writes a line with a text in three pieces.
fn write_text<'t, S: Sink>(
    sink: &mut S,
    before: &'t [u8],
    name: &'t [u8],
    after: &'t [u8],
) -> Result<(), SinkFault>
    ensures done { OnOk result
        (Gains (S.held sink.old) (S.held sink.new)
        (spec.as_line (before.now ++ (name.now ++ after.now)))) }
    ensures cut { OnErr result
        (GainsPart (S.held sink.old) (S.held sink.new)
        (spec.as_line (before.now ++ (name.now ++ after.now)))) }
    ensures cause { HasCause Failed (S.faults sink.old) (S.faults sink.new) result }
{
    write_all(sink, &[b"bmake: ", before, name, after, b"\n"])
}

// Writes the line of a file, a number in decimal, and what is wrong there, with its numbers in
// decimal.
fn write_place<'t, S: Sink>(
    sink: &mut S,
    file: &'t [u8],
    number: &'t [u8],
    what: &'t What,
    at: &'t [u8],
    names: &'t [u8],
) -> Result<(), SinkFault>
    requires place { at.now ≡ decimal (spec.what_place what.now) }
    requires names { names.now ≡ decimal (spec.name_count what.now) }
    ensures done { OnOk result (Gains (S.held sink.old) (S.held sink.new)
        (spec.as_line (spec.place_text file.now number.now (spec.what_text what.now)))) }
    ensures cut { OnErr result (GainsPart (S.held sink.old) (S.held sink.new)
        (spec.as_line (spec.place_text file.now number.now (spec.what_text what.now)))) }
    ensures cause { HasCause Failed (S.faults sink.old) (S.faults sink.new) result }
{
    let wrong = what_text(what, at, names);
    write_all(sink, &[b"bmake: \"", file, b"\" line ", number, b": "])?;
    write_all(sink, &wrong)?;
    write_all(sink, &[b"\n"])
}

fn write_bad<S: Sink>(sink: &mut S, file: &[u8], line: u32, what: &What) -> Result<(), SinkFault>
    ensures done { OnOk result
        (Gains (S.held sink.old) (S.held sink.new)
        (spec.as_line (spec.bad_text file.now line what.now))) }
    ensures cut { OnErr result
        (GainsPart (S.held sink.old) (S.held sink.new)
        (spec.as_line (spec.bad_text file.now line what.now))) }
    ensures cause { HasCause Failed (S.faults sink.old) (S.faults sink.new) result }
{
    let mut lines = Buffer::new();
    let mut places = Buffer::new();
    let mut counts = Buffer::new();
    let number = lines.format(line).as_bytes();
    let at = places.format(what_place(what)).as_bytes();
    let names = counts.format(name_count(what)).as_bytes();
    write_place(sink, file, number, what, at, names)
}

fn write_fault<S: Sink>(sink: &mut S, fault: &ExpandFault) -> Result<(), SinkFault>
    ensures done { OnOk result
        (Gains (S.held sink.old) (S.held sink.new) (spec.as_line (spec.fault_text fault.now))) }
    ensures cut { OnErr result
        (GainsPart (S.held sink.old) (S.held sink.new) (spec.as_line (spec.fault_text fault.now))) }
    ensures cause { HasCause Failed (S.faults sink.old) (S.faults sink.new) result }
{
    let mut places = Buffer::new();
    let at = places.format(fault_place(fault)).as_bytes();
    let [before, name, after] = fault_text(fault, at);
    write_text(sink, before, name, after)
}

fn kind_text(kind: &Kind) -> &[u8]
    ensures { result.now ≡ spec.kind_text kind.now }
{
    match kind {
        Kind::Names => b"limit of names ",
        Kind::Lines => b"limit of lines ",
        Kind::Includes => b"limit of includes ",
    }
}

fn write_limit<S: Sink>(sink: &mut S, kind: &Kind, most: u64) -> Result<(), SinkFault>
    ensures done { OnOk result (Gains (S.held sink.old) (S.held sink.new)
        (spec.as_line (spec.kind_text kind.now ++ decimal most))) }
    ensures cut { OnErr result (GainsPart (S.held sink.old) (S.held sink.new)
        (spec.as_line (spec.kind_text kind.now ++ decimal most))) }
    ensures cause { HasCause Failed (S.faults sink.old) (S.faults sink.new) result }
{
    let mut numbers = Buffer::new();
    let number = numbers.format(most).as_bytes();
    write_text(sink, kind_text(kind), number, b"")
}

fn write_breaches<S: Sink>(sink: &mut S, count: u64) -> Result<(), SinkFault>
    ensures done { OnOk result (Gains (S.held sink.old) (S.held sink.new)
        (spec.as_line (codes "breaches " ++ decimal count))) }
    ensures cut { OnErr result (GainsPart (S.held sink.old) (S.held sink.new)
        (spec.as_line (codes "breaches " ++ decimal count))) }
    ensures cause { HasCause Failed (S.faults sink.old) (S.faults sink.new) result }
{
    let mut numbers = Buffer::new();
    let number = numbers.format(count).as_bytes();
    write_text(sink, b"breaches ", number, b"")
}

// Writes names, each behind a space.
fn write_names<S: Sink>(sink: &mut S, names: &Texts) -> Result<(), SinkFault>
    ensures done { OnOk result
        (Gains (S.held sink.old) (S.held sink.new) (spec.spaced names.now)) }
    ensures cut { OnErr result
        (GainsPart (S.held sink.old) (S.held sink.new) (spec.spaced names.now)) }
    ensures cause { HasCause Failed (S.faults sink.old) (S.faults sink.new) result }
{
    for name in names.as_slice() {
        write_all(sink, &[b" ", name.bytes()])?;
    }
    Ok(())
}

fn write_cycle<S: Sink>(sink: &mut S, names: &Texts) -> Result<(), SinkFault>
    ensures done { OnOk result (Gains (S.held sink.old) (S.held sink.new)
        (spec.as_line (codes "graph cycles through" ++ spec.spaced names.now))) }
    ensures cut { OnErr result (GainsPart (S.held sink.old) (S.held sink.new)
        (spec.as_line (codes "graph cycles through" ++ spec.spaced names.now))) }
    ensures cause { HasCause Failed (S.faults sink.old) (S.faults sink.new) result }
{
    write_all(sink, &[b"bmake: graph cycles through"])?;
    write_names(sink, names)?;
    write_all(sink, &[b"\n"])
}

// Writes what is wrong with a command line of a target, in three pieces.
fn write_command<'t, S: Sink>(
    sink: &mut S,
    name: &'t [u8],
    number: &'t [u8],
    before: &'t [u8],
    middle: &'t [u8],
    after: &'t [u8],
) -> Result<(), SinkFault>
    ensures done { OnOk result (Gains (S.held sink.old) (S.held sink.new)
        (spec.as_line (spec.command_text name.now number.now
        (before.now ++ (middle.now ++ after.now))))) }
    ensures cut { OnErr result (GainsPart (S.held sink.old) (S.held sink.new)
        (spec.as_line (spec.command_text name.now number.now
        (before.now ++ (middle.now ++ after.now))))) }
    ensures cause { HasCause Failed (S.faults sink.old) (S.faults sink.new) result }
{
    write_all(
        sink,
        &[
            b"bmake: target ",
            name,
            b" command ",
            number,
            b": ",
            before,
            middle,
            after,
            b"\n",
        ],
    )
}

fn write_expand<S: Sink>(
    sink: &mut S,
    name: &[u8],
    line: u32,
    fault: &ExpandFault,
) -> Result<(), SinkFault>
    ensures done { OnOk result (Gains (S.held sink.old) (S.held sink.new)
        (spec.as_line (spec.command_text name.now (decimal line) (spec.fault_text fault.now)))) }
    ensures cut { OnErr result (GainsPart (S.held sink.old) (S.held sink.new)
        (spec.as_line (spec.command_text name.now (decimal line) (spec.fault_text fault.now)))) }
    ensures cause { HasCause Failed (S.faults sink.old) (S.faults sink.new) result }
{
    let mut lines = Buffer::new();
    let mut places = Buffer::new();
    let number = lines.format(line).as_bytes();
    let at = places.format(fault_place(fault)).as_bytes();
    let [before, middle, after] = fault_text(fault, at);
    write_command(sink, name, number, before, middle, after)
}

fn write_failed<S: Sink>(sink: &mut S, name: &[u8], line: u32, status: u8) -> Result<(), SinkFault>
    ensures done { OnOk result (Gains (S.held sink.old) (S.held sink.new) (spec.as_line
        (spec.command_text name.now (decimal line) (codes "status " ++ decimal status)))) }
    ensures cut { OnErr result (GainsPart (S.held sink.old) (S.held sink.new) (spec.as_line
        (spec.command_text name.now (decimal line) (codes "status " ++ decimal status)))) }
    ensures cause { HasCause Failed (S.faults sink.old) (S.faults sink.new) result }
{
    let mut lines = Buffer::new();
    let mut statuses = Buffer::new();
    let number = lines.format(line).as_bytes();
    let text = statuses.format(status).as_bytes();
    write_command(sink, name, number, b"status ", text, b"")
}

/// Writes the line of an end of a run with these words, if it has one: `Done`, `NotUpToDate` and
/// `SinkFault` have none. `SinkFault` where a write failed; a part of the line may stand then.
/// Takes no memory.
pub fn write_line<S: Sink>(sink: &mut S, words: &Texts, end: &End) -> Result<(), SinkFault>
    ensures done { OnOk result
        (Gains (S.held sink.old) (S.held sink.new) (spec.line_of words.now end.now)) }
    ensures cut { OnErr result
        (GainsPart (S.held sink.old) (S.held sink.new) (spec.line_of words.now end.now)) }
    ensures cause { HasCause Failed (S.faults sink.old) (S.faults sink.new) result }
{
    match end {
        End::Done | End::NotUpToDate(_) | End::SinkFault => Ok(()),
        End::Usage(i) => write_text(sink, b"bad word: ", word_at(words, *i), b""),
        End::NoFile(file) => write_text(sink, b"no makefile ", file.bytes(), b""),
        End::Bad(file, line, what) => write_bad(sink, file.bytes(), *line, what),
        End::Print(_, fault) => write_fault(sink, fault),
        End::NoTarget => write_text(sink, b"no target to make", b"", b""),
        End::NoRule(name) => write_text(sink, b"don't know how to make ", name.bytes(), b""),
        End::Cycle(names) => write_cycle(sink, names),
        End::Limit(kind, most) => write_limit(sink, kind, *most),
        End::Expand(name, line, fault) => write_expand(sink, name.bytes(), *line, fault),
        End::JobFailed(name, line, status) => write_failed(sink, name.bytes(), *line, *status),
        End::Breaches(count) => write_breaches(sink, *count),
        End::WorldFault => write_text(sink, b"an outside call failed", b"", b""),
        End::NoMemory => write_text(sink, b"out of memory", b"", b""),
    }
}
