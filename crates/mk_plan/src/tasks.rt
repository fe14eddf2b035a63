//! The task of a node: its command lines, expanded.
ghost use Rattle.std.specs.Prelude.{◌≡◌, ◌<◌, ◌+◌, ◌^◌, [], length, position, Ok, IfSome, IfOk};
ghost use Rattle.std.specs.Prelude.{IfErr, if◌then◌else◌};
ghost use Rattle.mk_bytes.specs.Agrees.{Agrees};
ghost use Rattle.mk_values.specs.Calls.{Asks};
ghost use Rattle.mk_values.specs.Facts.{Means, RefusedBehind as RefusedText};
ghost use Rattle.mk_values.specs.declared.fault.ExpandFault.TheVariants.{NoMemory as no_memory};
ghost use Rattle.mk_plan.specs.Plans.{node_at};
ghost use Rattle.mk_plan.specs.Refusals.{MeansLines, RefusedBehind, without_line};
ghost use Rattle.mk_plan.specs.Tasks as spec;
ghost use Rattle.mk_plan.specs.Tasks.{setting_of};

use crate::fault::TaskFault;
use crate::metas::is_meta;
use crate::oodate::refers;
use crate::plan::{Nodes, Plan};
use mk_ast::parse;
use mk_bytes::{Items, NoMemory, Text, Texts, copy_texts};
use mk_expand::{ExpandFault, Facts, Locals, expand};
use mk_flags::Flags;
use mk_graph::{Attr, Made, Mode};
use mk_scopes::Scopes;
use mk_suffix::prefix_of;
use mk_world::{Lines, Task, TaskLine};
use std::alloc::Global;

/// How all lines of a node are run, whatever stands before their texts.
#[derive(Clone, Copy)]
pub struct Manner {
    /// Their failures are ignored.
    pub ignore: bool,
    /// Their texts are not printed.
    pub silent: bool,
}

fn manner_of(plan: &Plan, mode: &Mode, n: u32, flags: &Flags) -> Manner
    requires { n < length plan.now }
    ensures { result ≡ spec.manner_of mode.now flags.now (node_at plan.now n).marks }
{
    Manner {
        ignore: flags.ignore || plan.has(n, Attr::Ignore),
        silent: flags.silent
            || plan.has(n, Attr::Silent)
            || (mode.silent && is_meta(plan, mode, n)),
    }
}

fn is_mark(byte: u8) -> bool
    ensures { result ≡ spec.is_mark byte }
{
    matches!(byte, b' ' | b'\t' | b'@' | b'-' | b'+')
}

fn marks_end(text: &[u8]) -> Option<usize>
    ensures value { result ≡ position spec.is_no_mark text.now }
    ensures within { IfSome result (λ at. at < length text.now) }
{
    text.iter().position(|byte| !is_mark(*byte))
}

fn holds(wanted: u8, text: &[u8]) -> bool
    ensures { result ≡ spec.holds wanted text.now }
{
    text.iter().any(|byte| *byte == wanted)
}

fn line_as(
    alloc: Global,
    manner: Manner,
    compared: bool,
    value: &[u8],
) -> Result<TaskLine, NoMemory>
    ensures { IfOk result (λ line. line ≡ spec.line_as manner compared value.now) }
{
    let (marks, text) = value.split_at(marks_end(value).unwrap_or(value.len()));
    Ok(TaskLine {
        text: Text::from_bytes(alloc, text)?,
        ignore: manner.ignore || holds(b'-', marks),
        silent: manner.silent || holds(b'@', marks),
        always: holds(b'+', marks),
        compared,
    })
}

fn line_of<F: Facts>(
    alloc: Global,
    scopes: &Scopes,
    locals: &Locals,
    manner: Manner,
    raw: &[u8],
    facts: &mut F,
) -> Result<TaskLine, ExpandFault>
    ensures line { Means (F.asked facts.new) (λ line. (line, F.asked facts.new)) result
        (λ answers. spec.line_of (setting_of scopes.now (F.lists facts.old) answers) locals.now manner
        (F.asked facts.old) raw.now) }
    ensures questions { RefusedText (F.asked facts.new) result
        (λ answers. spec.line_questions (setting_of scopes.now (F.lists facts.old) answers) locals.now
        (F.asked facts.old) raw.now) }
    ensures facts { Asks (F.leads facts.old facts.new) (F.lists facts.old) (F.lists facts.new)
        (F.asked facts.old) (F.asked facts.new) (F.faults facts.old) (F.faults facts.new) result }
{
    let tree = parse(alloc, raw)?;
    let value = expand(alloc, scopes, locals, &tree, facts, false)?;
    Ok(line_as(alloc, manner, !refers(&tree), value.bytes())?)
}

fn lines_of<F: Facts>(
    alloc: Global,
    scopes: &Scopes,
    locals: &Locals,
    manner: Manner,
    commands: &Texts,
    facts: &mut F,
) -> Result<Lines, TaskFault>
    ensures lines { MeansLines (F.asked facts.new) (λ lines. (lines, F.asked facts.new)) result
        (λ answers. spec.lines_from (setting_of scopes.now (F.lists facts.old) answers) locals.now
        manner [] 1 (F.asked facts.old) commands.now) }
    ensures questions { RefusedBehind (F.asked facts.new) result
        (λ answers. spec.questions_from (setting_of scopes.now (F.lists facts.old) answers) locals.now
        manner (F.asked facts.old) commands.now) }
    ensures facts { Asks (F.leads facts.old facts.new) (F.lists facts.old) (F.lists facts.new)
        (F.asked facts.old) (F.asked facts.new) (F.faults facts.old) (F.faults facts.new)
        (without_line result) }
{
    let mut lines = Items::new(alloc, commands.len())?;
    for (place, raw) in commands.as_slice().iter().enumerate() {
        match line_of(alloc, scopes, locals, manner, raw.bytes(), facts) {
            Ok(line) => lines.push(line)?,
            Err(what) => {
                let line = place as u32 + 1;
                return Err(TaskFault { line, what });
            }
        }
    }
    Ok(lines)
}

/// The names of the nodes at these places.
pub fn names_at(alloc: Global, plan: &Plan, places: &Nodes) -> Result<Texts, NoMemory>
    ensures { IfOk result (λ names. names ≡ spec.names_at plan.now places.now) }
{
    let mut names = Items::new(alloc, places.len())?;
    for place in places.as_slice() {
        names.push(Text::from_bytes(alloc, plan.name_at(*place))?)?;
    }
    Ok(names)
}

pub(crate) fn locals_of(
    alloc: Global,
    suffixes: &Texts,
    plan: &Plan,
    n: u32,
    oodate: &Texts,
) -> Result<Locals, NoMemory>
    requires { n < length plan.now }
    ensures { IfOk result
        (λ locals. locals ≡ spec.locals_of suffixes.now plan.now n oodate.now) }
{
    Ok(Locals {
        target: Text::from_bytes(alloc, plan.name(n))?,
        all: names_at(alloc, plan, plan.sources(n))?,
        implied: Text::from_bytes(alloc, plan.implied(n))?,
        prefix: Text::from_bytes(alloc, prefix_of(suffixes, plan.name(n)))?,
        oodate: copy_texts(alloc, oodate.as_slice())?,
        some: true,
    })
}

/// The task of a node of a plan: its command lines, expanded with its local names, where these of
/// its sources are newer than it. `@` before a line's text makes it silent, `-` ignored and `+`
/// always run; the options and the attributes `.SILENT` and `.IGNORE` make all lines so, and a true
/// `silent` of `.MAKE.MODE` those of a node in meta mode silent. A line whose raw text has a
/// reference with the plain name `.OODATE` or `?` anywhere in it is not compared with that of
/// another build.
///
/// A fault has the number of its line, the first such, counted from 1; it is `Failed` only where
/// the count of the facts rose in this call or is at its end. The questions of `exists` are those
/// of the lines up to it.
pub fn task<F: Facts>(
    alloc: Global,
    plan: &Plan,
    made: &Made,
    n: u32,
    oodate: &Texts,
    flags: &Flags,
    facts: &mut F,
) -> Result<Task, TaskFault>
    requires { n < length plan.now }
    ensures task { MeansLines (F.asked facts.new) (λ task. (task, F.asked facts.new)) result
        (λ answers. spec.task_of (setting_of made.now.scopes (F.lists facts.old) answers)
        made.now.suffixes plan.now n oodate.now made.now.mode flags.now (F.asked facts.old)) }
    ensures questions { RefusedBehind (F.asked facts.new) result
        (λ answers. spec.task_questions (setting_of made.now.scopes (F.lists facts.old) answers)
        made.now.suffixes plan.now n oodate.now made.now.mode flags.now (F.asked facts.old)) }
    ensures facts { Asks (F.leads facts.old facts.new) (F.lists facts.old) (F.lists facts.new)
        (F.asked facts.old) (F.asked facts.new) (F.faults facts.old) (F.faults facts.new)
        (without_line result) }
{
    let locals = locals_of(alloc, &made.suffixes, plan, n, oodate)?;
    let manner = manner_of(plan, &made.mode, n, flags);
    let lines = lines_of(
        alloc,
        &made.scopes,
        &locals,
        manner,
        plan.commands(n),
        facts,
    );
    drop(locals);
    Ok(Task {
        lines: lines?,
        cwd: Text::from_bytes(alloc, made.scopes.cwd())?,
        target: Text::from_bytes(alloc, plan.name(n))?,
        exports: made.mode.exports.share()?,
    })
}
