//! The names that are looked up in the task of a node.
ghost use Rattle.std.specs.Prelude.{◌≡◌, ◌<◌, [], length};
ghost use Rattle.mk_values.specs.Calls.{Asks};
ghost use Rattle.mk_values.specs.Facts.{Means, RefusedBehind as RefusedText};
ghost use Rattle.mk_plan.specs.Newer as spec;
ghost use Rattle.mk_plan.specs.Refusals.{MeansLines, RefusedBehind, without_line};
ghost use Rattle.mk_plan.specs.Tasks.{line_questions, questions_from, setting_of, task_questions};
ghost use Rattle.mk_plan.specs.declared.tasks.Manner.{Manner};

use crate::fault::TaskFault;
use crate::plan::Plan;
use crate::tasks::locals_of;
use mk_ast::parse;
use mk_bytes::{Items, Texts};
use mk_expand::{ExpandFault, Facts, Locals, names_behind};
use mk_flags::Flags;
use mk_graph::Made;
use mk_scopes::Scopes;
use std::alloc::Global;

// The names of before, and behind them those of a line.
fn line_names<F: Facts>(
    alloc: Global,
    scopes: &Scopes,
    locals: &Locals,
    before: Texts,
    raw: &[u8],
    facts: &mut F,
) -> Result<Texts, ExpandFault>
    ensures names { Means (F.asked facts.new) (λ names. (names, F.asked facts.new)) result
        (λ answers. spec.line_named (setting_of scopes.now (F.lists facts.old) answers) locals.now
        (F.asked facts.old) before raw.now) }
    ensures questions { RefusedText (F.asked facts.new) result
        (λ answers. line_questions (setting_of scopes.now (F.lists facts.old) answers) locals.now
        (F.asked facts.old) raw.now) }
    ensures facts { Asks (F.leads facts.old facts.new) (F.lists facts.old) (F.lists facts.new)
        (F.asked facts.old) (F.asked facts.new) (F.faults facts.old) (F.faults facts.new) result }
{
    let tree = parse(alloc, raw)?;
    names_behind(alloc, scopes, locals, &tree, facts, before)
}

fn lines_names<F: Facts>(
    alloc: Global,
    scopes: &Scopes,
    locals: &Locals,
    commands: &Texts,
    facts: &mut F,
) -> Result<Texts, TaskFault>
    ensures names { MeansLines (F.asked facts.new) (λ names. (names, F.asked facts.new)) result
        (λ answers. spec.lines_named (setting_of scopes.now (F.lists facts.old) answers) locals.now
        [] 1 (F.asked facts.old) commands.now) }
    ensures questions { (manner : Manner) → RefusedBehind (F.asked facts.new) result
        (λ answers. questions_from (setting_of scopes.now (F.lists facts.old) answers) locals.now
        manner (F.asked facts.old) commands.now) }
    ensures facts { Asks (F.leads facts.old facts.new) (F.lists facts.old) (F.lists facts.new)
        (F.asked facts.old) (F.asked facts.new) (F.faults facts.old) (F.faults facts.new)
        (without_line result) }
{
    let mut names = Items::new(alloc, 0)?;
    for (place, raw) in commands.as_slice().iter().enumerate() {
        match line_names(alloc, scopes, locals, names, raw.bytes(), facts) {
            Ok(more) => names = more,
            Err(what) => {
                let line = place as u32 + 1;
                return Err(TaskFault { line, what });
            }
        }
    }
    Ok(names)
}

/// The names that are looked up where [`task`](crate::task) makes the task of a node: those of its
/// lines, in order, as often as they are looked up, whatever the options are. Each fault of `task`
/// comes exactly where it has it, and no names then.
pub fn task_names<F: Facts>(
    alloc: Global,
    plan: &Plan,
    made: &Made,
    n: u32,
    oodate: &Texts,
    _flags: &Flags,
    facts: &mut F,
) -> Result<Texts, TaskFault>
    requires { n < length plan.now }
    ensures names { MeansLines (F.asked facts.new) (λ names. (names, F.asked facts.new)) result
        (λ answers. spec.names_of_task (setting_of made.now.scopes (F.lists facts.old) answers)
        made.now.suffixes plan.now n oodate.now made.now.mode _flags.now (F.asked facts.old)) }
    ensures questions { RefusedBehind (F.asked facts.new) result
        (λ answers. task_questions (setting_of made.now.scopes (F.lists facts.old) answers)
        made.now.suffixes plan.now n oodate.now made.now.mode _flags.now (F.asked facts.old)) }
    ensures facts { Asks (F.leads facts.old facts.new) (F.lists facts.old) (F.lists facts.new)
        (F.asked facts.old) (F.asked facts.new) (F.faults facts.old) (F.faults facts.new)
        (without_line result) }
{
    let locals = locals_of(alloc, &made.suffixes, plan, n, oodate)?;
    lines_names(alloc, &made.scopes, &locals, plan.commands(n), facts)
}
