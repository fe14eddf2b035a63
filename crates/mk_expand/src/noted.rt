//! The names that are looked up where a tree is evaluated.
ghost use Rattle.std.specs.Prelude.{◌≡◌, [], false, unwrap_or, IfOk};
ghost use Rattle.mk_ast.specs.View.{tree_view};
ghost use Rattle.mk_values.specs.Facts.{AsksMore, Means, RefusedBehind};
ghost use Rattle.mk_values.specs.Value as spec;
ghost use Rattle.mk_values.specs.declared.fault.ExpandFault.TheVariants.{Failed as failed};
ghost use Rattle.mk_world.specs.Causes.{HasCause};

use crate::evaluation::tree_value;
use crate::whole::first_run;
use mk_ast::Tree;
use mk_bytes::{Items, NoMemory, Texts};
use mk_scopes::Scopes;
use mk_values::{ExpandFault, Facts, Locals, MAX_OPEN, Names, Run};
use std::alloc::Global;

// The names that were kept.
fn kept_names(alloc: Global, noted: Option<Texts>) -> Result<Texts, NoMemory>
    ensures { IfOk result (λ names. names ≡ unwrap_or noted []) }
{
    match noted {
        Some(names) => Ok(names),
        None => Items::new(alloc, 0),
    }
}

/// The names of before, and behind them those that are looked up where [`expand`](crate::expand)
/// evaluates a tree: the name of each reference, a variable of `:@` too, and each argument of
/// `defined`, in order, as often as they are looked up. Each fault of `expand` comes exactly where
/// it has it, and no names then.
pub fn names_behind<F: Facts>(
    alloc: Global,
    scopes: &Scopes,
    locals: &Locals,
    tree: &Tree,
    facts: &mut F,
    before: Texts,
) -> Result<Texts, ExpandFault>
    ensures names { Means (F.asked facts.new) (λ names. (names, F.asked facts.new)) result
        (λ answers. spec.names_behind scopes.now locals.now (F.lists facts.old) answers
        (F.asked facts.old) (tree_view tree.now) before) }
    ensures questions { RefusedBehind (F.asked facts.new) result
        (λ answers. spec.questions_of (spec.of_tree scopes.now locals.now (F.lists facts.old)
        answers false (F.asked facts.old) (tree_view tree.now)).answer) }
    ensures lists { F.lists facts.new ≡ F.lists facts.old }
    ensures asked { AsksMore (F.asked facts.old) (F.asked facts.new) }
    ensures cause { HasCause failed (F.faults facts.old) (F.faults facts.new) result }
    ensures leads { F.leads facts.old facts.new }
{
    let names = Names {
        alloc,
        scopes,
        locals,
    };
    let mut run = first_run(alloc, Some(before))?;
    tree_value(&names, &mut run, facts, MAX_OPEN, false, tree)?;
    let Run { noted, .. } = run;
    Ok(kept_names(alloc, noted)?)
}

/// The names that are looked up where a tree is evaluated, as [`names_behind`] gives them behind no
/// others.
pub fn names<F: Facts>(
    alloc: Global,
    scopes: &Scopes,
    locals: &Locals,
    tree: &Tree,
    facts: &mut F,
) -> Result<Texts, ExpandFault>
    ensures names { Means (F.asked facts.new) (λ names. (names, F.asked facts.new)) result
        (λ answers. spec.names_behind scopes.now locals.now (F.lists facts.old) answers
        (F.asked facts.old) (tree_view tree.now) []) }
    ensures questions { RefusedBehind (F.asked facts.new) result
        (λ answers. spec.questions_of (spec.of_tree scopes.now locals.now (F.lists facts.old)
        answers false (F.asked facts.old) (tree_view tree.now)).answer) }
    ensures lists { F.lists facts.new ≡ F.lists facts.old }
    ensures asked { AsksMore (F.asked facts.old) (F.asked facts.new) }
    ensures cause { HasCause failed (F.faults facts.old) (F.faults facts.new) result }
    ensures leads { F.leads facts.old facts.new }
{
    let none = Items::new(alloc, 0)?;
    names_behind(alloc, scopes, locals, tree, facts, none)
}
