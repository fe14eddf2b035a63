//! Values of whole trees and texts, and the truth of whole conditions.
ghost use Rattle.std.specs.Prelude.{◌≡◌, IfOk};
ghost use Rattle.mk_ast.specs.View.{tree_view};
ghost use Rattle.mk_cond.specs.View.{cond_view};
ghost use Rattle.mk_values.specs.Calls.{IsFirst};
ghost use Rattle.mk_values.specs.Facts.{AsksMore, Means, RefusedBehind};
ghost use Rattle.mk_values.specs.Texts.{name_tree};
ghost use Rattle.mk_values.specs.Value as spec;
ghost use Rattle.mk_values.specs.declared.fault.ExpandFault.TheVariants.{Failed as failed};
ghost use Rattle.mk_world.specs.Causes.{HasCause};

use crate::conditions::truth_of;
use crate::evaluation::{text_value, tree_value};
use mk_ast::{Part, Tree};
use mk_bytes::{Items, NoMemory, Text, Texts};
use mk_cond::Cond;
use mk_pool::Region;
use mk_scopes::Scopes;
use mk_values::{ExpandFault, Facts, Locals, MAX_OPEN, Names, Run, has_dollar, plain_value};
use std::alloc::Global;

// A run before its first reference, which keeps the names behind these.
pub(crate) fn first_run(alloc: Global, noted: Option<Texts>) -> Result<Run, NoMemory>
    ensures { IfOk result (λ run. IsFirst noted run) }
{
    Ok(Run {
        open_names: Items::new(alloc, 0)?,
        bound: Vec::new(alloc),
        references: 0,
        region: Region::new(alloc)?,
        noted,
    })
}

/// The value of a tree. With `keep` it is what `:=` sets: `$$` stays `$$`, and a reference that is
/// undefined in the end stays as it is written, in the text and in values that stand there, but not
/// in names. Without it such a reference is empty. Each fault comes exactly where the definition
/// has it first; want of memory may stand in place of any answer, and `Failed` only where the count
/// of the facts rose in this call or is at its end.
pub fn expand<F: Facts>(
    alloc: Global,
    scopes: &Scopes,
    locals: &Locals,
    tree: &Tree,
    facts: &mut F,
    keep: bool,
) -> Result<Text, ExpandFault>
    ensures value { Means (F.asked facts.new) (λ value. (value, F.asked facts.new)) result
        (λ answers. spec.value scopes.now locals.now (F.lists facts.old) answers keep
        (F.asked facts.old) (tree_view tree.now)) }
    ensures questions { RefusedBehind (F.asked facts.new) result
        (λ answers. spec.questions_of (spec.of_tree scopes.now locals.now (F.lists facts.old) answers keep
        (F.asked facts.old) (tree_view tree.now)).answer) }
    ensures lists { F.lists facts.new ≡ F.lists facts.old }
    ensures asked { AsksMore (F.asked facts.old) (F.asked facts.new) }
    ensures cause { HasCause failed (F.faults facts.old) (F.faults facts.new) result }
    ensures leads { F.leads facts.old facts.new }
{
    let names = Names {
        alloc,
        scopes,
        locals,
    };
    let mut run = first_run(alloc, None)?;
    tree_value(&names, &mut run, facts, MAX_OPEN, keep, tree)
}

/// The value of a text, as [`expand`] gives that of its tree. A text without a tree has the fault
/// of the grammar.
pub fn value_of_text<F: Facts>(
    alloc: Global,
    scopes: &Scopes,
    locals: &Locals,
    text: &[u8],
    facts: &mut F,
    keep: bool,
) -> Result<Text, ExpandFault>
    ensures value { Means (F.asked facts.new) (λ value. (value, F.asked facts.new)) result
        (λ answers. spec.value_of_text scopes.now locals.now (F.lists facts.old) answers keep
        (F.asked facts.old) text.now) }
    ensures questions { RefusedBehind (F.asked facts.new) result
        (λ answers. spec.questions_of (spec.of_text scopes.now locals.now (F.lists facts.old) answers keep
        (F.asked facts.old) text.now).answer) }
    ensures lists { F.lists facts.new ≡ F.lists facts.old }
    ensures asked { AsksMore (F.asked facts.old) (F.asked facts.new) }
    ensures cause { HasCause failed (F.faults facts.old) (F.faults facts.new) result }
    ensures leads { F.leads facts.old facts.new }
{
    if !has_dollar(text) {
        return plain_value(alloc, text);
    }
    let names = Names {
        alloc,
        scopes,
        locals,
    };
    let mut run = first_run(alloc, None)?;
    text_value(&names, &mut run, facts, MAX_OPEN, keep, text)
}

/// The truth of a condition (make(1), the directive `.if`). What does not decide is not evaluated:
/// neither its faults nor its facts count. `Undefined` stands at its side, and `NoNumber` behind
/// both; the other faults are those of [`expand`].
pub fn eval_cond<F: Facts>(
    alloc: Global,
    scopes: &Scopes,
    locals: &Locals,
    cond: &Cond,
    facts: &mut F,
) -> Result<bool, ExpandFault>
    ensures truth { Means (F.asked facts.new) (λ truth. (truth, F.asked facts.new)) result
        (λ answers. spec.truth scopes.now locals.now (F.lists facts.old) answers
        (F.asked facts.old) (cond_view cond.now)) }
    ensures questions { RefusedBehind (F.asked facts.new) result
        (λ answers. spec.questions_of (spec.of_condition scopes.now locals.now (F.lists facts.old) answers
        (F.asked facts.old) (cond_view cond.now)).answer) }
    ensures lists { F.lists facts.new ≡ F.lists facts.old }
    ensures asked { AsksMore (F.asked facts.old) (F.asked facts.new) }
    ensures cause { HasCause failed (F.faults facts.old) (F.faults facts.new) result }
    ensures leads { F.leads facts.old facts.new }
{
    let names = Names {
        alloc,
        scopes,
        locals,
    };
    let mut run = first_run(alloc, None)?;
    truth_of(&names, &mut run, facts, MAX_OPEN, cond)
}

/// One reference to a name without modifiers, whatever bytes the name has.
pub fn name_tree(alloc: Global, name: &[u8]) -> Result<Tree, NoMemory>
    ensures { IfOk result (λ tree. tree_view tree ≡ name_tree name.now) }
{
    let mut tree = Items::new(alloc, 1)?;
    tree.push(Part::Named {
        round: false,
        name: Text::from_bytes(alloc, name)?,
        mods: Items::new(alloc, 0)?,
    })?;
    Ok(tree)
}
