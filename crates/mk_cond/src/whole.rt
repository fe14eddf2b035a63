ghost use Rattle.std.specs.Prelude.{◌≡◌, ◌≢◌, ◌≤◌, IfOk, IfErr};
ghost use Rattle.mk_bytes.specs.Agrees.{Agrees};
ghost use Rattle.mk_cond.specs.Cond.{Cond as PlainCond};
ghost use Rattle.mk_cond.specs.Conditions as spec;
ghost use Rattle.mk_cond.specs.Depth.{depth};
ghost use Rattle.mk_cond.specs.FaultPlaces.{StandsIn};
ghost use Rattle.mk_cond.specs.Grammar.{IsCondition};
ghost use Rattle.mk_cond.specs.View.{cond_view};
ghost use Rattle.mk_cond.specs.declared.fault.CondFault.TheVariants.{NoMemory as no_memory};

use crate::cond::{Cond, Form};
use crate::fault::CondFault;
use crate::read::{Joint, Level, joined_at};
use std::alloc::Global;

/// How many parentheses and `!` may be open at once.
const MAX_OPEN: usize = 256;

/// The condition that a text is, or the first fault that a reading forwards meets, with its place.
pub fn parse_cond(alloc: Global, text: &[u8], form: Form) -> Result<Cond, CondFault>
    ensures exact { Agrees no_memory cond_view result (spec.condition_of form text.now) }
    // So the text is written by the grammar as this condition and no other ..
    ensures written { IfOk result (λ cond. IsCondition form (cond_view cond) text.now) }
    ensures alone { IfOk result (λ cond. (other : PlainCond)
        → IsCondition form other text.now → other ≡ cond_view cond) }
    // .. and a text with a fault is no condition.
    ensures outside { IfErr result (λ fault. fault ≢ no_memory
        → (other : PlainCond) → IsCondition form other text.now → ⊥) }
    ensures placed { IfErr result (λ fault. fault ≢ no_memory → StandsIn text.now fault) }
    // 256 parentheses and `!`, each with `||` and `&&` inside.
    ensures deep { IfOk result (λ cond. depth (cond_view cond) ≤ 515) }
{
    let cond = whole_condition(alloc, text, form)?;
    Ok(cond)
}

// A condition that nothing is left behind.
fn whole_condition(alloc: Global, text: &[u8], form: Form) -> Result<Cond, CondFault>
    ensures { Agrees no_memory cond_view result (spec.condition_of form text.now) }
{
    let level = Level {
        total: text.len(),
        form,
        depth: MAX_OPEN,
    };
    let (cond, rest) = joined_at(alloc, level, Joint::Or, text)?;
    if !rest.is_empty() {
        return Err(CondFault::Bad(text.len() - rest.len()));
    }
    Ok(cond)
}
