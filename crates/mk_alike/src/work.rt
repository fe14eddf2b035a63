//! What makefiles ask for, compared.
ghost use Rattle.std.specs.Prelude.{◌≡◌, ◌↔◌, true, IfOk};
ghost use Rattle.mk_decision.specs.Makers.{work_on};

use crate::lists::same_lists;
use crate::mode::same_mode;
use crate::plan::same_plan;
use mk_bytes::{NoMemory, same_texts};
use mk_flags::Flags;
use mk_graph::Made;
use mk_plan::Plan;
use std::alloc::Global;

/// Whether two readings of the makefiles, with a plan each, ask for the same work under these
/// options. Want of memory is the one refusal.
pub fn is_same_work(
    alloc: Global,
    plan: &Plan,
    made: &Made,
    other_plan: &Plan,
    other: &Made,
    flags: &Flags,
) -> Result<bool, NoMemory>
    ensures { IfOk result (λ is. (is ≡ true)
        ↔ (work_on plan.now made.now flags.now ≡ work_on other_plan.now other.now flags.now)) }
{
    if !same_plan(plan, other_plan) || !made.scopes.is_same(&other.scopes) {
        return Ok(false);
    }
    if !same_texts(made.suffixes.as_slice(), other.suffixes.as_slice()) {
        return Ok(false);
    }
    if !same_mode(&made.mode, &other.mode) {
        return Ok(false);
    }
    same_lists(alloc, made, other, &flags.requested)
}
