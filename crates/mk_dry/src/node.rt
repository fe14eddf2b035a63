//! Nodes: each is decided, and is kept, refused or shown.
ghost use Rattle.std.specs.Prelude.{◌≡◌, ◌+◌, ◌&&◌, length, get_or, not, IfOk, OnOk};
ghost use Rattle.mk_child.specs.declared.halt.Halt.TheVariants as halts;
ghost use Rattle.mk_dry.specs.Parts.{CarriesOut, IsAlone, IsCarriedOut, IsDue, IsGoneTo, IsNext};
ghost use Rattle.mk_dry.specs.Parts.{Passes, point};
ghost use Rattle.mk_dry.specs.Progress.{is_there};
ghost use Rattle.mk_plan.specs.Deciding as spec;
ghost use Rattle.mk_plan.specs.declared.plan.NodeState.TheVariants as states;
ghost use Rattle.mk_world.specs.Causes.{HasCause};

use crate::course::Course;
use crate::line::show_lines;
use mk_child::{Halt, note_failure};
use mk_decision::{Decision, Maker, decide_on};
use mk_flags::Flags;
use mk_graph::Made;
use mk_plan::{NodeState, Plan};
use mk_trace::{Event, Failure, tell};
use mk_world::{Kids, Sink, Time, World};
use std::alloc::Global;

// Whether a node is settled.
fn is_settled(nodes: &[NodeState], node: u32) -> bool
    ensures { result ≡ spec.is_settled (get_or nodes.now node states.Undecided) }
{
    matches!(nodes.get(node as usize), Some(NodeState::Settled))
}

// Whether all these nodes are settled.
fn are_settled(nodes: &[NodeState], before: &[u32]) -> bool
    ensures { result ≡ spec.all_settled nodes.now before.now }
{
    for one in before {
        if !is_settled(nodes, *one) {
            return false;
        }
    }
    true
}

/// Whether there was a failure, and the run stops at the first one.
pub fn is_stopped_by(flags: &Flags, failure: &Option<Failure>) -> bool
    ensures { result ≡ (not flags.now.keep_going && is_there failure.now) }
{
    !flags.keep_going && failure.is_some()
}

// Carries out the decision of a node. Gives how the node then stands.
fn carry_out<W: World, S: Sink>(
    alloc: Global,
    made: &Made,
    flags: &Flags,
    world: &mut W,
    out: &mut S,
    kids: &mut Kids<W::Kid>,
    course: &mut Course,
    node: u32,
    decision: Decision,
) -> Result<NodeState, Halt>
    requires alone { IsAlone (W.runs world.old) kids.old.tickets kids.old.room }
    requires due { IsDue made.now flags.now course.old node }
    ensures goes { CarriesOut W.meaning made.now flags.now node decision
        (point (W.history world.old) (S.held out.old) course.old)
        (point (W.history world.new) (S.held out.new) course.new) result }
    ensures carried { IsCarriedOut made.now flags.now course.old course.new result }
    ensures alone { IfOk result (λ stands. IsAlone (W.runs world.new) kids.new.tickets kids.new.room) }
    ensures world_cause { HasCause halts.World (W.faults world.old) (W.faults world.new) result }
    ensures sink_cause { HasCause halts.Sink (S.faults out.old) (S.faults out.new) result }
    ensures children { W.runs world.new kids.new.tickets }
{
    match decision {
        Decision::Keep => tell(&mut course.events, Event::Kept(node))?,
        Decision::Refuse(number, what) => {
            let Ok(()) = tell(&mut course.events, Event::Refused(node, number)) else {
                drop(what);
                return Err(Halt::NoMemory);
            };
            note_failure(&mut course.failure, Failure::Expand(node, number, what));
            return Ok(NodeState::Failed);
        }
        Decision::Make(task, _) => {
            course.plan.count_as_new(node);
            let failure = &mut course.failure;
            let events = &mut course.events;
            let shown = show_lines(alloc, made, world, out, kids, events, failure, node, &task);
            drop(task);
            return shown;
        }
    }
    Ok(NodeState::Settled)
}

// Decides a node that is ready, and carries that out.
fn make_node<W: World, S: Sink>(
    alloc: Global,
    made: &Made,
    flags: &Flags,
    world: &mut W,
    out: &mut S,
    kids: &mut Kids<W::Kid>,
    course: &mut Course,
    node: u32,
) -> Result<(), Halt>
    requires alone { IsAlone (W.runs world.old) kids.old.tickets kids.old.room }
    requires due { IsDue made.now flags.now course.old node }
    ensures goes { Passes W.meaning made.now flags.now node
        (point (W.history world.old) (S.held out.old) course.old)
        (point (W.history world.new) (S.held out.new) course.new) result }
    ensures gone { OnOk result (IsGoneTo made.now flags.now course.new (node + 1)) }
    ensures length { length course.new.plan ≡ length course.old.plan }
    ensures alone { OnOk result (IsAlone (W.runs world.new) kids.new.tickets kids.new.room) }
    ensures world_cause { HasCause halts.World (W.faults world.old) (W.faults world.new) result }
    ensures sink_cause { HasCause halts.Sink (S.faults out.old) (S.faults out.new) result }
    ensures children { W.runs world.new kids.new.tickets }
{
    let maker = Maker {
        alloc,
        plan: &course.plan,
        made,
        flags,
    };
    let decision = decide_on(&maker, world, node, &mut Time(0))?;
    let stands = carry_out(alloc, made, flags, world, out, kids, course, node, decision)?;
    course.nodes[node as usize] = stands;
    Ok(())
}

/// Goes through the next node: it is decided where all that it waits for is settled, and passed
/// over where not.
pub fn pass_node<W: World, S: Sink>(
    alloc: Global,
    made: &Made,
    flags: &Flags,
    world: &mut W,
    out: &mut S,
    kids: &mut Kids<W::Kid>,
    course: &mut Course,
    node: u32,
) -> Result<(), Halt>
    requires alone { IsAlone (W.runs world.old) kids.old.tickets kids.old.room }
    requires next { IsNext made.now flags.now course.old node }
    ensures goes { Passes W.meaning made.now flags.now node
        (point (W.history world.old) (S.held out.old) course.old)
        (point (W.history world.new) (S.held out.new) course.new) result }
    ensures gone { OnOk result (IsGoneTo made.now flags.now course.new (node + 1)) }
    ensures length { length course.new.plan ≡ length course.old.plan }
    ensures alone { OnOk result (IsAlone (W.runs world.new) kids.new.tickets kids.new.room) }
    ensures world_cause { HasCause halts.World (W.faults world.old) (W.faults world.new) result }
    ensures sink_cause { HasCause halts.Sink (S.faults out.old) (S.faults out.new) result }
    ensures children { W.runs world.new kids.new.tickets }
{
    let before = course.plan.before(node).as_slice();
    if !are_settled(course.nodes.as_slice(), before) {
        return Ok(());
    }
    make_node(alloc, made, flags, world, out, kids, course, node)
}
