//! Which node of a plan comes next, by the jobs that are open and the nodes that are made.
ghost use Rattle.std.specs.Prelude.{◌≡◌, ◌≤◌, [], length, IfOk, IsTrue};
ghost use Rattle.mk_plan.specs.Plans.{is_behind};

use crate::refused::Refused;
use crate::rows::{Row, check};
use mk_bytes::{Items, NoMemory, Text, Texts};
use mk_graph::{Marks, Nodes};
use mk_plan::{Plan, PlanNode};
use mk_sched::{Next, Sched};
use std::alloc::Global;

// A node that waits for the one before it, or for none.
fn node_of(alloc: Global, n: u32, in_a_row: bool) -> Result<PlanNode, NoMemory>
    ensures behind { IfOk result (λ node. IsTrue (is_behind n node.before)) }
    ensures sources { IfOk result (λ node. node.sources ≡ []) }
{
    let mut before = Nodes::new(alloc, 0)?;
    if in_a_row && n > 0 {
        before.push(n - 1)?;
    }
    Ok(PlanNode {
        name: Text::new(alloc),
        sources: Nodes::new(alloc, 0)?,
        before,
        commands: Texts::new(alloc, 0)?,
        implied: Text::new(alloc),
        marks: Marks::none(),
    })
}

fn plan_of(alloc: Global, count: u32, in_a_row: bool) -> Result<Plan, NoMemory>
    ensures { IfOk result (λ plan. length plan ≡ count) }
{
    let mut nodes = Items::new(alloc, 0)?;
    for n in 0..count {
        nodes.push(node_of(alloc, n, in_a_row)?)?;
    }
    Ok(Plan::of(nodes))
}

// How many nodes of a plan are made, where the job that was opened first ends first.
fn made_of(alloc: Global, plan: &Plan, jobs: u32) -> Result<u32, NoMemory>
    requires short { length plan.now ≤ 1000000 }
    requires some { 1 ≤ jobs }
    requires few { jobs ≤ 256 }
{
    let mut sched = Sched::new(alloc, plan, jobs, false)?;
    let mut ended = 0;
    let mut started = 0;
    let steps = 2 * plan.len();
    for _ in 0..steps {
        match sched.next() {
            Next::Decide(n) if n == started => {
                sched.started(n);
                started += 1;
            }
            Next::Wait if ended < started => {
                sched.ended(ended, true);
                ended += 1;
            }
            _ => return Ok(0),
        }
    }
    if sched.next() == Next::Over {
        Ok(ended)
    } else {
        Ok(0)
    }
}

// What comes next, where the first nodes that came were started.
fn next_behind(sched: &mut Sched<'_>, started: u32) -> Next {
    for _ in 0..started {
        match sched.next() {
            Next::Decide(n) => sched.started(n),
            other => return other,
        }
    }
    sched.next()
}

// The same of a plan of three nodes; none where there is no such number of jobs.
fn next_of(
    alloc: Global,
    in_a_row: bool,
    jobs: u32,
    started: u32,
) -> Result<Option<Next>, NoMemory> {
    if jobs < 1 || jobs > 256 {
        return Ok(None);
    }
    let plan = plan_of(alloc, 3, in_a_row)?;
    let mut sched = Sched::new(alloc, &plan, jobs, false)?;
    Ok(Some(next_behind(&mut sched, started)))
}

// What a row shows, whether each of three nodes waits for the one before it, the number of jobs,
// how many nodes were started, and what comes next.
struct NextRow(&'static str, bool, u32, u32, Next);

impl Row for NextRow {
    fn shows(&self) -> &'static str {
        self.0
    }

    fn holds(&self, alloc: Global) -> Result<bool, Refused> {
        Ok(next_of(alloc, self.1, self.2, self.3)? == Some(self.4))
    }
}

const NEXT: [NextRow; 6] = [
    NextRow("the first node", false, 2, 0, Next::Decide(0)),
    NextRow(
        "the next one, while tokens are free",
        false,
        2,
        1,
        Next::Decide(1),
    ),
    NextRow("no token is free", false, 1, 1, Next::Wait),
    NextRow("nor with two jobs", false, 2, 2, Next::Wait),
    NextRow("the next one waits", true, 256, 1, Next::Wait),
    NextRow("all are started", false, 256, 3, Next::Wait),
];

#[test]
fn nodes_come_while_tokens_are_free(rt: HostRuntime) {
    check(&rt, rt.alloc(), &NEXT);
}

// What a row shows, whether each node waits for the one before it, and whether there are many jobs.
struct LargeRow(&'static str, bool, bool);

impl Row for LargeRow {
    fn shows(&self) -> &'static str {
        self.0
    }

    fn holds(&self, alloc: Global) -> Result<bool, Refused> {
        Ok(made_of_many(alloc, self.1, self.2)? == 200_000)
    }
}

const LARGE: [LargeRow; 4] = [
    LargeRow("one behind the other, one job", true, false),
    LargeRow("one behind the other, many jobs", true, true),
    LargeRow("each by itself, one job", false, false),
    LargeRow("each by itself, many jobs", false, true),
];

fn made_of_many(alloc: Global, in_a_row: bool, jobs_are_many: bool) -> Result<u32, NoMemory> {
    let plan = plan_of(alloc, 200_000, in_a_row)?;
    let jobs = if jobs_are_many { 256 } else { 1 };
    made_of(alloc, &plan, jobs)
}

#[test]
fn large_plans_are_made(rt: HostRuntime) {
    check(&rt, rt.alloc(), &LARGE);
}
