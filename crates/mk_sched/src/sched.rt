//! The scheduler.
ghost use Rattle.std.specs.Prelude.{◌≡◌, ◌<◌, ◌≤◌, ◌^◌, length, get_or, IfOk};
ghost use Rattle.mk_plan.specs.declared.plan.NodeState.TheVariants.{Undecided as undecided};
ghost use Rattle.mk_plan.specs.declared.plan.NodeState.TheVariants.{Open as open_state};
ghost use Rattle.mk_plan.specs.declared.plan.NodeState.TheVariants.{Settled as settled};
ghost use Rattle.mk_plan.specs.declared.plan.NodeState.TheVariants.{Failed as failed};
ghost use Rattle.mk_sched.specs.Schedule as spec;

use crate::counts::settle;
use crate::followers::Followers;
use crate::least::{change, least};
use crate::start::{counts_of, entries_of, followers_of};
use mk_bytes::NoMemory;
use mk_plan::{NodeState, Plan};
use std::alloc::Global;
use std::marker::Model;

/// What comes next in a run.
#[derive(Clone, Copy, PartialEq, Eq)]
pub enum Next {
    /// This node is decided.
    Decide(u32),
    /// No node may be decided until a job ends.
    Wait,
    /// No job is open, and no node may be decided.
    Over,
}

/// A run of a plan: how each node stands, and which is next. Contracts see the rules of the run and
/// how the nodes stand.
#[derive(Drop)]
pub struct Sched<'p> {
    plan: &'p Plan,
    jobs: u32,
    keep_going: bool,
    nodes: Vec<NodeState>,
    /// How many jobs are open.
    tokens: u32,
    /// Whether a node has failed.
    any_failed: bool,
    /// What each node is a predecessor of.
    followers: Vec<Followers>,
    /// How many predecessors of each node are not settled.
    counts: Vec<usize>,
    /// The ready nodes, of which the least is at hand.
    entries: Vec<u32>,
}

impl<'p> Model for Sched<'p> {
    ghost use Rattle.mk_sched.specs.Kept.{IsKept};
    ghost use Rattle.mk_sched.specs.Schedule.{Schedule, predecessors, schedule_of};

    ghost Value = { Schedule };

    ghost view = { λ sched.
        schedule_of sched.plan.now sched.jobs sched.keep_going sched.nodes.items };

    ghost invariant = { λ sched. IsKept (predecessors sched.plan.now) sched.followers.items
        sched.nodes.items sched.counts.items sched.entries.items sched.tokens sched.any_failed };
}

impl<'p> Sched<'p> {
    ghost use Rattle.mk_sched.specs.Next.{next_of};
    ghost use Rattle.mk_sched.specs.declared.sched.Next.TheVariants.{Decide as decide};

    /// The start of a run of a plan: no node is decided. So many jobs may be open at once, and
    /// after a failure the run goes on or not. Takes all memory of the run.
    pub fn new(
        alloc: Global,
        plan: &'p Plan,
        jobs: u32,
        keep_going: bool,
    ) -> Result<Sched<'p>, NoMemory>
        requires some { 1 ≤ jobs }
        requires few { jobs ≤ 256 }
        ensures made { IfOk result (λ sched. sched
            ≡ spec.schedule_of plan.now jobs keep_going (spec.none_decided plan.now)) }
        ensures short { length plan.now < 2 ^ 32 }
    {
        let counts = counts_of(alloc, plan)?;
        Ok(Sched {
            plan,
            jobs,
            keep_going,
            nodes: vec![in alloc; NodeState::Undecided; counts.len()]?,
            tokens: 0,
            any_failed: false,
            followers: followers_of(alloc, plan)?,
            entries: entries_of(alloc, &counts)?,
            counts,
        })
    }

    /// What comes next. Takes no memory.
    pub fn next(&self) -> Next
        ensures { result ≡ next_of self.now }
    {
        if (self.keep_going || !self.any_failed) && self.tokens < self.jobs {
            if let Some(node) = least(&self.entries, self.plan.len()) {
                return Next::Decide(node);
            }
        }
        if self.tokens > 0 {
            Next::Wait
        } else {
            Next::Over
        }
    }

    /// The next node is up to date. Takes no memory.
    pub fn kept(&mut self, n: u32)
        requires { next_of self.old ≡ decide n }
        ensures { self.new ≡ spec.with_node self.old n settled }
    {
        let n = n as usize;
        settle(
            &mut self.nodes,
            &mut self.counts,
            &mut self.entries,
            self.followers[n].as_slice(),
            n,
        );
    }

    /// A job is opened for the next node. Takes no memory.
    pub fn started(&mut self, n: u32)
        requires { next_of self.old ≡ decide n }
        ensures { self.new ≡ spec.with_node self.old n open_state }
    {
        change(
            &mut self.nodes,
            &self.counts,
            &mut self.entries,
            n as usize,
            NodeState::Open,
        );
        self.tokens += 1;
    }

    /// The next node cannot be made. Takes no memory.
    pub fn refused(&mut self, n: u32)
        requires { next_of self.old ≡ decide n }
        ensures { self.new ≡ spec.with_node self.old n failed }
    {
        change(
            &mut self.nodes,
            &self.counts,
            &mut self.entries,
            n as usize,
            NodeState::Failed,
        );
        self.any_failed = true;
    }

    /// The job of a node has ended, well or not. Takes no memory.
    pub fn ended(&mut self, n: u32, ok: bool)
        requires { get_or self.old.nodes n undecided ≡ open_state }
        ensures { self.new ≡ spec.with_node self.old n (spec.ended_state ok) }
    {
        let n = n as usize;
        self.tokens -= 1;
        if ok {
            settle(
                &mut self.nodes,
                &mut self.counts,
                &mut self.entries,
                self.followers[n].as_slice(),
                n,
            );
            return;
        }
        change(
            &mut self.nodes,
            &self.counts,
            &mut self.entries,
            n,
            NodeState::Failed,
        );
        self.any_failed = true;
    }
}
