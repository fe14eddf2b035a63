ghost use Rattle.std.specs.Prelude.{◌≡◌, nat_lt};
ghost use Rattle.mk_decision.specs.Makers.{jobs_of, work_of};

use crate::job::Job;
use mk_decision::{Maker, jobs_in};
use mk_plan::Plan;
use mk_sched::Sched;
use mk_trace::{Event, Failure};
use mk_world::{Progress, Time};

/// How far a build has come.
#[derive(Drop)]
pub struct Course<'p> {
    pub sched: Sched<'p>,
    /// The jobs, in the order in which their lines were started.
    pub jobs: Vec<Job>,
    pub events: Vec<Event>,
    /// The ticket that was given out last.
    pub last_ticket: u32,
    /// The node whose line was shown last.
    pub last_shown: Option<u32>,
    /// The first failure.
    pub failure: Option<Failure>,
    /// The newest time that a look or a write told, or 0.
    pub newest: Time,
    /// How many nodes were decided.
    pub decided: u32,
}

// The name of the node whose line runs longest, or no bytes.
fn oldest<'p>(plan: &'p Plan, jobs: &[Job]) -> &'p [u8] {
    match jobs {
        [first, ..] if first.node < plan.len() => plan.name(first.node),
        _ => b"",
    }
}

/// How far a build has come, where that is to be shown.
pub fn progress_of<'p>(maker: &Maker<'p>, course: &Course) -> Option<Progress<'p>> {
    if !maker.flags.progress {
        return None;
    }
    let running = u32::try_from(course.jobs.len()).unwrap_or(u32::MAX);
    Some(Progress {
        made: course.decided.saturating_sub(running),
        total: maker.plan.len(),
        oldest: oldest(maker.plan, course.jobs.as_slice()),
    })
}

/// Whether more jobs than one may be open at once.
pub fn are_many(maker: &Maker) -> bool
    ensures { result ≡ nat_lt 1 (jobs_of (work_of maker.now)) }
{
    jobs_in(maker) > 1
}
