ghost use Rattle.std.specs.Prelude.{◌≡◌};
ghost use Rattle.mk_decision.specs.Makers.{jobs_of, work_of};

use mk_flags::Flags;
use mk_graph::Made;
use mk_plan::Plan;
use std::alloc::Global;

/// What a build goes by: the plan, with what the makefiles leave and the options.
#[derive(Drop)]
pub struct Maker<'m> {
    pub alloc: Global,
    pub plan: &'m Plan,
    pub made: &'m Made,
    pub flags: &'m Flags,
}

/// How many jobs may be open at once.
pub fn jobs_in(maker: &Maker) -> u32
    ensures { result ≡ jobs_of (work_of maker.now) }
{
    if maker.made.mode.one_job {
        1
    } else {
        maker.flags.jobs
    }
}
