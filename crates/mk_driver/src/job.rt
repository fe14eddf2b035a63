//! Jobs: the nodes whose lines run, one line at a time.
ghost use Rattle.std.specs.Prelude.{◌≡◌, ◌<◌, ◌+◌, ◌^◌, [], ◌∷◌, ◌++◌, Some, false, length, nat_eq};
ghost use Rattle.std.specs.Prelude.{OnOk, OnErr};
ghost use Rattle.std.specs.List.{list_any};
ghost use Rattle.mk_driver.specs.Jobs.{HasLine, IsJobTaken, tickets_of};
ghost use Rattle.mk_trace.specs.Runs.{line_of};
ghost use Rattle.mk_world.specs.declared.command.TaskLine.{TaskLine as Line};
ghost use Rattle.mk_sched.specs.Counts.{times};

use mk_bytes::NoMemory;
use mk_trace::Collected;
use mk_world::{Kids, Task, TaskLine};

/// A job: the child of one of its lines runs under a ticket.
#[derive(Drop)]
pub struct Job {
    pub ticket: u32,
    /// The place of its node in the plan.
    pub node: u32,
    /// The number of the line, counted from 1.
    pub number: u32,
    pub task: Task,
    pub collected: Collected,
}

/// The line with a child at a number of a task.
pub fn line_at(task: &Task, number: u32) -> &TaskLine
    requires { (one : Line) × HasLine task.now.lines number one }
    ensures { line_of task.now.lines number ≡ Some result.now }
{
    task.lines.get(number as usize - 1)
}

/// Adds a job at the end.
pub fn add_job(jobs: &mut Vec<Job>, job: Job) -> Result<(), NoMemory>
    ensures ok { OnOk result (jobs.new.items ≡ jobs.old.items ++ job ∷ []) }
    ensures err { OnErr result (jobs.new.items ≡ jobs.old.items) }
{
    jobs.push(job)?;
    Ok(())
}

/// Takes out the job of a ticket; the others stay in order.
pub fn take_job(jobs: &mut Vec<Job>, ticket: u32) -> Job
    requires { 0 < times ticket (tickets_of jobs.old.items) }
    ensures { IsJobTaken ticket jobs.old.items result jobs.new.items }
{
    let mut place = 0;
    'jobs: while jobs[place].ticket != ticket {
        place += 1;
    }
    jobs.remove(place)
}

// Whether a child is held under a ticket.
fn is_held<K>(kids: &Kids<K>, ticket: u32) -> bool
    ensures { result ≡ list_any (nat_eq ticket) kids.now.tickets }
{
    for i in 0..kids.len() {
        if kids.ticket(i).0 == ticket {
            return true;
        }
    }
    false
}

// The number behind that of a ticket, or 1 where there are not enough behind it.
fn ticket_behind(last: u32) -> u32
    ensures { result + 256 < 2 ^ 32 }
{
    if last < u32::MAX - 256 { last + 1 } else { 1 }
}

/// The next ticket that is not held. Tickets count from 1, and from 1 again before their numbers
/// run out.
pub fn next_ticket<K>(kids: &Kids<K>, last: &mut u32) -> u32
    requires { length kids.now.tickets < 256 }
    ensures { list_any (nat_eq result) kids.now.tickets ≡ false }
{
    let mut ticket = ticket_behind(*last);
    'held: while is_held(kids, ticket) {
        ticket += 1;
    }
    *last = ticket;
    ticket
}
