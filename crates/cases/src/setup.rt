//! Where the runs of a case stand: their world and their sinks.
ghost use Rattle.std.specs.Prelude.{IsTrue};
ghost use Rattle.mk_bytes.specs.Paths.{is_clean_directory as is_clean};
ghost use Rattle.mk_memworld.specs.Base.{are_clean as can_stand};

use crate::compare::{Ran, Sinks};
use crate::idle::IdleWorld;
use mk_bytes::{Items, NoMemory, Pairs, Text, Texts, is_clean_directory};
use mk_cases::case::Case;
use mk_cases::fault::Trouble;
use mk_cases::given::{directory_of, environment_of, files_of};
use mk_cases::kinds::{Where, fails_of};
use mk_memworld::{Fails, MemSink, MemWorld, Turns, are_clean};
use std::alloc::Global;

/// How the children of a world go on, and which of its calls fail.
#[derive(Drop)]
pub struct Course {
    pub schedule: Turns,
    pub fails: Fails,
}

fn new_world(alloc: Global, cwd: Text, files: Pairs, course: Course) -> Result<IdleWorld, NoMemory>
    requires directory { IsTrue (is_clean cwd) }
    requires clean { IsTrue (can_stand cwd files) }
{
    let world = MemWorld::new(alloc, cwd, files, course.schedule, course.fails)?;
    Ok(IdleWorld::of(world))
}

// A world with these files; none where they cannot stand there.
fn world_in(
    alloc: Global,
    cwd: Text,
    files: Pairs,
    course: Course,
) -> Result<Option<IdleWorld>, NoMemory>
    requires directory { IsTrue (is_clean cwd) }
{
    if !are_clean(alloc, &cwd, &files)? {
        return Ok(None);
    }
    Ok(Some(new_world(alloc, cwd, files, course)?))
}

fn world_at(alloc: Global, case: &Case, course: Course) -> Result<Option<IdleWorld>, NoMemory> {
    let cwd = directory_of(alloc, case)?;
    if !is_clean_directory(cwd.bytes()) {
        return Ok(None);
    }
    let files = files_of(alloc, case)?;
    world_in(alloc, cwd, files, course)
}

/// The world of a case, in which children go on and calls fail like this.
pub fn world_with(alloc: Global, case: &Case, course: Course) -> Result<IdleWorld, Trouble> {
    match world_at(alloc, case, course)? {
        Some(world) => Ok(world),
        None => Err(Trouble::Bad(case.head.line)),
    }
}

/// The world of a case, under a schedule.
pub fn world_of(alloc: Global, case: &Case, schedule: Turns) -> Result<IdleWorld, Trouble> {
    let fails = fails_of(alloc, case, Where::World)?;
    world_with(alloc, case, Course { schedule, fails })
}

fn plain_course(alloc: Global) -> Result<Course, NoMemory> {
    let schedule = Items::new(alloc, 0)?;
    let fails = Items::new(alloc, 0)?;
    Ok(Course { schedule, fails })
}

/// The world of a case, in which children go on one after the other and no call fails.
pub fn plain_world(alloc: Global, case: &Case) -> Result<IdleWorld, Trouble> {
    let course = plain_course(alloc)?;
    world_with(alloc, case, course)
}

/// Sinks in which these writes fail.
pub fn sinks_with(alloc: Global, out: Fails, err: Fails) -> Result<Sinks, NoMemory> {
    let out = MemSink::new(alloc, out)?;
    match MemSink::new(alloc, err) {
        Ok(err) => Ok(Sinks { out, err }),
        Err(no_memory) => {
            drop(out);
            Err(no_memory)
        }
    }
}

/// The sinks of a run of a case.
pub fn sinks_of(alloc: Global, case: &Case) -> Result<Sinks, Trouble> {
    let out = fails_of(alloc, case, Where::Out)?;
    let err = fails_of(alloc, case, Where::Err)?;
    Ok(sinks_with(alloc, out, err)?)
}

/// Sinks in which no write fails.
pub fn unrefused(alloc: Global) -> Result<Sinks, NoMemory> {
    let out = Items::new(alloc, 0)?;
    let err = Items::new(alloc, 0)?;
    sinks_with(alloc, out, err)
}

/// Runs these words in a world of a case.
pub fn run_words(
    alloc: Global,
    case: &Case,
    words: &Texts,
    sinks: Sinks,
    world: &mut IdleWorld,
) -> Result<Ran, Trouble> {
    match environment_of(alloc, case) {
        Ok(env) => Ok(world.run(alloc, words, &env, sinks)),
        Err(trouble) => {
            drop(sinks);
            Err(trouble)
        }
    }
}
