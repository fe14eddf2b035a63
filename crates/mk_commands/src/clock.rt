//! The numbers of the clock that steps take.
ghost use Rattle.std.specs.Prelude.{◌≡◌, ◌+◌, ◌^◌, ◌<◌, ◌≤◌, length, IfOk};
ghost use Rattle.std.specs.Option.{option_copied};
ghost use Rattle.mk_commands.specs.Clock as spec;
ghost use Rattle.mk_commands.specs.Clock.{last_number, numbers, numbers_of};
ghost use Rattle.mk_commands.specs.Steps.{numbers_of_step};

use crate::copy::copy_deed;
use mk_bytes::{Items, NoMemory};
use mk_world::{Deed, Timed, Timeds};
use std::alloc::Global;

/// How many numbers of the clock a step takes.
pub fn numbers_taken(deed: &Deed) -> u64
    ensures { result ≡ numbers_of deed.now }
{
    match deed {
        Deed::Read { .. } | Deed::Miss { .. } => 0,
        Deed::Write { .. } | Deed::Delete { .. } | Deed::Move { .. } => 1,
    }
}

/// How many numbers a step takes, where there is one.
pub fn taken_by_step(deed: Option<&Deed>) -> u64
    ensures { result ≡ numbers_of_step (option_copied deed.entry) }
{
    match deed {
        None => 0,
        Some(deed) => numbers_taken(deed),
    }
}

/// How many numbers several steps take.
pub fn all_taken(deeds: &[Deed]) -> u64
    requires { length deeds.now < 2 ^ 32 }
    ensures { result ≡ numbers deeds.now }
{
    let mut taken = 0;
    for deed in deeds {
        taken += numbers_taken(deed);
    }
    taken
}

/// Steps with their times, where the clock stands at this number before them.
pub fn timed(alloc: Global, clock: u64, deeds: &[Deed]) -> Result<Timeds, NoMemory>
    requires { clock + numbers deeds.now ≤ last_number }
    ensures { IfOk result (λ steps. steps ≡ spec.timed clock deeds.now) }
{
    let mut time = clock;
    let mut steps = Items::new(alloc, 0)?;
    for deed in deeds {
        time += numbers_taken(deed);
        let deed = copy_deed(alloc, deed)?;
        steps.push(Timed { deed, time })?;
    }
    Ok(steps)
}
