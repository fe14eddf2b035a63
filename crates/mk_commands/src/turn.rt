//! Where a command stands, by the answers to its requests so far.
ghost use Rattle.std.specs.Prelude.{◌≡◌, [], IfOk};
ghost use Rattle.mk_bytes.specs.Paths.{clean};
ghost use Rattle.mk_commands.specs.Seen.{turn_of};
ghost use Rattle.mk_commands.specs.Turns.{asks, ends};
ghost use Rattle.mk_world.specs.declared.step.Request.TheVariants.{Look, Write};

use mk_bytes::{NoMemory, Text, clean_path};
use mk_world::{Answer, Request};
use std::alloc::Global;

/// Where a command stands.
#[derive(Drop)]
pub enum Turn<'a> {
    /// It asks for more.
    Asks {
        request: Request,
    },
    /// It is at its end, and leaves the other answers to the commands after it.
    Ends {
        status: u8,
        output: Text,
        rest: &'a [Answer],
    },
}

/// The end, without output.
pub fn ended<'a>(alloc: Global, status: u8, rest: &'a [Answer]) -> Turn<'a>
    ensures { turn_of result ≡ ends status [] rest.now }
{
    Turn::Ends {
        status,
        output: Text::new(alloc),
        rest,
    }
}

/// A look at a path.
pub fn look<'a>(alloc: Global, cwd: &[u8], path: &[u8]) -> Result<Turn<'a>, NoMemory>
    ensures { IfOk result (λ turn. turn_of turn ≡ asks (Look (clean cwd.now path.now))) }
{
    let path = clean_path(alloc, cwd, path)?;
    Ok(Turn::Asks {
        request: Request::Look { path },
    })
}

/// To write a whole file.
pub fn write<'a>(alloc: Global, cwd: &[u8], path: &[u8], bytes: Text) -> Result<Turn<'a>, NoMemory>
    ensures { IfOk result (λ turn. turn_of turn ≡ asks (Write (clean cwd.now path.now) bytes)) }
{
    let path = clean_path(alloc, cwd, path)?;
    Ok(Turn::Asks {
        request: Request::Write { path, bytes },
    })
}
