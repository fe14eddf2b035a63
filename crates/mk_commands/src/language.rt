//! What a command line asks next.
ghost use Rattle.std.specs.Prelude.{◌≡◌, ◌<◌, [], ◌∷◌, length, position, IfOk, IfSome};
ghost use Rattle.std.specs.List.{slice_split};
ghost use Rattle.std.specs.Option.{option_copied, option_map};
ghost use Rattle.mk_commands.specs.Language.{commands_after, in_order, is_semicolon, language_next};
ghost use Rattle.mk_commands.specs.Words.{held};

use crate::command::obey;
use crate::turn::Turn;
use crate::word::words_of;
use mk_bytes::{NoMemory, Text};
use mk_world::{Answer, Cmd, Next};
use std::alloc::Global;

fn first_semicolon(words: &[&[u8]]) -> Option<usize>
    ensures { result ≡ position (λ word. is_semicolon word.now) words.now }
{
    words.iter().position(|word| *word == b";".as_slice())
}

// The first command of a line, and what follows its semicolon.
fn first_command<'w, 't>(words: &'w [&'t [u8]]) -> (&'w [&'t [u8]], Option<&'w [&'t [u8]]>)
    ensures commands { slice_split is_semicolon (held words.now)
        ≡ held result.0.now ∷ commands_after (option_map held (option_copied result.1)) }
    ensures shorter { IfSome result.1 (λ rest. length rest.now < length words.now) }
{
    match first_semicolon(words) {
        Some(at) => (&words[..at], Some(&words[at + 1..])),
        None => (words, None),
    }
}

/// What a command line asks next, or its end, by the answers so far. The commands that are parted
/// by the word `;` run in order, up to the first whose status is not 0.
pub fn next(alloc: Global, cmd: &Cmd, seen: &[Answer]) -> Result<Next, NoMemory>
    ensures { IfOk result (λ next. next ≡ language_next cmd.now seen.now) }
{
    let words = words_of(alloc, cmd.text.bytes())?;
    in_order(alloc, cmd, words.as_slice(), seen)
}

// What the commands among these words ask next, or their end.
fn in_order(alloc: Global, cmd: &Cmd, words: &[&[u8]], seen: &[Answer]) -> Result<Next, NoMemory>
    ensures { IfOk result (λ next. next
        ≡ in_order cmd.now (slice_split is_semicolon (held words.now)) [] seen.now) }
{
    let mut printed = Text::new(alloc);
    let mut commands = Some(words);
    let mut rest = seen;
    'commands: while let Some(line) = commands {
        let (command, more) = first_command(line);
        match obey(alloc, cmd, command, rest)? {
            Turn::Asks { request } => return Ok(Next::More { request }),
            Turn::Ends {
                status,
                output,
                rest: left,
            } => {
                printed.push(output.bytes())?;
                if status != 0 {
                    return Ok(Next::Over {
                        status,
                        output: printed,
                    });
                }
                rest = left;
            }
        }
        commands = more;
    }
    Ok(Next::Over {
        status: 0,
        output: printed,
    })
}
