//! How much the paths of a log take, and may take.
ghost use Rattle.std.specs.Prelude.{◌≡◌, ◌+◌, ◌<◌, ◌≤◌, length, IfNone, IfSome};
ghost use Rattle.mk_filemon.specs.Log as spec;

use crate::line::Kind;
use mk_bytes::is_absolute;

/// What the lines of a log may take.
pub const MAX_SIZE: usize = 33_554_432;

// What is left of a room behind a text and a number of further bytes.
fn behind(room: usize, text: &[u8], more: usize) -> Option<usize>
    ensures fits { IfSome result (λ left. left + (length text.now + more) ≡ room) }
    ensures not { IfNone result (room < length text.now + more) }
{
    room.checked_sub(text.len())?.checked_sub(more)
}

fn behind_path(room: usize, directory: &[u8], path: &[u8]) -> Option<usize>
    ensures fits { IfSome result (λ left. left + spec.path_size directory.now path.now ≡ room) }
    ensures not { IfNone result (room < spec.path_size directory.now path.now) }
{
    let left = behind(room, path, 16)?;
    if is_absolute(path) {
        return Some(left);
    }
    behind(left, directory, 1)
}

/// What is left of a room behind a line of a process with this directory; `None` where the line
/// takes more.
pub fn behind_line(room: usize, kind: Kind, directory: &[u8], text: &[u8]) -> Option<usize>
    ensures fits { IfSome result (λ left. left + spec.size_by kind directory.now text.now ≡ room) }
    ensures not { IfNone result (room < spec.size_by kind directory.now text.now) }
{
    let left = behind_path(room, directory, text)?;
    match kind {
        Kind::Moves | Kind::Links => behind_path(left, directory, text),
        _ => Some(left),
    }
}
