//! Names on the way to paths below a directory.
ghost use Rattle.std.specs.Prelude.{◌≡◌, position};
ghost use Rattle.std.specs.Option.{option_copied};
ghost use Rattle.mk_bytes.specs.Paths.{is_slash};
ghost use Rattle.mk_world.specs.Listings as spec;

use mk_bytes::is_absolute;

// What follows the beginning of a path, where it begins so.
#[tactic(auto, using(crate::proofs::BelowLemmas::stripped))]
fn behind<'p>(start: &[u8], path: &'p [u8]) -> Option<&'p [u8]>
    ensures { option_copied result ≡ spec.behind start.now path.now }
{
    path.strip_prefix(start)
}

// What a path has behind a directory that it lies below.
fn below<'p>(dir: &[u8], path: &'p [u8]) -> Option<&'p [u8]>
    ensures { option_copied result ≡ spec.below dir.now path.now }
{
    if dir == b".".as_slice() {
        return if is_absolute(path) { None } else { Some(path) };
    }
    if dir == b"/".as_slice() {
        return behind(dir, path);
    }
    match behind(dir, path) {
        None => None,
        Some(rest) => behind(b"/", rest),
    }
}

fn first_slash(path: &[u8]) -> Option<usize>
    ensures { result ≡ position is_slash path.now }
{
    path.iter().position(|byte| *byte == b'/')
}

// A path up to its first slash.
fn first_name(path: &[u8]) -> &[u8]
    ensures { result.now ≡ spec.first_name path.now }
{
    match first_slash(path) {
        Some(at) => &path[..at],
        None => path,
    }
}

/// The name directly below a directory on the way to a path, where the path lies below it. Takes no
/// memory.
pub fn name_below<'p>(dir: &[u8], path: &'p [u8]) -> Option<&'p [u8]>
    ensures { option_copied result ≡ spec.name_below dir.now path.now }
{
    match below(dir, path) {
        None => None,
        Some(rest) => Some(first_name(rest)),
    }
}
