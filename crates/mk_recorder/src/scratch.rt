//! What is no record of a command: the files of makes for their children.
ghost use Rattle.std.specs.Prelude.{◌≡◌};
ghost use Rattle.mk_recorder.specs.Scratch as spec;

use crate::record::Record;
use mk_bytes::skip;
use mk_filemon::cut_at;

fn is_in_number(byte: u8) -> bool
    ensures { result ≡ spec.is_in_number byte }
{
    b'0' <= byte && byte <= b'9' || byte == b'.'
}

fn first_name<'t>(path: &'t [u8]) -> &'t [u8]
    ensures { result.now ≡ spec.first_name path.now }
{
    match cut_at(b'/', path) {
        Some((name, _)) => name,
        None => path,
    }
}

fn begins_with_number(path: &[u8]) -> bool
    ensures { result ≡ spec.begins_with_number path.now }
{
    first_name(path).iter().all(|byte| is_in_number(*byte))
}

/// Whether a path is a make's own directory for its children, or lies in it: below this directory
/// for temporary files it is `bmake.` and a number.
pub fn is_of_make(temporary: &[u8], path: &[u8]) -> bool
    ensures { result ≡ spec.is_of_make temporary.now path.now }
{
    let rest = skip(path, temporary.len());
    path.starts_with(temporary) && rest.starts_with(b"/bmake.") && begins_with_number(skip(rest, 7))
}

/// Whether a command has run a make, which has a directory of its own below that for temporary
/// files.
pub fn runs_make(temporary: &[u8], records: &[Record]) -> bool
    ensures { result ≡ spec.runs_make temporary.now records.now }
{
    records.iter().any(|one| one.is_folder && is_of_make(temporary, one.path.bytes()))
}

/// Whether a record is left out: what begins with `own`, the path of the make that runs the
/// command, what is of other makes, and where the command has run a make the listing of the
/// directory for temporary files, in which a make looks for what others have left there.
pub fn is_left_out(own: &[u8], temporary: &[u8], has_make: bool, one: &Record) -> bool
    ensures { result ≡ spec.is_left_out own.now temporary.now has_make one.now }
{
    let path = one.path.bytes();
    path.starts_with(own)
        || is_of_make(temporary, path)
        || has_make && one.is_folder && path == temporary
}
