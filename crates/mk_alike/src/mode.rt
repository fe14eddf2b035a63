//! How builds go, compared.
ghost use Rattle.std.specs.Prelude.{◌≡◌, ◌↔◌, true};

use mk_bytes::{same_pairs, same_texts};
use mk_graph::Mode;

// Whether the words of `.MAKE.MODE` are the same.
fn same_words(one: &Mode, other: &Mode) -> bool
    ensures { (result ≡ true) ↔ ((one.now.meta ≡ other.now.meta)
        × (one.now.curdir_ok ≡ other.now.curdir_ok)
        × (one.now.missing_meta ≡ other.now.missing_meta)
        × (one.now.missing_filemon ≡ other.now.missing_filemon)
        × (one.now.nofilemon ≡ other.now.nofilemon)
        × (one.now.ignore_cmd ≡ other.now.ignore_cmd)
        × (one.now.silent ≡ other.now.silent)) }
{
    one.meta == other.meta
        && one.curdir_ok == other.curdir_ok
        && one.missing_meta == other.missing_meta
        && one.missing_filemon == other.missing_filemon
        && one.nofilemon == other.nofilemon
        && one.ignore_cmd == other.ignore_cmd
        && one.silent == other.silent
}

/// Whether two builds go the same way: by the same words, with as many jobs at a time, with the
/// same paths ignored and the same variables exported. Takes no memory.
pub fn same_mode(one: &Mode, other: &Mode) -> bool
    ensures { (result ≡ true) ↔ (one.now ≡ other.now) }
{
    same_words(one, other)
        && one.one_job == other.one_job
        && one.delete_on_error == other.delete_on_error
        && same_texts(one.ignore_paths.as_slice(), other.ignore_paths.as_slice())
        && same_pairs(one.exports.as_slice(), other.exports.as_slice())
}
