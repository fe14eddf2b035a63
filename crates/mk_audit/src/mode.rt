//! How a build goes, as an audit needs it.
ghost use Rattle.std.specs.Prelude.{◌≡◌};
ghost use Rattle.mk_audit.specs.Modes as spec;

use mk_graph::Mode;

fn is_recorded(mode: &Mode) -> bool
    ensures { result ≡ spec.is_recorded mode.now }
{
    mode.meta && mode.curdir_ok && mode.missing_meta && mode.missing_filemon
}

/// Whether `.MAKE.MODE` has `meta`, `curdirOk`, `missing-meta` and `missing-filemon`, and neither
/// `nofilemon` nor `ignore-cmd`, and no path is ignored. Takes no memory.
pub fn mode_is_full(mode: &Mode) -> bool
    ensures { result ≡ spec.mode_is_full mode.now }
{
    is_recorded(mode) && !mode.nofilemon && !mode.ignore_cmd && mode.ignore_paths.is_empty()
}
