//! Where names lead.
ghost use Rattle.std.specs.Prelude.{◌≡◌, IfOk};
ghost use Rattle.mk_recorder.specs.Places as spec;

use mk_bytes::{NoMemory, Text};
use mk_filemon::directory_from;
use mk_strace::Name;
use std::alloc::Global;

/// Where a name leads.
#[derive(Drop)]
pub enum Place {
    /// To this absolute path.
    At(Text),
    /// To nothing that has a path.
    Nowhere,
    /// It is not known.
    Unclear,
}

fn at(alloc: Global, directory: &[u8], path: &[u8]) -> Result<Place, NoMemory>
    ensures { IfOk result (λ place. place ≡ spec.at directory.now path.now) }
{
    Ok(Place::At(directory_from(alloc, directory, path)?))
}

/// Where a name leads from the directory of its process.
pub fn place_of(alloc: Global, directory: &[u8], name: &Name) -> Result<Place, NoMemory>
    ensures { IfOk result (λ place. place ≡ spec.place_of directory.now name.now) }
{
    match name {
        Name::Path(path) | Name::Here(path) | Name::Open(path) => {
            at(alloc, directory, path.bytes())
        }
        Name::Nameless => Ok(Place::Nowhere),
        Name::Unclear => Ok(Place::Unclear),
    }
}

/// Whether a path is no file of a command: what lies below /dev, /proc and /sys, and these.
pub fn is_outside(path: &[u8]) -> bool
    ensures { result ≡ spec.is_outside path.now }
{
    is_at_or_below(b"/dev", path) || is_at_or_below(b"/proc", path) || is_at_or_below(b"/sys", path)
}

fn is_at_or_below(directory: &[u8], path: &[u8]) -> bool
    ensures { result ≡ spec.is_at_or_below directory.now path.now }
{
    path == directory || crate::table::is_below(directory, path)
}

/// Whether what is open is no file of a command.
pub fn is_elsewhere(name: &Name) -> bool
    ensures { result ≡ spec.is_elsewhere name.now }
{
    match name {
        Name::Nameless => true,
        Name::Open(path) => is_outside(path.bytes()),
        _ => false,
    }
}

/// Whether a name is a path that may be missed.
pub fn is_path(name: &Name) -> bool
    ensures { result ≡ spec.is_path name.now }
{
    match name {
        Name::Open(_) | Name::Nameless => false,
        Name::Here(path) => !path.is_empty(),
        Name::Path(_) | Name::Unclear => true,
    }
}
