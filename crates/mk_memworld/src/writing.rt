//! The calls that write a whole file.
ghost use Rattle.std.specs.Prelude.{◌≡◌, take};
ghost use Rattle.mk_memworld.specs.Writes as spec;

use crate::outage::CallKind;
use mk_bytes::Text;
use mk_world::Happening;

/// A call that writes a whole file.
#[derive(Clone, Copy, PartialEq, Eq)]
pub enum Writing {
    /// The head of a meta file is written, with which a job begins.
    Stamp,
    /// A file is written whole.
    Put,
}

impl Writing {
    /// The kind of the call.
    pub fn kind(self) -> CallKind
        ensures { result ≡ spec.kind_of self }
    {
        match self {
            Writing::Stamp => CallKind::Stamp,
            Writing::Put => CallKind::Put,
        }
    }

    /// Whether a call of this kind is it.
    pub fn is_of(self, kind: CallKind) -> bool
        ensures { result ≡ spec.is_of self kind }
    {
        match self {
            Writing::Stamp => matches!(kind, CallKind::Stamp),
            Writing::Put => matches!(kind, CallKind::Put),
        }
    }

    /// What has happened when it has written these bytes.
    pub fn event(self, path: Text, bytes: Text, time: u64) -> Happening
        ensures { result ≡ spec.event_of self path bytes time }
    {
        match self {
            Writing::Stamp => Happening::Stamp { path, bytes, time },
            Writing::Put => Happening::Put { path, bytes, time },
        }
    }
}

/// So many bytes from the beginning, or all where there are fewer.
pub fn beginning(bytes: &[u8], count: usize) -> &[u8]
    ensures { result.now ≡ take count bytes.now }
{
    if count < bytes.len() {
        return &bytes[..count];
    }
    bytes
}
