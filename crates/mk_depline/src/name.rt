//! Names that mean something of their own: special targets and attributes.
ghost use Rattle.std.specs.Prelude.{◌≡◌};
ghost use Rattle.mk_bytes.specs.Bytes.{dot};
ghost use Rattle.mk_depline.specs.Lines.{begins_with};
ghost use Rattle.mk_depline.specs.Names as spec;

/// The special targets (make(1), "SPECIAL TARGETS").
#[derive(Clone, Copy, PartialEq, Eq)]
pub enum Special {
    /// `.MAIN`: its sources are the main targets.
    Main,
    /// `.BEGIN`: its commands run before all others.
    Begin,
    /// `.END`: its commands run after all others.
    End,
    /// `.DEFAULT`: its commands make what nothing else makes.
    Default,
    /// `.ORDER`: its sources are made in this order.
    Order,
    /// `.SUFFIXES`: its sources are suffixes.
    Suffixes,
    /// `.PATH`: its sources are directories that are searched for files.
    Path,
    /// `.NOTPARALLEL`: one job.
    NotParallel,
    /// `.DELETE_ON_ERROR`: the target of a failed job is removed.
    DeleteOnError,
    /// `.PHONY`: its sources are no files.
    Phony,
    /// `.PRECIOUS`: its sources are not removed.
    Precious,
    /// `.SILENT`: the commands of its sources are not printed.
    Silent,
    /// `.IGNORE`: failures of the commands of its sources do not count.
    Ignore,
}

// Whether a name begins with a dot, as all that mean something of their own do.
fn is_dotted(name: &[u8]) -> bool
    ensures { result ≡ begins_with dot name.now }
{
    matches!(name, [b'.', ..])
}

/// Whether a source is the name of an attribute, `.WAIT` included. Takes no memory.
pub fn is_attribute(name: &[u8]) -> bool
    ensures { result ≡ spec.is_attribute name.now }
{
    is_dotted(name) && is_dotted_attribute(name)
}

fn is_dotted_attribute(name: &[u8]) -> bool
    ensures { result ≡ spec.is_attribute name.now }
{
    name == b".PHONY".as_slice()
        || name == b".EXEC".as_slice()
        || name == b".OPTIONAL".as_slice()
        || name == b".PRECIOUS".as_slice()
        || name == b".SILENT".as_slice()
        || name == b".IGNORE".as_slice()
        || name == b".NOTMAIN".as_slice()
        || name == b".USE".as_slice()
        || name == b".USEBEFORE".as_slice()
        || name == b".WAIT".as_slice()
        || name == b".META".as_slice()
        || name == b".NOMETA".as_slice()
        || name == b".NOMETA_CMP".as_slice()
}

/// The special target of this name. Takes no memory.
pub fn special_named(name: &[u8]) -> Option<Special>
    ensures { result ≡ spec.special_named name.now }
{
    if is_dotted(name) {
        return dotted_special(name);
    }
    None
}

fn dotted_special(name: &[u8]) -> Option<Special>
    ensures { result ≡ spec.special_named name.now }
{
    if name == b".MAIN".as_slice() {
        return Some(Special::Main);
    }
    if name == b".BEGIN".as_slice() {
        return Some(Special::Begin);
    }
    if name == b".END".as_slice() {
        return Some(Special::End);
    }
    if name == b".DEFAULT".as_slice() {
        return Some(Special::Default);
    }
    if name == b".ORDER".as_slice() {
        return Some(Special::Order);
    }
    if name == b".SUFFIXES".as_slice() {
        return Some(Special::Suffixes);
    }
    if name == b".PATH".as_slice() {
        return Some(Special::Path);
    }
    if name == b".NOTPARALLEL".as_slice() {
        return Some(Special::NotParallel);
    }
    if name == b".DELETE_ON_ERROR".as_slice() {
        return Some(Special::DeleteOnError);
    }
    if name == b".PHONY".as_slice() {
        return Some(Special::Phony);
    }
    if name == b".PRECIOUS".as_slice() {
        return Some(Special::Precious);
    }
    if name == b".SILENT".as_slice() {
        return Some(Special::Silent);
    }
    if name == b".IGNORE".as_slice() {
        return Some(Special::Ignore);
    }
    None
}
