//! What is known of a path.
ghost use Rattle.std.specs.Prelude.{◌≡◌};
ghost use Rattle.mk_recorder.specs.Known as spec;

/// What is done to a path.
#[derive(Clone, Copy)]
pub enum Touch {
    Read,
    /// It is run as a program.
    Run,
    /// A look found a file there, and read nothing of it.
    Look,
    Miss,
    Make,
    /// It is made, as a directory in which nothing is.
    NewFolder,
    /// It is read and changed.
    Update,
    /// It is changed by one that does not read it, and old bytes may stay.
    Overwrite,
    /// It is changed, and no old bytes stay.
    Empty,
    /// It is read where it was there, and else made.
    ReadOrMake,
    Remove,
    /// It is seen to be a directory.
    Folder,
    List,
}

/// What the command left at a path, by its last change of it.
#[derive(Clone, Copy)]
pub enum Change {
    Untouched,
    Made,
    Gone,
}

/// What is known of a path.
#[derive(Clone, Copy)]
pub struct Known {
    /// It was read before the command changed it.
    pub found: bool,
    /// It was there before the command changed it, by a look or since it was taken away.
    pub seen: bool,
    /// It was missed before the command changed it.
    pub missed: bool,
    /// It is a directory that was listed before the command changed it.
    pub listed: bool,
    pub folder: bool,
    /// It was run before the command changed it.
    pub ran: bool,
    /// Bytes from before the command may stay in it, though the command changed it.
    pub kept: bool,
    /// The command made it, as a directory in which nothing was.
    pub fresh: bool,
    pub change: Change,
}

/// Of a path that nothing was done to.
pub fn not_known() -> Known
    ensures { result ≡ spec.not_known }
{
    Known {
        found: false,
        seen: false,
        missed: false,
        listed: false,
        folder: false,
        ran: false,
        kept: false,
        fresh: false,
        change: Change::Untouched,
    }
}

/// Whether the command has not changed a path.
pub fn is_outer(known: Known) -> bool
    ensures { result ≡ spec.is_outer known }
{
    matches!(known.change, Change::Untouched)
}

/// Whether the command has made a path.
pub fn is_made(known: Known) -> bool
    ensures { result ≡ spec.is_made known }
{
    matches!(known.change, Change::Made)
}

/// Whether the command has taken a path away.
pub fn is_gone(known: Known) -> bool
    ensures { result ≡ spec.is_gone known }
{
    matches!(known.change, Change::Gone)
}

fn is_old(known: Known) -> bool
    ensures { result ≡ spec.is_old known }
{
    is_outer(known) && !known.missed
}

fn holds_old(known: Known) -> bool
    ensures { result ≡ spec.holds_old known }
{
    is_outer(known) || known.kept
}

fn may_hold(known: Known) -> bool
    ensures { result ≡ spec.may_hold known }
{
    is_old(known) || known.kept
}

fn read_or_made(known: Known) -> Known
    ensures { result ≡ spec.read_or_made known }
{
    if may_hold(known) {
        return Known {
            found: true,
            ..known
        };
    }
    Known {
        change: Change::Made,
        ..known
    }
}

fn updated(known: Known) -> Known
    ensures { result ≡ spec.updated known }
{
    Known {
        found: known.found || may_hold(known),
        fresh: false,
        change: Change::Made,
        ..known
    }
}

fn overwritten(known: Known) -> Known
    ensures { result ≡ spec.overwritten known }
{
    Known {
        kept: known.kept || is_old(known),
        change: Change::Made,
        ..known
    }
}

fn removed(known: Known) -> Known
    ensures { result ≡ spec.removed known }
{
    Known {
        seen: known.seen || holds_old(known),
        kept: false,
        fresh: false,
        change: Change::Gone,
        ..known
    }
}

fn ran(known: Known) -> Known
    ensures { result ≡ spec.run known }
{
    Known {
        found: known.found || holds_old(known),
        ran: known.ran || is_outer(known),
        ..known
    }
}

fn listed(known: Known) -> Known
    ensures { result ≡ spec.listed known }
{
    Known {
        listed: known.listed || is_outer(known),
        folder: true,
        ..known
    }
}

/// What is known of a path behind one more touch.
pub fn after(known: Known, touch: Touch) -> Known
    ensures { result ≡ spec.after known touch }
{
    match touch {
        Touch::Read => Known {
            found: known.found || holds_old(known),
            ..known
        },
        Touch::Run => ran(known),
        Touch::Look => Known {
            seen: known.seen || is_outer(known),
            ..known
        },
        Touch::Miss => Known {
            missed: known.missed || is_outer(known),
            ..known
        },
        Touch::Make => Known {
            fresh: false,
            change: Change::Made,
            ..known
        },
        Touch::NewFolder => Known {
            folder: true,
            fresh: true,
            change: Change::Made,
            ..known
        },
        Touch::Update => updated(known),
        Touch::Overwrite => overwritten(known),
        Touch::Empty => Known {
            kept: false,
            change: Change::Made,
            ..known
        },
        Touch::ReadOrMake => read_or_made(known),
        Touch::Remove => removed(known),
        Touch::Folder => Known {
            folder: true,
            ..known
        },
        Touch::List => listed(known),
    }
}

/// Whether something is at a path, as far as it is known.
pub fn stands(known: Known) -> bool
    ensures { result ≡ spec.stands known }
{
    is_made(known) || is_outer(known) && (known.found || known.seen)
}
