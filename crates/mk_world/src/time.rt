ghost use Rattle.std.specs.Prelude.{◌≡◌};
ghost use Rattle.mk_world.specs.Looks as looks;

/// A time: a number of nanoseconds. The time 0 stands for none.
#[derive(Clone, Copy, PartialEq, Eq)]
pub struct Time(pub u64);

/// The number by which make knows a child, from its start until it is taken in.
#[derive(Clone, Copy, PartialEq, Eq)]
pub struct Ticket(pub u32);

/// When a file was changed last.
#[derive(Clone, Copy, PartialEq, Eq)]
pub enum When {
    /// There is no such file.
    Missing,
    /// At this time.
    At(Time),
    /// The file is there, at a time that is not known and counts as newer than all.
    Unknown,
}

impl When {
    /// Whether there is no file.
    pub fn is_missing(self) -> bool
        ensures { result ≡ looks.is_missing self }
    {
        matches!(self, When::Missing)
    }
}
