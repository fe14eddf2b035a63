ghost use Rattle.mk_world.specs.Lawful.{RunsStayLawful};
ghost use Rattle.mk_world.specs.Listings.{OneListing};
ghost use Rattle.mk_world.specs.Outer.{SameDoing};
ghost use Rattle.mk_world.specs.Records.{ExactRecordsTell, RecordsAreJoined};

use crate::world::World;

/// A law of every world: two maps that agree on what a command takes from outside itself on one of
/// them, in bytes or in being missing, let it do the same on both.
pub fn same_doing<W: World>(_: &W)
    ensures { SameDoing W.meaning }
{}

/// A law of every world: where its history is lawful, what its calls add leaves it lawful.
pub fn runs_stay_lawful<W: World>(_: &W)
    ensures { RunsStayLawful W.meaning }
{}

/// A law of every map of files: it has one answer to what a directory holds.
pub fn one_listing()
    ensures { OneListing }
{}

/// What records tell of: exact ones tell of the steps whose records they are, each look at a path
/// that no earlier step had changed, and no change but those of the steps; and records of some
/// steps with records of the steps behind them tell of all of these.
pub fn records_may_tell()
    ensures exact { ExactRecordsTell }
    ensures joined { RecordsAreJoined }
{}
