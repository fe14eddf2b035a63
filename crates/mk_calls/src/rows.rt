//! Tables, row by row.
use crate::refused::Refused;
use std::alloc::Global;
use std::process::Abort;

/// A row of a table.
pub trait Row {
    /// What it shows.
    fn shows(&self) -> &'static str;

    /// Whether the call answers as it wants.
    fn holds(&self, alloc: Global) -> Result<bool, Refused>;
}

/// Every row of a table holds.
pub fn check<R: Row>(rt: &impl Abort, alloc: Global, rows: &[R]) {
    for row in rows {
        let shows = row.shows();
        assert!(rt; matches!(row.holds(alloc), Ok(true)), "{shows}");
    }
}
