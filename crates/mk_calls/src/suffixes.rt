//! Names without their suffix.
use crate::refused::Refused;
use crate::rows::{Row, check};
use crate::texts::texts;
use mk_suffix::prefix_of;
use std::alloc::Global;

// A name, and what it is without its suffix.
struct PrefixRow(&'static [u8], &'static [u8]);

impl Row for PrefixRow {
    fn shows(&self) -> &'static str {
        "a name without its suffix"
    }

    fn holds(&self, alloc: Global) -> Result<bool, Refused> {
        let known = texts(alloc, &[b".c", b".o", b".y"])?;
        Ok(prefix_of(&known, self.0) == self.1)
    }
}

const PREFIXES: [PrefixRow; 5] = [
    PrefixRow(b"x.o", b"x"),
    PrefixRow(b"d/x.y.c", b"x.y"),
    PrefixRow(b"x.h", b"x.h"),
    PrefixRow(b"d/.c", b".c"),
    PrefixRow(b"d.c/x", b"x"),
];

#[test]
fn prefixes_are_without_suffixes(rt: HostRuntime) {
    check(&rt, rt.alloc(), &PREFIXES);
}
