//! Names with wildcards (NetBSD make(1), "FILE DEPENDENCY SPECIFICATIONS"): for which paths a name
//! of a dependency line stands.
//!
//! A name whose last component holds `*`, `?` or `[` is a pattern. It stands for the paths in its
//! directory whose last component matches it, by the patterns of `mk_glob`, in the order of their
//! bytes.
#![tactic(auto)]

mod law;
mod name;
mod paths;
mod pattern;

pub use law::patterns_are_exact;
pub use name::{directory_of, is_pattern};
pub use paths::push_taken;
pub use pattern::wild;
