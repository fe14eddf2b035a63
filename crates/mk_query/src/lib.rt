//! Queries: whether the targets are up to date (NetBSD make(1), `-q`). Nothing is started or
//! changed.
#![tactic(auto)]

mod asking;
mod result;

pub use asking::query;
pub use result::{QueryEnd, QueryResult};
