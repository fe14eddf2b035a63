//! Bytes that many parts of a build share: the names of nodes, and the texts of one expansion.
//!
//! A [`Pool`] gives equal bytes one [`Name`], so that names are compared in place of bytes.
//! Contracts see it as the list of the texts that it holds. A [`Region`] holds texts one after the
//! other, each known by its [`Piece`]. Contracts see its bytes and the room that is left.
#![tactic(auto)]

mod fault;
mod pool;
mod region;

pub use fault::PoolFault;
pub use pool::{MAX_NAMES, Name, Pool};
pub use region::{Piece, Region};
