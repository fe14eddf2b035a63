//! The directories that are searched for files (NetBSD make(1), `.PATH`): at which place a name
//! stands.
#![tactic(auto)]

mod fault;
mod law;
mod places;

pub use fault::DirFault;
pub use law::without_directories_names_stand_for_themselves;
pub use places::place;
