//! Reading of makefiles: from their bytes to variables and the graph (make(1)).
#![tactic(auto)]

mod asking;
mod block;
mod export;
mod inclusion;
mod language;
mod law;
mod message;
mod order;
mod reader;
mod reading;
mod step;
mod variable;
mod wildcard;

pub use law::readings_of_maps;
pub use mk_makefile::{ReadFault, What, turns_keep_kinds};
pub use reading::read;
