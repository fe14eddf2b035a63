//! What meta files tell of a project: who reads a file, what a target's job read, the graph of all
//! that was read, the compilations among the commands, and when jobs ran. Meta files and times go
//! in as values, and texts come out.
#![tactic(auto)]

mod command;
mod edge;
mod lane;
mod list;
mod look;
mod svg;
mod text;
mod timeline;

pub use command::database;
pub use edge::graph;
pub use lane::lanes;
pub use look::{looks, readers};
pub use svg::picture;
pub use text::lines_of;
pub use timeline::{Job, trace};
