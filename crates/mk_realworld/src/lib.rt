//! The world of real files and children, and the program's own standard output and standard error.
//!
//! They tell nothing of contents, so contracts say of them only that they count their faults, and
//! of a world that it holds the children that it was asked for. That real files, children and
//! streams behave as the laws of a world and a sink say is trusted.
#![tactic(auto)]

mod child;
mod child_files;
mod count;
mod file;
mod known;
mod late;
mod listing;
mod named;
mod output;
mod progress;
mod refusal;
mod room;
mod setting;
mod shell;
mod sink;
mod system;
mod waiting;
mod world;
mod write;

pub use child::RealKid;
pub use room::Place;
pub use setting::Setting;
pub use sink::RealSink;
pub use world::RealWorld;
