//! Traces that strace writes, read into what processes did to files.
#![tactic(auto)]

mod act;
mod call;
mod family;
mod how;
mod kept;
mod line;
mod name;
mod quoted;
mod scan;
mod trace;

pub use act::{Act, Outcome, act_of, is_number};
pub use call::{Call, Form, form_of};
pub use family::lines_of;
pub use how::{How, Sort, how_of, sort_in};
pub use kept::Kept;
pub use line::{Kind, act_in, act_joined, kind_of, parts_of};
pub use name::{Name, name_at, open_in};
pub use quoted::unquoted;
pub use scan::{Mode, behind, cut, has, without_spaces};
pub use trace::{Event, Events, read_trace};
