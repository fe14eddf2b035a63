//! Whether a target is out of date, and why: by times, and in meta mode by its meta file (make(1),
//! "META MODE").
//!
//! The reason is the first of these that holds:
//!
//! 1. `Always`: the node is made whatever stands there.
//! 2. `Missing`: its file is missing.
//! 3. `Newer(i)`: source i, the first such, is new or strictly newer than the target.
//! 4. `NoMeta`: there is no meta file of this target, and there must be one. Without one, the rest
//!    is not asked.
//! 5. `Touched`: the target is not older than its meta file.
//! 6. `Command`: the exported variables differ, or the commands, where they count. Where only the
//!    number of commands counts, their directory and texts do not.
//! 7. `NoRecords`: the meta file has no records, and they must be there. Without records, the rest
//!    is not asked.
//! 8. `Read(i)`: what the job found outside is gone, or was not changed before the job began.
//! 9. `Appeared(i)`: what the job missed is there.
//! 10. `Left(i)`: what the job left written is missing.
//!
//! Parts 4 to 10 count in meta mode alone, and 7 to 10 only where records count. An unknown time
//! counts as later than all.
#![tactic(auto)]

mod decision;
mod law;
mod lists;
mod reason;
mod same;

pub use decision::{is_newer, stale};
pub use law::no_reason_is_fresh;
pub use lists::looked_at;
pub use reason::{Age, Ages, NodeMode, Times, Whens, Why};
pub use same::{same_exports, same_line};
