//! Why the nodes of a plan are out of date, a line a reason, in plan order. Make looks at files,
//! starts nothing, and changes nothing.
//!
//! A node with commands is judged as in a build, by the whole test (`mk_decision`). What has a
//! reason counts from then on as new for the nodes that are made from it, as it would be made
//! before them.
//!
//! A line is the node's name, a space, and one of these, and ends with a newline:
//!
//! | Reason | Line |
//! |---|---|
//! | `Always`, `Missing`, `NoMeta`, `NoRecords` | `always`, `missing`, `no meta`, `no records` |
//! | `Newer(i)` | `newer S A B`: source i, its age, and the time of the target |
//! | `Touched` | `touched A B`: the times of the target and of its meta file |
//! | `Command` | `directory` where it differs; else `exports` where these do; else `lines A B`, the old and the new number of lines, where it differs; else `command L`, and on two lines of their own `- ` with the old text and `+ ` with the new text of line L, the first compared one that differs |
//! | `Read(i)` | `read P A B`: path i of those that the job found outside, its time, and the job's stamp |
//! | `Appeared(i)`, `Left(i)` | `appeared P`, `left P`: path i of those that it missed, that it left written |
//!
//! A time is a decimal number, `missing` or `unknown`. An age is a time, or `new`; one that is
//! older than every target, which no line names, would be `old`. The text of an ignored line has a
//! `-` before it. In names, texts and paths a backslash is written `\\` and a newline `\n`.
#![tactic(auto)]

mod change;
mod fault;
mod law;
mod line;
mod piece;
mod reason;
mod walk;

pub use fault::ExplainFault;
pub use law::reasons_count_as_new;
pub use reason::{Reason, Reasons};
pub use walk::explain;
