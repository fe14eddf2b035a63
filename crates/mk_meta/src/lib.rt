//! Meta files: what a target was made with, as make(1), "META MODE", keeps it, in this project's
//! own form.
//!
//! A meta file has these lines, in this order. Each ends with a newline.
//!
//! | Line | What it is |
//! |---|---|
//! | `# Meta data file T.meta` | T is the target |
//! | `STAMP n` | the time at which the job began |
//! | `CMD f` | one for each command line; a `-` before the text where its status is ignored |
//! | `CWD d` | the directory of the commands |
//! | `ENV name=value` | one for each exported variable, sorted by names |
//! | `TARGET t` | the target |
//! | `OUTPUT n` | how many bytes the output has |
//! | `-- command output --` | then the output as it is, and a newline |
//! | `-- filemon acquired metadata --` | where there are records: then one on each line |
//! | `# end 3` | the last line |
//!
//! Numbers are decimal without leading zeros. In texts a backslash is written `\\` and a newline
//! `\n`. Each value has one text, and no such text is the beginning of another one.
#![tactic(auto)]

mod law;
mod line;
mod lines;
mod meta;
mod reading;
mod writing;

pub use law::{jobs_are_lawful, no_text_begins_another, nothing_to_tell, the_head_is_no_text};
pub use line::is_export_name;
pub use meta::Meta;
pub use reading::read_meta;
pub use writing::{head, meta_path, write_meta};
