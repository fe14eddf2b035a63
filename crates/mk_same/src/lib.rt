//! That what is judged and explained by the same files is the same.
//!
//! No code stands here but the laws, each the contract of a function.
#![tactic(auto)]

mod law;

pub use law::{
    explanations_are_by_files, judgements_are_by_files, shown_nodes_are_explained,
    shown_runs_are_explained, task_names_are_by_their_answers, tasks_are_by_their_answers,
    tasks_part_at_questions,
};
