//! What tasks, judgements and explanations are by.
ghost use Rattle.mk_same.specs.Answered.{TaskNamesAreByAnswers, TasksAreByAnswers};
ghost use Rattle.mk_same.specs.Answered.{TasksPartAtQuestions};
ghost use Rattle.mk_same.specs.Judged.{ExplanationsAreByFiles, JudgementsAreByFiles};
ghost use Rattle.mk_same.specs.Shown.{ShownAreExplained};
ghost use Rattle.mk_same.specs.ShownRuns.{ShownRunsAreExplained};

/// The task of a node is by the answers to the paths that its commands ask `exists` of, and by no
/// others.
pub fn tasks_are_by_their_answers()
    ensures { TasksAreByAnswers }
{}

/// And so are the names that are looked up in it.
pub fn task_names_are_by_their_answers()
    ensures { TaskNamesAreByAnswers }
{}

/// And where the answers are any, two tasks of a node are the same up to a question that is
/// answered differently.
pub fn tasks_part_at_questions()
    ensures { TasksPartAtQuestions }
{}

/// Two judgements of a node by looks at the same files have the same task and the same reason to
/// make it, or none.
pub fn judgements_are_by_files()
    ensures { JudgementsAreByFiles }
{}

/// So `--explain` tells the same of the same files, whatever was looked at and in whatever order:
/// the nodes, their reasons and their lines.
pub fn explanations_are_by_files()
    ensures { ExplanationsAreByFiles }
{}

/// A dry run shows the nodes that `--explain` tells of, in the same order, where no line has a `+`.
pub fn shown_nodes_are_explained()
    ensures { ShownAreExplained }
{}

/// So a run with `-n` shows the targets that one with `--explain` on the same files tells of.
pub fn shown_runs_are_explained()
    ensures { ShownRunsAreExplained }
{}
