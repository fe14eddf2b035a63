//! What evaluations and readings are by.
ghost use Rattle.mk_answers.specs.Evaluations.{ValuesAreByAnswers};
ghost use Rattle.mk_answers.specs.OnFiles.{WorldsAreReadAsFiles};
ghost use Rattle.mk_answers.specs.Readings.{ReadingsPartAtQuestions};

/// What a tree or a condition gives is by the answers to the paths that it asks `exists` of, and by
/// no others.
pub fn values_are_by_their_answers()
    ensures { ValuesAreByAnswers }
{}

/// Two readings by any answers are the same, with the same acts, up to a question that is answered
/// differently.
pub fn readings_part_at_questions()
    ensures { ReadingsPartAtQuestions }
{}

/// Where the commands of a reading change no file, the world is read as the files that stand at the
/// beginning, as far as the reading came.
pub fn worlds_are_read_as_files()
    ensures { WorldsAreReadAsFiles }
{}
