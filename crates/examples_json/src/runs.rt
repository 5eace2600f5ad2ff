//! Examples of what is answered to the commands of JSON documents.
ghost use Rattle.examples_json.specs.runs.Answers.{ExamplesOfAnswers, ExamplesOfDocuments};
ghost use Rattle.examples_json.specs.runs.Changes.{ExamplesOfChanges};
ghost use Rattle.examples_json.specs.runs.Questions.{ExamplesOfCoreNames, ExamplesOfQuestions, ExamplesOfRefusedQuestions};
ghost use Rattle.examples_json.specs.runs.Refusals.{ExamplesOfRefusedData};
ghost use Rattle.examples_json.specs.runs.Ways.{ExamplesOfWays};

/// Each sort of answer.
pub fn examples_of_answers()
    ensures { ExamplesOfAnswers }
{}

/// Refusals as data.
pub fn examples_of_refused_data()
    ensures { ExamplesOfRefusedData }
{}

/// The documents that come out.
pub fn examples_of_documents()
    ensures { ExamplesOfDocuments }
{}

/// What is answered to questions.
pub fn examples_of_questions()
    ensures { ExamplesOfQuestions }
{}

/// What is answered to a question for which memory was refused.
pub fn examples_of_refused_questions()
    ensures { ExamplesOfRefusedQuestions }
{}

/// The names of the functions of a world.
pub fn examples_of_core_names()
    ensures { ExamplesOfCoreNames }
{}

/// What is done with changes, and what a document begins with.
pub fn examples_of_changes()
    ensures { ExamplesOfChanges }
{}

/// What leads where, and ways.
pub fn examples_of_ways()
    ensures { ExamplesOfWays }
{}
