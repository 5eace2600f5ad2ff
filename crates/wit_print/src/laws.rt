//! What the definitions say of small graphs. The function has a contract alone, which is what is proved.
ghost use Rattle.wit_print.specs.examples.PrintExamples.{ExamplesOfTexts};

/// The texts of some packages.
pub fn examples_of_texts()
    ensures { ExamplesOfTexts }
{}
