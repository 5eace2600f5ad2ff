//! Examples of the definitions: the contract of each function is what is proved.
ghost use Rattle.wit_labels.specs.examples.Examples.{
  ExamplesOfClashes,
  ExamplesOfRenaming,
  ExamplesOfSetters,
};

/// Labels that a renaming is of and labels that it isn't of.
pub fn examples_of_renaming()
    ensures { ExamplesOfRenaming }
{}

/// Labels that clash and labels that don't.
pub fn examples_of_clashes()
    ensures { ExamplesOfClashes }
{}

/// What a setter is, and where setters go.
pub fn examples_of_setters()
    ensures { ExamplesOfSetters }
{}
