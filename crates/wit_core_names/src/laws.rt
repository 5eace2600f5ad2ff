//! Examples of the definitions: the function has no body, and its contract is what is proved.
ghost use Rattle.wit_core_names.specs.examples.Examples.{ExamplesOfNames};

/// A small graph: what its functions and resources are called in core wasm, and what has no name.
pub fn examples_of_names()
    ensures { ExamplesOfNames }
{}
