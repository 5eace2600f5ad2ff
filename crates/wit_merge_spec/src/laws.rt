//! Laws of the definitions: each function has no body, and its contract is what is proved.
ghost use Rattle.wit_merge_spec.specs.examples.StructureExamples.{ExamplesOfHeads, ExamplesOfParts, ExamplesOfTypes, ExamplesOfVariants};

/// The worked examples.
pub fn examples_of_structure()
    ensures variants { ExamplesOfVariants }
    ensures heads { ExamplesOfHeads }
    ensures parts { ExamplesOfParts }
    ensures types { ExamplesOfTypes }
{}
