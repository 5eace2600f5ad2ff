//! Why packages can't be added, and packages that just lack the reason.
ghost use Rattle.examples_resolve.specs.graph.Causes.{ExamplesOfCauses, ExamplesOfNames};

/// Packages that are there already, or that name what isn't there.
pub fn examples_of_names()
    ensures { ExamplesOfNames }
{}

/// Gates, results and spans for which packages can't be added.
pub fn examples_of_causes()
    ensures { ExamplesOfCauses }
{}
