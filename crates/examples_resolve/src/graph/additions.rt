//! What adding packages makes of graphs.
ghost use Rattle.examples_resolve.specs.graph.Gates.{ExamplesOfGates};
ghost use Rattle.examples_resolve.specs.graph.IncludedWorlds.{ExamplesOfIncludedWorlds};
ghost use Rattle.examples_resolve.specs.graph.Includes.{ExamplesOfIncluded, ExamplesOfIncludes};
ghost use Rattle.examples_resolve.specs.graph.Pushes.{ExamplesOfPushes, ExamplesOfSpans};
ghost use Rattle.examples_resolve.specs.graph.Values.{ExamplesOfValues};
ghost use Rattle.examples_resolve.specs.graph.Worked.{ExamplesOfWorked};

/// Gates that let their items be active, and gates that are asked.
pub fn examples_of_gates()
    ensures { ExamplesOfGates }
{}

/// Packages that are added to a graph, and what adding them isn't.
pub fn examples_of_pushes()
    ensures { ExamplesOfPushes }
{}

/// All spans of packages.
pub fn examples_of_spans()
    ensures { ExamplesOfSpans }
{}

/// What leads to a resource, and what becomes an `own`.
pub fn examples_of_values()
    ensures { ExamplesOfValues }
{}

/// Stabilities that are joined, labels that are there already, and what is copied.
pub fn examples_of_includes()
    ensures { ExamplesOfIncludes }
{}

/// A world that includes another with a type under a new name, and what isn't that.
pub fn examples_of_included()
    ensures { ExamplesOfIncluded }
{}

/// Whole graphs to which a world has come that includes another.
pub fn examples_of_included_worlds()
    ensures { ExamplesOfIncludedWorlds }
{}

/// Worked packages, and the whole graphs that they make.
pub fn examples_of_worked()
    ensures { ExamplesOfWorked }
{}
