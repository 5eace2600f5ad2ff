//! Examples of what things are as JSON, and of what they are read from.
ghost use Rattle.examples_json.specs.values.Details.{ExamplesOfDetails, ExamplesOfWholes};
ghost use Rattle.examples_json.specs.values.Gates.{ExamplesOfGates};
ghost use Rattle.examples_json.specs.values.Functions.{ExamplesOfFunctions};
ghost use Rattle.examples_json.specs.values.Graphs.{ExamplesOfGraphs};
ghost use Rattle.examples_json.specs.values.News.{ExamplesOfNews};
ghost use Rattle.examples_json.specs.values.ReadTypes.{ExamplesOfReadFunctions, ExamplesOfReadKinds, ExamplesOfReadTypes};
ghost use Rattle.examples_json.specs.values.ReadValues.{ExamplesOfReadGates, ExamplesOfReadValues};
ghost use Rattle.examples_json.specs.values.ReadCommands.{ExamplesOfReadChanges, ExamplesOfReadQuestions};
ghost use Rattle.examples_json.specs.values.ReadGraphs.{ExamplesOfReadDetails, ExamplesOfReadGraphs, ExamplesOfReadResolves};
ghost use Rattle.examples_json.specs.values.ReadWorlds.{ExamplesOfReadPackages, ExamplesOfReadWorlds};
ghost use Rattle.examples_json.specs.values.Refusals.{ExamplesOfRefusals};
ghost use Rattle.examples_json.specs.values.Types.{ExamplesOfKinds, ExamplesOfTypes};
ghost use Rattle.examples_json.specs.values.Worlds.{ExamplesOfInterfaces, ExamplesOfWorlds};
ghost use Rattle.examples_json.specs.values.Stops.{ExamplesOfStops};

/// Docs, and gates with and without deprecations.
pub fn examples_of_gates()
    ensures { ExamplesOfGates }
{}

/// What values are of, owners, and whole types.
pub fn examples_of_types()
    ensures { ExamplesOfTypes }
{}

/// Each kind of type.
pub fn examples_of_kinds()
    ensures { ExamplesOfKinds }
{}

/// Each kind of function, and a whole function.
pub fn examples_of_functions()
    ensures { ExamplesOfFunctions }
{}

/// Interfaces.
pub fn examples_of_interfaces()
    ensures { ExamplesOfInterfaces }
{}

/// The entries of worlds, and whole worlds.
pub fn examples_of_worlds()
    ensures { ExamplesOfWorlds }
{}

/// Packages and whole graphs.
pub fn examples_of_graphs()
    ensures { ExamplesOfGraphs }
{}

/// What the layout leaves out.
pub fn examples_of_details()
    ensures { ExamplesOfDetails }
{}

/// Features, files, and a graph with all that stands beside it.
pub fn examples_of_wholes()
    ensures { ExamplesOfWholes }
{}

/// What is new of such a graph.
pub fn examples_of_news()
    ensures { ExamplesOfNews }
{}

/// Refusals.
pub fn examples_of_refusals()
    ensures { ExamplesOfRefusals }
{}

/// What texts, numbers, versions and lists are read from, and their faults.
pub fn examples_of_read_values()
    ensures { ExamplesOfReadValues }
{}

/// What spans, docs and gates are read from.
pub fn examples_of_read_gates()
    ensures { ExamplesOfReadGates }
{}

/// What types are read from.
pub fn examples_of_read_types()
    ensures { ExamplesOfReadTypes }
{}

/// What each kind of type is read from.
pub fn examples_of_read_kinds()
    ensures { ExamplesOfReadKinds }
{}

/// What functions are read from.
pub fn examples_of_read_functions()
    ensures { ExamplesOfReadFunctions }
{}

/// What interfaces and worlds are read from.
pub fn examples_of_read_worlds()
    ensures { ExamplesOfReadWorlds }
{}

/// What names of packages, foreign names, packages and files are read from.
pub fn examples_of_read_packages()
    ensures { ExamplesOfReadPackages }
{}

/// What graphs, features and rules of tracks are read from.
pub fn examples_of_read_graphs()
    ensures { ExamplesOfReadGraphs }
{}

/// What the details of a graph are read from.
pub fn examples_of_read_details()
    ensures { ExamplesOfReadDetails }
{}

/// What the parts of a `Resolve` are read from.
pub fn examples_of_read_resolves()
    ensures { ExamplesOfReadResolves }
{}

/// What changes of a graph are read from.
pub fn examples_of_read_changes()
    ensures { ExamplesOfReadChanges }
{}

/// What questions and documents are read from.
pub fn examples_of_read_questions()
    ensures { ExamplesOfReadQuestions }
{}

/// Where texts stop being JSON.
pub fn examples_of_stops()
    ensures { ExamplesOfStops }
{}
