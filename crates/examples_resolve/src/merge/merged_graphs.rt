//! What merging two graphs makes.
ghost use Rattle.examples_resolve.specs.merge.Copies.{ExamplesOfCopies};
ghost use Rattle.examples_resolve.specs.merge.MergedGraphs.{ExamplesOfMatches, ExamplesOfMergedGraphs};

/// Things that are matched, and where all things go.
pub fn examples_of_matches()
    ensures { ExamplesOfMatches }
{}

/// Whole graphs that are made of two, and what they aren't.
pub fn examples_of_merged_graphs()
    ensures { ExamplesOfMergedGraphs }
{}

/// What stays as it is with an empty graph, with a copy and with what changes nothing, and a copy that is refused.
pub fn examples_of_copies()
    ensures { ExamplesOfCopies }
{}
