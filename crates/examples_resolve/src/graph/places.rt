//! Examples of positions in source texts, and that each is in one file.
ghost use Rattle.examples_resolve.specs.graph.OneFile.{HaveNoneInCommon};
ghost use Rattle.examples_resolve.specs.graph.Places.{ExamplesOfHighlights, ExamplesOfLocations, ExamplesOfShown};

/// Where spans begin, by files, lines and columns.
pub fn examples_of_locations()
    ensures { ExamplesOfLocations }
{}

/// What stands under spans.
pub fn examples_of_highlights()
    ensures { ExamplesOfHighlights }
{}

/// Places with their lines, and the beginnings of long ones.
pub fn examples_of_shown()
    ensures { ExamplesOfShown }
{}

/// The files of a source map have no position in common.
pub fn positions_are_of_one_file()
    ensures { HaveNoneInCommon }
{}
