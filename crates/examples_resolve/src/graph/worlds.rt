//! Why packages can't be added for a world of theirs, and packages that just lack the reason.
ghost use Rattle.examples_resolve.specs.graph.LaterWorlds.{ExamplesOfLaterWorlds};
ghost use Rattle.examples_resolve.specs.graph.WorldCauses.{
  ExamplesOfIncludedCauses,
  ExamplesOfWorldCauses,
};

/// Worlds alone, and worlds that include another.
pub fn examples_of_world_causes()
    ensures { ExamplesOfWorldCauses }
{}

/// The same among exports, and after an include.
pub fn examples_of_included_causes()
    ensures { ExamplesOfIncludedCauses }
{}

/// Worlds one after another, and packages without an image.
pub fn examples_of_later_worlds()
    ensures { ExamplesOfLaterWorlds }
{}
