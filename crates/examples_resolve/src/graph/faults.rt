//! Examples of where packages lack their shape.
ghost use Rattle.examples_resolve.specs.graph.Faults.{ExamplesOfFaults, NearMissesOfFaults};

/// The first faults of packages that break a clause or two.
pub fn examples_of_faults()
    ensures { ExamplesOfFaults }
{}

/// Faults that aren't the first ones of these packages.
pub fn near_misses_of_faults()
    ensures { NearMissesOfFaults }
{}
