//! Examples of the shape of unresolved packages.
ghost use Rattle.wit_data.specs.Shape.{IsShaped};
ghost use Rattle.examples_resolve.specs.graph.Shape.{NearMissesOfShape, shaped_package};

/// A package has the shape.
pub fn examples_of_shape()
    ensures { IsShaped shaped_package }
{}

/// Packages that differ from it in one place lack one part of the shape each.
pub fn near_misses_of_shape()
    ensures { NearMissesOfShape }
{}
