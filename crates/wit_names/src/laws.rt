//! What the definitions say of what the code computes and of small examples. The functions without a body
//! have a contract alone, which is what is proved.
ghost use Rattle.std.specs.Prelude.{◌≡◌};
ghost use Rattle.wit_names.specs.PackageName.{package_cmp, same_package};
ghost use Rattle.wit_names.specs.examples.TrackExamples.{ExamplesOfTracks};

use crate::package_name::PackageName;
use std::cmp::Ordering;

/// Names of packages are ordered by `package_cmp`.
pub fn packages_are_ordered(a: &PackageName, b: &PackageName) -> Ordering
    ensures { result ≡ package_cmp a.now b.now }
{
    a.cmp(b)
}

/// Names of packages are equal by `same_package`.
pub fn packages_are_compared(a: &PackageName, b: &PackageName) -> bool
    ensures { result ≡ same_package a.now b.now }
{
    a == b
}

/// The tracks of some versions.
pub fn examples_of_tracks()
    ensures { ExamplesOfTracks }
{}
