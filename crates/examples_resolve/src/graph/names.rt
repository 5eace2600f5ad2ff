//! What things are called: tracks of versions, canonical names, external ids, and errors with two spans.
ghost use Rattle.examples_resolve.specs.graph.CanonicalNames.{ExamplesOfCanonicalNames, ExamplesOfSuffixes};
ghost use Rattle.examples_resolve.specs.graph.ExternalIds.{ExamplesOfExternalIds};
ghost use Rattle.examples_resolve.specs.graph.TwoPlaces.{ExamplesOfTwoPlaces};
ghost use Rattle.examples_resolve.specs.graph.VersionTracks.{NearMissesOfTrackTexts, NearMissesOfTracks};

/// Versions that are on one track, and versions that aren't.
pub fn near_misses_of_tracks()
    ensures { NearMissesOfTracks }
{}

/// What the texts of tracks aren't, nor what remains of versions.
pub fn near_misses_of_track_texts()
    ensures { NearMissesOfTrackTexts }
{}

/// Canonical names of interfaces and keys.
pub fn examples_of_canonical_names()
    ensures { ExamplesOfCanonicalNames }
{}

/// What canonical names leave out of versions.
pub fn examples_of_suffixes()
    ensures { ExamplesOfSuffixes }
{}

/// External ids of entries of worlds.
pub fn examples_of_external_ids()
    ensures { ExamplesOfExternalIds }
{}

/// A package that is defined twice is told with both spans.
pub fn examples_of_two_places()
    ensures { ExamplesOfTwoPlaces }
{}
