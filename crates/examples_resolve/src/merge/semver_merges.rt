//! Worked graphs: what semver merging makes of them, and what it doesn't.
ghost use Rattle.examples_resolve.specs.merge.SemverMergeExamples.{ExamplesOfSemverMerges, ExamplesOfRules};
ghost use Rattle.examples_resolve.specs.merge.TrackExamples.{ExamplesOfTracks};

/// Worlds that import several versions, among them all worked rows.
pub fn examples_of_semver_merges()
    ensures { ExamplesOfSemverMerges }
{}

/// Pre-releases under both rules of tracks.
pub fn examples_of_rules()
    ensures { ExamplesOfRules }
{}

/// What is on one track, and which uses follow.
pub fn examples_of_tracks()
    ensures { ExamplesOfTracks }
{}
