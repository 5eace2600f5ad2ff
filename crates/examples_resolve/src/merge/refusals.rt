//! Why two graphs can't be merged, and graphs that just lack the reason.
ghost use Rattle.examples_resolve.specs.merge.Pairs.{ExamplesOfPairs};
ghost use Rattle.examples_resolve.specs.merge.Refusals.{ExamplesOfAccepted, ExamplesOfMismatches, ExamplesOfRefusals};
ghost use Rattle.examples_resolve.specs.merge.Stabilities.{ExamplesOfStabilities};
ghost use Rattle.examples_resolve.specs.merge.TwoReasons.{ExamplesOfTwoReasons};

/// Matched things that differ, and what is told; and things that don't.
pub fn examples_of_mismatches()
    ensures { ExamplesOfMismatches }
{}

/// Types that are compared, in which order, and which of them is told.
pub fn examples_of_pairs()
    ensures { ExamplesOfPairs }
{}

/// Stabilities that are joined, and that disagree.
pub fn examples_of_stabilities()
    ensures { ExamplesOfStabilities }
{}

/// The other reasons.
pub fn examples_of_refusals()
    ensures { ExamplesOfRefusals }
{}

/// Two reasons at once: both told, or one that spoils the other.
pub fn examples_of_two_reasons()
    ensures { ExamplesOfTwoReasons }
{}

/// Merges against which no cause holds.
pub fn examples_of_accepted()
    ensures { ExamplesOfAccepted }
{}
