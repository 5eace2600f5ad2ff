//! Why imports aren't merged by tracks, and graphs that just lack the reason.
ghost use Rattle.examples_resolve.specs.merge.AcceptedExamples.{ExamplesOfAccepted};
ghost use Rattle.examples_resolve.specs.merge.CauseExamples.{ExamplesOfCauses, ExamplesOfMismatches};
ghost use Rattle.examples_resolve.specs.merge.SemverTwoReasons.{ExamplesOfTwoReasons};

/// For each reason a graph that has it, and one that lacks it and is accepted.
pub fn examples_of_causes()
    ensures { ExamplesOfCauses }
{}

/// Functions of one name that disagree, and that don't.
pub fn examples_of_mismatches()
    ensures { ExamplesOfMismatches }
{}

/// Merges against which no cause holds.
pub fn examples_of_accepted()
    ensures { ExamplesOfAccepted }
{}

/// Two reasons at once: both told, or one that spoils the other.
pub fn examples_of_two_reasons()
    ensures { ExamplesOfTwoReasons }
{}
