//! What lines, packages and scripts say, what isn't understood, and what comes of commands and of sources.
ghost use Rattle.examples_resolve.specs.script.LineExamples.{ExamplesOfLines};
ghost use Rattle.examples_resolve.specs.script.MergeExamples.{ExamplesOfMerges, ExamplesOfRefusedMerges};
ghost use Rattle.examples_resolve.specs.script.OtherExamples.{ExamplesOfMergeLines, ExamplesOfOtherLines};
ghost use Rattle.examples_resolve.specs.script.PackageExamples.{ExamplesOfPackages};
ghost use Rattle.examples_resolve.specs.script.ScriptExamples.{ExamplesOfScripts};
ghost use Rattle.examples_resolve.specs.script.SourceExamples.{ExamplesOfNoSources, ExamplesOfParsed, ExamplesOfPushedSources, ExamplesOfRefusedSources};
ghost use Rattle.examples_resolve.specs.script.StepExamples.{ExamplesOfAnswers, ExamplesOfSteps};

use crate::merge::semver_causes::examples_of_causes;
use crate::merge::semver_merges::{examples_of_rules, examples_of_semver_merges};

/// What lines say by their tokens alone.
pub fn examples_of_lines()
    ensures { ExamplesOfLines }
{}

/// What the lines of packages make.
pub fn examples_of_packages()
    ensures { ExamplesOfPackages }
{}

/// Scripts and what they ask, and scripts that aren't understood.
pub fn examples_of_scripts()
    ensures { ExamplesOfScripts }
{}

/// Steps that set the rule of tracks or merge imports by it, and what no step does.
pub fn examples_of_steps()
    ensures { ExamplesOfSteps }
{
    examples_of_semver_merges();
    examples_of_rules();
    examples_of_causes();
}

/// What a script answers to them.
pub fn examples_of_answers()
    ensures { ExamplesOfAnswers }
{
    examples_of_semver_merges();
    examples_of_rules();
    examples_of_causes();
}

/// Steps in which another graph goes into one, and what they aren't.
pub fn examples_of_merges()
    ensures { ExamplesOfMerges }
{}

/// Steps in which it is refused, what is left then, and refusals without a reason.
pub fn examples_of_refused_merges()
    ensures { ExamplesOfRefusedMerges }
{}

/// What a script answers to `other`, and which graphs are there then.
pub fn examples_of_other_lines()
    ensures { ExamplesOfOtherLines }
{}

/// What it answers to `merge`, and which graphs are there then.
pub fn examples_of_merge_lines()
    ensures { ExamplesOfMergeLines }
{}

/// Files that no parse is given, and what is told of them.
pub fn examples_of_no_sources()
    ensures { ExamplesOfNoSources }
{}

/// What comes of what a parse answers.
pub fn examples_of_parsed()
    ensures { ExamplesOfParsed }
{}

/// Sources that are pushed with their parse, and what isn't pushed.
pub fn examples_of_pushed_sources()
    ensures { ExamplesOfPushedSources }
{}

/// Sources that are refused, and what is left then.
pub fn examples_of_refused_sources()
    ensures { ExamplesOfRefusedSources }
{}
