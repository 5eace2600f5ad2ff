//! Laws of runs and of semver merging, and examples of the definitions: the contract of each function is what is proved.
ghost use Rattle.wit_resolve_graph.specs.examples.Examples.{ExamplesOfRuns, ExamplesOfSelection};
ghost use Rattle.wit_resolve_graph.specs.examples.FilesExamples.{ExamplesOfFiles};
ghost use Rattle.wit_resolve_graph.specs.examples.SourceNamesExamples.{ExamplesOfNames};
ghost use Rattle.wit_resolve_graph.specs.examples.SourcesExamples.{ExamplesOfSources};
ghost use Rattle.wit_resolve_graph.specs.laws.RunLaws.{AdditionsKeep, AdditionsStayInOrder, GroupsKeep, GroupsStayInOrder, MergesKeep, MergesStayInOrder, RunsKeep, RunsStayInOrder, SemverMergesKeep, SemverMergesStayInOrder, SourcesKeep, SourcesStayInOrder, TransformationsKeep, TransformationsStayInOrder};
ghost use Rattle.wit_resolve_graph.specs.laws.SemverLaws.{CallIsExact, CommandIsExact};

use crate::resolve::Resolve;
use wit_semver::laws::{keys_are_exact, semver_merges_keep};

/// What was there before a run is there after it, with the same ids.
pub fn runs_keep()
    ensures { RunsKeep }
{
    semver_merges_keep();
}

/// What was there before a call that changes the graph is there after it, with the same ids: a package, groups of
/// packages or a parsed source are added, a world is transformed by whatever filter, a graph is merged into it, or the
/// imports of a world are merged by a rule of tracks.
pub fn calls_keep()
    ensures additions { AdditionsKeep }
    ensures groups { GroupsKeep }
    ensures sources { SourcesKeep }
    ensures transformations { TransformationsKeep }
    ensures merges { MergesKeep }
    ensures semver_merges { SemverMergesKeep }
{
    semver_merges_keep();
}

/// Where the names of packages stand in the order of the packages, as in a new graph, and in those that are merged into
/// it, a run leaves them so.
pub fn runs_stay_in_order()
    ensures { RunsStayInOrder }
{
    semver_merges_keep();
}

/// So does each call that changes the graph.
pub fn calls_stay_in_order()
    ensures additions { AdditionsStayInOrder }
    ensures groups { GroupsStayInOrder }
    ensures sources { SourcesStayInOrder }
    ensures transformations { TransformationsStayInOrder }
    ensures merges { MergesStayInOrder }
    ensures semver_merges { SemverMergesStayInOrder }
{
    semver_merges_keep();
}

/// After semver merging, by the rule of tracks that is in force, a world imports exactly the former interfaces less
/// the replaced: by the command `Semver`, and by `merge_world_imports_based_on_semver`, whose clauses `ok` and
/// `refuses` say that it makes this graph where no cause holds.
pub fn semver_is_exact(resolve: &Resolve)
    ensures command { CommandIsExact resolve.now }
    ensures call { CallIsExact resolve.now }
{
    resolve.graph();
    keys_are_exact();
    semver_merges_keep();
}

/// Worlds that are chosen, and what is said where none is.
pub fn examples_of_selection()
    ensures { ExamplesOfSelection }
{}

/// Short runs, and what no run does.
pub fn examples_of_runs()
    ensures { ExamplesOfRuns }
{}

/// Of a source that can't be read after one that is there.
pub fn examples_of_sources()
    ensures { ExamplesOfSources }
{}

/// Files that fit behind others up to the last position.
pub fn examples_of_files()
    ensures { ExamplesOfFiles }
{}

/// The names of the sources of two packages.
pub fn examples_of_names()
    ensures { ExamplesOfNames }
{}
