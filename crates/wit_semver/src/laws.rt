//! Laws of semver merging: the contract of each function is what is proved.
ghost use Rattle.wit_semver.specs.laws.TrackLaws.{AliasesKeepNames, AliasesNameNewest, ExportsAreKept, KeysAreExact, LabelsAreKept, NewestIsGreatest, OneOnEachTrack, SemverMergedKeep, SemverMergesStayValid, SameTypesKeepWorlds, SemverMergesOnce, WorldsAreElaborated};

use wit_elaboration::laws::imports_keep_order;
use wit_graph_theory::laws::laws_of_elaboration;

/// What stands for a replaced interface is the greatest import on its track.
pub fn newest_is_greatest()
    ensures { NewestIsGreatest }
{}

/// Where no cause holds against semver merging in a valid graph, the interfaces that the world then imports under
/// their own keys are the former ones less the replaced.
pub fn keys_are_exact()
    ensures { KeysAreExact }
{
    laws_of_elaboration();
}

/// No two interfaces that it then imports under their own keys are on one track.
pub fn one_on_each_track()
    ensures { OneOnEachTrack }
{
    laws_of_elaboration();
}

/// The imports of the world under labels stay as they were.
pub fn labels_are_kept()
    ensures { LabelsAreKept }
{
    laws_of_elaboration();
}

/// The keys of the exports of the world stay.
pub fn exports_are_kept()
    ensures { ExportsAreKept }
{
    laws_of_elaboration();
}

/// A valid graph whose imports are merged by tracks is valid, where no cause holds against it.
pub fn semver_merges_stay_valid()
    ensures { SemverMergesStayValid }
{
    laws_of_elaboration();
}

/// Where each type of a valid graph names what it named and no function disagrees, no cause holds against semver merging,
/// and all stays but the imports of the world, of which the replaced go.
pub fn same_types_keep_worlds()
    ensures { SameTypesKeepWorlds }
{
    laws_of_elaboration();
    imports_keep_order();
}

/// After semver merging each world is the elaboration of its list: of the named one its list less the replaced, of
/// each other its former one.
pub fn worlds_are_elaborated()
    ensures { WorldsAreElaborated }
{
    laws_of_elaboration();
}

/// Where no cause holds against semver merging in a valid graph, none holds against a second one of the same world by
/// the same rule, and it changes nothing.
pub fn semver_merges_once()
    ensures { SemverMergesOnce }
{
    laws_of_elaboration();
    imports_keep_order();
}

/// Everything of a graph is there after semver merging at its id; of types only what aliases name may have changed.
pub fn semver_merges_keep()
    ensures { SemverMergedKeep }
{}

/// What an alias of a valid graph comes to name has the name of what it named.
pub fn aliases_keep_names()
    ensures { AliasesKeepNames }
{}

/// An alias that follows a replaced interface comes to name the newest's type of the name of what it named.
pub fn aliases_name_newest()
    ensures { AliasesNameNewest }
{}
