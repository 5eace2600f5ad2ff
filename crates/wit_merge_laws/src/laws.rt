//! Laws of merging: the contract of each function is what is proved.
ghost use Rattle.wit_merge_laws.specs.laws.BorrowLaws.{MergesMakeNoBorrow};
ghost use Rattle.wit_merge_laws.specs.laws.CopyLaws.{AcceptedCopiesChangeNothing, CopiesAreRefusedFor, CopiesGoToThemselves, EmptyBecomesAlike, EmptyKeepsIds};
ghost use Rattle.wit_merge_laws.specs.laws.GrowingLaws.{BorrowsCome, FunctionsCome, GrowthIsAccepted, JoinedIsGrown, LeftByMatches, NewWorldsAreSound, NothingNewIsCyclic, OldWorldsStay, MergesGrow, UsesGrow};
ghost use Rattle.wit_merge_laws.specs.laws.MergingLaws.{NothingComes, SharedWorldsKeepImports, MergesHaveBothNames, MergesStayValid};
ghost use Rattle.wit_merge_laws.specs.laws.OrderLaws.{AgreementIsSymmetric, EitherOrderElaborates, MergesAreAlike, MergingIsOrderFree, ResourcesStay};

use wit_elaboration::laws::examples_of_validity;
use wit_graph_theory::laws::laws_of_elaboration;

/// Where an empty graph goes into a valid one, no cause holds against it, and nothing changes.
pub fn nothing_comes()
    ensures { NothingComes }
{}

/// What merging makes of two valid graphs is valid, where no cause holds against the merge.
pub fn merges_stay_valid()
    ensures { MergesStayValid }
{
    laws_of_elaboration();
}

/// Where no cause holds against the merge, what merging makes of two valid graphs has the names of both, and no others.
pub fn merges_have_both_names()
    ensures { MergesHaveBothNames }
{
    laws_of_elaboration();
}

/// Where no cause holds against the merge, a world that both valid graphs have imports the same interfaces under
/// their own keys in both, and in what is made of them.
pub fn shared_worlds_keep_imports()
    ensures { SharedWorldsKeepImports }
{
    laws_of_elaboration();
}

/// Where nothing differs between two valid graphs one way, nothing differs the other way.
pub fn agreement_is_symmetric()
    ensures { AgreementIsSymmetric }
{}

/// Where two valid graphs can be merged in either order, both orders give the same names, the same sorts under labels,
/// and each world the same labels and keys.
pub fn merges_are_alike()
    ensures { MergesAreAlike }
{
    laws_of_elaboration();
}

/// So they do where two valid graphs agree, and in their merged graph no interface would use itself and no world is in conflict.
pub fn merging_is_order_free()
    ensures { MergingIsOrderFree }
{
    laws_of_elaboration();
}

/// Where two valid graphs agree, their merged graph in the one order has no interface that uses itself and no world in conflict
/// if that in the other order has none.
pub fn either_order_elaborates()
    ensures { EitherOrderElaborates }
{}

/// A type that leads to a resource in one of two valid graphs that agree leads to one in what merging makes of them.
pub fn resources_stay()
    ensures { ResourcesStay }
{}

/// A merge of two valid graphs that agree refuses a result that holds a borrow only where one of the incoming graph's
/// functions returns a borrow itself.
pub fn merges_make_no_borrow()
    ensures { MergesMakeNoBorrow }
{}

/// An empty graph into which a valid graph goes has its names, labels and keys.
pub fn empty_becomes_alike()
    ensures { EmptyBecomesAlike }
{
    examples_of_validity();
    laws_of_elaboration();
}

/// What goes into an empty graph keeps its ids, its packages and what stands in their tables.
pub fn empty_keeps_ids()
    ensures { EmptyKeepsIds }
{}

/// A copy of a valid graph goes into it thing by thing: what has a name is where its copy goes, and nothing that was there
/// changes.
pub fn copies_go_to_themselves()
    ensures { CopiesGoToThemselves }
{}

/// Where no cause holds against the merge of a valid graph with a copy of it, the graph keeps its names and its worlds.
pub fn accepted_copies_change_nothing()
    ensures { AcceptedCopiesChangeNothing }
{
    laws_of_elaboration();
}

/// Only a borrow in a result (15) and a position that is too large (27) refuse the merge of a valid graph with a copy of it.
pub fn copies_are_refused_for()
    ensures { CopiesAreRefusedFor }
{
    laws_of_elaboration();
}

/// A merge in which what is matched leaves its counterpart as it is leaves all that the graph has as it is.
pub fn left_by_matches()
    ensures { LeftByMatches }
{}

/// Then what comes stands behind what was there.
pub fn joined_is_grown()
    ensures { JoinedIsGrown }
{}

/// Then the interfaces that were there use what they used.
pub fn uses_grow()
    ensures { UsesGrow }
{}

/// Then no type refers to itself, no interface uses itself and no package depends on itself, where both graphs are valid
/// and agree.
pub fn nothing_new_is_cyclic()
    ensures { NothingNewIsCyclic }
{}

/// Then each world that was there is its own elaboration, and in no conflict.
pub fn old_worlds_stay()
    ensures { OldWorldsStay }
{
    laws_of_elaboration();
}

/// A world that comes can be elaborated, where both graphs are valid and agree.
pub fn new_worlds_are_sound()
    ensures { NewWorldsAreSound }
{}

/// Then the functions that move are those of the interfaces and of the worlds that come.
pub fn functions_come()
    ensures { FunctionsCome }
{}

/// Then a merge refuses a result that holds a borrow exactly where one of these functions returns one.
pub fn borrows_come()
    ensures { BorrowsCome }
{}

/// Then only the worlds that come are elaborated, and only they can be in conflict.
pub fn merges_grow()
    ensures { MergesGrow }
{
    laws_of_elaboration();
}

/// Then no cause holds where stabilities can be joined and spans be moved, no function that comes returns a borrow, and no
/// world that comes is in conflict.
pub fn accepted_growth()
    ensures { GrowthIsAccepted }
{
    laws_of_elaboration();
}
