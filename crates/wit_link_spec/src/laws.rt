//! Laws of adding: the contract of each function is what is proved.
ghost use Rattle.wit_link_spec.specs.laws.IncludingLaws.{CopiesAreExact, IncludesStand};
ghost use Rattle.wit_link_spec.specs.laws.StageFacts.{IncludedAreThere, IncludesCanBe, PushesStayValid, WorldsCanBe};

use wit_graph_theory::laws::laws_of_elaboration;

/// A valid graph to which a package is added whose worlds are accepted is valid.
pub fn pushes_stay_valid()
    ensures { PushesStayValid }
{
    laws_of_elaboration();
}

/// A partially linked graph into which a world is included stays partially linked.
pub fn includes_stand()
    ensures { IncludesStand }
{}

/// What an include copies are the types that belong to the included world, and those without a name on a way from what
/// one of its entries names to what belongs to it.
pub fn copies_are_exact()
    ensures { CopiesAreExact }
{}

/// Before each include that is reached the graph is partially linked, and the world that is included is good.
pub fn includes_can_be()
    ensures { IncludesCanBe }
{
    laws_of_elaboration();
}

/// Before a world that is reached is finished the graph is partially linked, and its lists are in order.
pub fn worlds_can_be()
    ensures { WorldsCanBe }
{
    laws_of_elaboration();
}

/// The world that an include names is there when its turn comes.
pub fn included_are_there()
    ensures { IncludedAreThere }
{}
