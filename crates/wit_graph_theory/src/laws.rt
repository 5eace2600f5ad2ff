//! Laws of the definitions: the contract of each function is what is proved.
ghost use Rattle.wit_graph_theory.specs.laws.IdTexts.{IdTextsDiffer};
ghost use Rattle.wit_graph_theory.specs.facts.LawsOfElaboration.{LawsOfElaboration};
ghost use Rattle.wit_graph_theory.specs.laws.PackageCycles.{PackagesStayAcyclic};
ghost use Rattle.wit_graph_theory.specs.laws.Theory.{CoveredGraphsAreValid};

use wit_elaboration::laws::{
    conflicts_are_refused, elaborated_entries, elaborated_once, elaborates_once,
    elaboration_is_local, export_keys_stay, imports_are_exact, imports_are_least, labels_stay,
};

/// A graph whose things all come from good sources that stand in it is valid, where its tables and
/// what is about the whole are in order.
pub fn covered_graphs_are_valid()
    ensures { CoveredGraphsAreValid }
{}

/// Elaborating the worlds of a graph makes no cycle of packages, where no interface comes back to
/// itself along its uses, aliases name what they may, interfaces are in the tables that they belong
/// in, what stands in worlds may stand there, and each world lists what the interfaces without
/// names in it use.
pub fn packages_stay_acyclic()
    ensures { PackagesStayAcyclic }
{
    elaborated_entries();
}

/// The laws of elaboration on which laws of the crates above stand, together.
pub fn laws_of_elaboration()
    ensures { LawsOfElaboration }
{
    elaborates_once();
    elaborated_entries();
    elaborated_once();
    labels_stay();
    imports_are_least();
    imports_are_exact();
    conflicts_are_refused();
    export_keys_stay();
    elaboration_is_local();
}

/// No two interfaces of a valid graph have one id text: `id_of` tells any two named interfaces apart.
pub fn id_texts_differ()
    ensures { IdTextsDiffer }
{}
