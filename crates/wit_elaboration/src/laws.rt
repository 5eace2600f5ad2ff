//! Laws of elaboration, and examples of the definitions: each function has no body, and its contract is
//! what is proved.
//!
//! The laws are over uses along which no interface comes back to itself, and over worlds in which what
//! stands under the key of an interface is that interface and the interfaces of all entries are there.
ghost use Rattle.wit_elaboration.specs.examples.ElaborationExamples.{WorkedConflicts, WorkedElaborations};
ghost use Rattle.wit_elaboration.specs.laws.ElaborationLaws.{ConflictsAreRefused, ElaboratesOnce, ImportsAreExact, ImportsKeepOrder, OrderIsFree};
ghost use Rattle.wit_elaboration.specs.examples.Examples.{ExamplesOfQueries, ExamplesOfRelations, ExamplesOfValidity};
ghost use Rattle.wit_elaboration.specs.laws.KeptByElaboration.{ElaboratedEntries, ElaboratedOnce, ElaborationIsLocal, ExportKeysStay, ImportsAreLeast, LabelsStay, ListedStays};

/// Elaborating an elaborated world changes nothing.
pub fn elaborates_once()
    ensures { ElaboratesOnce }
{}

/// The interfaces that an elaborated world imports under their own keys are exactly those that paths
/// along uses define: what is reached from the listed imports and type uses, and what the exports
/// need from outside.
pub fn imports_are_exact()
    ensures { ImportsAreExact }
{}

/// Each direct use of an imported interface, labelled or not, stands before it among the imports,
/// and so does the interface of a type use before that.
pub fn imports_keep_order()
    ensures { ImportsKeepOrder }
{}

/// Neither a conflict nor what is imported depends on the order of the listed entries.
pub fn order_is_free()
    ensures { OrderIsFree }
{}

/// Worked worlds: what they are elaborated to, and what they aren't.
pub fn worked_elaborations()
    ensures { WorkedElaborations }
{}

/// Worked worlds in conflict, with the refused keys, and near ones that aren't.
pub fn worked_conflicts()
    ensures { WorkedConflicts }
{}

/// There is a refused key exactly where there is a conflict.
pub fn conflicts_are_refused()
    ensures { ConflictsAreRefused }
{}

/// More interfaces, and other types over which the imports are and carry what they were and did,
/// change no elaboration.
pub fn elaboration_is_local()
    ensures { ElaborationIsLocal }
{}

/// Each import of an elaborated world was listed or is a dependency that is used, and each export was
/// listed or is a dependency under an exported key.
pub fn elaborated_entries()
    ensures { ElaboratedEntries }
{}

/// No two imports of an elaborated world have one key, nor have two exports where no two of those
/// listed had.
pub fn elaborated_once()
    ensures { ElaboratedOnce }
{}

/// The keys of the exports are those that were listed.
pub fn export_keys_stay()
    ensures { ExportKeysStay }
{}

/// The interfaces that an elaborated world imports under their own keys are the least set that has those
/// that the listed imports and type uses name directly and those that the exports name directly from
/// outside, and with each one all that it uses.
pub fn imports_are_least()
    ensures { ImportsAreLeast }
{}

/// The imports under labels are those that were listed, by class, an interface without its span,
/// where no two imports were listed under one key.
pub fn labels_stay()
    ensures { LabelsStay }
{}

/// The keys and ids of an elaborated world are in order, where those of the listed one were.
pub fn listed_stays()
    ensures { ListedStays }
{}

/// Small graphs: which are valid and which aren't.
pub fn examples_of_validity()
    ensures { ExamplesOfValidity }
{}

/// Small graphs: what uses, refers to and depends on what.
pub fn examples_of_relations()
    ensures { ExamplesOfRelations }
{}

/// Small graphs: what is answered to questions about them.
pub fn examples_of_queries()
    ensures { ExamplesOfQueries }
{}
