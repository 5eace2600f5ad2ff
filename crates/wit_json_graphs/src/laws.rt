//! What is written reads back: the contract of each function is what is proved.
ghost use Rattle.wit_json_graphs.specs.laws.ReadBack.{EntryNamesDiffer, GroupTextsReadBack, GroupsReadBack, PackagesReadBack, ResolvesReadBack, TextsReadBack};

/// Two entries of a world have two names: in what is written no object has one name twice.
pub fn entry_names_differ()
    ensures { EntryNamesDiffer }
{}

/// The value that is written of an unresolved package reads as that package: each of its ids, spans, gates and foreign
/// names.
pub fn packages_read_back()
    ensures { PackagesReadBack }
{}

/// So does the text that `wit_json::package_to_json` writes of it.
pub fn texts_read_back()
    ensures { TextsReadBack }
{}

/// The value that is written of a group of packages with its files reads as that group.
pub fn groups_read_back()
    ensures { GroupsReadBack }
{}

/// So does the text that `wit_json::group_to_json` writes of it.
pub fn group_texts_read_back()
    ensures { GroupTextsReadBack }
{}

/// The value that is written of a graph with what stands beside it reads as the parts of that `Resolve`.
pub fn resolves_read_back()
    ensures { ResolvesReadBack }
{}
