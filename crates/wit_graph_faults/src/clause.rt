//! The clauses of the validity of a graph.
ghost use Rattle.std.specs.Prelude.{◌≡◌, Some};
ghost use Rattle.wit_graph_faults.specs.FaultText.{graph_clause_name, graph_clause_text};

use std::fmt;

/// A clause of the validity of a graph, in the order in which they are asked: a clause comes after those without which
/// nothing could be told of it. It is called by the part of validity to which it belongs, and by its field there;
/// [`GraphClause::text`] tells what breaks it.
#[derive(Clone, Copy, Debug, PartialEq, Eq)]
pub enum GraphClause {
    PackageNamesOwn,
    PackageNamesListed,
    TablesInterfacesListed,
    TablesWorldsListed,
    TablesInterfaces,
    TablesWorlds,
    NamesNamespaces,
    NamesPackages,
    NamesVersions,
    NamesInterfaces,
    Known,
    OwnersListed,
    OwnersOwnTypes,
    OwnersFunctions,
    ReferencesAliases,
    ReferencesUnnamed,
    TypesThere,
    Types,
    Uses,
    ReferencesOwnTypes,
    ReferencesOwnFunctions,
    WorldsImports,
    WorldsExports,
    WorldsImportedFunctions,
    WorldsExportedFunctions,
    WorldsOnce,
    WorldsOwnImports,
    WorldsOwnExports,
    WorldsIncludes,
    Packages,
    Canonical,
}

impl GraphClause {
    /// All clauses, in order.
    pub const ALL: [GraphClause; 31] = [
        GraphClause::PackageNamesOwn,
        GraphClause::PackageNamesListed,
        GraphClause::TablesInterfacesListed,
        GraphClause::TablesWorldsListed,
        GraphClause::TablesInterfaces,
        GraphClause::TablesWorlds,
        GraphClause::NamesNamespaces,
        GraphClause::NamesPackages,
        GraphClause::NamesVersions,
        GraphClause::NamesInterfaces,
        GraphClause::Known,
        GraphClause::OwnersListed,
        GraphClause::OwnersOwnTypes,
        GraphClause::OwnersFunctions,
        GraphClause::ReferencesAliases,
        GraphClause::ReferencesUnnamed,
        GraphClause::TypesThere,
        GraphClause::Types,
        GraphClause::Uses,
        GraphClause::ReferencesOwnTypes,
        GraphClause::ReferencesOwnFunctions,
        GraphClause::WorldsImports,
        GraphClause::WorldsExports,
        GraphClause::WorldsImportedFunctions,
        GraphClause::WorldsExportedFunctions,
        GraphClause::WorldsOnce,
        GraphClause::WorldsOwnImports,
        GraphClause::WorldsOwnExports,
        GraphClause::WorldsIncludes,
        GraphClause::Packages,
        GraphClause::Canonical,
    ];

    /// The part of validity and its field, as `tables.worlds_listed`.
    pub fn name(self) -> &'static str
        ensures { result.now ≡ graph_clause_name self }
    {
        match self {
            GraphClause::PackageNamesOwn => "package_names.own_name",
            GraphClause::PackageNamesListed => "package_names.listed",
            GraphClause::TablesInterfacesListed => "tables.interfaces_listed",
            GraphClause::TablesWorldsListed => "tables.worlds_listed",
            GraphClause::TablesInterfaces => "tables.interface_tables",
            GraphClause::TablesWorlds => "tables.world_tables",
            GraphClause::NamesNamespaces => "names.namespaces",
            GraphClause::NamesPackages => "names.package_names",
            GraphClause::NamesVersions => "names.versions",
            GraphClause::NamesInterfaces => "names.interface_names",
            GraphClause::Known => "known",
            GraphClause::OwnersListed => "owners.listed",
            GraphClause::OwnersOwnTypes => "owners.own_types",
            GraphClause::OwnersFunctions => "owners.functions",
            GraphClause::ReferencesAliases => "references.aliases",
            GraphClause::ReferencesUnnamed => "references.unnamed",
            GraphClause::TypesThere => "no_cycles.types.in_range",
            GraphClause::Types => "no_cycles.types",
            GraphClause::Uses => "no_cycles.uses",
            GraphClause::ReferencesOwnTypes => "references.own_types",
            GraphClause::ReferencesOwnFunctions => "references.own_functions",
            GraphClause::WorldsImports => "worlds.imports",
            GraphClause::WorldsExports => "worlds.exports",
            GraphClause::WorldsImportedFunctions => "worlds.imported_functions",
            GraphClause::WorldsExportedFunctions => "worlds.exported_functions",
            GraphClause::WorldsOnce => "worlds.once",
            GraphClause::WorldsOwnImports => "worlds.own_imports",
            GraphClause::WorldsOwnExports => "worlds.own_exports",
            GraphClause::WorldsIncludes => "worlds.no_includes",
            GraphClause::Packages => "no_cycles.packages",
            GraphClause::Canonical => "canonical",
        }
    }

    /// What is said of the thing that breaks it.
    pub fn text(self) -> &'static str
        ensures { result.now ≡ graph_clause_text self }
    {
        match self {
            GraphClause::PackageNamesOwn => "names a package that isn't there or has another name",
            GraphClause::PackageNamesListed => "isn't listed under its name",
            GraphClause::TablesInterfacesListed =>
                "has no package, or isn't in the table of its package under its name",
            GraphClause::TablesWorldsListed =>
                "has no package, or isn't in the table of its package under its name",
            GraphClause::TablesInterfaces => "is no interface of that name in that package",
            GraphClause::TablesWorlds => "is no world of that name in that package",
            GraphClause::NamesNamespaces => "has a namespace that is no kebab name",
            GraphClause::NamesPackages => "has a name that is no kebab name",
            GraphClause::NamesVersions => "has a version that isn't one of SemVer 2.0.0",
            GraphClause::NamesInterfaces => "has a name that is no kebab name",
            GraphClause::Known => "is of an unknown kind",
            GraphClause::OwnersListed =>
                "has an owner that doesn't list it under its name, or a name without an owner",
            GraphClause::OwnersOwnTypes => "is no type of that name that the interface owns",
            GraphClause::OwnersFunctions => "stands under another name",
            GraphClause::ReferencesAliases =>
                "is an alias of no named type of its owner, and of none of a named interface",
            GraphClause::ReferencesUnnamed => "has no name, and is an alias or a resource",
            GraphClause::TypesThere => "refers to a type that isn't there",
            GraphClause::Types => "refers to itself, through whatever others",
            GraphClause::Uses => "uses itself, through whatever others",
            GraphClause::ReferencesOwnTypes =>
                "refers to a type of another owner, other than as an alias",
            GraphClause::ReferencesOwnFunctions =>
                "refers to a type that the interface doesn't own, or that isn't there",
            GraphClause::WorldsImports => "may not stand under its key",
            GraphClause::WorldsExports => "may not stand under its key",
            GraphClause::WorldsImportedFunctions =>
                "refers to a type that the world doesn't own, or that isn't there",
            GraphClause::WorldsExportedFunctions =>
                "refers to a type that the world doesn't own, or that isn't there",
            GraphClause::WorldsOnce => "has no name and stands in two places of worlds",
            GraphClause::WorldsOwnImports => "is an interface without a name of another package",
            GraphClause::WorldsOwnExports => "is an interface without a name of another package",
            GraphClause::WorldsIncludes => "has includes",
            GraphClause::Packages => "depends on itself, through whatever others",
            GraphClause::Canonical => "isn't its own elaboration",
        }
    }
}

/// What is said of the thing that breaks the clause.
impl fmt::Display for GraphClause {
    ghost output = { λ c. Some (graph_clause_text c) };

    fn fmt<W: fmt::Write>(&self, f: &mut fmt::Formatter<W>) -> fmt::Result {
        f.write_str(self.text())
    }
}
