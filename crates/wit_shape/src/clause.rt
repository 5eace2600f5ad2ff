//! The clauses of the shape of an unresolved package.
ghost use Rattle.std.specs.Prelude.{◌≡◌, Some};
ghost use Rattle.wit_shape.specs.FaultText.{clause_name, clause_text};

use std::fmt;

/// A clause of the shape of an unresolved package, in the order in which the shape's definition lists them. It is called
/// by the part of the shape to which it belongs, and by its field there; [`ShapeClause::text`] tells what it says.
#[derive(Clone, Copy, Debug, PartialEq, Eq)]
pub enum ShapeClause {
    UnplacedInterfaces,
    UnplacedWorlds,
    ForeignSpans,
    ForeignInterfaces,
    ForeignWorlds,
    ForeignBare,
    UnknownFirst,
    UnknownForeign,
    UnknownAlone,
    UnknownRequired,
    NamesNamespace,
    NamesOwn,
    NamesInterfaces,
    NamesWorlds,
    NamesVersion,
    NamesInterfacesDiffer,
    NamesWorldsDiffer,
    OwnersListed,
    OwnersOwnTypes,
    OwnersFunctions,
    ReferencesEarlier,
    ReferencesAliases,
    ReferencesUnnamed,
    OwnTypes,
    OwnFunctions,
    OwnImports,
    OwnExports,
    WorldsImports,
    WorldsExports,
    WorldsOnce,
    WorldsIncludes,
    Uses,
}

impl ShapeClause {
    /// All clauses, in order.
    pub const ALL: [ShapeClause; 32] = [
        ShapeClause::UnplacedInterfaces,
        ShapeClause::UnplacedWorlds,
        ShapeClause::ForeignSpans,
        ShapeClause::ForeignInterfaces,
        ShapeClause::ForeignWorlds,
        ShapeClause::ForeignBare,
        ShapeClause::UnknownFirst,
        ShapeClause::UnknownForeign,
        ShapeClause::UnknownAlone,
        ShapeClause::UnknownRequired,
        ShapeClause::NamesNamespace,
        ShapeClause::NamesOwn,
        ShapeClause::NamesInterfaces,
        ShapeClause::NamesWorlds,
        ShapeClause::NamesVersion,
        ShapeClause::NamesInterfacesDiffer,
        ShapeClause::NamesWorldsDiffer,
        ShapeClause::OwnersListed,
        ShapeClause::OwnersOwnTypes,
        ShapeClause::OwnersFunctions,
        ShapeClause::ReferencesEarlier,
        ShapeClause::ReferencesAliases,
        ShapeClause::ReferencesUnnamed,
        ShapeClause::OwnTypes,
        ShapeClause::OwnFunctions,
        ShapeClause::OwnImports,
        ShapeClause::OwnExports,
        ShapeClause::WorldsImports,
        ShapeClause::WorldsExports,
        ShapeClause::WorldsOnce,
        ShapeClause::WorldsIncludes,
        ShapeClause::Uses,
    ];

    /// The part of the shape and its field, as `owners.listed`.
    pub fn name(self) -> &'static str
        ensures { result.now ≡ clause_name self }
    {
        match self {
            ShapeClause::UnplacedInterfaces => "unplaced.interfaces",
            ShapeClause::UnplacedWorlds => "unplaced.worlds",
            ShapeClause::ForeignSpans => "foreign.spans",
            ShapeClause::ForeignInterfaces => "foreign.interfaces",
            ShapeClause::ForeignWorlds => "foreign.worlds",
            ShapeClause::ForeignBare => "foreign.bare",
            ShapeClause::UnknownFirst => "unknown.first",
            ShapeClause::UnknownForeign => "unknown.foreign",
            ShapeClause::UnknownAlone => "unknown.alone",
            ShapeClause::UnknownRequired => "unknown.required",
            ShapeClause::NamesNamespace => "names.namespace",
            ShapeClause::NamesOwn => "names.own",
            ShapeClause::NamesInterfaces => "names.interfaces",
            ShapeClause::NamesWorlds => "names.worlds",
            ShapeClause::NamesVersion => "names.version",
            ShapeClause::NamesInterfacesDiffer => "names.interfaces_differ",
            ShapeClause::NamesWorldsDiffer => "names.worlds_differ",
            ShapeClause::OwnersListed => "owners.listed",
            ShapeClause::OwnersOwnTypes => "owners.own_types",
            ShapeClause::OwnersFunctions => "owners.functions",
            ShapeClause::ReferencesEarlier => "references.earlier",
            ShapeClause::ReferencesAliases => "references.aliases",
            ShapeClause::ReferencesUnnamed => "references.unnamed",
            ShapeClause::OwnTypes => "own.types",
            ShapeClause::OwnFunctions => "own.functions",
            ShapeClause::OwnImports => "own.imports",
            ShapeClause::OwnExports => "own.exports",
            ShapeClause::WorldsImports => "worlds.imports",
            ShapeClause::WorldsExports => "worlds.exports",
            ShapeClause::WorldsOnce => "worlds.once",
            ShapeClause::WorldsIncludes => "worlds.includes",
            ShapeClause::Uses => "uses",
        }
    }

    /// What it says.
    pub fn text(self) -> &'static str
        ensures { result.now ≡ clause_text self }
    {
        match self {
            ShapeClause::UnplacedInterfaces =>
                "an interface doesn't say to which package it belongs",
            ShapeClause::UnplacedWorlds => "a world doesn't say to which package it belongs",
            ShapeClause::ForeignSpans => "there is one span for each package of foreign_deps",
            ShapeClause::ForeignInterfaces =>
                "the interfaces of other packages are the first ones, each named once",
            ShapeClause::ForeignWorlds =>
                "the worlds of other packages are the first ones, each named once",
            ShapeClause::ForeignBare =>
                "what is named of another package is there under its name, holds nothing and is named under a gate",
            ShapeClause::UnknownFirst =>
                "the types of kind Unknown are the first ones, with one span each in unknown_type_spans",
            ShapeClause::UnknownForeign =>
                "a type of kind Unknown has a name and belongs to an interface of another package",
            ShapeClause::UnknownAlone =>
                "an interface of another package lists types of kind Unknown alone",
            ShapeClause::UnknownRequired => "what has to be a resource is of kind Unknown",
            ShapeClause::NamesNamespace => "the namespace of the package is a kebab name",
            ShapeClause::NamesOwn => "the name of the package is a kebab name",
            ShapeClause::NamesInterfaces => "the name of an interface is a kebab name",
            ShapeClause::NamesWorlds => "the name of a world is a kebab name",
            ShapeClause::NamesVersion => "the version of the package is one of SemVer 2.0.0",
            ShapeClause::NamesInterfacesDiffer =>
                "the interfaces of the package have different names",
            ShapeClause::NamesWorldsDiffer => "the worlds of the package have different names",
            ShapeClause::OwnersListed =>
                "a type with an owner has a name and is listed by its owner under it, and one without has none",
            ShapeClause::OwnersOwnTypes =>
                "an interface lists types of its own, each under its name",
            ShapeClause::OwnersFunctions => "a function stands under its name",
            ShapeClause::ReferencesEarlier => "a type refers to earlier types",
            ShapeClause::ReferencesAliases =>
                "an alias of a type names a named type of its own owner or of an interface with a name",
            ShapeClause::ReferencesUnnamed =>
                "a type without a name is neither an alias nor a resource",
            ShapeClause::OwnTypes =>
                "a type with a name refers to types of its owner alone, but for an alias",
            ShapeClause::OwnFunctions =>
                "a function of an interface refers to types of the interface alone",
            ShapeClause::OwnImports =>
                "a function that a world imports refers to types of the world alone",
            ShapeClause::OwnExports =>
                "a function that a world exports refers to types of the world alone",
            ShapeClause::WorldsImports =>
                "an import is a named interface under its own key, or an interface, a function or a type of the world under its label",
            ShapeClause::WorldsExports =>
                "an export is a named interface under its own key, or an interface or a function under its label",
            ShapeClause::WorldsOnce =>
                "an interface without a name stands in one place of all worlds",
            ShapeClause::WorldsIncludes => "a world includes earlier worlds",
            ShapeClause::Uses => "no interface uses itself, through whatever others",
        }
    }
}

/// What the clause says.
impl fmt::Display for ShapeClause {
    ghost output = { λ c. Some (clause_text c) };

    fn fmt<W: fmt::Write>(&self, f: &mut fmt::Formatter<W>) -> fmt::Result {
        f.write_str(self.text())
    }
}
