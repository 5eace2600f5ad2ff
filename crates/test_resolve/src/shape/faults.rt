//! What is told of packages that break a clause, and of one that breaks two.
use crate::fixtures::assert_text;
use crate::shape::breaking::package;
use std::alloc::Global;
use std::process::Abort;
use wit_shape::{ShapeClause, find_shape_fault, is_shaped};

/// What is told of the package with these clauses broken: nothing where it has its shape.
fn told(rt: &impl Abort, alloc: Global, broken: &[ShapeClause]) -> String {
    let package = package(rt, alloc, broken);
    let fault = find_shape_fault(alloc, &package).expect(rt, "memory");
    let shaped = is_shaped(alloc, &package).expect(rt, "memory");
    assert_eq!(rt; fault.is_none(), shaped);
    match fault {
        Some(fault) => format!(in alloc; "{fault}").expect(rt, "memory"),
        None => String::new(alloc),
    }
}

/// Each clause, and what is told where it alone is broken. That the version is one of SemVer can't be broken by what the
/// `semver` crate makes.
const BROKEN: [(ShapeClause, &str); 31] = [
    (
        ShapeClause::UnplacedInterfaces,
        "interfaces[2] breaks unplaced.interfaces: an interface doesn't say to which package it belongs",
    ),
    (
        ShapeClause::UnplacedWorlds,
        "worlds[1] breaks unplaced.worlds: a world doesn't say to which package it belongs",
    ),
    (
        ShapeClause::ForeignSpans,
        "foreign_dep_spans breaks foreign.spans: there is one span for each package of foreign_deps",
    ),
    (
        ShapeClause::ForeignInterfaces,
        "interfaces[3] breaks foreign.interfaces: the interfaces of other packages are the first ones, each named once",
    ),
    (
        ShapeClause::ForeignWorlds,
        "worlds[2] breaks foreign.worlds: the worlds of other packages are the first ones, each named once",
    ),
    (
        ShapeClause::ForeignBare,
        "foreign_deps[0][1] breaks foreign.bare: what is named of another package is there under its name, holds nothing and is named under a gate",
    ),
    (
        ShapeClause::UnknownFirst,
        "types[6] breaks unknown.first: the types of kind Unknown are the first ones, with one span each in unknown_type_spans",
    ),
    (
        ShapeClause::UnknownForeign,
        "types[0] breaks unknown.foreign: a type of kind Unknown has a name and belongs to an interface of another package",
    ),
    (
        ShapeClause::UnknownAlone,
        "interfaces[0].types[1] breaks unknown.alone: an interface of another package lists types of kind Unknown alone",
    ),
    (
        ShapeClause::UnknownRequired,
        "required_resource_types[0] breaks unknown.required: what has to be a resource is of kind Unknown",
    ),
    (
        ShapeClause::NamesNamespace,
        "name breaks names.namespace: the namespace of the package is a kebab name",
    ),
    (
        ShapeClause::NamesOwn,
        "name breaks names.own: the name of the package is a kebab name",
    ),
    (
        ShapeClause::NamesInterfaces,
        "interfaces[2] breaks names.interfaces: the name of an interface is a kebab name",
    ),
    (
        ShapeClause::NamesWorlds,
        "worlds[2] breaks names.worlds: the name of a world is a kebab name",
    ),
    (
        ShapeClause::NamesInterfacesDiffer,
        "interfaces[2] breaks names.interfaces_differ: the interfaces of the package have different names",
    ),
    (
        ShapeClause::NamesWorldsDiffer,
        "worlds[2] breaks names.worlds_differ: the worlds of the package have different names",
    ),
    (
        ShapeClause::OwnersListed,
        "types[4] breaks owners.listed: a type with an owner has a name and is listed by its owner under it, and one without has none",
    ),
    (
        ShapeClause::OwnersOwnTypes,
        "interfaces[1].types[3] breaks owners.own_types: an interface lists types of its own, each under its name",
    ),
    (
        ShapeClause::OwnersFunctions,
        "interfaces[1].functions[0] breaks owners.functions: a function stands under its name",
    ),
    (
        ShapeClause::ReferencesEarlier,
        "types[3] breaks references.earlier: a type refers to earlier types",
    ),
    (
        ShapeClause::ReferencesAliases,
        "types[5] breaks references.aliases: an alias of a type names a named type of its own owner or of an interface with a name",
    ),
    (
        ShapeClause::ReferencesUnnamed,
        "types[3] breaks references.unnamed: a type without a name is neither an alias nor a resource",
    ),
    (
        ShapeClause::OwnTypes,
        "types[4] breaks own.types: a type with a name refers to types of its owner alone, but for an alias",
    ),
    (
        ShapeClause::OwnFunctions,
        "interfaces[1].functions[0] breaks own.functions: a function of an interface refers to types of the interface alone",
    ),
    (
        ShapeClause::OwnImports,
        "worlds[1].imports[2] breaks own.imports: a function that a world imports refers to types of the world alone",
    ),
    (
        ShapeClause::OwnExports,
        "worlds[1].exports[1] breaks own.exports: a function that a world exports refers to types of the world alone",
    ),
    (
        ShapeClause::WorldsImports,
        "worlds[1].imports[0] breaks worlds.imports: an import is a named interface under its own key, or an interface, a function or a type of the world under its label",
    ),
    (
        ShapeClause::WorldsExports,
        "worlds[1].exports[0] breaks worlds.exports: an export is a named interface under its own key, or an interface or a function under its label",
    ),
    (
        ShapeClause::WorldsOnce,
        "interfaces[3] breaks worlds.once: an interface without a name stands in one place of all worlds",
    ),
    (
        ShapeClause::WorldsIncludes,
        "worlds[1].includes[0] breaks worlds.includes: a world includes earlier worlds",
    ),
    (
        ShapeClause::Uses,
        "interfaces[2] breaks uses: no interface uses itself, through whatever others",
    ),
];

#[test]
fn a_shaped_package_has_no_fault(rt: HostRuntime) {
    assert_text(&rt, told(&rt, rt.alloc(), &[]), "");
}

#[test]
fn each_clause_is_told_at_what_breaks_it(rt: HostRuntime) {
    for (clause, wanted) in &BROKEN {
        assert_text(&rt, told(&rt, rt.alloc(), &[*clause]), wanted);
    }
}

/// Two clauses that one package can break, of which the first is told.
const BOTH: [(ShapeClause, ShapeClause, &str); 4] = [
    (
        ShapeClause::UnplacedInterfaces,
        ShapeClause::UnplacedWorlds,
        "interfaces[2] breaks unplaced.interfaces: an interface doesn't say to which package it belongs",
    ),
    (
        ShapeClause::OwnersListed,
        ShapeClause::WorldsIncludes,
        "types[4] breaks owners.listed: a type with an owner has a name and is listed by its owner under it, and one without has none",
    ),
    (
        ShapeClause::OwnExports,
        ShapeClause::WorldsImports,
        "worlds[1].exports[1] breaks own.exports: a function that a world exports refers to types of the world alone",
    ),
    (
        ShapeClause::WorldsIncludes,
        ShapeClause::Uses,
        "worlds[1].includes[0] breaks worlds.includes: a world includes earlier worlds",
    ),
];

#[test]
fn the_first_of_two_is_told(rt: HostRuntime) {
    for (first, second, wanted) in &BOTH {
        assert_text(&rt, told(&rt, rt.alloc(), &[*second, *first]), wanted);
    }
}

/// The names of all clauses, one a line.
fn clause_names(rt: &impl Abort, alloc: Global) -> String {
    let mut out = String::new(alloc);
    for clause in ShapeClause::ALL {
        let name = clause.name();
        writeln!(out, "{name}").expect(rt, "memory");
    }
    out
}

#[test]
fn clauses_are_named_by_part_and_field(rt: HostRuntime) {
    assert_text(
        &rt,
        clause_names(&rt, rt.alloc()),
        "unplaced.interfaces\nunplaced.worlds\nforeign.spans\nforeign.interfaces\nforeign.worlds\nforeign.bare\nunknown.first\nunknown.foreign\nunknown.alone\nunknown.required\nnames.namespace\nnames.own\nnames.interfaces\nnames.worlds\nnames.version\nnames.interfaces_differ\nnames.worlds_differ\nowners.listed\nowners.own_types\nowners.functions\nreferences.earlier\nreferences.aliases\nreferences.unnamed\nown.types\nown.functions\nown.imports\nown.exports\nworlds.imports\nworlds.exports\nworlds.once\nworlds.includes\nuses\n",
    );
}
