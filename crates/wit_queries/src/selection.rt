//! The choice of a world by its name.
ghost use Rattle.std.specs.Prelude.{◌≡◌, ◌⊎◌, ◌≤◌, ◌<◌, ◌+◌, ◌^◌, IfSome, ◌∷◌, [], length, drop, slice_get, None, Some, IfErr, IfOk, MatchOption, string_bytes};
ghost use Rattle.std.specs.Option.{option_copied};
ghost use Rattle.wit_names.specs.UsePath.{use_path_of};
ghost use Rattle.wit_graph_data.specs.declared.error_kind.ResolveErrorKind.TheVariants as kinds;
ghost use Rattle.wit_queries.specs.Selection.{IsSelectionResult, IsSelection, selection_error, no_main_text, version_part, is_version_of, versions_of, only_version, named_package, named_world, only_world, in_package, by_path};
ghost use Rattle.wit_queries.specs.steps.Selection.{only_main};
ghost use Rattle.wit_queries.specs.steps.Parts.{no_path_text, all_world_lines, several_versions_text, package_world_lines, several_worlds_text};

use std::alloc::{AllocError, Global};
use std::fmt;
use std::fmt::Write;
use wit_data::{
    PackageId, PackageName, ParsedUsePath, Span, Table, Text, UsePathFault, Version, WorldId,
    parse_use_path,
};
use wit_graph_data::{Cause, Graph, Package, ResolveError, ResolveErrorKind, ResolveResult};

/// The world that a text names: by its name in the only main package, or as `namespace:package/name` with an optional
/// `@version`. Without a text it is the only world of the only main package.
///
/// The main packages are ids of the graph; one that isn't there counts as if there were none. Refused (26) if the text
/// is no use path, if there is no main package, if there are several and the text names no package, if the text's
/// package isn't there, or is there at several versions and the text has none, and if there is no such world or more
/// than one. Also refused for memory (28).
///
/// Source: `select_world` of wit-parser 0.263.0.
pub fn select_world(
    alloc: Global,
    graph: &Graph,
    main_packages: &[PackageId],
    world: Option<&str>,
) -> ResolveResult<WorldId>
    ensures { IsSelection graph.now main_packages.now (option_copied world.entry) result }
{
    match world {
        Some(text) => {
            let path = world_path(alloc, text)?;
            by_path(alloc, graph, main_packages, Some(path))
        }
        None => by_path(alloc, graph, main_packages, None),
    }
}

/// The world that a use path names, or the only one that there is without one.
fn by_path(
    alloc: Global,
    graph: &Graph,
    main_packages: &[PackageId],
    path: Option<ParsedUsePath>,
) -> ResolveResult<WorldId>
    ensures { IsSelectionResult (by_path graph.now main_packages.now path) result }
{
    if main_packages.is_empty() {
        return Err(no_package(alloc)?);
    }
    match path {
        Some(ParsedUsePath::Package(package, name)) => {
            let id = package_named(alloc, graph, &package)?;
            world_in(alloc, graph, id, name.as_str())
        }
        Some(ParsedUsePath::Name(name)) => {
            let id = only_package(alloc, graph, main_packages)?;
            world_in(alloc, graph, id, name.as_str())
        }
        None => {
            let id = only_package(alloc, graph, main_packages)?;
            only_world(alloc, graph, id)
        }
    }
}

fn no_package(alloc: Global) -> Result<ResolveError, AllocError>
    ensures { IfOk result (λ e. e ≡ selection_error no_main_text) }
{
    Ok(refusal(String::from_str(alloc, "No main packages defined")?))
}

/// A refusal of a selection, by its message.
fn refusal(message: String) -> ResolveError
    ensures { result ≡ selection_error (string_bytes message) }
{
    ResolveError::from(ResolveErrorKind::Semantic {
        span: Span::unknown(),
        message: Text::from_string(message),
        cause: Cause::WorldSelection,
    })
}

fn world_path(alloc: Global, text: &str) -> ResolveResult<ParsedUsePath>
    ensures ok { IfOk result (λ path. use_path_of text.now ≡ Some path) }
    ensures cause { IfErr result (λ e.
        (e ≡ kinds.OutOfMemory)
        ⊎ ((use_path_of text.now ≡ None) × (e ≡ selection_error (no_path_text text.now)))) }
{
    match parse_use_path(alloc, text) {
        Ok(path) => Ok(path),
        Err(UsePathFault::Invalid) => Err(refusal(format!(in alloc;
            "failed to parse world specifier `{text}`: invalid use path"
        )?)),
        Err(UsePathFault::OutOfMemory) => Err(ResolveError::from(ResolveErrorKind::OutOfMemory)),
    }
}

/// The main package, where there is one.
fn only_package(
    alloc: Global,
    graph: &Graph,
    main_packages: &[PackageId],
) -> ResolveResult<PackageId>
    requires { 0 < length main_packages.now }
    ensures { IsSelectionResult (only_main graph.now main_packages.now) result }
{
    if main_packages.len() == 1 {
        return Ok(main_packages[0]);
    }
    let worlds = all_worlds(alloc, graph)?;
    Err(refusal(format!(in alloc;
        "There are multiple main packages; a world must be explicitly chosen:{worlds}"
    )?))
}

/// The package of a name; without a version also the one package of that name with a version.
fn package_named(alloc: Global, graph: &Graph, name: &PackageName) -> ResolveResult<PackageId>
    ensures { IsSelectionResult (named_package graph.now.package_names name.now) result }
{
    match graph.package_names.get(name) {
        Some(id) => Ok(*id),
        None => only_version(alloc, &graph.package_names, name),
    }
}

/// The one package with a version that a name without one may mean.
fn only_version(
    alloc: Global,
    names: &Table<PackageName, PackageId>,
    name: &PackageName,
) -> ResolveResult<PackageId>
    ensures { IsSelectionResult (only_version name.now (versions_of name.now names.now)) result }
{
    let Some(first) = version_from(names, name, 0) else {
        return Err(refusal(format!(in alloc; "unknown package `{name}`")?));
    };
    let (first_name, id) = names.entry_at(first);
    match version_from(names, name, first + 1) {
        None => Ok(*id),
        Some(second) => {
            let (second_name, _) = names.entry_at(second);
            Err(several_versions(alloc, name, first_name, second_name)?)
        }
    }
}

/// The first index, from an index on, of a package that a name without a version may mean.
fn version_from(
    names: &Table<PackageName, PackageId>,
    name: &PackageName,
    from: usize,
) -> Option<usize>
    requires { from ≤ length names.now }
    ensures within { IfSome result (λ i. i < length names.now) }
    ensures small { IfSome result (λ i. i < 2 ^ 63) }
    ensures first { MatchOption result (versions_of name.now (drop from names.now) ≡ [])
        (λ i.
        IfSome (slice_get names.now i) (λ e.
        versions_of name.now (drop from names.now)
        ≡ e ∷ versions_of name.now (drop (i + 1) names.now))) }
{
    if name.version.is_some() {
        return None;
    }
    for index in from..names.len() {
        let (candidate, _) = names.entry_at(index);
        if is_version_of(candidate, name) {
            return Some(index);
        }
    }
    None
}

/// Whether a package has a version, and else the name of another.
fn is_version_of(candidate: &PackageName, name: &PackageName) -> bool
    ensures { result ≡ is_version_of name.now candidate.now }
{
    candidate.version.is_some()
        && name.namespace == candidate.namespace
        && name.name == candidate.name
}

fn several_versions(
    alloc: Global,
    name: &PackageName,
    first: &PackageName,
    second: &PackageName,
) -> Result<ResolveError, AllocError>
    ensures { IfOk result
        (λ e. e ≡ selection_error (several_versions_text name.now first.now second.now)) }
{
    let first = VersionPart(&first.version);
    let second = VersionPart(&second.version);
    Ok(refusal(format!(in alloc;
        "package name `{name}` is available at both versions {first} and {second} but which is not specified"
    )?))
}

/// The version of a package, where there is one.
#[derive(Drop)]
struct VersionPart<'a>(&'a Option<Version>);

impl<'a> fmt::Display for VersionPart<'a> {
    ghost output = { λ s. Some (version_part s.0.now) };

    fn fmt<W: fmt::Write>(&self, f: &mut fmt::Formatter<W>) -> fmt::Result {
        match self.0 {
            Some(version) => write!(f, "{version}"),
            None => Ok(()),
        }
    }
}

/// The world of a name in the package of an id.
fn world_in(alloc: Global, graph: &Graph, id: PackageId, name: &str) -> ResolveResult<WorldId>
    ensures { IsSelectionResult (in_package graph.now id (named_world name.now)) result }
{
    match graph.packages.get(id.index()) {
        Some(package) => world_named(alloc, package, name),
        None => Err(no_package(alloc)?),
    }
}

fn world_named(alloc: Global, package: &Package, name: &str) -> ResolveResult<WorldId>
    ensures { IsSelectionResult (named_world name.now «package».now) result }
{
    match package.worlds.get(name) {
        Some(id) => Ok(*id),
        None => {
            let package = &package.name;
            Err(refusal(format!(in alloc; "World `{name}` not found in package `{package}`")?))
        }
    }
}

/// The only world of the package of an id.
fn only_world(alloc: Global, graph: &Graph, id: PackageId) -> ResolveResult<WorldId>
    ensures { IsSelectionResult
        (in_package graph.now id (λ home. only_world graph.now id home home.worlds)) result }
{
    match graph.packages.get(id.index()) {
        Some(package) => only_world_of(alloc, graph, id, package),
        None => Err(no_package(alloc)?),
    }
}

fn only_world_of(
    alloc: Global,
    graph: &Graph,
    id: PackageId,
    package: &Package,
) -> ResolveResult<WorldId>
    ensures { IsSelectionResult (only_world graph.now id «package».now «package».now.worlds)
        result }
{
    match package.worlds.len() {
        0 => {
            let name = &package.name;
            Err(refusal(format!(in alloc; "The main package `{name}` contains no worlds")?))
        }
        1 => {
            let (_, world) = package.worlds.entry_at(0);
            Ok(*world)
        }
        _ => Err(several_worlds(alloc, graph, id, package)?),
    }
}

fn several_worlds(
    alloc: Global,
    graph: &Graph,
    id: PackageId,
    package: &Package,
) -> ResolveResult<ResolveError>
    ensures ok { IfOk result
        (λ e. e ≡ selection_error (several_worlds_text graph.now id «package».now)) }
    ensures memory { IfErr result (λ e. e ≡ kinds.OutOfMemory) }
{
    let name = &package.name;
    let worlds = worlds_of(alloc, graph, id, package)?;
    Ok(refusal(format!(in alloc;
        "There are multiple worlds in `{name}`; one must be explicitly chosen:{worlds}"
    )?))
}

/// A line with the id text of each world of the graph, by id.
fn all_worlds(alloc: Global, graph: &Graph) -> ResolveResult<String>
    ensures ok { IfOk result (λ text. string_bytes text ≡ all_world_lines graph.now) }
    ensures memory { IfErr result (λ e. e ≡ kinds.OutOfMemory) }
{
    let mut lines = String::new(alloc);
    for world in graph.worlds.as_slice() {
        if let Some(package) = world.package {
            let text = graph.id_of_name(alloc, package, world.name.as_str())?;
            write!(lines, "\n  {text}")?;
        }
    }
    Ok(lines)
}

/// A line with the id text of each world of a package, in the order of its table.
fn worlds_of(
    alloc: Global,
    graph: &Graph,
    id: PackageId,
    package: &Package,
) -> ResolveResult<String>
    ensures ok { IfOk result
        (λ text. string_bytes text ≡ package_world_lines graph.now id «package».now) }
    ensures memory { IfErr result (λ e. e ≡ kinds.OutOfMemory) }
{
    let mut lines = String::new(alloc);
    for (name, _) in package.worlds.iter() {
        let text = graph.id_of_name(alloc, id, name)?;
        write!(lines, "\n  {text}")?;
    }
    Ok(lines)
}
