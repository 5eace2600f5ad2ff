//! Unresolved packages.
ghost use Rattle.json.specs.Value.{value_view};
ghost use Rattle.std.specs.Prelude.{◌≡◌};
ghost use Rattle.json.specs.Json as json;
ghost use Rattle.wit_json_reading.specs.Objects.{read_pair, read_variant};
ghost use Rattle.wit_json_reading.specs.declared.fault.Expected.TheVariants as expected;
ghost use Rattle.wit_json_reading.specs.Packages.{read_ast_item_by, read_dep, read_deps, name_in, read_package_name, read_package, version_behind, with_dep};
ghost use Rattle.wit_json_reading.specs.Reading.{Reads};

use crate::fault::{Expected, ReadError, in_member, instead_of};
use crate::gates::{docs, span};
use crate::lists::required_without;
use crate::objects::{one_member, pair};
use crate::reader::{ReadJson, only, required};
use crate::values::version;
use json::Value;
use std::alloc::Global;
use wit_data::{AstItem, Items, Names, PackageName, Stability, Table, UnresolvedPackage};
use wit_values::{Text, Version};

impl ReadJson for PackageName {
    ghost reading = { read_package_name };

    #[tactic(auto, unfolding(crate::specs::Packages::read_package_name))]
    fn read_json(alloc: Global, value: &Value<'_>) -> Result<PackageName, ReadError> {
        match value.as_str() {
            Some(text) => package_name(alloc, text),
            None => instead_of(alloc, Expected::Text),
        }
    }
}

/// The name that a text is.
#[tactic(auto, unfolding(crate::specs::Packages::read_package_name))]
fn package_name(alloc: Global, text: &str) -> Result<PackageName, ReadError>
    ensures { Reads result (read_package_name (json.string text.now)) }
{
    match text.split_once(':') {
        Some((namespace, rest)) => name_in_namespace(alloc, namespace, rest),
        None => instead_of(alloc, Expected::PackageName),
    }
}

/// The name in a namespace.
fn name_in_namespace(alloc: Global, namespace: &str, text: &str) -> Result<PackageName, ReadError>
    ensures { Reads result (name_in namespace.now text.now) }
{
    let version = version_behind(alloc, text)?;
    let name = match text.split_once('@') {
        Some((name, _)) => name,
        None => text,
    };
    let namespace = Text::try_from_str(alloc, namespace)?;
    let name = Text::try_from_str(alloc, name)?;
    Ok(PackageName::new(namespace, name, version))
}

/// The version behind the `@`, where there is an `@`.
fn version_behind(alloc: Global, text: &str) -> Result<Option<Version>, ReadError>
    ensures { Reads result (version_behind text.now) }
{
    match text.split_once('@') {
        Some((_, text)) => Ok(Some(version(alloc, text)?)),
        None => Ok(None),
    }
}

impl ReadJson for AstItem {
    ghost reading = { read_variant read_ast_item_by expected.ForeignItem };

    fn read_json(alloc: Global, value: &Value<'_>) -> Result<AstItem, ReadError> {
        match one_member(value) {
            Some((name, id)) => in_member(alloc, ast_item(alloc, name, id), name),
            None => instead_of(alloc, Expected::ForeignItem),
        }
    }
}

/// The item of this sort.
fn ast_item(alloc: Global, name: &str, value: &Value<'_>) -> Result<AstItem, ReadError>
    ensures { Reads result (read_ast_item_by name.now (value_view value.now)) }
{
    match name {
        "interface" => Ok(AstItem::Interface(ReadJson::read_json(alloc, value)?)),
        "world" => Ok(AstItem::World(ReadJson::read_json(alloc, value)?)),
        _ => instead_of(alloc, Expected::ForeignItem),
    }
}

/// A list of two values.
impl<A: ReadJson + Drop, B: ReadJson + Drop> ReadJson for (A, B) {
    ghost reading = { read_pair A.reading B.reading };

    fn read_json(alloc: Global, value: &Value<'_>) -> Result<(A, B), ReadError> {
        pair(alloc, value)
    }
}

/// What is named of other packages, under the name of each.
type ForeignDeps = Table<PackageName, Names<(AstItem, Items<Stability>)>>;

impl ReadJson for Table<PackageName, Names<(AstItem, Items<Stability>)>> {
    ghost reading = { read_deps };

    fn read_json(alloc: Global, value: &Value<'_>) -> Result<ForeignDeps, ReadError> {
        let Value::Object(members) = value else {
            return instead_of(alloc, Expected::Object);
        };
        let mut deps = Table::new(alloc);
        for member in members {
            deps = with_member(alloc, member.0, &member.1, deps)?;
        }
        Ok(deps)
    }
}

/// What is named, with that of one more package.
fn with_member(
    alloc: Global,
    text: &str,
    value: &Value<'_>,
    deps: ForeignDeps,
) -> Result<ForeignDeps, ReadError>
    ensures { Reads result (read_dep text.now (value_view value.now) deps) }
{
    let name = in_member(alloc, package_name(alloc, text), text)?;
    let named = in_member(alloc, ReadJson::read_json(alloc, value), text)?;
    with_dep(alloc, text, name, named, deps)
}

/// The same under a name that isn't there yet.
fn with_dep(
    alloc: Global,
    text: &str,
    name: PackageName,
    named: Names<(AstItem, Items<Stability>)>,
    mut deps: ForeignDeps,
) -> Result<ForeignDeps, ReadError>
    ensures { Reads result (with_dep text.now name named deps) }
{
    if deps.contains_key(&name) {
        return in_member(alloc, instead_of(alloc, Expected::NoSecondMember), text);
    }
    deps.push(name, named)?;
    Ok(deps)
}

impl ReadJson for UnresolvedPackage {
    ghost reading = { read_package };

    #[tactic(auto, unfolding(crate::specs::Packages::read_package))]
    fn read_json(alloc: Global, value: &Value<'_>) -> Result<UnresolvedPackage, ReadError> {
        only(
            alloc,
            value,
            &[
                "name",
                "span",
                "docs",
                "worlds",
                "interfaces",
                "types",
                "foreign-deps",
                "foreign-dep-spans",
                "unknown-type-spans",
                "required-resources",
            ],
        )?;
        let name = required(alloc, value, "name")?;
        let package_name_span = span(alloc, value)?;
        let docs = docs(alloc, value)?;
        let worlds = required_without(alloc, value, "worlds", "package")?;
        let interfaces = required_without(alloc, value, "interfaces", "package")?;
        let types = required(alloc, value, "types")?;
        let foreign_deps = required(alloc, value, "foreign-deps")?;
        let foreign_dep_spans = required(alloc, value, "foreign-dep-spans")?;
        let unknown_type_spans = required(alloc, value, "unknown-type-spans")?;
        let required_resource_types = required(alloc, value, "required-resources")?;
        Ok(UnresolvedPackage {
            name,
            package_name_span,
            docs,
            worlds,
            interfaces,
            types,
            foreign_deps,
            foreign_dep_spans,
            unknown_type_spans,
            required_resource_types,
        })
    }
}
