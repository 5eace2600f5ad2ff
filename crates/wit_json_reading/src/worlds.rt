//! Interfaces and worlds.
ghost use Rattle.std.specs.Prelude.{◌≡◌, ◌++◌, [], IfOk, codes, decimal, bytes_eq, None, Some, drop, nat_eq, if◌then◌else◌};
ghost use Rattle.std.specs.Option.{option_copied};
ghost use Rattle.std.specs.List.{starts_with};
ghost use Rattle.json.specs.Value.{members_view, value_view};
ghost use Rattle.wit_json_reading.specs.Objects.{read_variant};
ghost use Rattle.wit_json_reading.specs.Values.{nullable, read_number};
ghost use Rattle.wit_json_reading.specs.declared.fault.Expected.TheVariants as expected;
ghost use Rattle.wit_json_reading.specs.Reading.{Reads, read_list, read_or};
ghost use Rattle.wit_json_reading.specs.steps.Parts.{entry_behind};
ghost use Rattle.wit_json_reading.specs.Worlds.{read_entries, read_include_name, read_include, read_interface_entry, read_interface, read_item_by, read_key, names_differ, read_placed_type, plain_key, read_type_entry, with_entry, read_world};

use crate::fault::{Expected, ReadError, in_member, instead_of};
use crate::gates::{docs, span, stability};
use crate::objects::one_member;
use crate::reader::{ReadJson, only, optional, required};
use json::Value;
use std::alloc::{AllocError, Global};
use wit_data::{
    IncludeName, Interface, InterfaceId, PackageId, Span, World, WorldInclude, WorldItem, WorldKey,
};
use wit_values::{Items, NameSet, Table, Text};

/// The package that something belongs to, none where it is left out.
#[tactic(auto, unfolding(crate::specs::Reading::read_or))]
fn home(alloc: Global, value: &Value<'_>) -> Result<Option<PackageId>, ReadError>
    ensures { Reads result
        (read_or (nullable read_number) None (codes "package") (value_view value.now)) }
{
    match optional::<Option<PackageId>>(alloc, value, "package")? {
        Some(home) => Ok(home),
        None => Ok(None),
    }
}

impl ReadJson for Interface {
    ghost reading = { read_interface };

    #[tactic(auto, unfolding(crate::specs::Worlds::read_interface))]
    fn read_json(alloc: Global, value: &Value<'_>) -> Result<Interface, ReadError> {
        only(
            alloc,
            value,
            &[
                "name",
                "types",
                "functions",
                "docs",
                "stability",
                "package",
                "span",
            ],
        )?;
        let name = required(alloc, value, "name")?;
        let types = required(alloc, value, "types")?;
        let functions = required(alloc, value, "functions")?;
        let docs = docs(alloc, value)?;
        let stability = stability(alloc, value)?;
        let package = home(alloc, value)?;
        let span = span(alloc, value)?;
        Ok(Interface {
            name,
            types,
            functions,
            docs,
            stability,
            package,
            span,
        })
    }
}

impl ReadJson for WorldItem {
    ghost reading = { read_variant read_item_by expected.Entry };

    fn read_json(alloc: Global, value: &Value<'_>) -> Result<WorldItem, ReadError> {
        match one_member(value) {
            Some((name, entry)) => in_member(alloc, item(alloc, name, entry), name),
            None => instead_of(alloc, Expected::Entry),
        }
    }
}

/// The entry of this sort.
fn item(alloc: Global, name: &str, value: &Value<'_>) -> Result<WorldItem, ReadError>
    ensures { Reads result (read_item_by name.now (value_view value.now)) }
{
    match name {
        "interface" => interface_entry(alloc, value),
        "function" => Ok(WorldItem::Function(ReadJson::read_json(alloc, value)?)),
        "type" => type_entry(alloc, value),
        _ => instead_of(alloc, Expected::Entry),
    }
}

#[tactic(auto, unfolding(crate::specs::Worlds::read_interface_entry))]
fn interface_entry(alloc: Global, value: &Value<'_>) -> Result<WorldItem, ReadError>
    ensures { Reads result (read_interface_entry (value_view value.now)) }
{
    only(
        alloc,
        value,
        &["id", "stability", "docs", "span", "external-id"],
    )?;
    let id = required(alloc, value, "id")?;
    let stability = stability(alloc, value)?;
    let docs = docs(alloc, value)?;
    let span = span(alloc, value)?;
    let external_id = optional(alloc, value, "external-id")?;
    Ok(WorldItem::Interface {
        id,
        stability,
        docs,
        span,
        external_id,
    })
}

/// A type by its id alone, or by its id with a span.
fn type_entry(alloc: Global, value: &Value<'_>) -> Result<WorldItem, ReadError>
    ensures { Reads result (read_type_entry (value_view value.now)) }
{
    if let Value::Object(_) = value {
        return placed_type(alloc, value);
    }
    let id = ReadJson::read_json(alloc, value)?;
    let span = Span::unknown();
    Ok(WorldItem::Type_ { id, span })
}

#[tactic(auto, unfolding(crate::specs::Worlds::read_placed_type))]
fn placed_type(alloc: Global, value: &Value<'_>) -> Result<WorldItem, ReadError>
    ensures { Reads result (read_placed_type (value_view value.now)) }
{
    only(alloc, value, &["id", "span"])?;
    let id = required(alloc, value, "id")?;
    let span = span(alloc, value)?;
    Ok(WorldItem::Type_ { id, span })
}

/// The key of an entry under a name.
fn key(alloc: Global, name: &str, entry: &WorldItem) -> Result<WorldKey, AllocError>
    ensures { IfOk result (λ key. key ≡ read_key name.now entry.now) }
{
    match marked_label(name) {
        Some(label) => Ok(WorldKey::Name(Text::try_from_str(alloc, label)?)),
        None => plain_key(alloc, name, entry),
    }
}

/// The label that stands behind a mark, where there is one.
fn marked_label(name: &str) -> Option<&str>
    ensures { option_copied result
        ≡ (if starts_with nat_eq name.now (codes "%") then Some (drop 1 name.now) else None) }
{
    name.strip_prefix("%")
}

/// The key of an entry under a name without a mark.
fn plain_key(alloc: Global, name: &str, entry: &WorldItem) -> Result<WorldKey, AllocError>
    ensures { IfOk result (λ key. key ≡ plain_key name.now entry.now) }
{
    if let WorldItem::Interface { id, .. } = entry {
        if is_key_of(alloc, name, *id)? {
            return Ok(WorldKey::Interface(*id));
        }
    }
    Ok(WorldKey::Name(Text::try_from_str(alloc, name)?))
}

/// Whether a name is that of an interface's key.
fn is_key_of(alloc: Global, name: &str, id: InterfaceId) -> Result<bool, AllocError>
    ensures { IfOk result (λ is. is ≡ bytes_eq name.now (codes "interface-" ++ decimal id)) }
{
    let index = id.index();
    let key = format!(in alloc; "interface-{index}")?;
    Ok(name == key.as_str())
}

impl ReadJson for Table<WorldKey, WorldItem> {
    ghost reading = { read_entries };

    fn read_json(
        alloc: Global,
        value: &Value<'_>,
    ) -> Result<Table<WorldKey, WorldItem>, ReadError> {
        let Value::Object(members) = value else {
            return instead_of(alloc, Expected::Object);
        };
        names_differ(alloc, members)?;
        let mut entries = Table::new(alloc);
        for member in members {
            entries = with_member(alloc, member.0, &member.1, entries)?;
        }
        Ok(entries)
    }
}

/// Finds the first member whose name stands for the second time.
fn names_differ(alloc: Global, members: &[(&str, Value<'_>)]) -> Result<(), ReadError>
    ensures { Reads result (names_differ [] (members_view members.now)) }
{
    let mut names = NameSet::new(alloc);
    for member in members {
        let name = member.0;
        if names.contains(name) {
            return in_member(alloc, instead_of(alloc, Expected::NoSecondMember), name);
        }
        names.insert(alloc, name)?;
    }
    Ok(())
}

/// The entries with that of one member more.
fn with_member(
    alloc: Global,
    name: &str,
    value: &Value<'_>,
    entries: Table<WorldKey, WorldItem>,
) -> Result<Table<WorldKey, WorldItem>, ReadError>
    ensures { Reads result (entry_behind name.now (value_view value.now) entries) }
{
    let entry = in_member(alloc, ReadJson::read_json(alloc, value), name)?;
    with_entry(alloc, name, entry, entries)
}

/// The entries with one more, under a key that isn't there yet.
fn with_entry(
    alloc: Global,
    name: &str,
    entry: WorldItem,
    mut entries: Table<WorldKey, WorldItem>,
) -> Result<Table<WorldKey, WorldItem>, ReadError>
    ensures { Reads result (with_entry name.now entry entries) }
{
    let key = key(alloc, name, &entry)?;
    if entries.contains_key(&key) {
        return in_member(alloc, instead_of(alloc, Expected::NoSecondMember), name);
    }
    entries.push(key, entry)?;
    Ok(entries)
}

impl ReadJson for IncludeName {
    ghost reading = { read_include_name };

    #[tactic(auto, unfolding(crate::specs::Worlds::read_include_name))]
    fn read_json(alloc: Global, value: &Value<'_>) -> Result<IncludeName, ReadError> {
        only(alloc, value, &["name", "as"])?;
        let name = required(alloc, value, "name")?;
        let as_ = required(alloc, value, "as")?;
        Ok(IncludeName { name, as_ })
    }
}

impl ReadJson for WorldInclude {
    ghost reading = { read_include };

    #[tactic(auto, unfolding(crate::specs::Worlds::read_include))]
    fn read_json(alloc: Global, value: &Value<'_>) -> Result<WorldInclude, ReadError> {
        only(alloc, value, &["id", "names", "stability", "span"])?;
        let id = required(alloc, value, "id")?;
        let names = required(alloc, value, "names")?;
        let stability = stability(alloc, value)?;
        let span = span(alloc, value)?;
        Ok(WorldInclude {
            stability,
            id,
            names,
            span,
        })
    }
}

/// What a world includes, nothing where it is left out.
#[tactic(auto, unfolding(crate::specs::Reading::read_or))]
fn includes(alloc: Global, value: &Value<'_>) -> Result<Items<WorldInclude>, ReadError>
    ensures { Reads result
        (read_or (read_list read_include) [] (codes "includes") (value_view value.now)) }
{
    match optional(alloc, value, "includes")? {
        Some(includes) => Ok(includes),
        None => Ok(Items::new(alloc)),
    }
}

impl ReadJson for World {
    ghost reading = { read_world };

    #[tactic(auto, unfolding(crate::specs::Worlds::read_world))]
    fn read_json(alloc: Global, value: &Value<'_>) -> Result<World, ReadError> {
        only(
            alloc,
            value,
            &[
                "name",
                "imports",
                "exports",
                "includes",
                "docs",
                "stability",
                "package",
                "span",
            ],
        )?;
        let name = required(alloc, value, "name")?;
        let imports = required(alloc, value, "imports")?;
        let exports = required(alloc, value, "exports")?;
        let includes = includes(alloc, value)?;
        let docs = docs(alloc, value)?;
        let stability = stability(alloc, value)?;
        let package = home(alloc, value)?;
        let span = span(alloc, value)?;
        Ok(World {
            name,
            imports,
            exports,
            docs,
            stability,
            package,
            includes,
            span,
        })
    }
}
