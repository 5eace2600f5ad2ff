//! Whether the spans of types, interfaces and worlds can be moved.
ghost use Rattle.std.specs.Prelude.{◌↔◌, ℕ, List, IsTrue};
ghost use Rattle.wit_data.specs.Each.{Each};
ghost use Rattle.wit_data.specs.declared.types.Case.{Case};
ghost use Rattle.wit_data.specs.declared.types.EnumCase.{EnumCase};
ghost use Rattle.wit_data.specs.declared.types.Field.{Field};
ghost use Rattle.wit_data.specs.declared.types.Flag.{Flag};
ghost use Rattle.wit_data.specs.declared.function.Function.{Function};
ghost use Rattle.wit_data.specs.declared.function.Param.{Param};
ghost use Rattle.wit_data.specs.declared.world.WorldInclude.{WorldInclude};
ghost use Rattle.wit_remap.specs.steps.Fits.{EntriesFit, Fits, FunctionFits, InterfaceFits, ItemFits, KindFits, PartsFit, TypeFits, WholeWorldFits, WorldFits};

use wit_data::{
    Case, EnumCase, Field, Flag, Function, Interface, Param, Span, Table, TypeDef, TypeDefKind,
    World, WorldInclude, WorldItem, WorldKey,
};

/// Whether a span still ends within the last position, 4294967295, when it is moved by so many
/// positions. An unknown one does.
pub fn fits(span: Span, offset: u32) -> bool
    ensures { IsTrue result ↔ Fits offset span }
{
    span.moved(offset).is_some()
}

/// Whether all spans of a list fit: see `fits`.
pub fn all_fit(spans: &[Span], offset: u32) -> bool
    ensures { IsTrue result ↔ Each (Fits offset) spans.now }
{
    spans.iter().all(|span| fits(*span, offset))
}

/// Whether the spans of types, interfaces and worlds fit, and those of all their parts, functions,
/// entries and includes among them: see `fits`.
pub fn parts_fit(types: &[TypeDef], interfaces: &[Interface], worlds: &[World], offset: u32) -> bool
    ensures { IsTrue result ↔ PartsFit offset types.now interfaces.now worlds.now }
{
    if !types_fit(types, offset) {
        return false;
    }
    if !interfaces_fit(interfaces, offset) {
        return false;
    }
    worlds_fit(worlds, offset)
}

fn types_fit(types: &[TypeDef], offset: u32) -> bool
    ensures { IsTrue result ↔ Each (TypeFits (Fits offset)) types.now }
{
    types.iter().all(|def| type_fits(def, offset))
}

fn type_fits(def: &TypeDef, offset: u32) -> bool
    ensures { IsTrue result ↔ TypeFits (Fits offset) def.now }
{
    fits(def.span, offset) && kind_fits(&def.kind, offset)
}

/// Whether the spans of the parts of a kind fit.
fn kind_fits(kind: &TypeDefKind, offset: u32) -> bool
    ensures { IsTrue result ↔ KindFits (Fits offset) kind.now }
{
    match kind {
        TypeDefKind::Record { fields } => fields_fit(fields.as_slice(), offset),
        TypeDefKind::Variant { cases } => cases_fit(cases.as_slice(), offset),
        TypeDefKind::Flags { flags } => flags_fit(flags.as_slice(), offset),
        TypeDefKind::Enum { cases } => enum_cases_fit(cases.as_slice(), offset),
        _ => true,
    }
}

fn fields_fit(fields: &[Field], offset: u32) -> bool
    ensures { IsTrue result ↔ Each (λ (f : Field). Fits offset f.span) fields.now }
{
    fields.iter().all(|field| fits(field.span, offset))
}

fn cases_fit(cases: &[Case], offset: u32) -> bool
    ensures { IsTrue result ↔ Each (λ (c : Case). Fits offset c.span) cases.now }
{
    cases.iter().all(|case| fits(case.span, offset))
}

fn flags_fit(flags: &[Flag], offset: u32) -> bool
    ensures { IsTrue result ↔ Each (λ (f : Flag). Fits offset f.span) flags.now }
{
    flags.iter().all(|flag| fits(flag.span, offset))
}

fn enum_cases_fit(cases: &[EnumCase], offset: u32) -> bool
    ensures { IsTrue result ↔ Each (λ (c : EnumCase). Fits offset c.span) cases.now }
{
    cases.iter().all(|case| fits(case.span, offset))
}

fn interfaces_fit(interfaces: &[Interface], offset: u32) -> bool
    ensures { IsTrue result ↔ Each (InterfaceFits (Fits offset)) interfaces.now }
{
    interfaces
        .iter()
        .all(|interface| interface_fits(interface, offset))
}

fn interface_fits(interface: &Interface, offset: u32) -> bool
    ensures { IsTrue result ↔ InterfaceFits (Fits offset) interface.now }
{
    fits(interface.span, offset) && functions_fit(interface, offset)
}

fn functions_fit(interface: &Interface, offset: u32) -> bool
    ensures { IsTrue result
        ↔ Each (λ (e : List ℕ × Function). FunctionFits (Fits offset) e.1) interface.now.functions }
{
    for (_, function) in interface.functions.iter() {
        if !function_fits(function, offset) {
            return false;
        }
    }
    true
}

fn function_fits(function: &Function, offset: u32) -> bool
    ensures { IsTrue result ↔ FunctionFits (Fits offset) function.now }
{
    fits(function.span, offset) && params_fit(function.params.as_slice(), offset)
}

fn params_fit(params: &[Param], offset: u32) -> bool
    ensures { IsTrue result ↔ Each (λ (p : Param). Fits offset p.span) params.now }
{
    params.iter().all(|param| fits(param.span, offset))
}

fn worlds_fit(worlds: &[World], offset: u32) -> bool
    ensures { IsTrue result ↔ Each (WholeWorldFits offset) worlds.now }
{
    worlds.iter().all(|world| world_fits(world, offset))
}

fn world_fits(world: &World, offset: u32) -> bool
    ensures { IsTrue result ↔ WholeWorldFits offset world.now }
{
    world_and_entries_fit(world, offset) && includes_fit(world.includes.as_slice(), offset)
}

fn world_and_entries_fit(world: &World, offset: u32) -> bool
    ensures { IsTrue result ↔ WorldFits (Fits offset) world.now }
{
    fits(world.span, offset)
        && entries_fit(&world.imports, offset)
        && entries_fit(&world.exports, offset)
}

fn entries_fit(entries: &Table<WorldKey, WorldItem>, offset: u32) -> bool
    ensures { IsTrue result ↔ EntriesFit (Fits offset) entries.now }
{
    for (_, item) in entries.iter() {
        if !item_fits(item, offset) {
            return false;
        }
    }
    true
}

fn item_fits(item: &WorldItem, offset: u32) -> bool
    ensures { IsTrue result ↔ ItemFits (Fits offset) item.now }
{
    match item {
        WorldItem::Interface { span, .. } => fits(*span, offset),
        WorldItem::Function(function) => function_fits(function, offset),
        WorldItem::Type_ { span, .. } => fits(*span, offset),
    }
}

fn includes_fit(includes: &[WorldInclude], offset: u32) -> bool
    ensures { IsTrue result ↔ Each (λ (i : WorldInclude). Fits offset i.span) includes.now }
{
    includes.iter().all(|include| fits(include.span, offset))
}
