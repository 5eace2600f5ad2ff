//! A graph as a text, with all its data and in its order: a line for each thing and for each entry.
use std::alloc::{AllocError, Global};
use std::fmt::Write;
use std::process::Abort;
use wit_data::{
    Case, Docs, EnumCase, Field, Flag, Function, FunctionKind, Handle, Interface, InterfaceId,
    Names, PackageId, Param, Span, Stability, Table, Text, Type_, TypeDef, TypeDefKind, TypeId,
    TypeOwner, Version, World, WorldId, WorldItem, WorldKey,
};
use wit_graph_data::{Graph, Package};

/// The whole graph.
pub fn shown(rt: &impl Abort, alloc: Global, graph: &Graph) -> String {
    let mut out = String::new(alloc);
    write_graph(&mut out, graph).expect(rt, "memory");
    out
}

fn write_graph(out: &mut String, graph: &Graph) -> Result<(), AllocError> {
    write_packages(out, graph.packages.as_slice())?;
    for (name, id) in graph.package_names.iter() {
        let place = id.index();
        writeln!(out, "named {name} {place}")?;
    }
    write_interfaces(out, graph.interfaces.as_slice())?;
    write_worlds(out, graph.worlds.as_slice())?;
    write_types(out, graph.types.as_slice())
}

fn write_packages(out: &mut String, packages: &[Package]) -> Result<(), AllocError> {
    for (place, package) in packages.iter().enumerate() {
        let name = &package.name;
        write!(out, "package {place} {name}")?;
        write_docs(out, &package.docs)?;
        write_interface_ids(out, &package.interfaces)?;
        write_world_ids(out, &package.worlds)?;
        out.push_str("\n")?;
    }
    Ok(())
}

fn write_interface_ids(out: &mut String, ids: &Names<InterfaceId>) -> Result<(), AllocError> {
    for (name, id) in ids.iter() {
        write_place(out, "interface", name, id.index())?;
    }
    Ok(())
}

fn write_world_ids(out: &mut String, ids: &Names<WorldId>) -> Result<(), AllocError> {
    for (name, id) in ids.iter() {
        write_place(out, "world", name, id.index())?;
    }
    Ok(())
}

fn write_type_ids(out: &mut String, ids: &Names<TypeId>) -> Result<(), AllocError> {
    for (name, id) in ids.iter() {
        write_place(out, "type", name, id.index())?;
    }
    Ok(())
}

/// What stands under a name, in a line.
fn write_place(out: &mut String, word: &str, name: &str, place: usize) -> Result<(), AllocError> {
    write!(out, "\n  {word} {name} {place}")
}

fn write_interfaces(out: &mut String, interfaces: &[Interface]) -> Result<(), AllocError> {
    for (place, interface) in interfaces.iter().enumerate() {
        write!(out, "interface {place}")?;
        write_name(out, &interface.name)?;
        write_home(out, interface.package)?;
        write_gate(out, interface.span, &interface.stability, &interface.docs)?;
        write_type_ids(out, &interface.types)?;
        write_functions(out, &interface.functions)?;
        out.push_str("\n")?;
    }
    Ok(())
}

fn write_worlds(out: &mut String, worlds: &[World]) -> Result<(), AllocError> {
    for (place, world) in worlds.iter().enumerate() {
        let name = &world.name;
        let includes = world.includes.len();
        write!(out, "world {place} {name}")?;
        write_home(out, world.package)?;
        write_gate(out, world.span, &world.stability, &world.docs)?;
        write!(out, " includes {includes}")?;
        write_entries(out, "import", &world.imports)?;
        write_entries(out, "export", &world.exports)?;
        out.push_str("\n")?;
    }
    Ok(())
}

fn write_types(out: &mut String, types: &[TypeDef]) -> Result<(), AllocError> {
    for (place, def) in types.iter().enumerate() {
        write!(out, "type #{place}")?;
        write_name(out, &def.name)?;
        write_owner(out, def.owner)?;
        out.push_str(":")?;
        write_kind(out, &def.kind)?;
        write_gate(out, def.span, &def.stability, &def.docs)?;
        write_external_id(out, &def.external_id)?;
        out.push_str("\n")?;
    }
    Ok(())
}

fn write_functions(out: &mut String, functions: &Names<Function>) -> Result<(), AllocError> {
    for (name, function) in functions.iter() {
        write!(out, "\n  {name}: ")?;
        write_function(out, function)?;
    }
    Ok(())
}

fn write_entries(
    out: &mut String,
    word: &str,
    entries: &Table<WorldKey, WorldItem>,
) -> Result<(), AllocError> {
    for (key, item) in entries.iter() {
        write!(out, "\n  {word} ")?;
        write_key(out, key)?;
        write_item(out, item)?;
    }
    Ok(())
}

fn write_key(out: &mut String, key: &WorldKey) -> Result<(), AllocError> {
    match key {
        WorldKey::Name(label) => write!(out, "{label}: "),
        WorldKey::Interface(id) => {
            let place = id.index();
            write!(out, "{place}: ")
        }
    }
}

fn write_item(out: &mut String, item: &WorldItem) -> Result<(), AllocError> {
    match item {
        WorldItem::Interface {
            id,
            stability,
            docs,
            span,
            external_id,
        } => {
            let place = id.index();
            write!(out, "interface {place}")?;
            write_gate(out, *span, stability, docs)?;
            write_external_id(out, external_id)
        }
        WorldItem::Function(function) => write_function(out, function),
        WorldItem::Type_ { id, span } => {
            let place = id.index();
            write!(out, "type #{place}")?;
            write_span(out, *span)
        }
    }
}

// ---- functions

fn write_function(out: &mut String, function: &Function) -> Result<(), AllocError> {
    let name = &function.name;
    let word = kind_word(&function.kind);
    write!(out, "{word}")?;
    write_resource(out, function.kind.resource())?;
    write!(out, " {name}(")?;
    for param in function.params.iter() {
        write_param(out, param)?;
    }
    out.push_str(")")?;
    write_result(out, function.result_)?;
    write_gate(out, function.span, &function.stability, &function.docs)?;
    write_external_id(out, &function.external_id)
}

fn write_resource(out: &mut String, resource: Option<TypeId>) -> Result<(), AllocError> {
    match resource {
        Some(id) => {
            let place = id.index();
            write!(out, " of #{place}")
        }
        None => Ok(()),
    }
}

fn write_result(out: &mut String, ty: Option<Type_>) -> Result<(), AllocError> {
    match ty {
        Some(ty) => {
            out.push_str(" -> ")?;
            write_type(out, ty)
        }
        None => Ok(()),
    }
}

fn kind_word(kind: &FunctionKind) -> &'static str {
    match kind {
        FunctionKind::Freestanding => "func",
        FunctionKind::AsyncFreestanding => "async func",
        FunctionKind::Method(_) => "method",
        FunctionKind::AsyncMethod(_) => "async method",
        FunctionKind::Static(_) => "static",
        FunctionKind::AsyncStatic(_) => "async static",
        FunctionKind::Constructor(_) => "constructor",
        FunctionKind::Getter => "getter",
        FunctionKind::Setter => "setter",
        FunctionKind::MethodGetter(_) => "method getter",
        FunctionKind::MethodSetter(_) => "method setter",
        FunctionKind::StaticGetter(_) => "static getter",
        FunctionKind::StaticSetter(_) => "static setter",
    }
}

fn write_param(out: &mut String, param: &Param) -> Result<(), AllocError> {
    let name = &param.name;
    write!(out, "{name}: ")?;
    write_type(out, param.ty)?;
    write_span(out, param.span)?;
    out.push_str(";")
}

// ---- types

fn write_owner(out: &mut String, owner: TypeOwner) -> Result<(), AllocError> {
    match owner {
        TypeOwner::World(id) => {
            let place = id.index();
            write!(out, " of world {place}")
        }
        TypeOwner::Interface(id) => {
            let place = id.index();
            write!(out, " of interface {place}")
        }
        TypeOwner::None => Ok(()),
    }
}

fn write_kind(out: &mut String, kind: &TypeDefKind) -> Result<(), AllocError> {
    match kind {
        TypeDefKind::Record { fields } => write_fields(out, fields.as_slice()),
        TypeDefKind::Resource => out.push_str(" resource"),
        TypeDefKind::Handle(handle) => write_handle(out, *handle),
        TypeDefKind::Flags { flags } => write_flags(out, flags.as_slice()),
        TypeDefKind::Tuple { types } => write_tuple(out, types.as_slice()),
        TypeDefKind::Variant { cases } => write_cases(out, cases.as_slice()),
        TypeDefKind::Enum { cases } => write_enum_cases(out, cases.as_slice()),
        TypeDefKind::Option(ty) => write_holder(out, "option", &[Some(*ty)]),
        TypeDefKind::Result_ { ok, err } => write_holder(out, "result", &[*ok, *err]),
        TypeDefKind::List(ty) => write_holder(out, "list", &[Some(*ty)]),
        TypeDefKind::Map(key, value) => write_holder(out, "map", &[Some(*key), Some(*value)]),
        TypeDefKind::FixedLengthList(ty, len) => {
            write_holder(out, "list", &[Some(*ty)])?;
            write!(out, " of {len}")
        }
        TypeDefKind::Future(ty) => write_holder(out, "future", &[*ty]),
        TypeDefKind::Stream(ty) => write_holder(out, "stream", &[*ty]),
        TypeDefKind::Type_(ty) => write_holder(out, "alias", &[Some(*ty)]),
        TypeDefKind::Unknown => out.push_str(" unknown"),
    }
}

/// A word with types; an underscore is no type.
fn write_holder(out: &mut String, word: &str, types: &[Option<Type_>]) -> Result<(), AllocError> {
    write!(out, " {word}")?;
    for ty in types {
        match ty {
            Some(ty) => {
                out.push_str(" ")?;
                write_type(out, *ty)?;
            }
            None => out.push_str(" _")?,
        }
    }
    Ok(())
}

fn write_handle(out: &mut String, handle: Handle) -> Result<(), AllocError> {
    match handle {
        Handle::Own(id) => {
            let place = id.index();
            write!(out, " own #{place}")
        }
        Handle::Borrow(id) => {
            let place = id.index();
            write!(out, " borrow #{place}")
        }
    }
}

fn write_tuple(out: &mut String, types: &[Type_]) -> Result<(), AllocError> {
    out.push_str(" tuple")?;
    for ty in types {
        out.push_str(" ")?;
        write_type(out, *ty)?;
    }
    Ok(())
}

fn write_fields(out: &mut String, fields: &[Field]) -> Result<(), AllocError> {
    out.push_str(" record")?;
    for field in fields {
        write_part(out, &field.name, Some(field.ty), &field.docs, field.span)?;
    }
    Ok(())
}

fn write_cases(out: &mut String, cases: &[Case]) -> Result<(), AllocError> {
    out.push_str(" variant")?;
    for case in cases {
        write_part(out, &case.name, case.ty, &case.docs, case.span)?;
    }
    Ok(())
}

fn write_flags(out: &mut String, flags: &[Flag]) -> Result<(), AllocError> {
    out.push_str(" flags")?;
    for flag in flags {
        write_part(out, &flag.name, None, &flag.docs, flag.span)?;
    }
    Ok(())
}

fn write_enum_cases(out: &mut String, cases: &[EnumCase]) -> Result<(), AllocError> {
    out.push_str(" enum")?;
    for case in cases {
        write_part(out, &case.name, None, &case.docs, case.span)?;
    }
    Ok(())
}

/// A field, a case or a flag.
fn write_part(
    out: &mut String,
    name: &Text,
    ty: Option<Type_>,
    docs: &Docs,
    span: Span,
) -> Result<(), AllocError> {
    write!(out, " {name}")?;
    write_part_type(out, ty)?;
    write_span(out, span)?;
    write_docs(out, docs)?;
    out.push_str(";")
}

fn write_part_type(out: &mut String, ty: Option<Type_>) -> Result<(), AllocError> {
    match ty {
        Some(ty) => {
            out.push_str(": ")?;
            write_type(out, ty)
        }
        None => Ok(()),
    }
}

fn write_type(out: &mut String, ty: Type_) -> Result<(), AllocError> {
    let word = match ty {
        Type_::Bool => "bool",
        Type_::U8 => "u8",
        Type_::U16 => "u16",
        Type_::U32 => "u32",
        Type_::U64 => "u64",
        Type_::S8 => "s8",
        Type_::S16 => "s16",
        Type_::S32 => "s32",
        Type_::S64 => "s64",
        Type_::F32 => "f32",
        Type_::F64 => "f64",
        Type_::Char => "char",
        Type_::String => "string",
        Type_::ErrorContext => "error-context",
        Type_::Id(id) => {
            let place = id.index();
            return write!(out, "#{place}");
        }
    };
    out.push_str(word)
}

// ---- what is told of a thing

fn write_name(out: &mut String, name: &Option<Text>) -> Result<(), AllocError> {
    match name {
        Some(name) => write!(out, " {name}"),
        None => Ok(()),
    }
}

fn write_home(out: &mut String, package: Option<PackageId>) -> Result<(), AllocError> {
    match package {
        Some(id) => {
            let place = id.index();
            write!(out, " of package {place}")
        }
        None => Ok(()),
    }
}

/// The span, the gate and the docs of a thing; nothing of what is unknown.
fn write_gate(
    out: &mut String,
    span: Span,
    stability: &Stability,
    docs: &Docs,
) -> Result<(), AllocError> {
    write_span(out, span)?;
    write_stability(out, stability)?;
    write_docs(out, docs)
}

fn write_span(out: &mut String, span: Span) -> Result<(), AllocError> {
    if !span.is_known() {
        return Ok(());
    }
    let (start, end) = (span.start(), span.end());
    write!(out, " at {start}-{end}")
}

pub fn write_stability(out: &mut String, stability: &Stability) -> Result<(), AllocError> {
    match stability {
        Stability::Unknown => Ok(()),
        Stability::Stable { since, deprecated } => {
            write!(out, " since {since}")?;
            write_deprecated(out, deprecated)
        }
        Stability::Unstable {
            feature,
            deprecated,
        } => {
            write!(out, " unstable {feature}")?;
            write_deprecated(out, deprecated)
        }
    }
}

fn write_deprecated(out: &mut String, deprecated: &Option<Version>) -> Result<(), AllocError> {
    match deprecated {
        Some(version) => write!(out, " deprecated {version}"),
        None => Ok(()),
    }
}

fn write_docs(out: &mut String, docs: &Docs) -> Result<(), AllocError> {
    match &docs.contents {
        Some(contents) => write!(out, " docs `{contents}`"),
        None => Ok(()),
    }
}

fn write_external_id(out: &mut String, external_id: &Option<Text>) -> Result<(), AllocError> {
    match external_id {
        Some(id) => write!(out, " external `{id}`"),
        None => Ok(()),
    }
}
