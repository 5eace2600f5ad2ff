//! A number for a graph: two graphs of one number are the same, but for a clash.
use std::fmt;
use std::fmt::Write;
use wit_graph::Graph;
use wit_items::{
    Function, Handle, Interface, Names, Table, Type_, TypeDef, TypeDefKind, TypeOwner, World,
    WorldItem, WorldKey,
};

/// The number of a graph.
pub fn graph_sum(graph: &Graph) -> Option<u64> {
    let mut sum = Sum {
        value: 14_695_981_039_346_656_037,
    };
    add_graph(&mut sum, graph).ok()?;
    Some(sum.value)
}

/// FNV-1a over the texts that are written to it.
#[derive(Drop)]
struct Sum {
    value: u64,
}

impl Write for Sum {
    fn write_str(&mut self, text: &str) -> fmt::Result {
        for byte in text.as_bytes() {
            self.value = (self.value ^ (*byte as u64)).wrapping_mul(1_099_511_628_211);
        }
        Ok(())
    }
}

fn add_graph(sum: &mut Sum, graph: &Graph) -> fmt::Result {
    write!(sum, "{:?} {:?}", graph.packages, graph.package_names)?;
    for interface in graph.interfaces.iter() {
        add_interface(sum, interface)?;
    }
    for world in graph.worlds.iter() {
        add_world(sum, world)?;
    }
    for def in graph.types.iter() {
        add_type_def(sum, def)?;
    }
    Ok(())
}

fn add_interface(sum: &mut Sum, interface: &Interface) -> fmt::Result {
    write!(sum, "{:?} {:?}", interface.name, interface.types)?;
    write!(sum, "{:?} {:?}", interface.docs, interface.stability)?;
    write!(sum, "{:?} {:?}", interface.package, interface.span)?;
    add_functions(sum, &interface.functions)
}

fn add_functions(sum: &mut Sum, functions: &Names<Function>) -> fmt::Result {
    for (name, function) in functions.iter() {
        write!(sum, "{name:?}")?;
        add_function(sum, function)?;
    }
    Ok(())
}

fn add_function(sum: &mut Sum, function: &Function) -> fmt::Result {
    let (resource, accessor) = (function.kind.resource(), function.kind.accessor());
    write!(sum, "{:?} {resource:?} {accessor:?}", function.name)?;
    write!(sum, "{:?} {:?}", function.docs, function.stability)?;
    write!(sum, "{:?} {:?}", function.span, function.external_id)?;
    for param in function.params.iter() {
        write!(sum, "{:?} {:?}", param.name, param.span)?;
        add_type(sum, param.ty)?;
    }
    add_optional_type(sum, function.result_)
}

fn add_world(sum: &mut Sum, world: &World) -> fmt::Result {
    write!(sum, "{:?} {:?}", world.name, world.includes.len())?;
    write!(sum, "{:?} {:?}", world.docs, world.stability)?;
    write!(sum, "{:?} {:?}", world.package, world.span)?;
    add_entries(sum, &world.imports)?;
    add_entries(sum, &world.exports)
}

fn add_entries(sum: &mut Sum, entries: &Table<WorldKey, WorldItem>) -> fmt::Result {
    write!(sum, "{}", entries.len())?;
    for (key, item) in entries.iter() {
        match key {
            WorldKey::Name(label) => write!(sum, "{label:?}")?,
            WorldKey::Interface(id) => write!(sum, "{id:?}")?,
        }
        add_item(sum, item)?;
    }
    Ok(())
}

fn add_item(sum: &mut Sum, item: &WorldItem) -> fmt::Result {
    match item {
        WorldItem::Interface {
            id,
            stability,
            docs,
            span,
            external_id,
        } => write!(
            sum,
            "{id:?} {stability:?} {docs:?} {span:?} {external_id:?}"
        ),
        WorldItem::Function(function) => add_function(sum, function),
        WorldItem::Type_ { id, span } => write!(sum, "{id:?} {span:?}"),
    }
}

fn add_type_def(sum: &mut Sum, def: &TypeDef) -> fmt::Result {
    write!(sum, "{:?} {:?}", def.name, def.external_id)?;
    write!(sum, "{:?} {:?} {:?}", def.docs, def.stability, def.span)?;
    match def.owner {
        TypeOwner::World(id) => write!(sum, "world {id:?}")?,
        TypeOwner::Interface(id) => write!(sum, "interface {id:?}")?,
        TypeOwner::None => write!(sum, "nobody")?,
    }
    add_kind(sum, &def.kind)
}

fn add_kind(sum: &mut Sum, kind: &TypeDefKind) -> fmt::Result {
    match kind {
        TypeDefKind::Record { fields } => {
            for field in fields.iter() {
                write!(sum, "{:?} {:?} {:?}", field.name, field.docs, field.span)?;
                add_type(sum, field.ty)?;
            }
            write!(sum, "record")
        }
        TypeDefKind::Flags { flags } => {
            for flag in flags.iter() {
                write!(sum, "{:?} {:?} {:?}", flag.name, flag.docs, flag.span)?;
            }
            write!(sum, "flags")
        }
        TypeDefKind::Tuple { types } => {
            for ty in types.iter() {
                add_type(sum, *ty)?;
            }
            write!(sum, "tuple")
        }
        TypeDefKind::Variant { cases } => {
            for case in cases.iter() {
                write!(sum, "{:?} {:?} {:?}", case.name, case.docs, case.span)?;
                add_optional_type(sum, case.ty)?;
            }
            write!(sum, "variant")
        }
        TypeDefKind::Enum { cases } => {
            for case in cases.iter() {
                write!(sum, "{:?} {:?} {:?}", case.name, case.docs, case.span)?;
            }
            write!(sum, "enum")
        }
        _ => add_small_kind(sum, kind),
    }
}

/// A kind that has no list.
fn add_small_kind(sum: &mut Sum, kind: &TypeDefKind) -> fmt::Result {
    match kind {
        TypeDefKind::Handle(Handle::Own(id)) => write!(sum, "own {id:?}"),
        TypeDefKind::Handle(Handle::Borrow(id)) => write!(sum, "borrow {id:?}"),
        TypeDefKind::Option(ty) => add_parts(sum, "option", Some(*ty), None),
        TypeDefKind::Result_ { ok, err } => add_parts(sum, "result", *ok, *err),
        TypeDefKind::List(ty) => add_parts(sum, "list", Some(*ty), None),
        TypeDefKind::Map(key, value) => add_parts(sum, "map", Some(*key), Some(*value)),
        TypeDefKind::FixedLengthList(ty, len) => {
            write!(sum, "{len}")?;
            add_parts(sum, "list of", Some(*ty), None)
        }
        TypeDefKind::Future(ty) => add_parts(sum, "future", *ty, None),
        TypeDefKind::Stream(ty) => add_parts(sum, "stream", *ty, None),
        TypeDefKind::Type_(ty) => add_parts(sum, "alias", Some(*ty), None),
        TypeDefKind::Resource => write!(sum, "resource"),
        _ => write!(sum, "unknown"),
    }
}

fn add_parts(
    sum: &mut Sum,
    word: &str,
    first: Option<Type_>,
    second: Option<Type_>,
) -> fmt::Result {
    write!(sum, "{word}")?;
    add_optional_type(sum, first)?;
    add_optional_type(sum, second)
}

fn add_optional_type(sum: &mut Sum, ty: Option<Type_>) -> fmt::Result {
    match ty {
        Some(ty) => add_type(sum, ty),
        None => write!(sum, "none"),
    }
}

fn add_type(sum: &mut Sum, ty: Type_) -> fmt::Result {
    if let Type_::Id(id) = ty {
        return write!(sum, "{id:?}");
    }
    let name = match ty {
        Type_::Bool => "bool",
        Type_::U8 => "u8",
        Type_::U16 => "u16",
        Type_::U32 => "u32",
        Type_::U64 => "u64",
        Type_::S8 => "s8",
        Type_::S16 => "s16",
        Type_::S32 => "s32",
        Type_::S64 => "s64",
        Type_::F32 => "f32",
        Type_::F64 => "f64",
        Type_::Char => "char",
        Type_::String => "string",
        _ => "error-context",
    };
    write!(sum, "{name}")
}
