//! Why a line of a package isn't understood where it stands: a name that isn't there, or that is there already.
use std::alloc::{AllocError, Global};
use wit_data::{PackageName, ParsedUsePath, Text, TypeDefKind, TypeId, is_kebab_name};
use wit_script_lines::{
    LineFault, PackageLine, Signature, Statement, TypeText, TypedName, Written,
};
use wit_script_package::{Draft, Scope};

/// Why a line of a package breaks its shape.
pub fn culprit_reason(alloc: Global, said: Statement) -> Result<String, AllocError> {
    match said {
        Statement::Package(name) => package_reason(alloc, &name),
        Statement::Line { said, .. } => match said {
            PackageLine::Interface(name) => no_kebab(alloc, &name),
            PackageLine::World(name) => no_kebab(alloc, &name),
            _ => String::from_str(alloc, "a world can't include itself"),
        },
        _ => Ok(String::new(alloc)),
    }
}

/// Which part of a package's name is no kebab name.
fn package_reason(alloc: Global, name: &PackageName) -> Result<String, AllocError> {
    if is_kebab_name(name.namespace.as_str()) {
        return no_kebab(alloc, &name.name);
    }
    no_kebab(alloc, &name.namespace)
}

fn no_kebab(alloc: Global, name: &Text) -> Result<String, AllocError> {
    format!(in alloc; "{name} is no kebab name")
}

/// Why a line can't be added to a package: what is told where all that it names is there is that its own name is taken.
pub fn part_reason(alloc: Global, draft: &Draft, said: &PackageLine) -> Result<String, AllocError> {
    if let Some(text) = scope_reason(draft, said) {
        return String::from_str(alloc, text);
    }
    match missing(alloc, draft, said)? {
        Some(reason) => Ok(reason),
        None => taken(alloc, said),
    }
}

/// Where a line doesn't stand where it has to.
fn scope_reason(draft: &Draft, said: &PackageLine) -> Option<&'static str> {
    match said {
        PackageLine::Interface(_) | PackageLine::World(_) => None,
        PackageLine::Type_ { .. }
        | PackageLine::Record { .. }
        | PackageLine::Resource(_)
        | PackageLine::Use { .. } => match draft.scope {
            Scope::Package => Some("it goes into an interface or a world, and none is begun"),
            _ => None,
        },
        PackageLine::Function(_) => match draft.scope {
            Scope::Interface => None,
            _ => Some("it goes into an interface, and none is open"),
        },
        _ => match draft.scope {
            Scope::World => None,
            _ => Some("it goes into a world, and none is open"),
        },
    }
}

/// What a line names that isn't there.
fn missing(alloc: Global, draft: &Draft, said: &PackageLine) -> Result<Option<String>, AllocError> {
    match said {
        PackageLine::Interface(_) | PackageLine::World(_) | PackageLine::Resource(_) => Ok(None),
        PackageLine::Type_ { ty, .. } => missing_in(alloc, draft, ty),
        PackageLine::Record { fields, .. } => missing_among(alloc, draft, fields.as_slice()),
        PackageLine::Use { path, name, .. } => missing_type(alloc, draft, path, name),
        PackageLine::Function(said) => missing_of(alloc, draft, said),
        PackageLine::ImportFunction(said) => missing_of(alloc, draft, said),
        PackageLine::ExportFunction(said) => missing_of(alloc, draft, said),
        PackageLine::Import { path, .. } => missing_interface(alloc, draft, path),
        PackageLine::Export { path, .. } => missing_interface(alloc, draft, path),
        PackageLine::Include { path, .. } => missing_world(alloc, draft, path),
    }
}

/// The interface of a path, where it isn't there.
fn missing_interface(
    alloc: Global,
    draft: &Draft,
    path: &ParsedUsePath,
) -> Result<Option<String>, AllocError> {
    if draft.interface_named(path).is_some() {
        return Ok(None);
    }
    match path {
        ParsedUsePath::Name(name) => {
            Ok(Some(format!(in alloc; "{name} is no interface of an earlier line")?))
        }
        ParsedUsePath::Package(_, name) => {
            Ok(Some(format!(in alloc; "an earlier line takes {name} for a world")?))
        }
    }
}

/// The world of a path, where it isn't there.
fn missing_world(
    alloc: Global,
    draft: &Draft,
    path: &ParsedUsePath,
) -> Result<Option<String>, AllocError> {
    if draft.world_named(path).is_some() {
        return Ok(None);
    }
    match path {
        ParsedUsePath::Name(name) => {
            Ok(Some(format!(in alloc; "{name} is no world of an earlier line")?))
        }
        ParsedUsePath::Package(_, name) => {
            Ok(Some(format!(in alloc; "an earlier line takes {name} for an interface")?))
        }
    }
}

/// The type of a name in the interface of a path, or that interface, where it isn't there.
fn missing_type(
    alloc: Global,
    draft: &Draft,
    path: &ParsedUsePath,
    name: &Text,
) -> Result<Option<String>, AllocError> {
    if let Some(reason) = missing_interface(alloc, draft, path)? {
        return Ok(Some(reason));
    }
    match draft.used_type(path, name.as_str()) {
        Some(_) => Ok(None),
        None => Ok(Some(format!(in alloc; "the interface has no type {name} on an earlier line")?)),
    }
}

/// What the text of a type names that isn't there.
fn missing_in(alloc: Global, draft: &Draft, ty: &TypeText) -> Result<Option<String>, AllocError> {
    match &ty.core {
        Written::Named(name) => match draft.type_named(alloc, name.as_str()) {
            Ok(_) => Ok(None),
            Err(LineFault::NotUnderstood) => Ok(Some(no_type(alloc, name.as_str())?)),
            Err(LineFault::OutOfMemory) => Err(AllocError),
        },
        Written::Future | Written::Stream => Ok(None),
        Written::Own(name) => missing_resource(alloc, draft, name),
        Written::Borrow(name) => missing_resource(alloc, draft, name),
    }
}

fn no_type(alloc: Global, name: &str) -> Result<String, AllocError> {
    if name.is_empty() {
        return String::from_str(alloc, "a TYPE is missing");
    }
    format!(in alloc; "{name} is no type of an earlier line")
}

/// What a handle names, where it isn't there or is no resource.
fn missing_resource(
    alloc: Global,
    draft: &Draft,
    name: &Text,
) -> Result<Option<String>, AllocError> {
    match draft.earlier(alloc, name.as_str())? {
        Some(id) => {
            if may_be_resource(draft, id) {
                return Ok(None);
            }
            Ok(Some(format!(in alloc; "{name} is no resource")?))
        }
        None => Ok(Some(no_type(alloc, name.as_str())?)),
    }
}

/// Whether a type leads to a resource, or to a type of another package.
fn may_be_resource(draft: &Draft, id: TypeId) -> bool {
    let Some(root) = draft.roots.get(id.index()) else {
        return false;
    };
    match draft.types.get(root.index()) {
        Some(def) => matches!(&def.kind, TypeDefKind::Resource | TypeDefKind::Unknown),
        None => false,
    }
}

/// The first name of a type among some fields or parameters that isn't there.
fn missing_among(
    alloc: Global,
    draft: &Draft,
    parts: &[TypedName],
) -> Result<Option<String>, AllocError> {
    for part in parts {
        if let Some(reason) = missing_in(alloc, draft, &part.ty)? {
            return Ok(Some(reason));
        }
    }
    Ok(None)
}

/// What a function names that isn't there.
fn missing_of(
    alloc: Global,
    draft: &Draft,
    said: &Signature,
) -> Result<Option<String>, AllocError> {
    match draft.function_kind_of(alloc, said.name.as_str()) {
        Ok(_) => {}
        Err(LineFault::NotUnderstood) => return Ok(Some(no_member(alloc, &said.name)?)),
        Err(LineFault::OutOfMemory) => return Err(AllocError),
    }
    if let Some(reason) = missing_among(alloc, draft, said.params.as_slice())? {
        return Ok(Some(reason));
    }
    match &said.answer {
        Some(ty) => missing_in(alloc, draft, ty),
        None => Ok(None),
    }
}

fn no_member(alloc: Global, name: &Text) -> Result<String, AllocError> {
    format!(in alloc; "{name} has no name, or no resource of an earlier line, behind its brackets")
}

/// What a line names that is there already.
fn taken(alloc: Global, said: &PackageLine) -> Result<String, AllocError> {
    match said {
        PackageLine::Interface(name) => there_already(alloc, name),
        PackageLine::World(name) => there_already(alloc, name),
        PackageLine::Type_ { name, .. } => there_already(alloc, name),
        PackageLine::Record { name, .. } => there_already(alloc, name),
        PackageLine::Resource(name) => there_already(alloc, name),
        PackageLine::Use { new, .. } => there_already(alloc, new),
        PackageLine::Function(said) => there_already(alloc, &said.name),
        PackageLine::ImportFunction(said) => there_already(alloc, &said.name),
        PackageLine::ExportFunction(said) => there_already(alloc, &said.name),
        PackageLine::Import { label, path } => taken_entry(alloc, label, path),
        PackageLine::Export { label, path } => taken_entry(alloc, label, path),
        PackageLine::Include { .. } => Ok(String::new(alloc)),
    }
}

/// The label of an entry, or the name of its interface.
fn taken_entry(
    alloc: Global,
    label: &Option<Text>,
    path: &ParsedUsePath,
) -> Result<String, AllocError> {
    if let Some(label) = label {
        return there_already(alloc, label);
    }
    match path {
        ParsedUsePath::Name(name) => there_already(alloc, name),
        ParsedUsePath::Package(_, name) => there_already(alloc, name),
    }
}

fn there_already(alloc: Global, name: &Text) -> Result<String, AllocError> {
    format!(in alloc; "{name} is there already")
}
