//! What each line makes of a package.
ghost use Rattle.std.specs.Prelude.{◌≡◌, IfOk};
ghost use Rattle.wit_script_package.specs.steps.DraftResult.{DraftResult};
ghost use Rattle.wit_script_package.specs.Lines.{interface_entry, key_of, with_gated_line};
ghost use Rattle.wit_script_package.specs.steps.Parts.{with_type_line, with_record, with_use, with_function_line, with_import_line, with_export_line, with_imported_function, with_exported_function, include_item, with_include_line};

use crate::draft::{Draft, LineContext};
use std::alloc::{AllocError, Global};
use wit_data::{
    Docs, IncludeName, InterfaceId, Items, ParsedUsePath, Text, TryClone, Type_, TypeDefKind,
    WorldId, WorldInclude, WorldItem, WorldKey,
};
use wit_script_lines::{LineFault, PackageLine, Signature, TypeText, TypedName};

/// A label, or else the interface itself.
fn key_of(label: Option<Text>, id: InterfaceId) -> WorldKey
    ensures { result ≡ key_of label id }
{
    match label {
        Some(label) => WorldKey::Name(label),
        None => WorldKey::Interface(id),
    }
}

/// The entry of an interface.
fn interface_entry(id: InterfaceId, here: &LineContext) -> Result<WorldItem, AllocError>
    ensures { IfOk result (λ entry. entry ≡ interface_entry id here.now) }
{
    let stability = here.gate.try_clone()?;
    Ok(WorldItem::Interface {
        id,
        stability,
        docs: Docs::none(),
        span: here.span,
        external_id: None,
    })
}

/// The include of a world.
fn include_item(
    id: WorldId,
    names: Items<IncludeName>,
    here: &LineContext,
) -> Result<WorldInclude, AllocError>
    ensures { IfOk result (λ include. include ≡ include_item id names here.now) }
{
    let stability = here.gate.try_clone()?;
    Ok(WorldInclude {
        stability,
        id,
        names,
        span: here.span,
    })
}

impl Draft {
    /// Adds what a line says that stands here. Not understood where what it names isn't there, or isn't
    /// what it is named for; where a name or a key that it adds is there; where a function's name isn't
    /// understood, as `function_kind_of` says; and where lines go into no interface or world that takes it. Else
    /// only want of memory is an error. After a fault nothing is told of the package.
    pub fn add(
        &mut self,
        alloc: Global,
        said: PackageLine,
        here: &LineContext,
    ) -> Result<(), LineFault>
        ensures { DraftResult (with_gated_line self.old said here.now) result self.new }
    {
        match said {
            PackageLine::Interface(name) => self.add_interface(alloc, name, here),
            PackageLine::World(name) => self.add_world(alloc, name, here),
            PackageLine::Type_ { name, ty } => self.add_type_line(alloc, name, &ty, here),
            PackageLine::Record { name, fields } => self.add_record(alloc, name, fields, here),
            PackageLine::Resource(name) => self.add_named(alloc, name, TypeDefKind::Resource, here),
            PackageLine::Use { path, name, new } => self.add_use(alloc, &path, &name, new, here),
            PackageLine::Function(said) => self.add_function_line(alloc, said, here),
            PackageLine::Import { label, path } => self.add_import_line(label, &path, here),
            PackageLine::Export { label, path } => self.add_export_line(label, &path, here),
            PackageLine::ImportFunction(said) => self.add_imported_function(alloc, said, here),
            PackageLine::ExportFunction(said) => self.add_exported_function(alloc, said, here),
            PackageLine::Include { path, names } => self.add_include_line(&path, names, here),
        }
    }

    /// `type NAME TYPE`
    fn add_type_line(
        &mut self,
        alloc: Global,
        name: Text,
        ty: &TypeText,
        here: &LineContext,
    ) -> Result<(), LineFault>
        ensures { DraftResult (with_type_line self.old name ty.now here.now) result self.new }
    {
        let kind = self.make_kind(alloc, ty, here)?;
        self.add_named(alloc, name, kind, here)
    }

    /// `record NAME F:TYPE ..`
    fn add_record(
        &mut self,
        alloc: Global,
        name: Text,
        fields: Items<TypedName>,
        here: &LineContext,
    ) -> Result<(), LineFault>
        ensures { DraftResult (with_record self.old name fields here.now) result self.new }
    {
        let fields = self.make_fields(alloc, fields, here)?;
        self.add_named(alloc, name, TypeDefKind::Record { fields }, here)
    }

    /// `use PATH NAME NEW`
    fn add_use(
        &mut self,
        alloc: Global,
        path: &ParsedUsePath,
        name: &Text,
        new: Text,
        here: &LineContext,
    ) -> Result<(), LineFault>
        ensures { DraftResult (with_use self.old path.now name.now new here.now) result self.new }
    {
        match self.used_type(path, name.as_str()) {
            Some(id) => self.add_named(alloc, new, TypeDefKind::Type_(Type_::Id(id)), here),
            None => Err(LineFault::NotUnderstood),
        }
    }

    /// `func SIG`
    fn add_function_line(
        &mut self,
        alloc: Global,
        said: Signature,
        here: &LineContext,
    ) -> Result<(), LineFault>
        ensures { DraftResult (with_function_line self.old said here.now) result self.new }
    {
        let function = self.make_function(alloc, said, here)?;
        self.add_function(alloc, function)
    }

    /// `import PATH` or `import LABEL=PATH`
    fn add_import_line(
        &mut self,
        label: Option<Text>,
        path: &ParsedUsePath,
        here: &LineContext,
    ) -> Result<(), LineFault>
        ensures { DraftResult (with_import_line self.old label path.now here.now) result self.new }
    {
        match self.interface_named(path) {
            Some(id) => {
                let entry = interface_entry(id, here)?;
                self.add_import(key_of(label, id), entry)
            }
            None => Err(LineFault::NotUnderstood),
        }
    }

    /// `export PATH` or `export LABEL=PATH`
    fn add_export_line(
        &mut self,
        label: Option<Text>,
        path: &ParsedUsePath,
        here: &LineContext,
    ) -> Result<(), LineFault>
        ensures { DraftResult (with_export_line self.old label path.now here.now) result self.new }
    {
        match self.interface_named(path) {
            Some(id) => {
                let entry = interface_entry(id, here)?;
                self.add_export(key_of(label, id), entry)
            }
            None => Err(LineFault::NotUnderstood),
        }
    }

    /// `import-func SIG`
    fn add_imported_function(
        &mut self,
        alloc: Global,
        said: Signature,
        here: &LineContext,
    ) -> Result<(), LineFault>
        ensures { DraftResult (with_imported_function self.old said here.now) result self.new }
    {
        let function = self.make_function(alloc, said, here)?;
        let key = WorldKey::Name(function.name.try_clone()?);
        self.add_import(key, WorldItem::Function(function))
    }

    /// `export-func SIG`
    fn add_exported_function(
        &mut self,
        alloc: Global,
        said: Signature,
        here: &LineContext,
    ) -> Result<(), LineFault>
        ensures { DraftResult (with_exported_function self.old said here.now) result self.new }
    {
        let function = self.make_function(alloc, said, here)?;
        let key = WorldKey::Name(function.name.try_clone()?);
        self.add_export(key, WorldItem::Function(function))
    }

    /// `include PATH OLD=NEW ..`
    fn add_include_line(
        &mut self,
        path: &ParsedUsePath,
        names: Items<IncludeName>,
        here: &LineContext,
    ) -> Result<(), LineFault>
        ensures { DraftResult (with_include_line self.old path.now names here.now) result self.new }
    {
        match self.world_named(path) {
            Some(id) => {
                let include = include_item(id, names, here)?;
                self.add_include(include)
            }
            None => Err(LineFault::NotUnderstood),
        }
    }
}
