//! Unresolved packages.
ghost use Rattle.std.specs.Prelude.{◌≡◌, ◌++◌, IfOk, OnOk, string_bytes};
ghost use Rattle.wit_names.specs.PackageName.{package_name_text};
ghost use Rattle.wit_json.specs.Worlds.{entry_name};
ghost use Rattle.json.specs.Json.{Json};
ghost use Rattle.json.specs.Tree.{json_tokens};
ghost use Rattle.wit_json.specs.Graph.{compact};
ghost use Rattle.wit_json.specs.Unresolved.{json_of_ast_item, json_of_foreign_item, json_of_gate, json_of_include, json_of_include_name, json_of_unresolved, whole_case, whole_enum_case, whole_field, whole_flag, whole_function, whole_interface, whole_interface_entry, whole_item, whole_kind, whole_param, whole_type, whole_type_entry, whole_world};
ghost use Rattle.wit_json.specs.Values.{list_of, member, object_under_names, tagged, object_by};
ghost use Rattle.wit_json.specs.steps.Members.{Adds};

use crate::writer::{JsonText, WriteJson, text_of};
use std::alloc::{AllocError, Global};
use wit_data::{
    AstItem, Case, Docs, EnumCase, Field, Flag, Function, IncludeName, Interface, InterfaceId,
    Items, Names, PackageName, Param, Span, Stability, Table, Text, TypeDef, TypeDefKind, TypeId,
    UnresolvedPackage, World, WorldInclude, WorldItem, WorldKey,
};

/// What is written with its span and its external id.
pub(crate) trait WriteWhole {
    /// It as a JSON value.
    ghost whole: { Self → Json };

    /// Writes it. The only error is want of memory, after which a part of it may be written.
    fn write_whole(&self, out: &mut JsonText) -> Result<(), AllocError>
        ensures { OnOk result (out.new ≡ out.old ++ json_tokens (whole self.now)) };
}

impl<T: WriteWhole> WriteWhole for Items<T> {
    ghost whole = { list_of T.whole };

    fn write_whole(&self, out: &mut JsonText) -> Result<(), AllocError> {
        out.begin_array()?;
        for item in self.as_slice() {
            item.write_whole(out)?;
        }
        out.end_array()
    }
}

impl<T: WriteWhole> WriteWhole for Names<T> {
    ghost whole = { object_under_names T.whole };

    fn write_whole(&self, out: &mut JsonText) -> Result<(), AllocError> {
        out.begin_object()?;
        for (name, value) in self.iter() {
            out.whole_member(name, value)?;
        }
        out.end_object()
    }
}

impl JsonText {
    /// Writes a member whose value is a whole thing.
    fn whole_member<T: WriteWhole>(&mut self, name: &str, value: &T) -> Result<(), AllocError>
        ensures { OnOk result (Adds self.old self.new (member name.now (T.whole value.now))) }
    {
        self.key(name)?;
        value.write_whole(self)
    }

    /// Writes an object of one member, whose value is a whole thing.
    fn whole_tagged<T: WriteWhole>(&mut self, name: &str, value: &T) -> Result<(), AllocError>
        ensures { OnOk result
            (self.new ≡ self.old ++ json_tokens (tagged name.now (T.whole value.now))) }
    {
        self.begin_tagged(name)?;
        value.write_whole(self)?;
        self.end_object()
    }

    /// Writes an object of one member, whose value is an object with a list of whole things alone.
    fn whole_list<T: WriteWhole>(
        &mut self,
        tag: &str,
        name: &str,
        items: &Items<T>,
    ) -> Result<(), AllocError>
        ensures { OnOk result (self.new
            ≡ self.old
            ++ json_tokens (tagged tag.now (tagged name.now (list_of T.whole items.now)))) }
    {
        self.begin_tagged(tag)?;
        self.whole_tagged(name, items)?;
        self.end_object()
    }
}

impl WriteWhole for Field {
    ghost whole = { whole_field };

    fn write_whole(&self, out: &mut JsonText) -> Result<(), AllocError> {
        out.begin_object()?;
        out.member("name", &self.name)?;
        out.member("type", &self.ty)?;
        out.docs(&self.docs)?;
        out.span(self.span)?;
        out.end_object()
    }
}

impl WriteWhole for Case {
    ghost whole = { whole_case };

    fn write_whole(&self, out: &mut JsonText) -> Result<(), AllocError> {
        out.begin_object()?;
        out.member("name", &self.name)?;
        out.member("type", &self.ty)?;
        out.docs(&self.docs)?;
        out.span(self.span)?;
        out.end_object()
    }
}

impl WriteWhole for Flag {
    ghost whole = { whole_flag };

    fn write_whole(&self, out: &mut JsonText) -> Result<(), AllocError> {
        out.begin_object()?;
        out.member("name", &self.name)?;
        out.docs(&self.docs)?;
        out.span(self.span)?;
        out.end_object()
    }
}

impl WriteWhole for EnumCase {
    ghost whole = { whole_enum_case };

    fn write_whole(&self, out: &mut JsonText) -> Result<(), AllocError> {
        out.begin_object()?;
        out.member("name", &self.name)?;
        out.docs(&self.docs)?;
        out.span(self.span)?;
        out.end_object()
    }
}

impl WriteWhole for TypeDefKind {
    ghost whole = { whole_kind };

    fn write_whole(&self, out: &mut JsonText) -> Result<(), AllocError> {
        match self {
            TypeDefKind::Record { fields } => out.whole_list("record", "fields", fields),
            TypeDefKind::Flags { flags } => out.whole_list("flags", "flags", flags),
            TypeDefKind::Variant { cases } => out.whole_list("variant", "cases", cases),
            TypeDefKind::Enum { cases } => out.whole_list("enum", "cases", cases),
            _ => self.write_json(out),
        }
    }
}

impl WriteWhole for TypeDef {
    ghost whole = { whole_type };

    fn write_whole(&self, out: &mut JsonText) -> Result<(), AllocError> {
        out.begin_object()?;
        out.member("name", &self.name)?;
        out.whole_member("kind", &self.kind)?;
        out.member("owner", &self.owner)?;
        out.docs(&self.docs)?;
        out.stability(&self.stability)?;
        out.span(self.span)?;
        out.external_id(&self.external_id)?;
        out.end_object()
    }
}

impl WriteWhole for Param {
    ghost whole = { whole_param };

    fn write_whole(&self, out: &mut JsonText) -> Result<(), AllocError> {
        out.begin_object()?;
        out.member("name", &self.name)?;
        out.member("type", &self.ty)?;
        out.span(self.span)?;
        out.end_object()
    }
}

impl WriteWhole for Function {
    ghost whole = { whole_function };

    fn write_whole(&self, out: &mut JsonText) -> Result<(), AllocError> {
        out.begin_object()?;
        out.member("name", &self.name)?;
        out.member("kind", &self.kind)?;
        out.whole_member("params", &self.params)?;
        out.optional("result", &self.result_)?;
        out.docs(&self.docs)?;
        out.stability(&self.stability)?;
        out.span(self.span)?;
        out.external_id(&self.external_id)?;
        out.end_object()
    }
}

impl WriteWhole for Interface {
    ghost whole = { whole_interface };

    fn write_whole(&self, out: &mut JsonText) -> Result<(), AllocError> {
        out.begin_object()?;
        out.member("name", &self.name)?;
        out.member("types", &self.types)?;
        out.whole_member("functions", &self.functions)?;
        out.docs(&self.docs)?;
        out.stability(&self.stability)?;
        out.span(self.span)?;
        out.end_object()
    }
}

impl JsonText {
    /// Writes an interface that a world imports or exports.
    fn whole_interface_entry(
        &mut self,
        id: InterfaceId,
        stability: &Stability,
        docs: &Docs,
        span: Span,
        external_id: &Option<Text>,
    ) -> Result<(), AllocError>
        ensures { OnOk result (self.new
            ≡ self.old
            ++ json_tokens
            (whole_interface_entry id stability.now docs.now span external_id.now)) }
    {
        self.begin_object()?;
        self.member("id", &id)?;
        self.stability(stability)?;
        self.docs(docs)?;
        self.span(span)?;
        self.external_id(external_id)?;
        self.end_object()
    }

    /// Writes a type of a world: its id alone, or with its span.
    fn type_entry(&mut self, id: TypeId, span: Span) -> Result<(), AllocError>
        ensures { OnOk result (self.new ≡ self.old ++ json_tokens (whole_type_entry id span)) }
    {
        if !span.is_known() {
            return id.write_json(self);
        }
        self.begin_object()?;
        self.member("id", &id)?;
        self.member("span", &span)?;
        self.end_object()
    }
}

impl WriteWhole for WorldItem {
    ghost whole = { whole_item };

    fn write_whole(&self, out: &mut JsonText) -> Result<(), AllocError> {
        match self {
            WorldItem::Interface {
                id,
                stability,
                docs,
                span,
                external_id,
            } => {
                out.begin_tagged("interface")?;
                out.whole_interface_entry(*id, stability, docs, *span, external_id)?;
                out.end_object()
            }
            WorldItem::Function(function) => out.whole_tagged("function", function),
            WorldItem::Type_ { id, span } => {
                out.begin_tagged("type")?;
                out.type_entry(*id, *span)?;
                out.end_object()
            }
        }
    }
}

impl WriteWhole for Table<WorldKey, WorldItem> {
    ghost whole = { object_by entry_name whole_item };

    fn write_whole(&self, out: &mut JsonText) -> Result<(), AllocError> {
        out.begin_object()?;
        for (key, item) in self.iter() {
            out.entry_name(key)?;
            item.write_whole(out)?;
        }
        out.end_object()
    }
}

impl WriteJson for IncludeName {
    ghost json = { json_of_include_name };

    fn write_json(&self, out: &mut JsonText) -> Result<(), AllocError> {
        out.begin_object()?;
        out.member("name", &self.name)?;
        out.member("as", &self.as_)?;
        out.end_object()
    }
}

impl WriteJson for WorldInclude {
    ghost json = { json_of_include };

    fn write_json(&self, out: &mut JsonText) -> Result<(), AllocError> {
        out.begin_object()?;
        out.member("id", &self.id)?;
        out.member("names", &self.names)?;
        out.stability(&self.stability)?;
        out.span(self.span)?;
        out.end_object()
    }
}

impl WriteWhole for World {
    ghost whole = { whole_world };

    fn write_whole(&self, out: &mut JsonText) -> Result<(), AllocError> {
        out.begin_object()?;
        out.member("name", &self.name)?;
        out.whole_member("imports", &self.imports)?;
        out.whole_member("exports", &self.exports)?;
        out.member("includes", &self.includes)?;
        out.docs(&self.docs)?;
        out.stability(&self.stability)?;
        out.span(self.span)?;
        out.end_object()
    }
}

impl WriteJson for AstItem {
    ghost json = { json_of_ast_item };

    fn write_json(&self, out: &mut JsonText) -> Result<(), AllocError> {
        match self {
            AstItem::Interface(id) => out.tagged("interface", id),
            AstItem::World(id) => out.tagged("world", id),
        }
    }
}

/// `null` where there is no gate.
impl WriteJson for Stability {
    ghost json = { json_of_gate };

    fn write_json(&self, out: &mut JsonText) -> Result<(), AllocError> {
        match self {
            Stability::Unknown => out.null(),
            Stability::Stable { since, deprecated } => {
                out.gate("stable", "since", since, deprecated)
            }
            Stability::Unstable {
                feature,
                deprecated,
            } => out.gate("unstable", "feature", feature, deprecated),
        }
    }
}

impl WriteJson for Table<PackageName, Names<(AstItem, Items<Stability>)>> {
    ghost json = { object_by package_name_text (object_under_names json_of_foreign_item) };

    fn write_json(&self, out: &mut JsonText) -> Result<(), AllocError> {
        let alloc = out.allocator();
        out.begin_object()?;
        for (name, named) in self.iter() {
            let text = format!(in alloc; "{name}")?;
            out.member(text.as_str(), named)?;
        }
        out.end_object()
    }
}

impl WriteJson for UnresolvedPackage {
    ghost json = { json_of_unresolved };

    fn write_json(&self, out: &mut JsonText) -> Result<(), AllocError> {
        out.begin_object()?;
        out.member("name", &self.name)?;
        out.span(self.package_name_span)?;
        out.docs(&self.docs)?;
        out.whole_member("worlds", &self.worlds)?;
        out.whole_member("interfaces", &self.interfaces)?;
        out.whole_member("types", &self.types)?;
        out.member("foreign-deps", &self.foreign_deps)?;
        out.member("foreign-dep-spans", &self.foreign_dep_spans)?;
        out.member("unknown-type-spans", &self.unknown_type_spans)?;
        out.member("required-resources", &self.required_resource_types)?;
        out.end_object()
    }
}

/// An unresolved package as JSON, without a space. The only error is want of memory.
pub fn package_to_json(alloc: Global, package: &UnresolvedPackage) -> Result<String, AllocError>
    ensures { IfOk result (λ text. string_bytes text ≡ compact (json_of_unresolved «package».now)) }
{
    text_of(alloc, package)
}
