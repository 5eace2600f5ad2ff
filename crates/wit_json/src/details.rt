//! What the layout leaves out of a graph.
ghost use Rattle.std.specs.Prelude.{◌≡◌, ◌++◌, OnOk};
ghost use Rattle.wit_json.specs.Worlds.{entry_name};
ghost use Rattle.json.specs.Json.{Json};
ghost use Rattle.json.specs.Tree.{json_tokens};
ghost use Rattle.wit_json.specs.Details.{external_id_member, function_details, graph_details, interface_details, item_details, json_of_span, parts_member, span_member, type_details, world_details};
ghost use Rattle.wit_json.specs.Values.{list_of, member, object_under_names, object_by};
ghost use Rattle.wit_json.specs.steps.Members.{Adds};

use crate::writer::{JsonText, WriteJson};
use std::alloc::AllocError;
use wit_data::{
    Case, EnumCase, Field, Flag, Function, Interface, Items, Names, Param, Span, Table, Text,
    TypeDef, TypeDefKind, World, WorldItem, WorldKey,
};
use wit_graph_data::Graph;

/// Of what something is written that the layout leaves out.
pub(crate) trait WriteDetails {
    /// It as a JSON value.
    ghost details: { Self → Json };

    /// Writes it. The only error is want of memory, after which a part of it may be written.
    fn write_details(&self, out: &mut JsonText) -> Result<(), AllocError>
        ensures { OnOk result (out.new ≡ out.old ++ json_tokens (details self.now)) };
}

/// `null` where it is unknown.
impl WriteJson for Span {
    ghost json = { json_of_span };

    fn write_json(&self, out: &mut JsonText) -> Result<(), AllocError> {
        let span = *self;
        if span.is_known() {
            (span.start(), span.end()).write_json(out)
        } else {
            out.null()
        }
    }
}

impl JsonText {
    /// Writes a span, where it is known.
    pub fn span(&mut self, span: Span) -> Result<(), AllocError>
        ensures { OnOk result (Adds self.old self.new (span_member span)) }
    {
        if span.is_known() {
            self.member("span", &span)
        } else {
            Ok(())
        }
    }

    /// Writes an external id, where there is one.
    pub fn external_id(&mut self, id: &Option<Text>) -> Result<(), AllocError>
        ensures { OnOk result (Adds self.old self.new (external_id_member id.now)) }
    {
        self.optional("external-id", id)
    }

    /// Writes what is left out of a thing under a name.
    pub(crate) fn details<T: WriteDetails>(
        &mut self,
        name: &str,
        value: &T,
    ) -> Result<(), AllocError>
        ensures { OnOk result (Adds self.old self.new (member name.now (T.details value.now))) }
    {
        self.key(name)?;
        value.write_details(self)
    }

    /// Writes what is left out of each of some things.
    pub(crate) fn details_list<T: WriteDetails>(&mut self, items: &[T]) -> Result<(), AllocError>
        ensures { OnOk result
            (self.new ≡ self.old ++ json_tokens (list_of T.details items.now)) }
    {
        self.begin_array()?;
        for item in items {
            item.write_details(self)?;
        }
        self.end_array()
    }

    /// Writes the spans of the fields, the flags or the cases of a type that has some.
    fn parts(&mut self, kind: &TypeDefKind) -> Result<(), AllocError>
        ensures { OnOk result (Adds self.old self.new (parts_member kind.now)) }
    {
        match kind {
            TypeDefKind::Record { fields } => self.details("parts", fields),
            TypeDefKind::Flags { flags } => self.details("parts", flags),
            TypeDefKind::Variant { cases } => self.details("parts", cases),
            TypeDefKind::Enum { cases } => self.details("parts", cases),
            _ => Ok(()),
        }
    }
}

impl<T: WriteDetails> WriteDetails for Items<T> {
    ghost details = { list_of T.details };

    fn write_details(&self, out: &mut JsonText) -> Result<(), AllocError> {
        out.details_list(self.as_slice())
    }
}

impl<T: WriteDetails> WriteDetails for Names<T> {
    ghost details = { object_under_names T.details };

    fn write_details(&self, out: &mut JsonText) -> Result<(), AllocError> {
        out.begin_object()?;
        for (name, value) in self.iter() {
            out.details(name, value)?;
        }
        out.end_object()
    }
}

impl WriteDetails for Field {
    ghost details = { λ f. json_of_span f.span };

    fn write_details(&self, out: &mut JsonText) -> Result<(), AllocError> {
        self.span.write_json(out)
    }
}

impl WriteDetails for Flag {
    ghost details = { λ f. json_of_span f.span };

    fn write_details(&self, out: &mut JsonText) -> Result<(), AllocError> {
        self.span.write_json(out)
    }
}

impl WriteDetails for Case {
    ghost details = { λ c. json_of_span c.span };

    fn write_details(&self, out: &mut JsonText) -> Result<(), AllocError> {
        self.span.write_json(out)
    }
}

impl WriteDetails for EnumCase {
    ghost details = { λ c. json_of_span c.span };

    fn write_details(&self, out: &mut JsonText) -> Result<(), AllocError> {
        self.span.write_json(out)
    }
}

impl WriteDetails for Param {
    ghost details = { λ p. json_of_span p.span };

    fn write_details(&self, out: &mut JsonText) -> Result<(), AllocError> {
        self.span.write_json(out)
    }
}

impl WriteDetails for TypeDef {
    ghost details = { type_details };

    fn write_details(&self, out: &mut JsonText) -> Result<(), AllocError> {
        out.begin_object()?;
        out.span(self.span)?;
        out.external_id(&self.external_id)?;
        out.parts(&self.kind)?;
        out.end_object()
    }
}

impl WriteDetails for Function {
    ghost details = { function_details };

    fn write_details(&self, out: &mut JsonText) -> Result<(), AllocError> {
        out.begin_object()?;
        out.span(self.span)?;
        out.external_id(&self.external_id)?;
        out.details("params", &self.params)?;
        out.end_object()
    }
}

impl WriteDetails for Interface {
    ghost details = { interface_details };

    fn write_details(&self, out: &mut JsonText) -> Result<(), AllocError> {
        out.begin_object()?;
        out.span(self.span)?;
        out.details("functions", &self.functions)?;
        out.end_object()
    }
}

impl WriteDetails for WorldItem {
    ghost details = { item_details };

    fn write_details(&self, out: &mut JsonText) -> Result<(), AllocError> {
        match self {
            WorldItem::Interface {
                docs,
                span,
                external_id,
                ..
            } => {
                out.begin_object()?;
                out.docs(docs)?;
                out.span(*span)?;
                out.external_id(external_id)?;
                out.end_object()
            }
            WorldItem::Function(function) => function.write_details(out),
            WorldItem::Type_ { span, .. } => {
                out.begin_object()?;
                out.span(*span)?;
                out.end_object()
            }
        }
    }
}

impl WriteDetails for Table<WorldKey, WorldItem> {
    ghost details = { object_by entry_name item_details };

    fn write_details(&self, out: &mut JsonText) -> Result<(), AllocError> {
        out.begin_object()?;
        for (key, item) in self.iter() {
            out.entry_name(key)?;
            item.write_details(out)?;
        }
        out.end_object()
    }
}

impl WriteDetails for World {
    ghost details = { world_details };

    fn write_details(&self, out: &mut JsonText) -> Result<(), AllocError> {
        out.begin_object()?;
        out.span(self.span)?;
        out.details("imports", &self.imports)?;
        out.details("exports", &self.exports)?;
        out.end_object()
    }
}

impl WriteDetails for Graph {
    ghost details = { graph_details };

    fn write_details(&self, out: &mut JsonText) -> Result<(), AllocError> {
        out.begin_object()?;
        out.details("worlds", &self.worlds)?;
        out.details("interfaces", &self.interfaces)?;
        out.details("types", &self.types)?;
        out.end_object()
    }
}
