//! The details of each sort of thing.
ghost use Rattle.json.specs.Value.{value_view};
ghost use Rattle.wit_data.specs.declared.function.Param.{Param};
ghost use Rattle.wit_data.specs.declared.types.Case.{Case};
ghost use Rattle.wit_data.specs.declared.types.EnumCase.{EnumCase};
ghost use Rattle.wit_data.specs.declared.types.Field.{Field};
ghost use Rattle.wit_data.specs.declared.types.Flag.{Flag};
ghost use Rattle.wit_json_graphs.specs.steps.Completes.{Completes};
ghost use Rattle.wit_json_graphs.specs.Details.{entry_with, function_with_details, graph_with, interface_with, item_with, kind_with, span_alone, type_with_details, world_with, with_span};

use crate::details::{ReadDetails, required_details};
use json::Value;
use std::alloc::Global;
use wit_data::{
    Case, Docs, EnumCase, Field, Flag, Function, Interface, Param, Span, Text, TypeDef,
    TypeDefKind, World, WorldItem,
};
use wit_graph_data::Graph;
use wit_json_reading::{ReadError, ReadJson, docs, only, optional, span};

impl ReadDetails for Field {
    ghost detailed = { with_span (λ (f : Field) span. record f { span = span }) };

    fn read_details(&mut self, alloc: Global, value: &Value<'_>) -> Result<(), ReadError> {
        self.span = ReadJson::read_json(alloc, value)?;
        Ok(())
    }
}

impl ReadDetails for Flag {
    ghost detailed = { with_span (λ (f : Flag) span. record f { span = span }) };

    fn read_details(&mut self, alloc: Global, value: &Value<'_>) -> Result<(), ReadError> {
        self.span = ReadJson::read_json(alloc, value)?;
        Ok(())
    }
}

impl ReadDetails for Case {
    ghost detailed = { with_span (λ (c : Case) span. record c { span = span }) };

    fn read_details(&mut self, alloc: Global, value: &Value<'_>) -> Result<(), ReadError> {
        self.span = ReadJson::read_json(alloc, value)?;
        Ok(())
    }
}

impl ReadDetails for EnumCase {
    ghost detailed = { with_span (λ (c : EnumCase) span. record c { span = span }) };

    fn read_details(&mut self, alloc: Global, value: &Value<'_>) -> Result<(), ReadError> {
        self.span = ReadJson::read_json(alloc, value)?;
        Ok(())
    }
}

impl ReadDetails for TypeDefKind {
    ghost detailed = { kind_with };

    #[tactic(auto, unfolding(crate::specs::Details::kind_with))]
    fn read_details(&mut self, alloc: Global, value: &Value<'_>) -> Result<(), ReadError> {
        match self {
            TypeDefKind::Record { fields } => required_details(alloc, value, "parts", fields),
            TypeDefKind::Flags { flags } => required_details(alloc, value, "parts", flags),
            TypeDefKind::Variant { cases } => required_details(alloc, value, "parts", cases),
            TypeDefKind::Enum { cases } => required_details(alloc, value, "parts", cases),
            _ => only(alloc, value, &["span", "external-id"]),
        }
    }
}

impl ReadDetails for TypeDef {
    ghost detailed = { type_with_details };

    #[tactic(auto, unfolding(crate::specs::Details::type_with_details))]
    fn read_details(&mut self, alloc: Global, value: &Value<'_>) -> Result<(), ReadError> {
        only(alloc, value, &["span", "external-id", "parts"])?;
        self.span = span(alloc, value)?;
        self.external_id = optional(alloc, value, "external-id")?;
        self.kind.read_details(alloc, value)
    }
}

impl ReadDetails for Param {
    ghost detailed = { with_span (λ (p : Param) span. record p { span = span }) };

    fn read_details(&mut self, alloc: Global, value: &Value<'_>) -> Result<(), ReadError> {
        self.span = ReadJson::read_json(alloc, value)?;
        Ok(())
    }
}

impl ReadDetails for Function {
    ghost detailed = { function_with_details };

    #[tactic(auto, unfolding(crate::specs::Details::function_with_details))]
    fn read_details(&mut self, alloc: Global, value: &Value<'_>) -> Result<(), ReadError> {
        only(alloc, value, &["span", "external-id", "params"])?;
        self.span = span(alloc, value)?;
        self.external_id = optional(alloc, value, "external-id")?;
        required_details(alloc, value, "params", &mut self.params)
    }
}

impl ReadDetails for Interface {
    ghost detailed = { interface_with };

    #[tactic(auto, unfolding(crate::specs::Details::interface_with))]
    fn read_details(&mut self, alloc: Global, value: &Value<'_>) -> Result<(), ReadError> {
        only(alloc, value, &["span", "functions"])?;
        self.span = span(alloc, value)?;
        required_details(alloc, value, "functions", &mut self.functions)
    }
}

impl ReadDetails for WorldItem {
    ghost detailed = { item_with };

    #[tactic(auto, unfolding(crate::specs::Details::item_with))]
    fn read_details(&mut self, alloc: Global, value: &Value<'_>) -> Result<(), ReadError> {
        match self {
            WorldItem::Interface {
                docs,
                span,
                external_id,
                ..
            } => entry_details(alloc, value, docs, span, external_id),
            WorldItem::Function(function) => function.read_details(alloc, value),
            WorldItem::Type_ { span, .. } => type_details(alloc, value, span),
        }
    }
}

/// The details of an interface that a world imports or exports.
#[tactic(auto, unfolding(crate::specs::Details::entry_with))]
fn entry_details(
    alloc: Global,
    value: &Value<'_>,
    entry_docs: &mut Docs,
    entry_span: &mut Span,
    external_id: &mut Option<Text>,
) -> Result<(), ReadError>
    ensures { Completes result (entry_with (value_view value.now))
        (entry_docs.new, entry_span.new, external_id.new) }
{
    only(alloc, value, &["docs", "span", "external-id"])?;
    *entry_docs = docs(alloc, value)?;
    *entry_span = span(alloc, value)?;
    *external_id = optional(alloc, value, "external-id")?;
    Ok(())
}

/// The details of a type of a world.
#[tactic(auto, unfolding(crate::specs::Details::span_alone))]
fn type_details(alloc: Global, value: &Value<'_>, type_span: &mut Span) -> Result<(), ReadError>
    ensures { Completes result (span_alone (value_view value.now)) type_span.new }
{
    only(alloc, value, &["span"])?;
    *type_span = span(alloc, value)?;
    Ok(())
}

impl ReadDetails for World {
    ghost detailed = { world_with };

    #[tactic(auto, unfolding(crate::specs::Details::world_with))]
    fn read_details(&mut self, alloc: Global, value: &Value<'_>) -> Result<(), ReadError> {
        only(alloc, value, &["span", "imports", "exports"])?;
        self.span = span(alloc, value)?;
        required_details(alloc, value, "imports", &mut self.imports)?;
        required_details(alloc, value, "exports", &mut self.exports)
    }
}

impl ReadDetails for Graph {
    ghost detailed = { graph_with };

    #[tactic(auto, unfolding(crate::specs::Details::graph_with))]
    fn read_details(&mut self, alloc: Global, value: &Value<'_>) -> Result<(), ReadError> {
        only(alloc, value, &["worlds", "interfaces", "types"])?;
        required_details(alloc, value, "worlds", &mut self.worlds)?;
        required_details(alloc, value, "interfaces", &mut self.interfaces)?;
        required_details(alloc, value, "types", &mut self.types)
    }
}
