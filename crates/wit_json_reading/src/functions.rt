//! Functions.
ghost use Rattle.json.specs.Json as json;
ghost use Rattle.json.specs.Value.{value_view};
ghost use Rattle.wit_json_reading.specs.Functions.{read_function_kind, read_function, read_param, read_resource_kind};
ghost use Rattle.wit_json_reading.specs.Reading.{Reads};
ghost use Rattle.wit_json_reading.specs.steps.Parts.{read_function_kind_by};

use crate::fault::{Expected, ReadError, in_member, instead_of};
use crate::gates::{docs, span, stability};
use crate::objects::one_member;
use crate::reader::{ReadJson, only, optional, required};
use json::Value;
use std::alloc::Global;
use wit_data::{Function, FunctionKind, Param, TypeId};

impl ReadJson for FunctionKind {
    ghost reading = { read_function_kind };

    #[tactic(auto, unfolding(crate::specs::Functions::read_function_kind))]
    fn read_json(alloc: Global, value: &Value<'_>) -> Result<FunctionKind, ReadError> {
        if let Some(word) = value.as_str() {
            return plain_kind(alloc, word);
        }
        match one_member(value) {
            Some((name, id)) => in_member(alloc, kind(alloc, name, id), name),
            None => instead_of(alloc, Expected::FunctionKind),
        }
    }
}

/// A kind without a resource.
#[tactic(auto, unfolding(crate::specs::Functions::read_function_kind))]
fn plain_kind(alloc: Global, word: &str) -> Result<FunctionKind, ReadError>
    ensures { Reads result (read_function_kind (json.string word.now)) }
{
    match word {
        "freestanding" => Ok(FunctionKind::Freestanding),
        "async-freestanding" => Ok(FunctionKind::AsyncFreestanding),
        "getter" => Ok(FunctionKind::Getter),
        "setter" => Ok(FunctionKind::Setter),
        _ => instead_of(alloc, Expected::FunctionKind),
    }
}

/// A kind of a resource's function.
fn kind(alloc: Global, name: &str, value: &Value<'_>) -> Result<FunctionKind, ReadError>
    ensures { Reads result (read_function_kind_by name.now (value_view value.now)) }
{
    let id = ReadJson::read_json(alloc, value)?;
    resource_kind(alloc, name, id)
}

fn resource_kind(alloc: Global, name: &str, id: TypeId) -> Result<FunctionKind, ReadError>
    ensures { Reads result (read_resource_kind name.now id) }
{
    match name {
        "method" => Ok(FunctionKind::Method(id)),
        "async-method" => Ok(FunctionKind::AsyncMethod(id)),
        "static" => Ok(FunctionKind::Static(id)),
        "async-static" => Ok(FunctionKind::AsyncStatic(id)),
        "constructor" => Ok(FunctionKind::Constructor(id)),
        "method-getter" => Ok(FunctionKind::MethodGetter(id)),
        "method-setter" => Ok(FunctionKind::MethodSetter(id)),
        "static-getter" => Ok(FunctionKind::StaticGetter(id)),
        "static-setter" => Ok(FunctionKind::StaticSetter(id)),
        _ => instead_of(alloc, Expected::FunctionKind),
    }
}

impl ReadJson for Param {
    ghost reading = { read_param };

    #[tactic(auto, unfolding(crate::specs::Functions::read_param))]
    fn read_json(alloc: Global, value: &Value<'_>) -> Result<Param, ReadError> {
        only(alloc, value, &["name", "type", "span"])?;
        let name = required(alloc, value, "name")?;
        let ty = required(alloc, value, "type")?;
        let span = span(alloc, value)?;
        Ok(Param { name, ty, span })
    }
}

impl ReadJson for Function {
    ghost reading = { read_function };

    #[tactic(auto, unfolding(crate::specs::Functions::read_function))]
    fn read_json(alloc: Global, value: &Value<'_>) -> Result<Function, ReadError> {
        only(
            alloc,
            value,
            &[
                "name",
                "kind",
                "params",
                "result",
                "docs",
                "stability",
                "span",
                "external-id",
            ],
        )?;
        let name = required(alloc, value, "name")?;
        let kind = required(alloc, value, "kind")?;
        let params = required(alloc, value, "params")?;
        let result_ = optional(alloc, value, "result")?;
        let docs = docs(alloc, value)?;
        let stability = stability(alloc, value)?;
        let span = span(alloc, value)?;
        let external_id = optional(alloc, value, "external-id")?;
        Ok(Function {
            name,
            kind,
            params,
            result_,
            docs,
            stability,
            span,
            external_id,
        })
    }
}
