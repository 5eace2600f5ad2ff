//! Functions.
ghost use Rattle.wit_json.specs.Functions.{json_of_function, json_of_function_kind, json_of_param};

use crate::writer::{JsonText, WriteJson};
use std::alloc::AllocError;
use wit_data::{Function, FunctionKind, Param};

impl WriteJson for FunctionKind {
    ghost json = { json_of_function_kind };

    fn write_json(&self, out: &mut JsonText) -> Result<(), AllocError> {
        match self {
            FunctionKind::Freestanding => out.string("freestanding"),
            FunctionKind::AsyncFreestanding => out.string("async-freestanding"),
            FunctionKind::Method(id) => out.tagged("method", id),
            FunctionKind::AsyncMethod(id) => out.tagged("async-method", id),
            FunctionKind::Static(id) => out.tagged("static", id),
            FunctionKind::AsyncStatic(id) => out.tagged("async-static", id),
            FunctionKind::Constructor(id) => out.tagged("constructor", id),
            FunctionKind::Getter => out.string("getter"),
            FunctionKind::Setter => out.string("setter"),
            FunctionKind::MethodGetter(id) => out.tagged("method-getter", id),
            FunctionKind::MethodSetter(id) => out.tagged("method-setter", id),
            FunctionKind::StaticGetter(id) => out.tagged("static-getter", id),
            FunctionKind::StaticSetter(id) => out.tagged("static-setter", id),
        }
    }
}

impl WriteJson for Param {
    ghost json = { json_of_param };

    fn write_json(&self, out: &mut JsonText) -> Result<(), AllocError> {
        out.begin_object()?;
        out.member("name", &self.name)?;
        out.member("type", &self.ty)?;
        out.end_object()
    }
}

impl WriteJson for Function {
    ghost json = { json_of_function };

    fn write_json(&self, out: &mut JsonText) -> Result<(), AllocError> {
        out.begin_object()?;
        out.member("name", &self.name)?;
        out.member("kind", &self.kind)?;
        out.member("params", &self.params)?;
        out.optional("result", &self.result_)?;
        out.docs(&self.docs)?;
        out.stability(&self.stability)?;
        out.end_object()
    }
}
