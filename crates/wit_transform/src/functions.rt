//! What a function disagrees in with another of its name: its kind, its parameters or its result.
ghost use Rattle.std.specs.Prelude.{◌≡◌, ◌↔◌, IfNone, IfOk, IfSome, IsTrue, List, ℕ, length, string_bytes};
ghost use Rattle.wit_remap_spec.specs.FunctionMismatch.{AreOfOneKind, AreOfOneSort, FunctionMismatch};
ghost use Rattle.wit_transform.specs.steps.Agreeing.{ParamAgrees, ParamMismatch, ParamsAgree, ResultsAgree};
ghost use Rattle.wit_remap_spec.specs.steps.Parts.{value_image, function_kind_image, one_place};

use std::alloc::{AllocError, Global};
use wit_data::{Function, FunctionKind, Param, Type_, TypeId};

/// The same kind with the first id as its resource, where it has one: which one it is makes no
/// difference.
fn kind_at_one_place(kind: &FunctionKind) -> FunctionKind
    ensures { result ≡ function_kind_image one_place kind.now }
{
    let first = TypeId::from_index(0);
    match kind {
        FunctionKind::Method(_) => FunctionKind::Method(first),
        FunctionKind::AsyncMethod(_) => FunctionKind::AsyncMethod(first),
        FunctionKind::Static(_) => FunctionKind::Static(first),
        FunctionKind::AsyncStatic(_) => FunctionKind::AsyncStatic(first),
        FunctionKind::Constructor(_) => FunctionKind::Constructor(first),
        FunctionKind::MethodGetter(_) => FunctionKind::MethodGetter(first),
        FunctionKind::MethodSetter(_) => FunctionKind::MethodSetter(first),
        FunctionKind::StaticGetter(_) => FunctionKind::StaticGetter(first),
        FunctionKind::StaticSetter(_) => FunctionKind::StaticSetter(first),
        FunctionKind::Freestanding => FunctionKind::Freestanding,
        FunctionKind::AsyncFreestanding => FunctionKind::AsyncFreestanding,
        FunctionKind::Getter => FunctionKind::Getter,
        FunctionKind::Setter => FunctionKind::Setter,
    }
}

/// Whether functions are of one kind, whatever resources they belong to.
fn are_of_one_kind(from: &FunctionKind, into: &FunctionKind) -> bool
    ensures { IsTrue result ↔ AreOfOneKind from.now into.now }
{
    kind_at_one_place(from) == kind_at_one_place(into)
}

/// The same type with the first id as its own, where it has one: which one it is makes no difference.
fn type_at_one_place(ty: &Type_) -> Type_
    ensures { result ≡ value_image one_place ty.now }
{
    match ty {
        Type_::Id(_) => Type_::Id(TypeId::from_index(0)),
        _ => *ty,
    }
}

/// Whether types are of one sort: the same primitive, or both of them types of a list.
fn are_of_one_sort(from: &Type_, into: &Type_) -> bool
    ensures { IsTrue result ↔ AreOfOneSort from.now into.now }
{
    type_at_one_place(from) == type_at_one_place(into)
}

/// What a parameter disagrees in with the one at the same index: its name, or else its type. None where they
/// agree.
fn param_mismatch(alloc: Global, from: &Param, into: &Param) -> Result<Option<String>, AllocError>
    ensures some { IfOk result
        (λ found. IfSome found (λ text. ParamMismatch from.now into.now (string_bytes text))) }
    ensures none { IfOk result (λ found. IfNone found (ParamAgrees from.now into.now)) }
{
    let name = &from.name;
    if *name != into.name {
        let other = &into.name;
        return Ok(Some(format!(in alloc;
            "different function parameter names: {name} != {other}"
        )?));
    }
    if !are_of_one_sort(&from.ty, &into.ty) {
        return Ok(Some(format!(in alloc;
            "different function parameter types for `{name}`: different kinds of types"
        )?));
    }
    Ok(None)
}

/// What the first parameter of a function that disagrees with the one at its index disagrees in, where
/// there are as many. None where all agree.
fn params_mismatch(
    alloc: Global,
    from: &Function,
    into: &Function,
) -> Result<Option<String>, AllocError>
    requires { length from.now.params ≡ length into.now.params }
    ensures some { IfOk result
        (λ found. IfSome found (λ text. FunctionMismatch from.now into.now (string_bytes text))) }
    ensures none { IfOk result
        (λ found. IfNone found (ParamsAgree from.now.params into.now.params)) }
{
    for index in 0..from.params.len() {
        let (param, other) = (from.params.at(index), into.params.at(index));
        if let Some(text) = param_mismatch(alloc, param, other)? {
            return Ok(Some(text));
        }
    }
    Ok(None)
}

/// What the result of a function disagrees in with that of another: its type, or that it is there. None
/// where they agree.
fn result_mismatch(
    alloc: Global,
    from: &Function,
    into: &Function,
) -> Result<Option<String>, AllocError>
    ensures some { IfOk result
        (λ found. IfSome found (λ text. FunctionMismatch from.now into.now (string_bytes text))) }
    ensures none { IfOk result
        (λ found. IfNone found (ResultsAgree from.now.result_ into.now.result_)) }
{
    match (&from.result_, &into.result_) {
        (Some(ty), Some(other)) => {
            if are_of_one_sort(ty, other) {
                return Ok(None);
            }
            Ok(Some(String::from_str(
                alloc,
                "different function result types: different kinds of types",
            )?))
        }
        (None, None) => Ok(None),
        (Some(_), None) | (None, Some(_)) => Ok(Some(String::from_str(
            alloc,
            "different number of function results",
        )?)),
    }
}

/// What a function disagrees in with another of its name: its kind, whatever resource it belongs to, the number of its
/// parameters, the name or the type of one of these, or its result. Of several any may be told. None where they agree.
/// Types agree that are the same primitive or both types of a list. The only error is want of memory.
///
/// Source: `build_function` of wit-parser 0.263.0.
pub fn function_mismatch(
    alloc: Global,
    from: &Function,
    into: &Function,
) -> Result<Option<String>, AllocError>
    ensures some { IfOk result
        (λ found. IfSome found (λ text. FunctionMismatch from.now into.now (string_bytes text))) }
    ensures none { IfOk result
        (λ found. IfNone found ((text : List ℕ) → FunctionMismatch from.now into.now text → ⊥)) }
{
    if !are_of_one_kind(&from.kind, &into.kind) {
        return Ok(Some(String::from_str(alloc, "different function kind types")?));
    }
    if from.params.len() != into.params.len() {
        return Ok(Some(String::from_str(alloc, "different number of function parameters")?));
    }
    match params_mismatch(alloc, from, into)? {
        Some(text) => Ok(Some(text)),
        None => result_mismatch(alloc, from, into),
    }
}
