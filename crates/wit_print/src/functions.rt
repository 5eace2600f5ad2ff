//! Functions.
ghost use Rattle.std.specs.Prelude.{◌≡◌, ◌==◌, ◌++◌, [], IfOk, OnOk, Some, bytes_eq, codes, flat_map, is_some, string_bytes, if◌then◌else◌};
ghost use Rattle.std.specs.List.{after_first, join_by};
ghost use Rattle.wit_data.specs.Function.{accessor_of};
ghost use Rattle.wit_print.specs.Functions.{arrow_wit, free_wit, function_form, function_wit, head_within, head_wit, method_wit, param_wit, params_within, resource_around, signature_wit};
ghost use Rattle.wit_print.specs.Types.{type_wit};

use crate::headings::write_heading;
use crate::names::Name;
use crate::printer::Printer;
use crate::types::write_type;
use std::alloc::{AllocError, Global};
use std::fmt::Write;
use wit_data::{Function, FunctionKind, Param, Type_, TypeDef, TypeDefKind, TypeId};

/// The resource in whose braces a function stands, if there is one.
#[tactic(auto, unfolding(crate::specs::Functions::resource_around))]
pub fn resource_around(types: &[TypeDef], kind: FunctionKind) -> Option<TypeId>
    ensures { result ≡ resource_around types.now kind }
{
    let id = kind.resource()?;
    let def = types.get(id.index())?;
    match def.kind {
        TypeDefKind::Resource => Some(id),
        _ => None,
    }
}

impl Printer<'_> {
    /// Writes a function behind a word.
    pub fn write_function(
        &self,
        word: &str,
        function: &Function,
        text: &mut String,
    ) -> Result<(), AllocError>
        ensures { OnOk result (string_bytes text.new
            ≡ string_bytes text.old
            ++ function_wit self.now.graph.now.types self.now.indent.now word.now function.now) }
    {
        let name = function.name.as_str();
        let head = head(self.alloc, word, function.kind, name)?;
        let params = function.params.as_slice();
        self.write_signature(function, head.as_str(), params, text)
    }

    /// Writes a function behind a word, if it stands in the braces of no resource.
    pub fn write_free(
        &self,
        word: &str,
        function: &Function,
        text: &mut String,
    ) -> Result<(), AllocError>
        ensures { OnOk result (string_bytes text.new
            ≡ string_bytes text.old
            ++ free_wit self.now.graph.now.types self.now.indent.now word.now function.now) }
    {
        match resource_around(self.types(), function.kind) {
            Some(_) => Ok(()),
            None => self.write_function(word, function, text),
        }
    }

    /// Writes a function in the braces of its resource.
    pub fn write_method(&self, function: &Function, text: &mut String) -> Result<(), AllocError>
        ensures { OnOk result (string_bytes text.new
            ≡ string_bytes text.old
            ++ method_wit self.now.graph.now.types self.now.indent.now function.now) }
    {
        let head = head_within(self.alloc, function)?;
        let params = params_within(function.kind, function.params.as_slice());
        self.write_signature(function, head.as_str(), params, text)
    }

    /// Writes a function with this head and these parameters.
    #[tactic(auto, unfolding(crate::specs::Functions::signature_wit))]
    fn write_signature(
        &self,
        function: &Function,
        head: &str,
        params: &[Param],
        text: &mut String,
    ) -> Result<(), AllocError>
        ensures { OnOk result (string_bytes text.new
            ≡ string_bytes text.old
            ++ signature_wit self.now.graph.now.types self.now.indent.now function.now head.now
            params.now) }
    {
        let (indent, types) = (self.indent, self.types());
        let (docs, stability) = (&function.docs, &function.stability);
        write_heading(indent, docs, stability, &function.external_id, text)?;
        write!(text, "{indent}{head}(")?;
        write_params(self.alloc, types, params, text)?;
        text.push_str(")")?;
        write_arrow(self.alloc, types, function, text)?;
        text.push_str(";\n")
    }
}

/// A function up to its parameters, behind a word.
fn head(alloc: Global, word: &str, kind: FunctionKind, name: &str) -> Result<String, AllocError>
    ensures { IfOk result
        (λ text. string_bytes text ≡ word.now ++ head_wit kind name.now) }
{
    let name = Name(name);
    let form = function_form(kind);
    format!(in alloc; "{word}{name}: {form}")
}

/// A function up to its parameters, in the braces of its resource.
fn head_within(alloc: Global, function: &Function) -> Result<String, AllocError>
    ensures { IfOk result
        (λ text. string_bytes text ≡ head_within function.now.kind function.now.name) }
{
    match function.kind {
        FunctionKind::Constructor(_) => String::from_str(alloc, "constructor"),
        _ => head(alloc, "", function.kind, own_name(function)),
    }
}

/// The name of a function in the braces of its resource.
fn own_name(function: &Function) -> &str
    ensures { result.now
        ≡ (if is_some (accessor_of function.now.kind) then function.now.name
        else after_first (λ b. b == 46) function.now.name) }
{
    let name = function.name.as_str();
    match function.kind.accessor() {
        Some(_) => name,
        None => behind_dot(name),
    }
}

/// What stands behind the first dot.
fn behind_dot(name: &str) -> &str
    ensures { result.now ≡ after_first (λ b. b == 46) name.now }
{
    match name.split_once('.') {
        Some((_, own)) => own,
        None => "",
    }
}

/// The words between the name of a function and its parameters.
fn function_form(kind: FunctionKind) -> &'static str
    ensures { result.now ≡ function_form kind }
{
    match kind {
        FunctionKind::AsyncFreestanding | FunctionKind::AsyncMethod(_) => "async func",
        FunctionKind::Static(_) | FunctionKind::StaticGetter(_) | FunctionKind::StaticSetter(_) =>
            "static func",
        FunctionKind::AsyncStatic(_) => "static async func",
        _ => "func",
    }
}

/// The parameters in the braces of a resource: of a method all but the first, which is the resource.
fn params_within(kind: FunctionKind, params: &[Param]) -> &[Param]
    ensures { result.now ≡ params_within kind params.now }
{
    match kind {
        FunctionKind::Method(_)
        | FunctionKind::AsyncMethod(_)
        | FunctionKind::MethodGetter(_)
        | FunctionKind::MethodSetter(_) => match params.split_first() {
            Some((_, others)) => others,
            None => params,
        },
        _ => params,
    }
}

/// Writes parameters with commas between.
fn write_params(
    alloc: Global,
    types: &[TypeDef],
    params: &[Param],
    text: &mut String,
) -> Result<(), AllocError>
    ensures { OnOk result (string_bytes text.new
        ≡ string_bytes text.old ++ join_by (param_wit types.now) (codes ", ") params.now) }
{
    let Some((first, others)) = params.split_first() else {
        return Ok(());
    };
    write_param(alloc, types, first, text)?;
    write_others(alloc, types, others, text)
}

/// Writes further parameters, each behind a comma.
fn write_others(
    alloc: Global,
    types: &[TypeDef],
    params: &[Param],
    text: &mut String,
) -> Result<(), AllocError>
    ensures { OnOk result (string_bytes text.new
        ≡ string_bytes text.old
        ++ flat_map (λ p. codes ", " ++ param_wit types.now p) params.now) }
{
    for param in params {
        text.push_str(", ")?;
        write_param(alloc, types, param, text)?;
    }
    Ok(())
}

fn write_param(
    alloc: Global,
    types: &[TypeDef],
    param: &Param,
    text: &mut String,
) -> Result<(), AllocError>
    ensures { OnOk result
        (string_bytes text.new ≡ string_bytes text.old ++ param_wit types.now param.now) }
{
    let name = Name(param.name.as_str());
    write!(text, "{name}: ")?;
    write_type(alloc, types, param.ty, text)
}

/// Writes a result behind an arrow, unless it is the resource that a constructor makes.
fn write_arrow(
    alloc: Global,
    types: &[TypeDef],
    function: &Function,
    text: &mut String,
) -> Result<(), AllocError>
    ensures { OnOk result (string_bytes text.new
        ≡ string_bytes text.old ++ arrow_wit types.now function.now.kind function.now.result_) }
{
    let Some(ty) = &function.result_ else {
        return Ok(());
    };
    let made = type_text(alloc, types, *ty)?;
    match function.kind {
        FunctionKind::Constructor(id) => {
            let resource = type_text(alloc, types, Type_::Id(id))?;
            write_unless(resource.as_str(), made.as_str(), text)
        }
        _ => write_made(made.as_str(), text),
    }
}

/// Writes what a function makes behind an arrow, unless it is this.
fn write_unless(resource: &str, made: &str, text: &mut String) -> Result<(), AllocError>
    ensures { OnOk result (string_bytes text.new
        ≡ string_bytes text.old
        ++ (if bytes_eq made.now resource.now then [] else codes " -> " ++ made.now)) }
{
    if made == resource {
        return Ok(());
    }
    write_made(made, text)
}

fn write_made(made: &str, text: &mut String) -> Result<(), AllocError>
    ensures { OnOk result
        (string_bytes text.new ≡ string_bytes text.old ++ (codes " -> " ++ made.now)) }
{
    write!(text, " -> {made}")
}

/// A type as a text of its own.
fn type_text(alloc: Global, types: &[TypeDef], ty: Type_) -> Result<String, AllocError>
    ensures { IfOk result (λ text. string_bytes text ≡ type_wit types.now ty) }
{
    let mut text = String::new(alloc);
    write_type(alloc, types, ty, &mut text)?;
    Ok(text)
}
