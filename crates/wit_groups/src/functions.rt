//! The functions of interfaces and worlds.

use crate::draft::Draft;
use crate::fault::{Fault, NameFault, RuleFault};
use crate::gates::common_of;
use crate::scope::{Context, ScopeDraft};
use std::alloc::AllocError;
use wit_data::{
    Function, FunctionKind, Handle, Items, Param, Span, Stability, Text, Type_, TypeDefKind, TypeId,
};
use wit_text::syntax::{
    Gate, Member, Piece, ResourceFunction, ResourceFunctionName, Signature, TypeNodeKind, TypeRange,
};
use wit_values::NameSet;

/// What a function is called, what it is, and where its name stands.
#[derive(Drop)]
struct Head {
    name: Text,
    kind: FunctionKind,
    span: Span,
}

impl<'a> ScopeDraft<'a> {
    /// A function that is of no resource.
    pub fn free_function(
        &self,
        draft: &mut Draft,
        gate: &Gate,
        name: &Piece,
        signature: &Signature,
    ) -> Result<Function, Fault> {
        let kind = if signature.is_async {
            FunctionKind::AsyncFreestanding
        } else {
            FunctionKind::Freestanding
        };
        let head = Head {
            name: self.context.copy(name)?,
            kind,
            span: name.span,
        };
        self.function(draft, gate, head, signature)
    }

    /// A function of the resource of this name.
    pub fn resource_function(
        &self,
        draft: &mut Draft,
        resource: &Piece,
        function: &ResourceFunction,
    ) -> Result<Function, Fault> {
        let id = self.named_type(resource)?;
        let is_async = function.signature.is_async;
        let head = Head {
            name: resource_function_name(&self.context, resource, function.name)?,
            kind: resource_function_kind(id, is_async, function.name),
            span: resource_function_span(function.name),
        };
        self.function(draft, &function.gate, head, &function.signature)
    }

    fn function(
        &self,
        draft: &mut Draft,
        gate: &Gate,
        head: Head,
        signature: &Signature,
    ) -> Result<Function, Fault> {
        let common = common_of(self.context.alloc, self.context.part.source, gate, true)?;
        let params = self.params(draft, head.kind, head.span, signature)?;
        let result_ = self.function_result(draft, head.kind, &signature.result)?;
        let mut function = Function::new(head.name, head.kind, params, result_);
        function.docs = common.docs;
        function.stability = common.stability;
        function.external_id = common.external_id;
        function.span = head.span;
        Ok(function)
    }

    /// The parameters of a function of this kind, whose name stands here: of a method `self` comes first.
    fn params(
        &self,
        draft: &mut Draft,
        kind: FunctionKind,
        span: Span,
        signature: &Signature,
    ) -> Result<Items<Param>, Fault> {
        let mut names = NameSet::new(self.context.alloc);
        let mut params = Items::new(self.context.alloc);
        if let FunctionKind::Method(id) | FunctionKind::AsyncMethod(id) = kind {
            params.push(self.self_param(draft, id, span)?)?;
            names.insert(self.context.alloc, "self")?;
        }
        for member in signature.parameters.iter() {
            let param = self.param(draft, member)?;
            self.add_param_name(&mut names, &member.name)?;
            params.push(param)?;
        }
        Ok(params)
    }

    /// The parameter `self` of a method.
    fn self_param(&self, draft: &mut Draft, id: TypeId, span: Span) -> Result<Param, AllocError> {
        let kind = TypeDefKind::Handle(Handle::Borrow(id));
        let ty = Type_::Id(draft.add_unnamed(kind, span, &Stability::Unknown)?);
        let name = Text::try_from_str(self.context.alloc, "self")?;
        Ok(Param { name, ty, span })
    }

    fn param(&self, draft: &mut Draft, member: &Member) -> Result<Param, Fault> {
        let ty = match member.ty {
            Some(range) => self.type_of(draft, range, &Stability::Unknown)?,
            None => return Err(Fault::rule(member.name.span, RuleFault::MissingPart)),
        };
        let name = self.context.copy(&member.name)?;
        Ok(Param {
            name,
            ty,
            span: member.name.span,
        })
    }

    /// Adds the name of a parameter, which isn't there yet.
    fn add_param_name(&self, names: &mut NameSet, name: &Piece) -> Result<(), Fault> {
        let text = self.context.text(name);
        if names.contains(text) {
            return Err(self.context.name_fault(name, NameFault::ParameterTwice));
        }
        names.insert(self.context.alloc, text)?;
        Ok(())
    }

    /// The result of a function of this kind. A constructor makes its resource, perhaps within a `result`.
    fn function_result(
        &self,
        draft: &mut Draft,
        kind: FunctionKind,
        range: &Option<TypeRange>,
    ) -> Result<Option<Type_>, Fault> {
        match range {
            Some(range) => Ok(Some(self.written_result(draft, kind, *range)?)),
            None => Ok(made_alone(kind)),
        }
    }

    /// The result that a function of this kind writes.
    fn written_result(
        &self,
        draft: &mut Draft,
        kind: FunctionKind,
        range: TypeRange,
    ) -> Result<Type_, Fault> {
        let ty = self.type_of(draft, range, &Stability::Unknown)?;
        if let FunctionKind::Constructor(id) = kind {
            self.check_constructor(draft, id, range, &ty)?;
        }
        Ok(ty)
    }

    /// Whether a constructor of a resource may have a result.
    fn check_constructor(
        &self,
        draft: &Draft,
        resource: TypeId,
        range: TypeRange,
        ty: &Type_,
    ) -> Result<(), Fault> {
        let Some(ok) = result_ok(draft, ty) else {
            let span = self.context.type_span(range);
            return Err(Fault::rule(span, RuleFault::ConstructorResult));
        };
        if !is_type(ok, resource) {
            let span = self.context.ok_span(range);
            return Err(Fault::rule(span, RuleFault::ConstructorOk));
        }
        Ok(())
    }
}

/// Whether there is a type, which has this id.
fn is_type(ty: Option<Type_>, id: TypeId) -> bool {
    match ty {
        Some(ty) => has_id(ty, id),
        None => false,
    }
}

/// Whether a type has this id.
fn has_id(ty: Type_, id: TypeId) -> bool {
    match ty {
        Type_::Id(other) => other.index() == id.index(),
        _ => false,
    }
}

/// What a function of a kind makes that says of no result: a constructor its resource.
fn made_alone(kind: FunctionKind) -> Option<Type_> {
    match kind {
        FunctionKind::Constructor(id) => Some(Type_::Id(id)),
        _ => None,
    }
}

/// The ok type of a `result`, None where a type is no `result`.
fn result_ok(draft: &Draft, ty: &Type_) -> Option<Option<Type_>> {
    let Type_::Id(id) = ty else {
        return None;
    };
    match &draft.types.get(id.index())?.kind {
        TypeDefKind::Result_ { ok, .. } => Some(*ok),
        _ => None,
    }
}

impl<'a> Context<'a> {
    /// Where a type of the file stands.
    fn type_span(&self, range: TypeRange) -> Span {
        match self.part.types.get(range.index) {
            Some(node) => node.span,
            None => Span::unknown(),
        }
    }

    /// Where the ok type of a `result` of the file stands; where the type itself does if it writes none.
    fn ok_span(&self, range: TypeRange) -> Span {
        let Some(node) = self.part.types.get(range.index) else {
            return Span::unknown();
        };
        match &node.kind {
            TypeNodeKind::Result_ {
                ok: Some(index),
                ..
            } => match self.part.types.get(*index) {
                Some(part) => part.span,
                None => node.span,
            },
            _ => node.span,
        }
    }
}

/// The name of a function of a resource, as WIT's component names spell it.
fn resource_function_name(
    context: &Context<'_>,
    resource: &Piece,
    name: ResourceFunctionName,
) -> Result<Text, AllocError> {
    let alloc = context.alloc;
    let resource = context.text(resource);
    let text = match name {
        ResourceFunctionName::Constructor(_) => { format!(in alloc; "[constructor]{resource}")? }
        ResourceFunctionName::Method(name) => {
            let name = context.text(&name);
            format!(in alloc; "[method]{resource}.{name}")?
        }
        ResourceFunctionName::Static(name) => {
            let name = context.text(&name);
            format!(in alloc; "[static]{resource}.{name}")?
        }
    };
    Ok(Text::from_string(text))
}

fn resource_function_kind(id: TypeId, is_async: bool, name: ResourceFunctionName) -> FunctionKind {
    match (name, is_async) {
        (ResourceFunctionName::Constructor(_), _) => FunctionKind::Constructor(id),
        (ResourceFunctionName::Method(_), false) => FunctionKind::Method(id),
        (ResourceFunctionName::Method(_), true) => FunctionKind::AsyncMethod(id),
        (ResourceFunctionName::Static(_), false) => FunctionKind::Static(id),
        (ResourceFunctionName::Static(_), true) => FunctionKind::AsyncStatic(id),
    }
}

/// Where the name of a function of a resource stands, or the word of a constructor.
fn resource_function_span(name: ResourceFunctionName) -> Span {
    match name {
        ResourceFunctionName::Constructor(span) => span,
        ResourceFunctionName::Method(name) | ResourceFunctionName::Static(name) => name.span,
    }
}
