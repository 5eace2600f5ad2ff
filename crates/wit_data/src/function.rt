//! Functions.
ghost use Rattle.std.specs.Prelude.{◌≡◌};
ghost use Rattle.wit_data.specs.Function.{resource_of, accessor_of};
ghost use Rattle.wit_data.specs.New.{new_function};

use crate::ids::TypeId;
use crate::stability::{Docs, Stability};
use crate::types::Type_;
use std::alloc::AllocError;
use wit_sources::Span;
use wit_values::{Items, Text, TryClone, try_clone_three, try_clone_two};

/// What a function is: whether it belongs to a resource, and whether it reads or writes a property.
///
/// Source: `FunctionKind` of wit-parser 0.263.0.
#[derive(Clone, Copy, PartialEq, Eq)]
pub enum FunctionKind {
    Freestanding,
    AsyncFreestanding,
    Method(TypeId),
    AsyncMethod(TypeId),
    Static(TypeId),
    AsyncStatic(TypeId),
    Constructor(TypeId),
    Getter,
    Setter,
    MethodGetter(TypeId),
    MethodSetter(TypeId),
    StaticGetter(TypeId),
    StaticSetter(TypeId),
}

/// Whether a function reads or writes a property.
///
/// Source: `AccessorKind` of wit-parser 0.263.0.
#[derive(Clone, Copy, Debug, PartialEq, Eq)]
pub enum AccessorKind {
    Getter,
    Setter,
}

impl FunctionKind {
    /// The resource that it belongs to, where it belongs to one.
    ///
    /// Source: `resource` of `FunctionKind` of wit-parser 0.263.0.
    pub fn resource(&self) -> Option<TypeId>
        ensures { result ≡ resource_of self.now }
    {
        match self {
            FunctionKind::Method(id)
            | FunctionKind::AsyncMethod(id)
            | FunctionKind::Static(id)
            | FunctionKind::AsyncStatic(id)
            | FunctionKind::Constructor(id)
            | FunctionKind::MethodGetter(id)
            | FunctionKind::MethodSetter(id)
            | FunctionKind::StaticGetter(id)
            | FunctionKind::StaticSetter(id) => Some(*id),
            FunctionKind::Freestanding
            | FunctionKind::AsyncFreestanding
            | FunctionKind::Getter
            | FunctionKind::Setter => None,
        }
    }

    /// Whether it is a getter or a setter, where it is one.
    ///
    /// Source: `accessor` of `FunctionKind` of wit-parser 0.263.0.
    pub fn accessor(&self) -> Option<AccessorKind>
        ensures { result ≡ accessor_of self.now }
    {
        match self {
            FunctionKind::Getter | FunctionKind::MethodGetter(_) | FunctionKind::StaticGetter(_) =>
                Some(AccessorKind::Getter),
            FunctionKind::Setter | FunctionKind::MethodSetter(_) | FunctionKind::StaticSetter(_) =>
                Some(AccessorKind::Setter),
            FunctionKind::Freestanding
            | FunctionKind::AsyncFreestanding
            | FunctionKind::Method(_)
            | FunctionKind::AsyncMethod(_)
            | FunctionKind::Static(_)
            | FunctionKind::AsyncStatic(_)
            | FunctionKind::Constructor(_) => None,
        }
    }
}

/// A parameter of a function.
///
/// Source: `Param` of wit-parser 0.263.0.
#[derive(Drop)]
pub struct Param {
    pub name: Text,
    pub ty: Type_,
    pub span: Span,
}

impl TryClone for Param {
    fn try_clone(&self) -> Result<Param, AllocError> {
        Ok(Param {
            name: self.name.try_clone()?,
            ty: self.ty,
            span: self.span,
        })
    }
}

/// A function, with its name as WIT's component names spell it, as `[method]r.f`.
///
/// Source: `Function` of wit-parser 0.263.0.
pub struct Function {
    pub name: Text,
    pub kind: FunctionKind,
    pub params: Items<Param>,
    pub result_: Option<Type_>,
    pub docs: Docs,
    pub stability: Stability,
    pub span: Span,
    pub external_id: Option<Text>,
}

impl Function {
    /// A function of which nothing more is said: without docs, gate and external id, with an unknown span. It takes no
    /// memory.
    pub fn new(
        name: Text,
        kind: FunctionKind,
        params: Items<Param>,
        result_: Option<Type_>,
    ) -> Function
        ensures { result ≡ new_function name kind params result_ }
    {
        Function {
            name,
            kind,
            params,
            result_,
            docs: Docs::none(),
            stability: Stability::Unknown,
            span: Span::unknown(),
            external_id: None,
        }
    }
}

/// As the derived one: each field is let go. A call of it costs the check less than a derived one,
/// which is checked again wherever a value is let go.
impl Drop for Function {
    fn drop(self) {
        let Function {
            name,
            params,
            docs,
            stability,
            external_id,
            kind: _,
            result_: _,
            span: _,
        } = self;
        drop(name);
        drop(params);
        drop(docs);
        drop(stability);
        drop(external_id);
    }
}

impl TryClone for Function {
    fn try_clone(&self) -> Result<Function, AllocError> {
        let (name, params) = try_clone_two(&self.name, &self.params)?;
        let (docs, stability, external_id) = try_clone_three(
            &self.docs,
            &self.stability,
            &self.external_id,
        )?;
        Ok(Function {
            name,
            kind: self.kind,
            params,
            result_: self.result_,
            docs,
            stability,
            span: self.span,
            external_id,
        })
    }
}
