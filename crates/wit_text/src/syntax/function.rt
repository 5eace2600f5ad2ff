//! Functions, and what has a name and a type.

use crate::comments::Comments;
use crate::syntax::gate::Gate;
use crate::syntax::path::Piece;
use crate::syntax::types::TypeRange;
use wit_sources::Span;
use wit_values::Items;

/// A field, a case, a flag or a parameter, with its type where it has one.
#[derive(Clone, Copy)]
pub struct Member {
    pub docs: Option<Comments>,
    pub name: Piece,
    pub ty: Option<TypeRange>,
}

/// A function without its name. Of a method the parameter `self` isn't among the parameters.
pub struct Signature {
    pub is_async: bool,
    pub parameters: Items<Member>,
    pub result: Option<TypeRange>,
}

/// As the derived one: each field is let go. A call of it costs the check less than a derived one,
/// which is checked again wherever a value is let go.
impl Drop for Signature {
    fn drop(self) {
        let Signature {
            parameters,
            is_async: _,
            result: _,
        } = self;
        drop(parameters);
    }
}

/// What a function of a resource is: a constructor, by the place of its word, or a method or static
/// function of a name.
#[derive(Clone, Copy)]
pub enum ResourceFunctionName {
    Constructor(Span),
    Method(Piece),
    Static(Piece),
}

/// A function of a resource.
pub struct ResourceFunction {
    pub gate: Gate,
    pub name: ResourceFunctionName,
    pub signature: Signature,
}

/// As the derived one: each field is let go. A call of it costs the check less than a derived one,
/// which is checked again wherever a value is let go.
impl Drop for ResourceFunction {
    fn drop(self) {
        let ResourceFunction {
            gate,
            signature,
            name: _,
        } = self;
        drop(gate);
        drop(signature);
    }
}
