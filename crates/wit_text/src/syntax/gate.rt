//! What stands before a statement.

use crate::comments::Comments;
use crate::syntax::path::Piece;
use wit_sources::Span;
use wit_values::Items;

/// What an attribute is about.
#[derive(Clone, Copy, Debug, PartialEq, Eq)]
pub enum AttributeKind {
    /// `@since(version = VALUE)`
    Since,
    /// `@unstable(feature = VALUE)`
    Unstable,
    /// `@deprecated(version = VALUE)`
    Deprecated,
    /// `@external-id("VALUE")`
    ExternalId,
}

/// An attribute before a statement, with the place of its name.
#[derive(Clone, Copy)]
pub struct Attribute {
    pub kind: AttributeKind,
    pub value: Piece,
    pub span: Span,
}

/// The attributes before a statement, in order, and the comments before the first of them: from the
/// first to the last.
pub struct Gate {
    pub docs: Option<Comments>,
    pub attributes: Items<Attribute>,
}

/// As the derived one: each field is let go. A call of it costs the check less than a derived one,
/// which is checked again wherever a value is let go.
impl Drop for Gate {
    fn drop(self) {
        let Gate {
            attributes,
            docs: _,
        } = self;
        drop(attributes);
    }
}
