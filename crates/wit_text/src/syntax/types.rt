//! Types.

use crate::keyword::Keyword;
use crate::syntax::path::Piece;
use wit_sources::Span;
use wit_values::Items;

/// A type in the list of a file: its nodes stand from `first` up to `index`, each behind its parts,
/// and the node at `index` is the type itself.
#[derive(Clone, Copy, Debug, PartialEq, Eq)]
pub struct TypeRange {
    pub first: usize,
    pub index: usize,
}

/// A type of the list of a file, with the place of its first word. It has its parts by their indices
/// in that list, which are below its own, so types nest in any depth.
pub struct TypeNode {
    pub kind: TypeNodeKind,
    pub span: Span,
}

/// As the derived one: each field is let go. A call of it costs the check less than a derived one,
/// which is checked again wherever a value is let go.
impl Drop for TypeNode {
    fn drop(self) {
        let TypeNode { kind, span: _ } = self;
        drop(kind);
    }
}

/// What a type is.
#[derive(Drop)]
pub enum TypeNodeKind {
    /// A primitive, by its keyword.
    Primitive(Keyword),
    /// A type by its name.
    Named(Piece),
    Own(Piece),
    Borrow(Piece),
    List(usize),
    FixedLengthList(usize, u32),
    Map(usize, usize),
    Option(usize),
    Result_ {
        ok: Option<usize>,
        err: Option<usize>,
    },
    Tuple(Items<usize>),
    Future(Option<usize>),
    Stream(Option<usize>),
}
