//! Names, and paths of them.

use wit_sources::Span;

/// A piece of a source: a name, a version, a value of an attribute. It has the bytes of the source
/// before it and those up to its end, and its place.
///
/// The bytes of a name lack its `%`, which its place has.
#[derive(Clone, Copy)]
pub struct Piece {
    pub start: usize,
    pub end: usize,
    pub span: Span,
}

impl Piece {
    /// Its text in its source.
    pub fn text<'a>(&self, source: &'a str) -> &'a str {
        source.get(self.start..self.end).unwrap_or("")
    }
}

/// The name of a package: `namespace:name` or `namespace:name@version`. The version is one of
/// SemVer 2.0.0.
#[derive(Clone, Copy)]
pub struct PackagePath {
    pub namespace: Piece,
    pub name: Piece,
    pub version: Option<Piece>,
}

/// An interface or a world: of another package where it names one.
#[derive(Clone, Copy)]
pub struct Path {
    pub package: Option<PackagePath>,
    pub name: Piece,
}
