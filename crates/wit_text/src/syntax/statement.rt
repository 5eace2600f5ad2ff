//! The statements of interfaces and worlds.

use crate::syntax::function::{Member, ResourceFunction, Signature};
use crate::syntax::gate::Gate;
use crate::syntax::path::{Path, Piece};
use crate::syntax::types::TypeRange;
use wit_values::Items;

/// A name that `use` or `include` takes over, and the name that it has here: the same where there is
/// no `as`.
#[derive(Clone, Copy)]
pub struct Renaming {
    pub name: Piece,
    pub new: Piece,
}

/// `use PATH.{NAMES};`
pub struct UseNames {
    pub path: Path,
    pub names: Items<Renaming>,
}

/// As the derived one: each field is let go. A call of it costs the check less than a derived one,
/// which is checked again wherever a value is let go.
impl Drop for UseNames {
    fn drop(self) {
        let UseNames { names, path: _ } = self;
        drop(names);
    }
}

/// `include PATH;` or `include PATH with { NAMES }`
pub struct Include {
    pub path: Path,
    pub names: Items<Renaming>,
}

/// As the derived one: each field is let go. A call of it costs the check less than a derived one,
/// which is checked again wherever a value is let go.
impl Drop for Include {
    fn drop(self) {
        let Include { names, path: _ } = self;
        drop(names);
    }
}

/// What a type that is defined is.
#[derive(Drop)]
pub enum DefinitionKind {
    /// `type NAME = TYPE;`
    Alias(TypeRange),
    /// Fields, each with its type.
    Record(Items<Member>),
    /// Cases, some with types.
    Variant(Items<Member>),
    /// Cases without types.
    Enum(Items<Member>),
    /// Flags, which have no types.
    Flags(Items<Member>),
    Resource(Items<ResourceFunction>),
}

/// The definition of a type.
pub struct Definition {
    pub name: Piece,
    pub kind: DefinitionKind,
}

/// As the derived one: each field is let go. A call of it costs the check less than a derived one,
/// which is checked again wherever a value is let go.
impl Drop for Definition {
    fn drop(self) {
        let Definition { kind, name: _ } = self;
        drop(kind);
    }
}

/// What an interface states.
#[derive(Drop)]
pub enum InterfaceStatementKind {
    Use(UseNames),
    Define(Definition),
    Function(Piece, Signature),
}

/// A statement of an interface.
pub struct InterfaceStatement {
    pub gate: Gate,
    pub kind: InterfaceStatementKind,
}

/// As the derived one: each field is let go. A call of it costs the check less than a derived one,
/// which is checked again wherever a value is let go.
impl Drop for InterfaceStatement {
    fn drop(self) {
        let InterfaceStatement { gate, kind } = self;
        drop(gate);
        drop(kind);
    }
}

/// What a world imports or exports.
#[derive(Drop)]
pub enum Entry {
    /// An interface under its own name.
    Path(Path),
    /// `LABEL: PATH;`
    Labelled(Piece, Path),
    /// `LABEL: func(..);`
    Function(Piece, Signature),
    /// `LABEL: interface { .. }`
    Interface(Piece, Items<InterfaceStatement>),
}

/// What a world states.
#[derive(Drop)]
pub enum WorldStatementKind {
    Use(UseNames),
    Define(Definition),
    Import(Entry),
    Export(Entry),
    Include(Include),
}

/// A statement of a world.
pub struct WorldStatement {
    pub gate: Gate,
    pub kind: WorldStatementKind,
}

/// As the derived one: each field is let go. A call of it costs the check less than a derived one,
/// which is checked again wherever a value is let go.
impl Drop for WorldStatement {
    fn drop(self) {
        let WorldStatement { gate, kind } = self;
        drop(gate);
        drop(kind);
    }
}
