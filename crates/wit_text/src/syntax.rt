//! What a file of WIT says, each thing with its place.

mod file;
mod function;
mod gate;
mod path;
mod statement;
mod types;

pub use file::{File, Header, Item, ItemKind, NestedPackage, TopUse};
pub use function::{Member, ResourceFunction, ResourceFunctionName, Signature};
pub use gate::{Attribute, AttributeKind, Gate};
pub use path::{PackagePath, Path, Piece};
pub use statement::{
    Definition, DefinitionKind, Entry, Include, InterfaceStatement, InterfaceStatementKind,
    Renaming, UseNames, WorldStatement, WorldStatementKind,
};
pub use types::{TypeNode, TypeNodeKind, TypeRange};
