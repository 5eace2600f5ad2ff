//! Interfaces.
ghost use Rattle.std.specs.Prelude.{◌≡◌};
ghost use Rattle.wit_data.specs.Entries.{is_unnamed};
ghost use Rattle.wit_data.specs.New.{new_interface};

use crate::function::Function;
use crate::ids::{InterfaceId, PackageId, TypeId};
use crate::stability::{Docs, Stability};
use std::alloc::{AllocError, Global};
use wit_sources::Span;
use wit_values::{Names, Text, TryClone, try_clone_three, try_clone_two};

/// An interface: types and functions under their names.
///
/// Source: `Interface` of wit-parser 0.263.0.
pub struct Interface {
    /// Its name in its package. An interface that a world writes in place has none.
    pub name: Option<Text>,
    pub types: Names<TypeId>,
    pub functions: Names<Function>,
    pub docs: Docs,
    pub stability: Stability,
    /// The package that it belongs to, None in an unresolved package.
    pub package: Option<PackageId>,
    pub span: Span,
}

impl Interface {
    /// An interface without types and functions, of which nothing more is said: without docs, gate and package, with an
    /// unknown span. It takes no memory.
    pub fn new(alloc: Global, name: Option<Text>) -> Interface
        ensures { result ≡ new_interface name }
    {
        Interface {
            name,
            types: Names::new(alloc),
            functions: Names::new(alloc),
            docs: Docs::none(),
            stability: Stability::Unknown,
            package: None,
            span: Span::unknown(),
        }
    }
}

/// Whether an interface of a list has no name; false where it isn't there.
pub fn is_unnamed(interfaces: &[Interface], id: InterfaceId) -> bool
    ensures { result ≡ is_unnamed interfaces.now id }
{
    match interfaces.get(id.index()) {
        Some(interface) => interface.name.is_none(),
        None => false,
    }
}

/// As the derived one: each field is let go. A call of it costs the check less than a derived one,
/// which is checked again wherever a value is let go.
impl Drop for Interface {
    fn drop(self) {
        let Interface {
            name,
            types,
            functions,
            docs,
            stability,
            package: _,
            span: _,
        } = self;
        drop(name);
        drop(types);
        drop(functions);
        drop(docs);
        drop(stability);
    }
}

impl TryClone for Interface {
    fn try_clone(&self) -> Result<Interface, AllocError> {
        let (name, types, functions) = try_clone_three(&self.name, &self.types, &self.functions)?;
        let (docs, stability) = try_clone_two(&self.docs, &self.stability)?;
        Ok(Interface {
            name,
            types,
            functions,
            docs,
            stability,
            package: self.package,
            span: self.span,
        })
    }
}
