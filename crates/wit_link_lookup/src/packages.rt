//! The packages of which a package names something.
ghost use Rattle.std.specs.Prelude.{◌≡◌, ◌⊎◌, ◌<◌, IfErr, IfOk, length};
ghost use Rattle.wit_graph_data.specs.declared.error_kind.ResolveErrorKind.TheVariants.{OutOfMemory};
ghost use Rattle.wit_data.specs.Shape.{IsShaped};
ghost use Rattle.wit_link_spec.specs.steps.AdditionRefs.{addition_of};
ghost use Rattle.wit_link_spec.specs.Cause.{IsAdditionCause};
ghost use Rattle.wit_link_lookup.specs.steps.ForeignItems.{IsHome};

use crate::refusal::package_not_found;
use std::alloc::Global;
use wit_data::{AstItem, Items, Names, PackageId, PackageName, Stability};
use wit_graph_data::ResolveResult;
use wit_link_spec::AdditionRef;

/// A package of which something is named.
#[derive(Drop)]
pub(crate) struct Home<'a> {
    pub(crate) name: &'a PackageName,
    /// What is named of it.
    pub(crate) items: &'a Names<(AstItem, Items<Stability>)>,
    /// Its id in the graph: None for the package that is added, which counts as there and empty.
    pub(crate) id: Option<PackageId>,
}

/// The package of which something is named at an index. Refused where there is none of that name (1), if any item
/// of it is named.
pub(crate) fn find_home<'a>(
    alloc: Global,
    addition: &AdditionRef<'a>,
    index: usize,
) -> ResolveResult<Home<'a>>
    requires shaped { IsShaped addition.now.unresolved.now }
    requires inside { index < length addition.now.unresolved.now.foreign_deps }
    ensures home { IfOk result
        (λ home. IsHome (addition_of addition.now) index home.name.now home.items.now home.id) }
    ensures cause { IfErr result
        (λ kind. (kind ≡ OutOfMemory) ⊎ IsAdditionCause (addition_of addition.now) kind) }
{
    let (name, items) = addition.unresolved.foreign_deps.entry_at(index);
    let id = match addition.graph.package_names.get(name) {
        _ if addition.unresolved.name == *name => None,
        Some(id) => Some(*id),
        None if items.is_empty() => None,
        None => {
            let span = *addition.unresolved.foreign_dep_spans.at(index);
            return Err(package_not_found(alloc, addition, span, name)?);
        }
    };
    Ok(Home { name, items, id })
}
