//! What is told of a package that names what isn't there.
ghost use Rattle.std.specs.Prelude.{◌≡◌, IfOk};
ghost use Rattle.std.specs.Map.{keys_of};
ghost use Rattle.wit_sources.specs.Span.{moved_by};
ghost use Rattle.wit_graph_data.specs.declared.cause.Cause.TheVariants.{TypeNotDefined};
ghost use Rattle.wit_graph_data.specs.declared.error_kind.ResolveErrorKind.TheVariants.{PackageNotFound, Semantic};
ghost use Rattle.wit_link_spec.specs.steps.AdditionRefs.{addition_of};
ghost use Rattle.wit_link_spec.specs.Reasons.{known_packages};
ghost use Rattle.wit_link_lookup.specs.steps.ForeignItems.{not_found};
ghost use Rattle.wit_link_spec.specs.steps.Parts.{type_not_defined_text};

use std::alloc::{AllocError, Global};
use wit_data::{AstItem, Items, PackageName, Span, Text, TryClone};
use wit_graph_data::{Cause, ResolveError, ResolveErrorKind};
use wit_link_spec::AdditionRef;

/// 1: a package of which something is named isn't there.
pub(crate) fn package_not_found(
    alloc: Global,
    addition: &AdditionRef<'_>,
    span: Span,
    requested: &PackageName,
) -> Result<ResolveError, AllocError>
    ensures { IfOk result (λ e.
        e
        ≡ PackageNotFound (moved_by addition.now.offset span) requested.now
        (known_packages (addition_of addition.now))) }
{
    let span = moved(span, addition.offset)?;
    let known = known(alloc, addition)?;
    let requested = requested.try_clone()?;
    Ok(ResolveErrorKind::PackageNotFound {
        span,
        requested,
        known,
    }
    .into())
}

/// 2 and 3: a world or an interface isn't in its package.
pub(crate) fn item_not_found(
    alloc: Global,
    addition: &AdditionRef<'_>,
    item: &AstItem,
    span: Span,
    requested: &str,
    home: &PackageName,
) -> Result<ResolveError, AllocError>
    ensures { IfOk result
        (λ e. e ≡ not_found item.now (moved_by addition.now.offset span) requested.now home.now) }
{
    let span = moved(span, addition.offset)?;
    let requested = Text::try_from_str(alloc, requested)?;
    let package = home.try_clone()?;
    let kind = match *item {
        AstItem::Interface(_) => ResolveErrorKind::InterfaceNotFound {
            span,
            requested,
            package,
        },
        AstItem::World(_) => ResolveErrorKind::WorldNotFound {
            span,
            requested,
            package,
        },
    };
    Ok(kind.into())
}

/// 13: a type isn't in its interface.
pub(crate) fn type_not_defined(
    alloc: Global,
    addition: &AdditionRef<'_>,
    span: Span,
    name: &Text,
) -> Result<ResolveError, AllocError>
    ensures { IfOk result (λ e.
        e
        ≡ Semantic (moved_by addition.now.offset span) (type_not_defined_text name.now)
        TypeNotDefined) }
{
    let span = moved(span, addition.offset)?;
    let message = format!(in alloc; "type `{name}` not defined in interface")?;
    Ok(ResolveErrorKind::Semantic {
        span,
        message: Text::from_string(message),
        cause: Cause::TypeNotDefined,
    }
    .into())
}

/// The span so many positions further on. The caller has seen that no span passes the last position, so
/// an error says that memory is wanting.
fn moved(span: Span, offset: u32) -> Result<Span, AllocError>
    ensures { IfOk result (λ moved. moved ≡ moved_by offset span) }
{
    span.moved(offset).ok_or(AllocError)
}

/// The packages that are known: those of the graph in order, and the one that is added where the graph has none
/// of its name.
fn known(alloc: Global, addition: &AdditionRef<'_>) -> Result<Items<PackageName>, AllocError>
    ensures { IfOk result (λ known. known ≡ known_packages (addition_of addition.now)) }
{
    let own = &addition.unresolved.name;
    let mut known = names(alloc, addition)?;
    if !addition.graph.package_names.contains_key(own) {
        known.push(own.try_clone()?)?;
    }
    Ok(known)
}

/// The names of the packages of the graph, in order.
fn names(alloc: Global, addition: &AdditionRef<'_>) -> Result<Items<PackageName>, AllocError>
    ensures { IfOk result (λ names. names ≡ keys_of addition.now.graph.now.package_names) }
{
    let mut names = Items::new(alloc);
    for (name, _) in addition.graph.package_names.iter() {
        names.push(name.try_clone()?)?;
    }
    Ok(names)
}
