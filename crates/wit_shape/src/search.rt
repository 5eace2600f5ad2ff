//! The search for the first clause of its shape that a package breaks: none where it has its shape.
ghost use Rattle.std.specs.Prelude.{◌≡◌, ◌↔◌, IfOk, IsNone, IsTrue, Some};
ghost use Rattle.wit_data.specs.Shape.{IsShaped};
ghost use Rattle.wit_shape.specs.Faults.{IsFirstFault, KeepsBefore, Tells};
ghost use Rattle.wit_shape.specs.First.{Finds};
ghost use Rattle.wit_shape.specs.declared.fault.ShapeFault.{ShapeFault};

use crate::clause::ShapeClause;
use crate::fault::ShapeFault;
use crate::keys::keys_differ;
use crate::named_owners::shown_by_each;
use crate::place::ShapePlace;
use crate::{foreign, names, own, owners, references, unknown, unplaced, uses, worlds};
use std::alloc::{AllocError, Global};
use wit_data::UnresolvedPackage;

/// Whether the package has its shape, which is what the calls that resolve it ask of it: whether
/// [`find_shape_fault`] finds nothing.
///
/// Ids are indices in its own lists. What it knows of other packages comes first in each list:
/// interfaces and worlds by name alone, and types of kind `Unknown`, which alone may have to be
/// resources; there is a span for each other package and each such type. Names are kebab names, its
/// version is one of SemVer, and the names of its own interfaces differ, as do those of its own
/// worlds. Owners list their types under their names; types refer to earlier ones; an alias names a
/// named type of its owner or of an interface with a name; a type without a name is no alias and no
/// resource; but for aliases, an owner's types and functions refer to its own types alone; and
/// interfaces don't use themselves, through whatever others. Worlds have what may stand in them, an
/// interface without a name in one place at most, and include earlier worlds. Interfaces and worlds
/// don't say yet to which package they belong.
///
/// It takes the time of [`find_shape_fault`], and refuses only for want of memory.
pub fn is_shaped(alloc: Global, unresolved: &UnresolvedPackage) -> Result<bool, AllocError>
    ensures { IfOk result (λ shaped. IsTrue shaped ↔ IsShaped unresolved.now) }
{
    match find_shape_fault(alloc, unresolved)? {
        // It is named since the prover wants a variable of each type that stands in what is dropped here.
        Some(ShapeFault { place: _place, .. }) => Ok(false),
        None => Ok(true),
    }
}

/// The first clause of its shape that a package breaks, in the order of [`ShapeClause::ALL`], and the first thing that
/// breaks it, in the order of the package's lists. None where the package has its shape.
///
/// Of interfaces that use themselves it is the first with which those up to it do, through whatever others of them.
///
/// It takes time in proportion to the package's size, but where interfaces use themselves: then that times the logarithm
/// of their number. It refuses only for want of memory.
pub fn find_shape_fault(
    alloc: Global,
    unresolved: &UnresolvedPackage,
) -> Result<Option<ShapeFault>, AllocError>
    ensures none { IfOk result (λ found. IsNone found ↔ IsShaped unresolved.now) }
    ensures some { IfOk result (λ found.
        (fault : ShapeFault) → (found ≡ Some fault) ↔ IsFirstFault unresolved.now fault) }
{
    first_fault(alloc, unresolved)
}

/// The same, clause by clause.
fn first_fault(
    alloc: Global,
    unresolved: &UnresolvedPackage,
) -> Result<Option<ShapeFault>, AllocError>
    ensures { IfOk result
        (λ found. Finds (IsShaped unresolved.now) (IsFirstFault unresolved.now) found) }
{
    keys_differ(unresolved);
    for clause in ShapeClause::ALL {
        if let Some(place) = find_place(alloc, unresolved, clause)? {
            return Ok(Some(ShapeFault { clause, place }));
        }
    }
    Ok(None)
}

/// The first thing that breaks a clause, of a package that keeps those before it.
fn find_place(
    alloc: Global,
    unresolved: &UnresolvedPackage,
    clause: ShapeClause,
) -> Result<Option<ShapePlace>, AllocError>
    requires { KeepsBefore unresolved.now clause }
    ensures { IfOk result (λ found. Tells unresolved.now clause found) }
{
    let types = unresolved.types.as_slice();
    let interfaces = unresolved.interfaces.as_slice();
    let worlds = unresolved.worlds.as_slice();
    match clause {
        ShapeClause::UnplacedInterfaces => Ok(unplaced::interfaces(unresolved)),
        ShapeClause::UnplacedWorlds => Ok(unplaced::worlds(unresolved)),
        ShapeClause::ForeignSpans => Ok(foreign::spans(unresolved)),
        ShapeClause::ForeignInterfaces => foreign::interfaces(alloc, unresolved),
        ShapeClause::ForeignWorlds => foreign::worlds(alloc, unresolved),
        ShapeClause::ForeignBare => Ok(foreign::items(unresolved)),
        ShapeClause::UnknownFirst => Ok(unknown::first(unresolved)),
        ShapeClause::UnknownForeign => unknown::foreign_types(alloc, unresolved),
        ShapeClause::UnknownAlone => unknown::listed_types(alloc, unresolved),
        ShapeClause::UnknownRequired => Ok(unknown::required(unresolved)),
        ShapeClause::NamesNamespace => Ok(names::namespace(unresolved)),
        ShapeClause::NamesOwn => Ok(names::own(unresolved)),
        ShapeClause::NamesInterfaces => Ok(names::interfaces(interfaces)),
        ShapeClause::NamesWorlds => Ok(names::worlds(worlds)),
        ShapeClause::NamesVersion => names::version(alloc, unresolved),
        ShapeClause::NamesInterfacesDiffer => names::interfaces_differ(alloc, unresolved),
        ShapeClause::NamesWorldsDiffer => names::worlds_differ(alloc, unresolved),
        ShapeClause::OwnersListed => owners::listed(interfaces, worlds, types),
        ShapeClause::OwnersOwnTypes => Ok(owners::own_types(types, interfaces)),
        ShapeClause::OwnersFunctions => Ok(owners::functions(interfaces)),
        ShapeClause::ReferencesEarlier => references::earlier(alloc, unresolved),
        ShapeClause::ReferencesAliases => Ok(references::aliases(types, interfaces)),
        ShapeClause::ReferencesUnnamed => Ok(references::unnamed(types)),
        ShapeClause::OwnTypes => own::types(alloc, types, &shown_by_each(alloc, types)?),
        ShapeClause::OwnFunctions => own::functions(
            alloc,
            types,
            &shown_by_each(alloc, types)?,
            interfaces,
        ),
        ShapeClause::OwnImports => own::imports(
            alloc,
            types,
            &shown_by_each(alloc, types)?,
            worlds,
        ),
        ShapeClause::OwnExports => own::exports(
            alloc,
            types,
            &shown_by_each(alloc, types)?,
            worlds,
        ),
        ShapeClause::WorldsImports => Ok(worlds::imports(interfaces, types, worlds)),
        ShapeClause::WorldsExports => Ok(worlds::exports(interfaces, worlds)),
        ShapeClause::WorldsOnce => worlds::once(alloc, interfaces, worlds),
        ShapeClause::WorldsIncludes => Ok(worlds::includes(worlds)),
        ShapeClause::Uses => uses::acyclic(alloc, unresolved),
    }
}
