//! Interfaces that use themselves.
ghost use Rattle.std.specs.Prelude.{◌≡◌, ◌↔◌, ◌≤◌, filter, IfOk, IsTrue, length, nat_lt};
ghost use Rattle.wit_data.specs.Uses.{uses_of};
ghost use Rattle.wit_digraph.specs.Relation.{IsAcyclic, IsInRange};
ghost use Rattle.wit_shape.specs.Faults.{IsFirstOnCycle, Tells, among_first};
ghost use Rattle.wit_shape.specs.First.{Finds};
ghost use Rattle.wit_shape.specs.declared.clause.ShapeClause.TheVariants.{Uses};

use crate::place::ShapePlace;
use std::alloc::{AllocError, Global};
use wit_data::{InterfaceId, UnresolvedPackage, uses_of};
use wit_digraph::is_acyclic;
use wit_values::Items;

/// The first interface with which those up to it use themselves, through whatever others of them.
pub(crate) fn acyclic(
    alloc: Global,
    unresolved: &UnresolvedPackage,
) -> Result<Option<ShapePlace>, AllocError>
    requires { IsInRange (uses_of unresolved.now.types unresolved.now.interfaces) }
    ensures { IfOk result (λ found. Tells unresolved.now Uses found) }
{
    let types = unresolved.types.as_slice();
    let uses = uses_of(alloc, types, unresolved.interfaces.as_slice())?;
    let found = first_on_cycle(alloc, uses.as_slice())?;
    Ok(found.map(|index| ShapePlace::Interface(InterfaceId::from_index(index))))
}

/// The first node with which those up to it lead from one of them back to it, found by halves.
pub fn first_on_cycle(alloc: Global, uses: &[Items<usize>]) -> Result<Option<usize>, AllocError>
    requires { IsInRange uses.now }
    ensures { IfOk result (λ found. Finds (IsAcyclic uses.now) (IsFirstOnCycle uses.now) found) }
{
    if is_acyclic(alloc, uses)? {
        return Ok(None);
    }
    let mut acyclic = 0;
    let mut cyclic = uses.len();
    while acyclic + 1 < cyclic {
        let middle = acyclic + (cyclic - acyclic) / 2;
        if is_acyclic_among(alloc, uses, middle)? {
            acyclic = middle;
        } else {
            cyclic = middle;
        }
    }
    Ok(Some(acyclic))
}

/// Whether no path leads from one of the first nodes, by uses among them, back to it.
fn is_acyclic_among(alloc: Global, uses: &[Items<usize>], count: usize) -> Result<bool, AllocError>
    requires { count ≤ length uses.now }
    ensures { IfOk result (λ acyclic. IsTrue acyclic ↔ IsAcyclic (among_first uses.now count)) }
{
    let mut rows = Items::new(alloc);
    for row in &uses[..count] {
        rows.push(below(alloc, row.as_slice(), count)?)?;
    }
    is_acyclic(alloc, rows.as_slice())
}

/// Those of some numbers that are below a bound.
fn below(alloc: Global, numbers: &[usize], bound: usize) -> Result<Items<usize>, AllocError>
    ensures { IfOk result (λ kept. kept ≡ filter (λ j. nat_lt j bound) numbers.now) }
{
    let mut kept = Items::new(alloc);
    for number in numbers {
        if *number < bound {
            kept.push(*number)?;
        }
    }
    Ok(kept)
}
