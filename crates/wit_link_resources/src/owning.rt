//! What types are remapped to at value positions, and the `own`s that come for that.
ghost use Rattle.std.specs.Prelude.{◌≡◌, ℕ, Contains, IfOk, length, map, take};
ghost use Rattle.std.specs.List.{range_with_len};
ghost use Rattle.wit_remap_spec.specs.Resources.{own_of};
ghost use Rattle.wit_remap_spec.specs.ValueRemap.{ValueRemap, needs_own};
ghost use Rattle.wit_link_resources.specs.steps.Active.{seen};
ghost use Rattle.wit_link_resources.specs.steps.IncomingTypes.{CanComeIn, IsRemap, IsRemapped, positions_of, values_in};
ghost use Rattle.wit_link_resources.specs.steps.Leading.{AreRight};

use crate::asked::asked;
use crate::incoming::Incoming;
use crate::leading::leads;
use std::alloc::{AllocError, Global};
use wit_data::{Function, Handle, Items, TypeDef, TypeDefKind, TypeId, TypeOwner};
use wit_link_spec::Values;
use wit_values::Table;

/// What the types that come into a graph are remapped to at value positions, and the `own`s that come for that: those
/// that the values of new types and of these functions ask for. All that stands at a value position is remapped. The
/// only error is want of memory.
///
/// It takes a step for each type that comes and for each type at a value position, and for each alias of the graph on
/// the way from those, up to one that was met; what is met on the way is noted behind that.
///
/// Source: `update_ty` of wit-parser 0.263.0.
pub fn remapped_values(
    alloc: Global,
    incoming: &Incoming<'_>,
    functions: &[&Function],
    met: &mut Table<TypeId, bool>,
) -> Result<Values, AllocError>
    requires can { CanComeIn incoming.now }
    requires there { (t : ℕ) → Contains (positions_of incoming.now (seen functions.now)) t
        → IsRemapped incoming.now.ids.now t }
    requires met { AreRight incoming.now.graph_types.now met.old }
    ensures values { IfOk result (λ values.
        (r : ValueRemap) → IsRemap incoming.now (seen functions.now) r → values ≡ values_in r) }
    ensures met { AreRight incoming.now.graph_types.now met.new }
    ensures begins { take (length met.old) met.new ≡ met.old }
{
    let needed = needed(alloc, incoming, functions, met)?;
    let first = incoming.first_own();
    let mut value_ids = Items::new(alloc);
    let mut owns = Items::new(alloc);
    for (index, needs) in needed.as_slice().iter().enumerate() {
        let id = incoming.remapped(index);
        if *needs {
            value_ids.push(TypeId::from_index(first + owns.len()))?;
            owns.push(own_of(id))?;
        } else {
            value_ids.push(id)?;
        }
    }
    Ok(Values {
        new_ids: value_ids,
        owns,
    })
}

/// For each type that comes, whether a value asks for an `own` of it. What stands at no value position isn't looked at.
#[tactic(auto, using(crate::specs::facts::MetTypes::begins_same, crate::specs::facts::MetTypes::begins_then))]
fn needed(
    alloc: Global,
    incoming: &Incoming<'_>,
    functions: &[&Function],
    met: &mut Table<TypeId, bool>,
) -> Result<Items<bool>, AllocError>
    requires can { CanComeIn incoming.now }
    requires there { (t : ℕ) → Contains (positions_of incoming.now (seen functions.now)) t
        → IsRemapped incoming.now.ids.now t }
    requires met { AreRight incoming.now.graph_types.now met.old }
    ensures long { IfOk result (λ needed. length needed ≡ length incoming.now.types.now) }
    ensures needed { IfOk result (λ needed.
        (r : ValueRemap) → IsRemap incoming.now (seen functions.now) r
        → needed ≡ map (needs_own r) (range_with_len 0 (length incoming.now.types.now))) }
    ensures met { AreRight incoming.now.graph_types.now met.new }
    ensures begins { take (length met.old) met.new ≡ met.old }
{
    let asked = asked(alloc, incoming, functions)?;
    let mut known = Items::from_vec(vec![in alloc; None; incoming.types.len()]?);
    let mut needed = Items::new(alloc);
    for (index, is_asked) in asked.as_slice().iter().enumerate() {
        let needs = if *is_asked {
            leads(incoming, met, &mut known, index)?
        } else {
            false
        };
        needed.push(needs)?;
    }
    Ok(needed)
}

/// The unnamed `own` of a type.
///
/// Source: `update_ty` of wit-parser 0.263.0.
fn own_of(id: TypeId) -> TypeDef
    ensures { result ≡ own_of id }
{
    TypeDef::new(None, TypeDefKind::Handle(Handle::Own(id)), TypeOwner::None)
}
