//! Lists whose items are put in an order.
ghost use Rattle.std.specs.Prelude.{◌≡◌, ◌<◌, All, IfOk, Some, length, map, nat_eq, slice_get};
ghost use Rattle.std.specs.List.{AllZip, IsDistinct};

use std::alloc::{AllocError, Global};
use wit_values::Items;

/// The items that stand at these indices, in this order. Each is moved, and an item whose index
/// isn't among them is let go. The indices count from 0, differ, and are below the number of items.
/// The only error is want of memory.
pub fn in_order<T: Drop>(
    alloc: Global,
    items: Items<T>,
    order: &[usize],
) -> Result<Items<T>, AllocError>
    requires once { IsDistinct nat_eq order.now }
    requires in_range { All (λ place. place < length items) order.now }
    ensures { IfOk result
        (λ arranged. AllZip (λ place x. slice_get items place ≡ Some x) order.now arranged) }
{
    let mut slots = slots_of(alloc, items)?;
    let mut arranged = Items::new(alloc);
    for place in order {
        match slots.replace(*place, None) {
            Some(item) => arranged.push(item)?,
            None => unreachable!(),
        }
    }
    Ok(arranged)
}

/// Each item in a slot of its own.
fn slots_of<T: Drop>(alloc: Global, items: Items<T>) -> Result<Items<Option<T>>, AllocError>
    ensures { IfOk result (λ slots. slots ≡ map Some items) }
{
    let mut slots = Items::new(alloc);
    for item in items.into_vec() {
        slots.push(Some(item))?;
    }
    Ok(slots)
}
