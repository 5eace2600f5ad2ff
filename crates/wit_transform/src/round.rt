//! The nodes of a cycle along uses.
ghost use Rattle.std.specs.Prelude.{◌≡◌, IfOk, map};
ghost use Rattle.wit_digraph.specs.Cycles.{IsOnCycle};
ghost use Rattle.wit_digraph.specs.Relation.{IsInRange};
ghost use Rattle.wit_transform.specs.steps.Reasons.{IsRound};
ghost use Rattle.wit_transform.specs.declared.round.Frame.{Frame};

use std::alloc::{AllocError, Global};
use wit_digraph::{CycleUse, direct_uses};
use wit_values::Items;

/// A node on the way of a search, and the index of its next use.
#[derive(Clone, Copy)]
struct Frame {
    node: usize,
    next: usize,
}

/// The nodes of a cycle with the user of a use that is on one: each uses the next one, and the last one the first.
///
/// It takes a mark for each node and a step for each node and each use that the user reaches.
pub(crate) fn find_round(
    alloc: Global,
    uses: &[Items<usize>],
    found: CycleUse,
) -> Result<Items<usize>, AllocError>
    requires in_range { IsInRange uses.now }
    requires found { IsOnCycle uses.now found.user found.used }
    ensures { IfOk result (IsRound uses.now) }
{
    let mut seen = vec![in alloc; false; uses.len()]?;
    seen[found.user] = true;
    let mut stack = vec![in alloc;
        Frame {
            node: found.user,
            next: 0
        },
    ]?;
    while let Some(frame) = stack.pop() {
        let row = direct_uses(uses, frame.node);
        if frame.next < row.len() {
            let used = row[frame.next];
            stack.push(Frame {
                node: frame.node,
                next: frame.next + 1,
            })?;
            if used == found.user {
                return nodes_of(alloc, &stack);
            }
            if !seen[used] {
                seen[used] = true;
                stack.push(Frame {
                    node: used,
                    next: 0,
                })?;
            }
        }
    }
    unreachable!()
}

/// The nodes of a way.
fn nodes_of(alloc: Global, way: &[Frame]) -> Result<Items<usize>, AllocError>
    ensures { IfOk result (λ nodes. nodes ≡ map (λ (frame : Frame). frame.node) way.now) }
{
    let mut nodes = Items::new(alloc);
    for frame in way {
        nodes.push(frame.node)?;
    }
    Ok(nodes)
}
