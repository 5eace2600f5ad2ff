//! Cycles along uses: whether there is one, and a use on it.
ghost use Rattle.std.specs.Prelude.{◌≡◌, ◌<◌, ◌↔◌, IfOk, IfSome, IfNone, IsNone, IsTrue, length};
ghost use Rattle.wit_digraph.specs.Cycles.{IsOnCycle};
ghost use Rattle.wit_digraph.specs.steps.Cycles.{Finishes, IsFinished};
ghost use Rattle.wit_digraph.specs.Relation.{IsAcyclic, IsInRange};

use crate::frame::Frame;
use crate::relation::{direct_uses, is_in_range};
use std::alloc::{AllocError, Global};
use wit_values::Items;

/// A use on a cycle: the user uses the other directly, and that leads back to the user.
#[derive(Clone, Copy, Debug, PartialEq, Eq)]
pub struct CycleUse {
    pub user: usize,
    pub used: usize,
}

/// How far a search has come with a node: not met, on the way from the root, or left with all that
/// it uses.
#[derive(Clone, Copy, PartialEq, Eq)]
enum Mark {
    Unseen,
    Open,
    Done,
}

/// A use on a cycle, where there is one: of a node that reaches itself along uses, or uses itself.
/// Of several any may be told. Row i has what node i uses, from 0, and each use is of a node that
/// is there. The only error is want of memory.
///
/// It takes a mark for each node and a step for each node and each use.
pub fn find_cycle(alloc: Global, uses: &[Items<usize>]) -> Result<Option<CycleUse>, AllocError>
    requires { IsInRange uses.now }
    ensures none { IfOk result (λ found. IsNone found ↔ IsAcyclic uses.now) }
    ensures some { IfOk result (λ found. IfSome found (λ c. IsOnCycle uses.now c.user c.used)) }
{
    let mut marks = vec![in alloc; Mark::Unseen; uses.len()]?;
    for root in 0..uses.len() {
        let found = search(alloc, uses, &mut marks, root)?;
        if found.is_some() {
            return Ok(found);
        }
    }
    Ok(None)
}

/// Whether each use is of a node that is there and no path leads from a node back to it. It is told
/// of any rows. The only error is want of memory.
pub fn is_acyclic(alloc: Global, uses: &[Items<usize>]) -> Result<bool, AllocError>
    ensures { IfOk result (λ acyclic. IsTrue acyclic ↔ IsAcyclic uses.now) }
{
    if !is_in_range(uses) {
        return Ok(false);
    }
    let found = find_cycle(alloc, uses)?;
    Ok(found.is_none())
}

/// Follows the uses of `root` to all that it reaches, but what is done. A use of a node on the way
/// is on a cycle; the search stops there.
fn search(
    alloc: Global,
    uses: &[Items<usize>],
    marks: &mut [Mark],
    root: usize,
) -> Result<Option<CycleUse>, AllocError>
    requires in_range { IsInRange uses.now }
    requires root { root < length uses.now }
    requires long { length marks.old ≡ length uses.now }
    requires settled { IsFinished uses.now marks.old }
    ensures some { IfOk result (λ found. IfSome found (λ c. IsOnCycle uses.now c.user c.used)) }
    ensures none { IfOk result
        (λ found. IfNone found (Finishes uses.now marks.old marks.new root)) }
{
    if marks[root] == Mark::Done {
        return Ok(None);
    }
    marks[root] = Mark::Open;
    let mut stack = vec![in alloc;
        Frame {
            node: root,
            next: 0
        },
    ]?;
    while let Some(frame) = stack.pop() {
        let row = direct_uses(uses, frame.node);
        if frame.next < row.len() {
            let used = row[frame.next];
            stack.push(Frame {
                node: frame.node,
                next: frame.next + 1,
            })?;
            match marks[used] {
                Mark::Open => {
                    return Ok(Some(CycleUse {
                        user: frame.node,
                        used,
                    }));
                }
                Mark::Unseen => {
                    marks[used] = Mark::Open;
                    stack.push(Frame {
                        node: used,
                        next: 0,
                    })?;
                }
                Mark::Done => {}
            }
        } else {
            marks[frame.node] = Mark::Done;
        }
    }
    Ok(None)
}
