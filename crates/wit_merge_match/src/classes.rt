//! Classes of things that are the same.
ghost use Rattle.std.specs.Prelude.{◌≡◌, ◌<◌, ◌≤◌, ◌^◌, ℕ, IfOk, List, length};
ghost use Rattle.wit_merge_match.specs.steps.Classes.{AreSame, IsDescending};
ghost use Rattle.wit_merge_spec.specs.Structure.{Feature};

use std::alloc::{AllocError, Global};
use wit_values::Items;

/// Each thing as a class of its own.
pub(crate) fn own_classes(alloc: Global, count: usize) -> Result<Items<usize>, AllocError>
    ensures long { IfOk result (λ leaders. length leaders ≡ count) }
    ensures small { IfOk result (λ leaders. length leaders < 2 ^ 64) }
    ensures descending { IfOk result IsDescending }
    ensures same { IfOk result (λ leaders. (f : ℕ → List Feature) → AreSame f leaders) }
{
    let mut leaders = Items::new(alloc);
    for thing in 0..count {
        leaders.push(thing)?;
    }
    Ok(leaders)
}

/// The thing by which the class of a thing is told. Each thing on the way to it comes nearer to it.
pub(crate) fn leader_of(leaders: &mut Items<usize>, thing: usize) -> usize
    requires descending { IsDescending leaders.old }
    requires there { thing < length leaders.old }
    ensures descending { IsDescending leaders.new }
    ensures long { length leaders.new ≡ length leaders.old }
    ensures there { result < length leaders.new }
    ensures kept { (f : ℕ → List Feature) → AreSame f leaders.old → AreSame f leaders.new }
    ensures same { (f : ℕ → List Feature) → AreSame f leaders.old → f thing ≡ f result }
{
    let mut at = thing;
    loop {
        let next = *leaders.at(at);
        if next == at {
            return at;
        }
        let further = *leaders.at(next);
        leaders.set(at, further);
        at = further;
    }
}

/// Makes the classes of two things that are the same one.
pub(crate) fn unite(leaders: &mut Items<usize>, one: usize, other: usize)
    requires descending { IsDescending leaders.old }
    requires one { one < length leaders.old }
    requires other { other < length leaders.old }
    ensures descending { IsDescending leaders.new }
    ensures long { length leaders.new ≡ length leaders.old }
    ensures kept { (f : ℕ → List Feature) → AreSame f leaders.old → f one ≡ f other
        → AreSame f leaders.new }
{
    let one = leader_of(leaders, one);
    let other = leader_of(leaders, other);
    if one < other {
        leaders.set(other, one);
    } else {
        leaders.set(one, other);
    }
}
