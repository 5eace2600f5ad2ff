//! Adjacency lists: list i has the direct uses of node i, in order, with repeats.
//!
//! Nodes are numbered things that use one another, as interfaces, types or packages do.
ghost use Rattle.std.specs.Prelude.{◌≡◌, ◌<◌, ◌↔◌, All, IsTrue, length};
ghost use Rattle.wit_digraph.specs.Relation.{IsInRange, direct};

use wit_values::Items;

/// The direct uses of a node that is there, in order, with repeats.
pub fn direct_uses(uses: &[Items<usize>], node: usize) -> &[usize]
    requires { node < length uses.now }
    ensures { result.now ≡ direct uses.now node }
{
    uses[node].as_slice()
}

/// Whether each use is of a node that is there.
pub fn is_in_range(uses: &[Items<usize>]) -> bool
    ensures { IsTrue result ↔ IsInRange uses.now }
{
    for node in 0..uses.len() {
        if !are_below(direct_uses(uses, node), uses.len()) {
            return false;
        }
    }
    true
}

/// Whether each number is below a bound.
fn are_below(numbers: &[usize], bound: usize) -> bool
    ensures { IsTrue result ↔ All (λ number. number < bound) numbers.now }
{
    numbers.iter().all(|number| *number < bound)
}
