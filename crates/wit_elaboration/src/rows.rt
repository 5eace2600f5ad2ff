//! Rows of bits, and what rests on them: what each interface reaches along uses, and the elaboration of all worlds.
//!
//! A row holds its bits in words of 64. [`Closure`] has a row for each interface of a graph, and [`elaborate_all`] makes
//! all worlds of a graph canonical over one closure.
ghost use Rattle.std.specs.Prelude.{◌≡◌, ◌↔◌, ℕ, ◌+◌, ◌≤◌, IsTrue, length, slice_index, EachIndex, bit_or};
ghost use Rattle.std.specs.Simd.Lanes.{zip2, chunk, put_chunk};
ghost use Rattle.wit_digraph.specs.steps.Rows.{bit_of};
ghost use Rattle.wit_elaboration.specs.steps.Closures.{HaveCommonBit};

pub use crate::all_worlds::elaborate_all;
pub use crate::closure::Closure;
use std::simd::prelude::*;

/// How many words a vector holds.
const LANES: usize = 4;

/// Joins the words of one vector, from `at` on.
fn or_lanes(into: &mut [u64], from: &[u64], at: usize)
    requires into_holds { at + 4 ≤ length into.old }
    requires from_holds { at + 4 ≤ length from.now }
    ensures { into.new
        ≡ put_chunk at into.old (zip2 bit_or (chunk at 4 into.old) (chunk at 4 from.now)) }
{
    let joined = u64x4::from_slice(&into[at..]) | u64x4::from_slice(&from[at..]);
    joined.copy_to_slice(&mut into[at..]);
}

/// Adds the bits of one row to those of another of the same length: afterwards each word of `into` is the union of both.
/// It goes lane by lane over whole vectors, and word by word over what is left. It takes no memory.
pub fn or_into(into: &mut [u64], from: &[u64])
    requires { length into.old ≡ length from.now }
    ensures { EachIndex into.new
        (λ k. slice_index into.new k ≡ bit_or (slice_index into.old k) (slice_index from.now k)) }
{
    let vectors = into.len() / LANES;
    for i in 0..vectors {
        or_lanes(into, from, i * LANES);
    }
    for i in vectors * LANES..into.len() {
        into[i] |= from[i];
    }
}

/// Takes all bits off the row.
pub(crate) fn clear(row: &mut [u64])
    ensures { (k : ℕ) → bit_of row.new k ≡ 0 }
{
    for i in 0..row.len() {
        row[i] = 0;
    }
}

/// Whether some bit is in both rows, which have the same length.
pub(crate) fn meets(one: &[u64], other: &[u64]) -> bool
    requires { length one.now ≡ length other.now }
    ensures { IsTrue result ↔ HaveCommonBit one.now other.now }
{
    for i in 0..one.len() {
        if one[i] & other[i] != 0 {
            return true;
        }
    }
    false
}
