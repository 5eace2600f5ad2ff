//! Pairs in order: few of them in a list, many in a map that finds a key by its hash.
ghost use Rattle.std.specs.Prelude.{◌≡◌, ◌++◌, ◌∷◌, [], ◌<◌, ◌≤◌, Bool, IfOk, None, OnErr, OnOk, Some, filter, length, position, remove, slice_get, take};
ghost use Rattle.std.specs.Fn.{FnReturnsAt};
ghost use Rattle.std.specs.List.{IsDistinct};
ghost use Rattle.std.specs.Map.{keys_of, lookup, values_of};
ghost use Rattle.std.specs.Borrow.{sem};
ghost use Rattle.wit_values.specs.Lends.{LendsPairsValue};
ghost use Rattle.wit_values.specs.Pairs.{Tells, last_from, pairs_of};
ghost use Rattle.indexmap.specs.IndexMap.{spare};

use indexmap::{Equivalent, IndexMap};
use std::alloc::{AllocError, Global};
use std::hash::Hash;

/// So many pairs are few.
///
/// Most tables have fewer: they take one block of memory, and to compare a few keys is no more work than to hash one.
pub(crate) const FEW: usize = 16;

/// Pairs in order.
#[derive(Drop)]
pub(crate) enum Pairs<K: Eq + Hash, V> {
    Few(Vec<(K, V)>),
    Many(Box<IndexMap<K, V>>),
}

impl<K: Eq + Hash, V> Pairs<K, V> {
    /// The value at an index, which is below the length, to write.
    pub(crate) fn value_at_mut(&mut self, index: usize) -> &mut V
        requires { index < length (pairs_of self.old) }
        ensures* writes_back { sem 𝓛 (LendsPairsValue K.row V.row K.Hash self.entry index result) }
        ensures value { slice_get (values_of (pairs_of self.old)) index ≡ Some result.now }
    {
        match self {
            Pairs::Few(pairs) => {
                let pair = &mut pairs[index];
                &mut pair.1
            }
            Pairs::Many(map) => &mut map[index],
        }
    }
}

/// The index of a key, or None where it isn't there.
pub(crate) fn index_of<K: Eq + Hash, V, Q: Equivalent<K>>(pairs: &[(K, V)], key: Q) -> Option<usize>
    ensures { result ≡ position (Q.equivalent key) (keys_of pairs.now) }
{
    pairs.iter().position(|pair| key.equivalent(&pair.0))
}

/// Adds a pair under a key that isn't there. The list grows to twice its room, and begins with room for one pair.
#[tactic(auto, using(crate::proofs::PairsLemmas::IsDistinct_more))]
pub(crate) fn add<K: Eq + Drop, V: Drop>(
    pairs: &mut Vec<(K, V)>,
    key: K,
    value: V,
) -> Result<(), AllocError>
    requires { lookup (K.eq key) pairs.old.items ≡ None }
    ensures ok { OnOk result (pairs.new.items ≡ pairs.old.items ++ (key, value) ∷ []) }
    ensures distinct { OnOk result
        (IsDistinct K.eq (keys_of pairs.old.items) → IsDistinct K.eq (keys_of pairs.new.items)) }
    ensures unchanged { OnErr result (pairs.new.items ≡ pairs.old.items) }
{
    let len = pairs.len();
    if len == pairs.capacity() {
        pairs.reserve_exact(len.max(1))?;
    }
    pairs.push((key, value))?;
    Ok(())
}

/// Adds a pair to a map under a key that isn't there.
pub(crate) fn add_indexed<K: Eq + Hash + Drop, V: Drop>(
    map: &mut IndexMap<K, V>,
    key: K,
    value: V,
) -> Result<(), AllocError>
    requires { lookup (K.eq key) map.old.entries ≡ None }
    ensures ok { OnOk result (map.new.entries ≡ map.old.entries ++ (key, value) ∷ []) }
    ensures unchanged { OnErr result (map.new.entries ≡ map.old.entries) }
{
    map.insert(key, value)?;
    Ok(())
}

/// Leaves the first `len` of some pairs.
pub(crate) fn cut<K: Eq + Drop, V: Drop>(pairs: &mut Vec<(K, V)>, len: usize)
    ensures first { pairs.new.items ≡ take len pairs.old.items }
    ensures distinct { IsDistinct K.eq (keys_of pairs.old.items)
        → IsDistinct K.eq (keys_of pairs.new.items) }
{
    pairs.truncate(len);
}

/// Takes out the pair at an index, which is below the length; those behind it move up.
pub(crate) fn take_out<K: Eq, V>(pairs: &mut Vec<(K, V)>, index: usize) -> (K, V)
    requires { index < length pairs.old.items }
    ensures pair { slice_get pairs.old.items index ≡ Some result }
    ensures others { pairs.new.items ≡ remove pairs.old.items index }
    ensures distinct { IsDistinct K.eq (keys_of pairs.old.items)
        → IsDistinct K.eq (keys_of pairs.new.items) }
{
    pairs.remove(index)
}

/// Takes out the pair of a map at an index, which is below the length; those behind it move up.
pub(crate) fn take_out_indexed<K: Eq + Hash, V>(map: &mut IndexMap<K, V>, index: usize) -> (K, V)
    requires { index < length map.old.entries }
    ensures pair { slice_get map.old.entries index ≡ Some result }
    ensures others { map.new.entries ≡ remove map.old.entries index }
{
    match map.shift_remove_index(index) {
        Some(pair) => pair,
        None => unreachable!(),
    }
}

/// Moves the pair at an index, which is below the length, to the end; those behind it move up.
pub(crate) fn move_last<K: Eq, V>(pairs: &mut Vec<(K, V)>, index: usize)
    requires { index < length pairs.old.items }
    ensures moved { pairs.new.items ≡ last_from pairs.old.items index }
    ensures distinct { IsDistinct K.eq (keys_of pairs.old.items)
        → IsDistinct K.eq (keys_of pairs.new.items) }
{
    pairs[index..].rotate_left(1);
}

/// Moves the pair of a map at an index, which is below the length, to the end; those behind it move up.
pub(crate) fn move_last_indexed<K: Eq + Hash, V>(map: &mut IndexMap<K, V>, index: usize)
    requires { index < length map.old.entries }
    ensures { map.new.entries ≡ last_from map.old.entries index }
{
    map.move_index(index, map.len() - 1);
}

/// An empty map with room for so many pairs.
pub(crate) fn map_with_room<K: Eq + Hash + Drop, V: Drop>(
    alloc: Global,
    room: usize,
) -> Result<Box<IndexMap<K, V>>, AllocError>
    ensures empty { IfOk result (λ map. map.value.entries ≡ []) }
    ensures room { IfOk result (λ map. room ≤ spare map.value) }
{
    let map = IndexMap::with_capacity(alloc, room)?;
    Ok(Box::new(alloc, map)?)
}

/// Puts pairs into an empty map, which has room for them.
pub(crate) fn fill<K: Eq + Hash + Drop, V: Drop>(map: &mut IndexMap<K, V>, pairs: Vec<(K, V)>)
    requires empty { map.old.entries ≡ [] }
    requires room { length pairs.items ≤ spare map.old }
    requires distinct { IsDistinct K.eq (keys_of pairs.items) }
    ensures { map.new.entries ≡ pairs.items }
{
    for (key, value) in pairs {
        match map.insert(key, value) {
            Ok(_) => {}
            Err(_) => unreachable!(),
        }
    }
}

/// Leaves the pairs whose value passes a test, in order.
pub(crate) fn retain<K: Eq + Drop, V: Drop, F: Fn(&V) -> bool>(pairs: &mut Vec<(K, V)>, keep: F)
    requires { F.IsAlwaysCallable keep }
    ensures kept { (test : V → Bool) → Tells F.Fn keep test
        → pairs.new.items ≡ filter (λ e. test e.1) pairs.old.items }
    ensures distinct { IsDistinct K.eq (keys_of pairs.old.items)
        → IsDistinct K.eq (keys_of pairs.new.items) }
{
    pairs.retain(
        |pair: &(K, V)| -> bool
            requires { F.IsAlwaysCallable keep }
            ensures { FnReturnsAt F.Fn keep pair.now.1 result }
        { keep(&pair.1) },
    );
}

/// Leaves the pairs of a map whose value passes a test, in order.
pub(crate) fn retain_indexed<K: Eq + Hash + Drop, V: Drop, F: Fn(&V) -> bool>(
    map: &mut IndexMap<K, V>,
    keep: F,
)
    requires { F.IsAlwaysCallable keep }
    ensures { (test : V → Bool) → Tells F.Fn keep test
        → map.new.entries ≡ filter (λ e. test e.1) map.old.entries }
{
    map.retain(
        |_key: &K, value: &mut V| -> bool
            requires { F.IsAlwaysCallable keep }
            ensures { FnReturnsAt F.Fn keep value.old result × (value.new ≡ value.old) }
        { keep(&*value) },
    );
}
