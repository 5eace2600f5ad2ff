//! A table under texts, which contracts see as the list of its pairs, and which is asked by a `&str`.
ghost use Rattle.std.specs.Prelude.{◌≡◌, ◌++◌, ◌∷◌, [], ◌<◌, ◌-◌, ◌^◌, ◌↔◌, Bool, ℕ, length, None, Some, slice_get, IfOk, IfSome, OnOk, OnErr, filter, position, string_bytes, is_some, IsTrue, take};
ghost use Rattle.std.specs.Map.{lookup, keys_of, remove_entry, values_of};
ghost use Rattle.std.specs.Str.{bytes_eq};
ghost use Rattle.std.specs.Option.{option_copied, option_map};
ghost use Rattle.std.specs.List.{IsDistinct};
ghost use Rattle.std.specs.Iterator.{at_most};
ghost use Rattle.std.specs.Map.Iter.{ShowsInOrder, TakesFirst};
ghost use Rattle.std.specs.Borrow.{sem};
ghost use Rattle.wit_values.specs.LendsNamed.{LendsNamedValue};
ghost use Rattle.wit_values.specs.Names.{named, deref_named, moved_last};
ghost use Rattle.wit_values.specs.Pairs.{Tells};
ghost use Rattle.wit_values.specs.Table.{HasDistinctKeys};

use crate::try_clone::TryClone;
use crate::{Table, TableIter};
use indexmap::IndexMap;
use std::alloc::{AllocError, Global};
use std::fmt;
use std::marker::Model;

/// A table of values under texts that differ, in insertion order. Indices count from 0.
#[derive(Drop)]
pub struct Names<V> {
    inner: Table<String, V>,
}

impl<V> Model for Names<V> {
    ghost use Rattle.std.specs.Prelude.{List, ℕ};
    ghost use Rattle.wit_values.specs.Names.{named};

    ghost Value = { List (List ℕ × V) };

    ghost view = { λ t. named t.inner };
}

impl<V> Names<V> {
    /// The empty table, which takes no memory.
    pub fn new(alloc: Global) -> Names<V>
        ensures { result ≡ [] }
    {
        Names {
            inner: Table::new(alloc),
        }
    }

    /// The table of an `IndexMap`. The only error is want of memory.
    pub fn from_map(map: IndexMap<String, V>) -> Result<Names<V>, AllocError>
    where
        V: Drop,
        ensures { IfOk result (λ names. names ≡ named map.entries) }
    {
        let inner = Table::from_map(map)?;
        Ok(Names { inner })
    }

    /// Its pairs as an `IndexMap`. The only error is want of memory.
    pub fn into_map(self) -> Result<IndexMap<String, V>, AllocError>
    where
        V: Drop,
        ensures { IfOk result (λ map. named map.entries ≡ self) }
    {
        Ok(self.inner.into_map()?)
    }

    /// How many pairs it has.
    pub fn len(&self) -> usize
        ensures len { result ≡ length self.now }
        ensures small { result < 2 ^ 63 }
        ensures distinct { IsDistinct bytes_eq (keys_of self.now) }
    {
        self.inner.len()
    }

    /// The names in a table differ: a fact for proofs, which does nothing.
    pub fn keys_differ(&self)
        ensures test { IsDistinct bytes_eq (keys_of self.now) }
        ensures keys { HasDistinctKeys self.now }
    {
        let _ = self.iter();
    }

    /// Whether it has no pair.
    pub fn is_empty(&self) -> bool
        ensures { IsTrue result ↔ (length self.now ≡ 0) }
    {
        self.len() == 0
    }

    /// The value under a name, or None where the name isn't there.
    pub fn get(&self, key: &str) -> Option<&V>
        ensures { option_copied result ≡ lookup (bytes_eq key.now) self.now }
    {
        let index = self.get_index_of(key)?;
        Some(self.entry_at(index).1)
    }

    /// Whether a name is there.
    pub fn contains_key(&self, key: &str) -> bool
        ensures { result ≡ is_some (lookup (bytes_eq key.now) self.now) }
    {
        self.get_index_of(key).is_some()
    }

    /// The index of a name, or None where the name isn't there.
    pub fn get_index_of(&self, key: &str) -> Option<usize>
        ensures index { result ≡ position (bytes_eq key.now) (keys_of self.now) }
        ensures found { is_some result ≡ is_some (lookup (bytes_eq key.now) self.now) }
        ensures within { IfSome result (λ i. i < length self.now) }
        ensures value { IfSome result
            (λ i. slice_get (values_of self.now) i ≡ lookup (bytes_eq key.now) self.now) }
    {
        self.inner.index_of(key)
    }

    /// The pair at an index, or None where the table is no longer than that.
    pub fn get_index(&self, index: usize) -> Option<(&str, &V)>
        ensures { option_map deref_named result ≡ slice_get self.now index }
    {
        let (key, value) = self.inner.get_index(index)?;
        Some((key.as_str(), value))
    }

    /// The first pair, or None where there is none.
    pub fn first(&self) -> Option<(&str, &V)>
        ensures { option_map deref_named result ≡ slice_get self.now 0 }
    {
        self.get_index(0)
    }

    /// The last pair, or None where there is none.
    pub fn last(&self) -> Option<(&str, &V)>
        ensures { option_map deref_named result ≡ slice_get self.now (length self.now - 1) }
    {
        self.get_index(self.len().checked_sub(1)?)
    }

    /// The pair at an index, which is below the length.
    pub fn entry_at(&self, index: usize) -> (&str, &V)
        requires { index < length self.now }
        ensures { slice_get self.now index ≡ Some (result.0.now, result.1.now) }
    {
        let (key, value) = self.inner.entry_at(index);
        (key.as_str(), value)
    }

    /// The value at an index, which is below the length, to write.
    pub fn value_at_mut(&mut self, index: usize) -> &mut V
        requires { index < length self.old }
        ensures* writes_back { sem 𝓛 (LendsNamedValue V.row self.entry index result) }
        ensures value { slice_get (values_of self.old) index ≡ Some result.now }
    {
        self.inner.value_at_mut(index)
    }

    /// The pairs, in order.
    pub fn iter(&self) -> NamesIter<'_, V>
        ensures rest { result ≡ self.now }
        ensures runs { ShowsInOrder (deref_named {V = V}) }
        ensures distinct { IsDistinct bytes_eq (keys_of self.now) }
    {
        NamesIter {
            inner: self.inner.iter(),
        }
    }

    /// The allocator that the table was made with, of which contracts say nothing.
    pub fn allocator(&self) -> Global {
        self.inner.allocator()
    }

    /// Makes room for `additional` more pairs. The pairs stay as they are, also where there is no memory.
    pub fn reserve(&mut self, additional: usize) -> Result<(), AllocError>
    where
        V: Drop,
        ensures { self.new ≡ self.old }
    {
        self.inner.reserve(additional)
    }

    /// Adds a pair at the end, under a name that isn't there yet. Where there is no memory the
    /// table is as before.
    pub fn push(&mut self, key: String, value: V) -> Result<(), AllocError>
    where
        V: Drop,
        requires { lookup (bytes_eq (string_bytes key)) self.old ≡ None }
        ensures ok { OnOk result (self.new ≡ self.old ++ (string_bytes key, value) ∷ []) }
        ensures unchanged { OnErr result (self.new ≡ self.old) }
    {
        self.inner.push(key, value)?;
        Ok(())
    }

    /// Takes out the pair under a name and answers its value, or None where the name isn't there.
    /// The others keep their order: those behind it move up. It takes no memory.
    pub fn shift_remove(&mut self, key: &str) -> Option<V>
        ensures value { result ≡ lookup (bytes_eq key.now) self.old }
        ensures others { self.new ≡ remove_entry (bytes_eq key.now) self.old }
    {
        let index = self.get_index_of(key)?;
        Some(self.inner.remove(index).1)
    }

    /// Moves the pair under a name to the end; those behind it move up. Where the name isn't there
    /// nothing changes. It takes no memory.
    pub fn move_last(&mut self, key: &str)
        ensures { self.new ≡ moved_last key.now self.old }
    {
        if let Some(index) = self.get_index_of(key) {
            self.inner.move_last(index);
        }
    }

    /// Leaves the pairs whose value passes a test, in order.
    pub fn retain<F: Fn(&V) -> bool>(&mut self, keep: F)
    where
        V: Drop,
        requires { F.IsAlwaysCallable keep }
        ensures { (test : V → Bool) → Tells F.Fn keep test
            → self.new ≡ filter (λ e. test e.1) self.old }
    {
        self.inner.retain(keep);
    }

    /// Gives back memory that no pair takes.
    pub fn shrink(&mut self)
        ensures { self.new ≡ self.old }
    {
        self.inner.shrink();
    }

    /// Leaves the first `len` pairs, or all where there are fewer.
    pub fn truncate(&mut self, len: usize)
    where
        V: Drop,
        ensures { self.new ≡ take len self.old }
    {
        self.inner.truncate(len);
    }
}

/// The pairs of a `Names`, in order, each as `(&str, &V)`.
#[derive(Drop)]
pub struct NamesIter<'a, V> {
    inner: TableIter<'a, String, V>,
}

impl<'a, V> Model for NamesIter<'a, V> {
    ghost use Rattle.std.specs.Prelude.{List, ℕ};
    ghost use Rattle.wit_values.specs.Names.{named};

    ghost Value = { List (List ℕ × V) };

    ghost view = { λ t. named t.inner };
}

impl<'a, V> Iterator for NamesIter<'a, V> {
    type Item = (&'a str, &'a V);

    ghost next_gives = { TakesFirst deref_named };

    ghost remaining = { λ s. at_most (length s) };

    fn next(&mut self) -> Option<(&'a str, &'a V)> {
        let (key, value) = self.inner.next()?;
        Some((key.as_str(), value))
    }
}

impl<V: TryClone> TryClone for Names<V> {
    fn try_clone(&self) -> Result<Names<V>, AllocError> {
        let alloc = self.allocator();
        let mut copy = Names::new(alloc);
        copy.reserve(self.len())?;
        for (key, value) in self.iter() {
            let (key, value) = copy_pair(alloc, key, value)?;
            copy.push(key, value)?;
        }
        Ok(copy)
    }
}

fn copy_pair<V: TryClone>(alloc: Global, key: &str, value: &V) -> Result<(String, V), AllocError>
    ensures { IfOk result (λ pair. (string_bytes pair.0 ≡ key.now) × (pair.1 ≡ value.now)) }
{
    Ok((String::from_str(alloc, key)?, value.try_clone()?))
}

impl<V: fmt::Debug> fmt::Debug for Names<V> {
    fn fmt<W: fmt::Write>(&self, f: &mut fmt::Formatter<W>) -> fmt::Result {
        fmt::Debug::fmt(&self.inner, f)
    }
}
