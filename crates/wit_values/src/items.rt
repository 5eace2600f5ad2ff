//! A growing list that contracts see as a list.
ghost use Rattle.std.specs.Prelude.{◌≡◌, ◌++◌, ◌∷◌, [], ◌+◌, ◌-◌, ◌^◌, length, slice_get, slice_set, Some, OnOk, OnErr, IfNone, IsTrue, ◌↔◌, ◌<◌, take};
ghost use Rattle.std.specs.Cmp.Lexicographic.{pointwise, lists_equiv, lists_per};
ghost use Rattle.std.specs.Borrow.{sem};
ghost use Rattle.std.specs.Option.{option_copied, option_to_list};
ghost use Rattle.std.specs.Slice.Iter.{iter_rest};
ghost use Rattle.wit_values.specs.Items.{LendsItem};

use crate::try_clone::TryClone;
use std::alloc::{AllocError, Global};
use std::marker::Model;
use std::ops::Index;
use std::{fmt, mem, slice};

/// A growing list that its owner keeps. Indices count from 0.
#[derive(Drop)]
pub struct Items<T> {
    inner: Vec<T>,
}

impl<T> Model for Items<T> {
    ghost use Rattle.std.specs.Prelude.{List};

    ghost Value = { List T };

    ghost view = { λ a. a.inner.items };
}

impl<T> Items<T> {
    /// The empty list, which takes no memory.
    pub fn new(alloc: Global) -> Items<T>
        ensures { result ≡ [] }
    {
        Items {
            inner: Vec::new(alloc),
        }
    }

    /// The list of a `Vec`, which takes no memory.
    pub fn from_vec(items: Vec<T>) -> Items<T>
        ensures { result ≡ items.items }
    {
        Items { inner: items }
    }

    /// The `Vec` that it keeps.
    pub fn into_vec(self) -> Vec<T>
        ensures { result.items ≡ self }
    {
        self.inner
    }

    /// The items, in order, to look at.
    pub fn as_slice(&self) -> &[T]
        ensures { result.now ≡ self.now }
    {
        self.inner.as_slice()
    }

    /// How many items it has.
    pub fn len(&self) -> usize
        ensures { result ≡ length self.now }
    {
        self.inner.len()
    }

    /// Whether it has no item.
    pub fn is_empty(&self) -> bool
        ensures { IsTrue result ↔ (self.now ≡ []) }
    {
        self.inner.is_empty()
    }

    /// The item at an index, or None where the list is no longer than that.
    pub fn get(&self, index: usize) -> Option<&T>
        ensures { option_copied result ≡ slice_get self.now index }
    {
        self.inner.get(index)
    }

    /// Adds an item at the end. Where there is no memory the list is as before.
    pub fn push(&mut self, item: T) -> Result<(), AllocError>
    where
        T: Drop,
        ensures ok { OnOk result (self.new ≡ self.old ++ item ∷ []) }
        ensures unchanged { OnErr result (self.new ≡ self.old) }
    {
        self.inner.push(item)?;
        Ok(())
    }

    /// Makes room for `additional` more items. Contracts, which see no room, learn where it answers
    /// Ok that the list can count so many more. The items stay as they are, also where there is no
    /// memory.
    pub fn reserve(&mut self, additional: usize) -> Result<(), AllocError>
        ensures room { OnOk result (length self.old + additional < 2 ^ 64) }
        ensures same { self.new ≡ self.old }
    {
        self.inner.reserve(additional)
    }

    /// Moves the items of another list to the end; an empty list takes the other as it is. Where there is no memory
    /// the list is as before.
    pub fn append(&mut self, other: Items<T>) -> Result<(), AllocError>
    where
        T: Drop,
        ensures ok { OnOk result (self.new ≡ self.old ++ other) }
        ensures unchanged { OnErr result (self.new ≡ self.old) }
    {
        if self.inner.is_empty() {
            *self = other;
            return Ok(());
        }
        let mut items = other.inner;
        self.inner.append(&mut items)
    }

    /// The item at an index, which is below the length.
    pub fn at(&self, index: usize) -> &T
        requires { index < length self.now }
        ensures { slice_get self.now index ≡ Some result.now }
    {
        &self.inner[index]
    }

    /// The item at an index, which is below the length, to write.
    pub fn at_mut(&mut self, index: usize) -> &mut T
        requires { index < length self.old }
        ensures* writes_back { sem 𝓛 (LendsItem T.row self.entry index result) }
        ensures value { slice_get self.old index ≡ Some result.now }
    {
        &mut self.inner[index]
    }

    /// Puts an item in the place of another, which it gives back. The index is below the length.
    pub fn replace(&mut self, index: usize, item: T) -> T
        requires { index < length self.old }
        ensures new { self.new ≡ slice_set self.old index item }
        ensures old { slice_get self.old index ≡ Some result }
    {
        mem::replace(&mut self.inner[index], item)
    }

    /// Puts an item in the place of another, which is let go. The index is below the length.
    pub fn set(&mut self, index: usize, item: T)
    where
        T: Drop,
        requires { index < length self.old }
        ensures { self.new ≡ slice_set self.old index item }
    {
        drop(self.replace(index, item));
    }

    /// Each item, in order.
    pub fn iter(&self) -> slice::Iter<'_, T>
        ensures { iter_rest result ≡ self.now }
    {
        self.inner.iter()
    }

    /// The allocator that the list was made with, of which contracts say nothing.
    pub fn allocator(&self) -> Global {
        *self.inner.allocator()
    }

    /// The first item, or None where there is none.
    pub fn first(&self) -> Option<&T>
        ensures { option_copied result ≡ slice_get self.now 0 }
    {
        self.get(0)
    }

    /// The last item, or None where there is none.
    pub fn last(&self) -> Option<&T>
        ensures { option_copied result ≡ slice_get self.now (length self.now - 1) }
    {
        self.get(self.len().checked_sub(1)?)
    }

    /// Takes the last item out, or answers None where there is none.
    pub fn pop(&mut self) -> Option<T>
        ensures last { self.old ≡ self.new ++ option_to_list result }
        ensures empty { IfNone result (self.old ≡ []) }
    {
        self.inner.pop()
    }

    /// Leaves the first `len` items, or all where there are fewer.
    pub fn truncate(&mut self, len: usize)
    where
        T: Drop,
        ensures { self.new ≡ take len self.old }
    {
        self.inner.truncate(len);
    }
}

impl<T> Index<usize> for Items<T> {
    type Output = T;

    ghost can_index = { λ items index. index < length items };

    ghost index_gives = { λ items index item. slice_get items index ≡ Some item };

    fn index(&self, index: usize) -> &T {
        self.at(index)
    }
}

impl<T: TryClone> TryClone for Items<T> {
    fn try_clone(&self) -> Result<Items<T>, AllocError> {
        let mut inner = Vec::with_capacity(*self.inner.allocator(), self.inner.len())?;
        for item in &self.inner {
            inner.push(item.try_clone()?)?;
        }
        Ok(Items { inner })
    }
}

impl<T: PartialEq> PartialEq for Items<T> {
    ghost eq = { pointwise T.eq };

    ghost laws = { lists_per T.laws };

    fn eq(&self, other: &Items<T>) -> bool {
        self.inner.as_slice() == other.inner.as_slice()
    }
}

impl<T: Eq> Eq for Items<T> {
    ghost laws = { lists_equiv T.Eq.laws };
}

impl<T: fmt::Debug> fmt::Debug for Items<T> {
    fn fmt<W: fmt::Write>(&self, f: &mut fmt::Formatter<W>) -> fmt::Result {
        fmt::Debug::fmt(self.inner.as_slice(), f)
    }
}
