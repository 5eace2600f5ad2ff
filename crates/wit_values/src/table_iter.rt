//! The pairs of a `Table`, one after another.
ghost use Rattle.std.specs.Prelude.{◌≡◌, length};
ghost use Rattle.std.specs.Iterator.{at_most};
ghost use Rattle.std.specs.Map.Iter.{TakesFirst, deref_pair};
ghost use Rattle.std.specs.Slice.Iter.{iter_rest};
ghost use Rattle.std.specs.Vec.Iter.{into_iter_items};

use indexmap::map;
use std::marker::Model;
use std::{slice, vec};

/// The pairs of a `Table`, in order, each as `(&K, &V)`.
#[derive(Drop)]
pub struct TableIter<'a, K, V> {
    rest: PairsIter<'a, K, V>,
}

#[derive(Drop)]
enum PairsIter<'a, K, V> {
    Few(slice::Iter<'a, (K, V)>),
    Many(map::Iter<'a, K, V>),
}

impl<'a, K, V> Model for TableIter<'a, K, V> {
    ghost use Rattle.std.specs.Prelude.{List};
    ghost use Rattle.wit_values.specs.PairsLeft.{pairs_left};

    ghost Value = { List (K × V) };

    ghost view = { λ t. pairs_left t.rest };
}

impl<'a, K, V> TableIter<'a, K, V> {
    pub(crate) fn of_few(pairs: slice::Iter<'a, (K, V)>) -> TableIter<'a, K, V>
        ensures { result ≡ iter_rest pairs.entry }
    {
        TableIter {
            rest: PairsIter::Few(pairs),
        }
    }

    pub(crate) fn of_many(pairs: map::Iter<'a, K, V>) -> TableIter<'a, K, V>
        ensures { result ≡ pairs.entry }
    {
        TableIter {
            rest: PairsIter::Many(pairs),
        }
    }
}

impl<'a, K, V> Iterator for TableIter<'a, K, V> {
    type Item = (&'a K, &'a V);

    ghost next_gives = { TakesFirst deref_pair };

    ghost remaining = { λ s. at_most (length s) };

    fn next(&mut self) -> Option<(&'a K, &'a V)> {
        match &mut self.rest {
            PairsIter::Few(pairs) => match pairs.next() {
                Some(pair) => Some((&pair.0, &pair.1)),
                None => None,
            },
            PairsIter::Many(pairs) => pairs.next(),
        }
    }
}

/// The pairs of a `Table`, in order, each by value.
#[derive(Drop)]
pub struct IntoPairs<K: Drop, V: Drop> {
    rest: PairsIntoIter<K, V>,
}

#[derive(Drop)]
enum PairsIntoIter<K: Drop, V: Drop> {
    Few(vec::IntoIter<(K, V)>),
    Many(map::IntoIter<K, V>),
}

impl<K: Drop, V: Drop> Model for IntoPairs<K, V> {
    ghost use Rattle.std.specs.Prelude.{List};
    ghost use Rattle.wit_values.specs.PairsLeft.{pairs_to_come};

    ghost Value = { List (K × V) };

    ghost view = { λ t. pairs_to_come t.rest };
}

impl<K: Drop, V: Drop> IntoPairs<K, V> {
    pub(crate) fn of_few(pairs: vec::IntoIter<(K, V)>) -> IntoPairs<K, V>
        ensures { result ≡ into_iter_items pairs }
    {
        IntoPairs {
            rest: PairsIntoIter::Few(pairs),
        }
    }

    pub(crate) fn of_many(pairs: map::IntoIter<K, V>) -> IntoPairs<K, V>
        ensures { result ≡ pairs }
    {
        IntoPairs {
            rest: PairsIntoIter::Many(pairs),
        }
    }
}

impl<K: Drop, V: Drop> Iterator for IntoPairs<K, V> {
    type Item = (K, V);

    ghost next_gives = { TakesFirst (λ p. p) };

    ghost remaining = { λ s. at_most (length s) };

    fn next(&mut self) -> Option<(K, V)> {
        match &mut self.rest {
            PairsIntoIter::Few(pairs) => pairs.next(),
            PairsIntoIter::Many(pairs) => pairs.next(),
        }
    }
}
