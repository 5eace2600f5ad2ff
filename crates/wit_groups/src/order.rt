//! The order of things that need each other, as wit-parser has it.

use std::alloc::{AllocError, Global};
use std::cmp::Reverse;
use std::collections::BinaryHeap;
use wit_data::{Items, Span};

/// That a thing needs another: which, by its number, and where it says so.
#[derive(Clone, Copy)]
pub(crate) struct Need {
    pub target: usize,
    pub span: Span,
}

/// The order of things, or the first need that keeps one from having a place.
#[derive(Drop)]
pub(crate) enum Sorted {
    Order(Items<usize>),
    Cycle(Need),
}

/// The numbers of things, each as early as their order allows behind those that it needs. List i has what thing i needs. The
/// only error is want of memory.
pub(crate) fn in_order(alloc: Global, needs: &[Items<Need>]) -> Result<Sorted, AllocError> {
    let mut waiting = Waiting::new(alloc, needs)?;
    let mut order = Items::new(alloc);
    for _ in 0..needs.len() {
        match waiting.ready.pop() {
            Some(Reverse(thing)) => {
                order.push(thing)?;
                waiting.place(thing)?;
            }
            None => break,
        }
    }
    match waiting.first_cycle(needs) {
        Some(need) => Ok(Sorted::Cycle(need)),
        None => Ok(Sorted::Order(order)),
    }
}

/// Things that wait for a place in an order.
#[derive(Drop)]
struct Waiting {
    /// Of each thing how many of its needs have no place yet.
    counts: Items<usize>,
    /// Of each thing which need it, with repeats.
    users: Items<Items<usize>>,
    /// The things that may have the next place.
    ready: BinaryHeap<Reverse<usize>>,
}

impl Waiting {
    /// All things, none of which has a place.
    fn new(alloc: Global, needs: &[Items<Need>]) -> Result<Waiting, AllocError> {
        let mut waiting = Waiting {
            counts: Items::new(alloc),
            users: Items::new(alloc),
            ready: BinaryHeap::new(alloc),
        };
        for needed in needs {
            waiting.counts.push(needed.len())?;
            waiting.users.push(Items::new(alloc))?;
        }
        for (thing, needed) in needs.iter().enumerate() {
            waiting.add_needs(thing, needed.as_slice())?;
        }
        Ok(waiting)
    }

    /// Notes what a thing needs. It is ready if that is nothing.
    fn add_needs(&mut self, thing: usize, needed: &[Need]) -> Result<(), AllocError> {
        if needed.is_empty() {
            self.ready.push(Reverse(thing))?;
        }
        for need in needed {
            if need.target < self.users.len() {
                self.users.at_mut(need.target).push(thing)?;
            }
        }
        Ok(())
    }

    /// Gives a thing its place: those that need it wait for one thing less.
    fn place(&mut self, thing: usize) -> Result<(), AllocError> {
        if thing >= self.users.len() {
            return Ok(());
        }
        let none = Items::new(self.users.allocator());
        let users = self.users.replace(thing, none);
        for user in users.iter() {
            self.end_wait(*user)?;
        }
        Ok(())
    }

    /// Notes that a thing waits for one thing less. It is ready if that was the last.
    fn end_wait(&mut self, thing: usize) -> Result<(), AllocError> {
        if thing < self.counts.len() {
            let count = self.counts.at(thing).saturating_sub(1);
            self.counts.set(thing, count);
            if count == 0 {
                self.ready.push(Reverse(thing))?;
            }
        }
        Ok(())
    }

    /// The first need of a thing that waits for one that waits.
    fn first_cycle(&self, needs: &[Items<Need>]) -> Option<Need> {
        for (thing, needed) in needs.iter().enumerate() {
            if self.waits(thing) {
                if let Some(need) = self.first_waiting(needed.as_slice()) {
                    return Some(need);
                }
            }
        }
        None
    }

    /// The first need for a thing that waits.
    fn first_waiting(&self, needed: &[Need]) -> Option<Need> {
        for need in needed {
            if self.waits(need.target) {
                return Some(*need);
            }
        }
        None
    }

    /// Whether a thing waits for others.
    fn waits(&self, thing: usize) -> bool {
        match self.counts.get(thing) {
            Some(count) => *count > 0,
            None => false,
        }
    }
}
