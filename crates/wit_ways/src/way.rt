//! Ways along arrows, from a name to one of some goals.
ghost use Rattle.std.specs.Prelude.{◌≡◌, ◌<◌, ℕ, ◌||◌, not, Bool, true, None, List, [], Contains, IfNone, IfOk, IfSome, OnOk, Some, bytes_eq, length, slice_get};
ghost use Rattle.std.specs.Map.{lookup};
ghost use Rattle.wit_ways.specs.Ways.{AreReached, IsChosen, IsWay, is_among};
ghost use Rattle.wit_ways.specs.steps.Searching.{GoesOn, IsAt, IsClosed, IsIndexOf, IsSearched, IsSearching};
ghost use Rattle.wit_ways.specs.declared.arrow.Arrow.{Arrow};
ghost use Rattle.wit_ways.specs.declared.way.Reached.{Reached};

use crate::arrow::Arrow;
use indexmap::IndexMap;
use std::alloc::{AllocError, Global};
use wit_data::{Items, Text, TryClone};
use wit_values::NameSet;

/// Of arrows in order the last that begins at each name, and of each arrow the one before it that begins where it does.
#[derive(Drop)]
pub struct ArrowIndex {
    pub last: IndexMap<Text, usize>,
    pub before: Items<Option<usize>>,
}

/// A name to which a search has come.
#[derive(Clone, Copy)]
pub struct Reached {
    /// The arrow that leads to it.
    pub arrow: usize,
    /// What the search had reached where this arrow begins; None at its start.
    pub before: Option<usize>,
    /// Whether something that is no goal is met on the way.
    pub met: bool,
}

/// What a search has reached, in order, and the names, apart by whether something that is no goal is met on the way.
#[derive(Drop)]
pub struct Search {
    pub reached: Items<Reached>,
    pub plain: NameSet,
    pub past: NameSet,
}

/// A way from a name to a goal along one arrow or more, or none where there is no such way. Where nothing was `met` before,
/// it leads past something that is no goal. The only error is want of memory.
///
/// It takes two steps at most for each arrow, and looks each name up.
pub fn find_way(
    alloc: Global,
    arrows: &[Arrow],
    start: &Text,
    met: bool,
    goals: &NameSet,
) -> Result<Items<Arrow>, AllocError>
    ensures { IfOk result (λ way. IsChosen arrows.now goals.now start.now met way) }
{
    let search = all_reached(alloc, arrows, start, met, goals)?;
    match search.goal(arrows, goals) {
        Some(at) => search.way_to(alloc, arrows, at),
        None => Ok(Items::new(alloc)),
    }
}

/// The names that are reached from a name along one arrow or more. The only error is want of memory.
pub fn reached_names(alloc: Global, arrows: &[Arrow], start: &Text) -> Result<NameSet, AllocError>
    ensures { IfOk result (λ names. AreReached arrows.now start.now names) }
{
    let goals = NameSet::new(alloc);
    let search = all_reached(alloc, arrows, start, true, &goals)?;
    Ok(search.past)
}

/// All that is reached from a name.
fn all_reached(
    alloc: Global,
    arrows: &[Arrow],
    start: &Text,
    met: bool,
    goals: &NameSet,
) -> Result<Search, AllocError>
    ensures { IfOk result (λ search. IsSearched arrows.now goals.now start.now met search) }
{
    let index = ArrowIndex::of(alloc, arrows)?;
    let mut search = Search::new(alloc);
    search.go_on(alloc, arrows, &index, goals, start, met, None)?;
    let mut next = 0;
    while next < search.reached.len() {
        let reached = *search.reached.at(next);
        let from = &arrows[reached.arrow].to;
        search.go_on(alloc, arrows, &index, goals, from, reached.met, Some(next))?;
        next += 1;
    }
    Ok(search)
}

impl ArrowIndex {
    /// That of arrows.
    fn of(alloc: Global, arrows: &[Arrow]) -> Result<ArrowIndex, AllocError>
        ensures { IfOk result (λ index. IsIndexOf arrows.now index) }
    {
        let mut last = IndexMap::new(alloc);
        let mut before = Items::new(alloc);
        for (index, arrow) in arrows.iter().enumerate() {
            let from = arrow.from.try_clone()?;
            let earlier = last.insert(from, index)?;
            before.push(earlier)?;
        }
        Ok(ArrowIndex { last, before })
    }

    /// The last arrow that begins at a name.
    fn last_from(&self, from: &Text) -> Option<usize>
        ensures { result ≡ lookup (bytes_eq from.now) self.now.last.entries }
    {
        match self.last.get(from) {
            Some(at) => Some(*at),
            None => None,
        }
    }
}

impl Search {
    ghost use Rattle.wit_ways.specs.steps.Searching.{with_reached};

    /// Nothing is reached.
    fn new(alloc: Global) -> Search
        ensures { result ≡ record { reached = []; plain = []; past = [] } }
    {
        Search {
            reached: Items::new(alloc),
            plain: NameSet::new(alloc),
            past: NameSet::new(alloc),
        }
    }

    /// Goes along each arrow that begins at a name, at which the search stands.
    fn go_on(
        &mut self,
        alloc: Global,
        arrows: &[Arrow],
        index: &ArrowIndex,
        goals: &NameSet,
        from: &Text,
        met: bool,
        before: Option<usize>,
    ) -> Result<(), AllocError>
        requires { IsIndexOf arrows.now index.now }
        ensures on { OnOk result
            (GoesOn arrows.now goals.now from.now met before self.old self.new) }
        ensures closed { OnOk result (IsClosed arrows.now goals.now self.new from.now met) }
    {
        let mut next = index.last_from(from);
        while let Some(arrow) = next {
            let to = arrows[arrow].to.as_str();
            let past = met || !goals.contains(to);
            let reached = Reached {
                arrow,
                before,
                met: past,
            };
            self.reach(alloc, to, reached)?;
            next = *index.before.at(arrow);
        }
        Ok(())
    }

    /// Notes that a name is reached, where it wasn't yet.
    fn reach(&mut self, alloc: Global, to: &str, reached: Reached) -> Result<(), AllocError>
        ensures { OnOk result (self.new ≡ with_reached self.old to.now reached) }
    {
        if reached.met {
            if self.past.contains(to) {
                return Ok(());
            }
            self.past.insert(alloc, to)?;
        } else {
            if self.plain.contains(to) {
                return Ok(());
            }
            self.plain.insert(alloc, to)?;
        }
        self.reached.push(reached)
    }

    /// The first goal that is reached past something else.
    fn goal(&self, arrows: &[Arrow], goals: &NameSet) -> Option<usize>
        requires { (q : ℕ) (r : Reached) → slice_get self.now.reached q ≡ Some r
            → r.arrow < length arrows.now }
        ensures some { IfSome result (λ q.
            (r : Reached) × (a : Arrow) × (slice_get self.now.reached q ≡ Some r)
            × (slice_get arrows.now r.arrow ≡ Some a) × (r.met ≡ true)
            × (is_among goals.now a.to ≡ true)) }
        ensures none { IfNone result ((q : ℕ) (r : Reached) (a : Arrow)
            → slice_get self.now.reached q ≡ Some r → slice_get arrows.now r.arrow ≡ Some a
            → r.met ≡ true → is_among goals.now a.to ≡ true → ⊥) }
    {
        for index in 0..self.reached.len() {
            let reached = *self.reached.at(index);
            if reached.met && goals.contains(arrows[reached.arrow].to.as_str()) {
                return Some(index);
            }
        }
        None
    }

    /// The arrows that lead to what was reached at a place.
    fn way_to(&self, alloc: Global, arrows: &[Arrow], at: usize) -> Result<Items<Arrow>, AllocError>
        requires search { (goals : List (List ℕ)) × (start : List ℕ) × (first : Bool)
            × IsSearching arrows.now goals start first self.now }
        requires at { at < length self.now.reached }
        ensures { IfOk result (λ way.
            (goals : List (List ℕ)) (start name : List ℕ) (first met : Bool)
            → IsSearching arrows.now goals start first self.now
            → IsAt arrows.now start first self.now.reached (Some at) name met
            → IsWay arrows.now goals start first way name met × (0 < length way)) }
    {
        let mut way = Items::new(alloc);
        let mut next = Some(at);
        while let Some(place) = next {
            let reached = *self.reached.at(place);
            way.push(arrows[reached.arrow].try_clone()?)?;
            next = reached.before;
        }
        let mut way = way.into_vec();
        way.reverse();
        Ok(Items::from_vec(way))
    }
}
