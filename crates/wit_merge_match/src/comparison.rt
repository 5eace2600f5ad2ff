//! The structures of types of two graphs, compared.
//!
//! The types that are compared lie on a stack, so how deep they nest takes no call. Types without names that were found
//! the same make one class, and two of one class aren't compared again: so each comparison of two types ends in one
//! class less, or with a difference, however often and in whatever pairs the types are shared.
ghost use Rattle.std.specs.Prelude.{◌≡◌, ◌<◌, ◌++◌, IfNone, IfOk, IsTrue, ◌↔◌, Some, false, length, string_bytes};
ghost use Rattle.wit_digraph.specs.Relation.{IsAcyclic};
ghost use Rattle.wit_data.specs.Kind.{type_references};
ghost use Rattle.wit_merge_match.specs.steps.ComparisonSteps.{AreAtParts, AreSides, AreThere, Compares, HasClasses, IsSound, from_structure, id_of, into_structure, kind_at, matched_by, path_of};
ghost use Rattle.wit_merge_match.specs.steps.Kinds.{ending_text};
ghost use Rattle.wit_merge_spec.specs.Structure.{DifferInStructure, head_features, is_named, path_text};
ghost use Rattle.wit_data.specs.declared.types.Type_.TheVariants as type;
ghost use Rattle.wit_merge_match.specs.steps.Told.{Tells};

use crate::classes::{leader_of, own_classes, unite};
use crate::frames::Frame;
use crate::heads::{Ending, head_difference};
use crate::kinds::step_text;
use std::alloc::{AllocError, Global};
use wit_data::{Items, Type_, TypeDef, TypeId, part_count, part_type};

/// The types of two graphs, and with which of the second those of the first are matched.
#[derive(Clone, Copy)]
pub struct Sides<'a> {
    pub from: &'a Items<TypeDef>,
    pub into: &'a Items<TypeDef>,
    pub matches: &'a Items<Option<TypeId>>,
}

/// How what two parts hold compares: the same, with a difference, or types without names, of which the kinds are
/// the same and the parts have to be compared.
#[derive(Clone, Copy)]
enum Held {
    Same,
    Apart(Ending),
    Unnamed(usize, usize),
}

/// Types of two graphs whose structures are compared, and which of them were found the same.
#[derive(Drop)]
pub struct Comparison<'a> {
    pub(crate) sides: Sides<'a>,
    pub(crate) leaders: Items<usize>,
}

impl<'a> Comparison<'a> {
    /// None is found the same so far.
    pub fn new(
        alloc: Global,
        from: &'a Items<TypeDef>,
        into: &'a Items<TypeDef>,
        matches: &'a Items<Option<TypeId>>,
    ) -> Result<Comparison<'a>, AllocError>
        requires from { IsAcyclic (type_references from.now) }
        requires into { IsAcyclic (type_references into.now) }
        ensures from { IfOk result (λ c. c.sides.from.now ≡ from.now) }
        ensures into { IfOk result (λ c. c.sides.into.now ≡ into.now) }
        ensures matches { IfOk result (λ c. c.sides.matches.now ≡ matches.now) }
        ensures sound { IfOk result IsSound }
    {
        let count = from.len().checked_add(into.len()).ok_or(AllocError)?;
        let leaders = own_classes(alloc, count)?;
        Ok(Comparison {
            sides: Sides {
                from,
                into,
                matches,
            },
            leaders,
        })
    }

    /// Where two types first differ in structure, and how, as the end of a message.
    pub fn difference(
        &mut self,
        alloc: Global,
        from: usize,
        into: usize,
    ) -> Result<Option<String>, AllocError>
        requires sound { IsSound self.old }
        requires from { from < length self.old.sides.from.now }
        requires into { into < length self.old.sides.into.now }
        ensures some { IfOk result (Tells (DifferInStructure self.old.sides.from.now
            self.old.sides.into.now (matched_by self.old.sides) from into)) }
        ensures none { IfOk result (λ found.
            IfNone found
            (from_structure self.old.sides from ≡ into_structure self.old.sides into)) }
        ensures sides { self.new.sides ≡ self.old.sides }
        ensures sound { IsSound self.new }
    {
        let sides = self.sides;
        match head_difference(&sides.from.at(from).kind, &sides.into.at(into).kind) {
            Some(ending) => Ok(Some(String::from_str(alloc, ending.text())?)),
            None => self.parts_difference(alloc, from, into),
        }
    }

    /// Where the parts of two types first differ, and how, where the types are the same but for their parts.
    fn parts_difference(
        &mut self,
        alloc: Global,
        from: usize,
        into: usize,
    ) -> Result<Option<String>, AllocError>
        requires sound { IsSound self.old }
        requires from { from < length self.old.sides.from.now }
        requires into { into < length self.old.sides.into.now }
        requires heads { head_features (kind_at self.old.sides.from.now from)
            ≡ head_features (kind_at self.old.sides.into.now into) }
        ensures some { IfOk result (Tells (DifferInStructure self.old.sides.from.now
            self.old.sides.into.now (matched_by self.old.sides) from into)) }
        ensures none { IfOk result (λ found.
            IfNone found
            (from_structure self.old.sides from ≡ into_structure self.old.sides into)) }
        ensures sides { self.new.sides ≡ self.old.sides }
        ensures sound { IsSound self.new }
    {
        let sides = self.sides;
        let mut stack = vec![in alloc;
            Frame {
                from,
                into,
                next: 0
            },
        ]?;
        while let Some(frame) = stack.pop() {
            let kind = &sides.from.at(frame.from).kind;
            if frame.next < part_count(kind) {
                let there = &sides.into.at(frame.into).kind;
                stack.push(Frame {
                    from: frame.from,
                    into: frame.into,
                    next: frame.next + 1,
                })?;
                let one = part_type(kind, frame.next);
                let other = part_type(there, frame.next);
                match sides.compare_held(&mut self.leaders, one, other) {
                    Held::Same => {}
                    Held::Apart(ending) => {
                        return Ok(Some(sides.told(alloc, &stack, ending)?));
                    }
                    Held::Unnamed(from, into) => {
                        stack.push(Frame {
                            from,
                            into,
                            next: 0,
                        })?;
                    }
                }
            } else {
                unite(&mut self.leaders, frame.from, sides.from.len() + frame.into);
            }
        }
        Ok(None)
    }
}

impl<'a> Sides<'a> {
    /// How what two parts hold compares.
    fn compare_held(
        &self,
        leaders: &mut Items<usize>,
        one: Option<Type_>,
        other: Option<Type_>,
    ) -> Held
        requires sides { AreSides self.now }
        requires classes { HasClasses self.now leaders.old }
        requires one { AreThere self.now.from.now one }
        requires other { AreThere self.now.into.now other }
        ensures classes { HasClasses self.now leaders.new }
        ensures compares { Compares self.now one other result }
    {
        match (one, other) {
            (None, None) => Held::Same,
            (Some(from), Some(into)) => self.compare_some(leaders, from, into),
            (Some(_), None) | (None, Some(_)) => Held::Apart(Ending::Kinds),
        }
    }

    /// How the types of two parts compare.
    fn compare_some(&self, leaders: &mut Items<usize>, from: Type_, into: Type_) -> Held
        requires sides { AreSides self.now }
        requires classes { HasClasses self.now leaders.old }
        requires one { AreThere self.now.from.now (Some from) }
        requires other { AreThere self.now.into.now (Some into) }
        ensures classes { HasClasses self.now leaders.new }
        ensures compares { Compares self.now (Some from) (Some into) result }
    {
        match (id_of(from), id_of(into)) {
            (Some(from), Some(into)) => self.compare_types(leaders, from.index(), into.index()),
            (None, None) => {
                if from == into {
                    Held::Same
                } else {
                    Held::Apart(Ending::Kinds)
                }
            }
            (Some(_), None) | (None, Some(_)) => Held::Apart(Ending::Kinds),
        }
    }

    /// How two types of which parts are compare: those with names by whether they are matched, those without by their
    /// classes and their kinds.
    fn compare_types(&self, leaders: &mut Items<usize>, from: usize, into: usize) -> Held
        requires sides { AreSides self.now }
        requires classes { HasClasses self.now leaders.old }
        requires from { from < length self.now.from.now }
        requires into { into < length self.now.into.now }
        ensures classes { HasClasses self.now leaders.new }
        ensures compares { Compares self.now (Some (type.Id from)) (Some (type.Id into)) result }
    {
        match (is_named(self.from, from), is_named(self.into, into)) {
            (true, true) => {
                if self.are_matched(from, into) {
                    Held::Same
                } else {
                    Held::Apart(Ending::Types)
                }
            }
            (false, false) => self.compare_unnamed(leaders, from, into),
            (true, false) | (false, true) => Held::Apart(Ending::Kinds),
        }
    }

    /// How two types without names compare.
    fn compare_unnamed(&self, leaders: &mut Items<usize>, from: usize, into: usize) -> Held
        requires sides { AreSides self.now }
        requires classes { HasClasses self.now leaders.old }
        requires from { from < length self.now.from.now }
        requires into { into < length self.now.into.now }
        requires unnamed { is_named self.now.from.now from ≡ false }
        requires unnamed_there { is_named self.now.into.now into ≡ false }
        ensures classes { HasClasses self.now leaders.new }
        ensures compares { Compares self.now (Some (type.Id from)) (Some (type.Id into)) result }
    {
        let one = leader_of(leaders, from);
        let other = leader_of(leaders, self.from.len() + into);
        if one == other {
            return Held::Same;
        }
        match head_difference(&self.from.at(from).kind, &self.into.at(into).kind) {
            Some(ending) => Held::Apart(ending),
            None => Held::Unnamed(from, into),
        }
    }

    /// Whether a type is matched with another one.
    fn are_matched(&self, from: usize, into: usize) -> bool
        ensures { IsTrue result ↔ (matched_by self.now from ≡ Some into) }
    {
        match self.matches.get(from) {
            Some(found) => match found {
                Some(id) => id.index() == into,
                None => false,
            },
            None => false,
        }
    }

    /// A difference of the parts at which the frames of a stack are, with the path there.
    fn told(&self, alloc: Global, stack: &[Frame], ending: Ending) -> Result<String, AllocError>
        requires parts { AreAtParts self.now stack.now }
        requires some { 0 < length stack.now }
        ensures { IfOk result (λ text.
            string_bytes text ≡ path_text (path_of self.now stack.now) ++ ending_text ending) }
    {
        let mut text = String::from_str(alloc, "at ")?;
        for (index, frame) in stack.iter().enumerate() {
            if 0 < index {
                text.push_str(".")?;
            }
            let kind = &self.from.at(frame.from).kind;
            let step = step_text(alloc, kind, frame.next - 1)?;
            text.push_str(&step)?;
        }
        text.push_str(": ")?;
        text.push_str(ending.text())?;
        Ok(text)
    }
}

/// The type that is named, none by a primitive.
fn id_of(ty: Type_) -> Option<TypeId>
    ensures { result ≡ id_of ty }
{
    match ty {
        Type_::Id(id) => Some(id),
        _ => None,
    }
}

/// Whether a type has a name.
fn is_named(types: &Items<TypeDef>, id: usize) -> bool
    ensures { result ≡ is_named types.now id }
{
    match types.get(id) {
        Some(def) => def.name.is_some(),
        None => false,
    }
}
