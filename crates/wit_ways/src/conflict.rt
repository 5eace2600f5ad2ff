//! The way of exports in conflict: past what isn't exported to what is.
ghost use Rattle.std.specs.Prelude.{◌≡◌, IfOk, OnOk, [], fold, option_copied};
ghost use Rattle.wit_ways.specs.Asked.{chosen_keys};
ghost use Rattle.wit_ways.specs.Conflicts.{AreExported, AreExports, AreSameLabels, IsConflictWay, IsLabelWay, exported_by, with_name};

use crate::arrow::Arrow;
use crate::asked::{Asked, known_arrows};
use crate::include::{Include, included_labels};
use crate::way::{find_way, reached_names};
use crate::world_name::{WorldName, label_text, world_at};
use std::alloc::{AllocError, Global};
use wit_data::{Items, Span, Text};
use wit_resolve_graph::Resolve;
use wit_values::NameSet;

/// A way past what isn't exported to what is: from an interface of a name, or where there is none from the label of this
/// name of the world that stands at a span.
pub fn conflict_way(
    alloc: Global,
    resolve: &Resolve,
    asked: &Asked,
    span: Span,
    name: &Text,
) -> Result<Items<Arrow>, AllocError>
    ensures { IfOk result (λ way. IsConflictWay resolve.now asked.now span name.now way) }
{
    let label = name.as_str();
    let world = world_at(alloc, resolve.graph(), asked.worlds(), span)?;
    let arrows = known_arrows(alloc, resolve, asked)?;
    let goals = exported(alloc, asked, arrows.as_slice(), &world)?;
    let way = find_way(alloc, arrows.as_slice(), name, false, &goals)?;
    if !way.is_empty() {
        return Ok(way);
    }
    match world {
        Some(world) => {
            let start = label_text(alloc, &world, label)?;
            let included = included_labels(alloc, asked.includes(), label)?;
            label_way(alloc, arrows, included, goals, &start)
        }
        None => Ok(way),
    }
}

/// A way past what isn't exported to what is, from a label of a world. The labels and the interface under them with which it
/// begins count as exported, so that what isn't comes after them.
fn label_way(
    alloc: Global,
    arrows: Items<Arrow>,
    included: Items<Arrow>,
    goals: NameSet,
    start: &Text,
) -> Result<Items<Arrow>, AllocError>
    ensures { IfOk result (λ way. IsLabelWay arrows included goals start.now way) }
{
    let labels = same_labels(alloc, included.as_slice(), start)?;
    let under = exported_by(alloc, &labels, arrows.as_slice())?;
    let mut goals = goals;
    add_names(alloc, &mut goals, &labels)?;
    add_names(alloc, &mut goals, &under)?;
    let mut arrows = arrows;
    arrows.append(included)?;
    find_way(alloc, arrows.as_slice(), start, false, &goals)
}

/// A label, and those of included worlds that it is.
fn same_labels(alloc: Global, included: &[Arrow], start: &Text) -> Result<NameSet, AllocError>
    ensures { IfOk result (λ labels. AreSameLabels included.now start.now labels) }
{
    let mut labels = reached_names(alloc, included, start)?;
    labels.insert(alloc, start.as_str())?;
    Ok(labels)
}

/// What is exported where exports are in conflict: what an `exportize` chooses, or what this world exports.
fn exported(
    alloc: Global,
    asked: &Asked,
    arrows: &[Arrow],
    world: &Option<WorldName>,
) -> Result<NameSet, AllocError>
    ensures { IfOk result
        (λ names. AreExported asked.now arrows.now world.now (chosen_keys asked.now) names) }
{
    if let Some(keys) = asked.keys() {
        return names_of(alloc, keys.as_slice());
    }
    match world {
        Some(world) => {
            let own = label_text(alloc, world, "")?;
            exports_of(alloc, asked.includes(), arrows, &own)
        }
        None => Ok(NameSet::new(alloc)),
    }
}

/// These names, each once.
fn names_of(alloc: Global, names: &[Text]) -> Result<NameSet, AllocError>
    ensures { IfOk result (λ set. set ≡ fold with_name [] names.now) }
{
    let mut set = NameSet::new(alloc);
    for name in names {
        set.insert(alloc, name.as_str())?;
    }
    Ok(set)
}

/// Adds names to others.
fn add_names(alloc: Global, names: &mut NameSet, more: &NameSet) -> Result<(), AllocError>
    ensures { OnOk result (names.new ≡ fold with_name names.old more.now) }
{
    for index in 0..more.len() {
        names.insert(alloc, more.text_at(index))?;
    }
    Ok(())
}

/// What a world exports under own keys, itself or by a world that it includes, where this is its empty label.
fn exports_of(
    alloc: Global,
    includes: &[Include],
    arrows: &[Arrow],
    own: &Text,
) -> Result<NameSet, AllocError>
    ensures { IfOk result (λ names. AreExports includes.now arrows.now own.now names) }
{
    let included = included_labels(alloc, includes, "")?;
    let labels = same_labels(alloc, included.as_slice(), own)?;
    exported_by(alloc, &labels, arrows)
}

/// What stands under these labels.
fn exported_by(alloc: Global, labels: &NameSet, arrows: &[Arrow]) -> Result<NameSet, AllocError>
    ensures { IfOk result (λ names. names ≡ exported_by labels.now arrows.now) }
{
    let mut names = NameSet::new(alloc);
    for arrow in arrows {
        if labels.contains(arrow.from.as_str()) {
            names.insert(alloc, arrow.to.as_str())?;
        }
    }
    Ok(names)
}
