//! Labels that worlds have by worlds that they include.
ghost use Rattle.std.specs.Prelude.{◌≡◌, ◌++◌, IfOk, OnOk, flat_map, map};
ghost use Rattle.wit_data.specs.declared.world.IncludeName.{IncludeName};
ghost use Rattle.wit_ways.specs.Includes.{former_labels, included_by, included_labels};

use crate::arrow::Arrow;
use crate::world_name::{WorldName, label_text};
use std::alloc::{AllocError, Global};
use wit_data::{IncludeName, Items, Span, Text, TryClone};
use wit_labels::Renamings;

/// That a world includes another, under these labels in the place of others.
#[derive(Drop)]
pub struct Include {
    pub world: WorldName,
    pub included: WorldName,
    pub names: Items<IncludeName>,
    pub span: Span,
}

/// Which label of a world is by an include which label of another one, of all that one of this name may be.
pub fn included_labels(
    alloc: Global,
    includes: &[Include],
    label: &str,
) -> Result<Items<Arrow>, AllocError>
    ensures { IfOk result (λ arrows. arrows ≡ included_labels includes.now label.now) }
{
    let labels = former_labels(alloc, includes, label)?;
    let mut arrows = Items::new(alloc);
    for include in includes {
        add_labels(alloc, include, labels.as_slice(), &mut arrows)?;
    }
    Ok(arrows)
}

/// A label, and all in whose place others stand by includes: of what a label may have come.
fn former_labels(
    alloc: Global,
    includes: &[Include],
    label: &str,
) -> Result<Items<Text>, AllocError>
    ensures { IfOk result (λ labels. labels ≡ former_labels includes.now label.now) }
{
    let mut labels = Items::new(alloc);
    labels.push(Text::try_from_str(alloc, label)?)?;
    for include in includes {
        add_names(&include.names, &mut labels)?;
    }
    Ok(labels)
}

/// Notes the labels in whose place others stand.
fn add_names(names: &Items<IncludeName>, labels: &mut Items<Text>) -> Result<(), AllocError>
    ensures { OnOk result
        (labels.new ≡ labels.old ++ map (λ (name : IncludeName). name.name) names.now) }
{
    for name in names.as_slice() {
        labels.push(name.name.try_clone()?)?;
    }
    Ok(())
}

/// Notes which label a world has by an include in the place of each of these.
fn add_labels(
    alloc: Global,
    include: &Include,
    labels: &[Text],
    arrows: &mut Items<Arrow>,
) -> Result<(), AllocError>
    ensures { OnOk result (arrows.new ≡ arrows.old ++ included_by labels.now include.now) }
{
    let renamings = Renamings::new(alloc, &include.names)?;
    for label in labels {
        let label = label.as_str();
        let new = renamings.rename(alloc, label)?;
        let from = label_text(alloc, &include.world, new.as_str())?;
        let to = label_text(alloc, &include.included, label)?;
        let span = include.span;
        arrows.push(Arrow { from, to, span })?;
    }
    Ok(())
}
