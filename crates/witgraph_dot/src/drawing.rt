//! The arrows of a picture as they are written.
ghost use Rattle.std.specs.Prelude.{◌≡◌, ◌++◌, IfOk, OnOk, Some, filter_map, option_copied, string_bytes};
ghost use Rattle.std.specs.List.{flat_map};
ghost use Rattle.witgraph_dot.specs.Lines.{all_labelled, arrow_end, arrow_line, arrow_lines, box_name, end_at_frame, label_for, label_lines, labelled_entries, labelled_lines, look, uses_lines, world_lines, and_label};
ghost use Rattle.witgraph_dot.specs.steps.Parts.{inner_suffix, view_of};

use crate::arrow::{Arrow, ArrowKind, Target};
use crate::frame::has_inner_frame;
use crate::labels::labelled_interfaces;
use crate::scene::Scene;
use crate::texts::Quoted;
use std::alloc::{AllocError, Global};
use std::fmt::{self, Write};
use wit_resolve_graph::{
    InterfaceId, Package, PackageId, Table, Text, WorldId, WorldItem, WorldKey,
};

impl ArrowKind {
    /// What it looks like.
    fn attributes(self) -> &'static str
        ensures { result.now ≡ look self }
    {
        match self {
            ArrowKind::Used => "color=\"#8a8a8a\"",
            ArrowKind::Listed => "color=\"#1f5fa8\"",
            ArrowKind::Added => "color=\"#d1660f\", style=dashed",
            ArrowKind::Exported => "color=\"#2e7d32\", arrowhead=diamond",
        }
    }
}

/// The name of the box through which an arrow with labels leads from a world to an interface.
#[derive(Clone, Copy)]
struct BoxName {
    kind: ArrowKind,
    from: usize,
    to: usize,
}

impl fmt::Display for BoxName {
    ghost output = { λ name. Some (box_name name.kind name.from name.to) };

    fn fmt<W: fmt::Write>(&self, f: &mut fmt::Formatter<W>) -> fmt::Result {
        let letter = match self.kind {
            ArrowKind::Exported => "x",
            _ => "m",
        };
        let from = self.from;
        let to = self.to;
        write!(f, "{letter}{from}_{to}")
    }
}

/// Writes the arrows of a picture, those from interfaces first.
pub fn write_arrows(alloc: Global, scene: &Scene<'_>, text: &mut String) -> Result<(), AllocError>
    ensures { OnOk result
        (string_bytes text.new ≡ string_bytes text.old ++ arrow_lines (view_of scene.now)) }
{
    for user in &scene.interfaces {
        write_uses(alloc, scene, *user, text)?;
    }
    for world in &scene.worlds {
        write_entries(alloc, scene, *world, text)?;
    }
    Ok(())
}

/// Writes the arrows from an interface.
fn write_uses(
    alloc: Global,
    scene: &Scene<'_>,
    user: InterfaceId,
    text: &mut String,
) -> Result<(), AllocError>
    ensures { OnOk result
        (string_bytes text.new ≡ string_bytes text.old ++ uses_lines (view_of scene.now) user) }
{
    if user.index() >= scene.resolve.interfaces().len() {
        return Ok(());
    }
    let arrows = scene.uses_arrows(alloc, user)?;
    write_each(scene, "i", user.index(), &arrows, text)
}

/// Writes the arrows from a world.
fn write_entries(
    alloc: Global,
    scene: &Scene<'_>,
    world: WorldId,
    text: &mut String,
) -> Result<(), AllocError>
    ensures { OnOk result
        (string_bytes text.new ≡ string_bytes text.old ++ world_lines (view_of scene.now) world) }
{
    let arrows = scene.entry_arrows(alloc, world)?;
    write_each(scene, "w", world.index(), &arrows, text)?;
    write_labelled_entries(alloc, scene, world, text)
}

/// Writes arrows from the interface or the world of an index.
fn write_each(
    scene: &Scene<'_>,
    letter: &str,
    from: usize,
    arrows: &[Arrow],
    text: &mut String,
) -> Result<(), AllocError>
    ensures { OnOk result (string_bytes text.new
        ≡ string_bytes text.old
        ++ flat_map (arrow_line (view_of scene.now) letter.now from) arrows.now) }
{
    for arrow in arrows {
        write_arrow(scene, letter, from, arrow, text)?;
    }
    Ok(())
}

/// Writes an arrow from the interface or the world of an index.
fn write_arrow(
    scene: &Scene<'_>,
    letter: &str,
    from: usize,
    arrow: &Arrow,
    text: &mut String,
) -> Result<(), AllocError>
    ensures { OnOk result (string_bytes text.new
        ≡ string_bytes text.old ++ arrow_line (view_of scene.now) letter.now from arrow.now) }
{
    write!(text, "  {letter}{from} -> ")?;
    write_arrow_end(scene, arrow.target, arrow.kind.attributes(), text)
}

/// Writes the end of an arrow.
fn write_arrow_end(
    scene: &Scene<'_>,
    target: Target,
    attributes: &str,
    text: &mut String,
) -> Result<(), AllocError>
    ensures { OnOk result (string_bytes text.new
        ≡ string_bytes text.old ++ arrow_end (view_of scene.now) target attributes.now) }
{
    match target {
        Target::Interface(id) => {
            let to = id.index();
            write!(text, "i{to} [{attributes}];\n")
        }
        Target::World(id) => {
            let to = id.index();
            write!(text, "w{to} [{attributes}];\n")
        }
        Target::Frame(id) => write_frame_end(scene, id, attributes, text),
    }
}

/// Writes the end of an arrow to the frame of a package. DOT leads it to something in the frame, here to the last of its
/// interfaces, which the others seldom use, and ends it at the frame.
fn write_frame_end(
    scene: &Scene<'_>,
    id: PackageId,
    attributes: &str,
    text: &mut String,
) -> Result<(), AllocError>
    ensures { OnOk result (string_bytes text.new
        ≡ string_bytes text.old ++ end_at_frame (view_of scene.now) id attributes.now) }
{
    let index = id.index();
    let Some(package) = scene.resolve.packages().get(index) else {
        return Ok(());
    };
    let Some(frame) = scene.frames.get(index) else {
        return Ok(());
    };
    let Some(last) = frame.as_slice().last() else {
        return Ok(());
    };
    let to = last.index();
    let suffix = inner_suffix(scene, package, frame.len());
    write!(
        text,
        "i{to} [{attributes}, lhead=cluster_{index}{suffix}];\n"
    )
}

/// The rest of the name of the frame that holds so many interfaces of a package: its own, or one in that.
fn inner_suffix(scene: &Scene<'_>, package: &Package, interfaces: usize) -> &'static str
    ensures { result.now ≡ inner_suffix scene.now.worlds.items «package».now interfaces }
{
    if has_inner_frame(scene, package, interfaces) {
        "_interfaces"
    } else {
        ""
    }
}

/// Writes the arrows from a world to the interfaces that it imports and exports under labels, where all entries are shown.
fn write_labelled_entries(
    alloc: Global,
    scene: &Scene<'_>,
    id: WorldId,
    text: &mut String,
) -> Result<(), AllocError>
    ensures { OnOk result
        (string_bytes text.new ≡ string_bytes text.old ++ all_labelled (view_of scene.now) id) }
{
    if scene.only_added {
        return Ok(());
    }
    let Some(world) = scene.resolve.worlds().get(id.index()) else {
        return Ok(());
    };
    write_labelled(alloc, scene, id, &world.imports, ArrowKind::Listed, text)?;
    write_labelled(alloc, scene, id, &world.exports, ArrowKind::Exported, text)
}

/// Writes an arrow to each interface that entries have under labels, with all of these.
fn write_labelled(
    alloc: Global,
    scene: &Scene<'_>,
    world: WorldId,
    entries: &Table<WorldKey, WorldItem>,
    kind: ArrowKind,
    text: &mut String,
) -> Result<(), AllocError>
    ensures { OnOk result (string_bytes text.new
        ≡ string_bytes text.old
        ++ labelled_entries kind scene.now.interfaces.items world entries.now) }
{
    let interfaces = labelled_interfaces(alloc, entries, &scene.interfaces)?;
    for id in &interfaces {
        write_labelled_arrow(alloc, world.index(), entries, kind, *id, text)?;
    }
    Ok(())
}

/// Writes an arrow to an interface with the labels under which entries have it. They stand in a box through which the arrow
/// leads, so that nothing crosses them.
fn write_labelled_arrow(
    alloc: Global,
    from: usize,
    entries: &Table<WorldKey, WorldItem>,
    kind: ArrowKind,
    id: InterfaceId,
    text: &mut String,
) -> Result<(), AllocError>
    ensures { OnOk result (string_bytes text.new
        ≡ string_bytes text.old ++ labelled_lines kind from entries.now id) }
{
    let labels = labels_of(alloc, entries, id)?;
    let attributes = kind.attributes();
    let to = id.index();
    let name = BoxName { kind, from, to };
    write!(
        text,
        "  {name} [shape=plaintext, style=filled, fontsize=10, margin=\"0.04,0.02\", height=0, width=0, label=\"{labels}\"];\n"
    )?;
    write!(text, "  w{from} -> {name} [{attributes}, dir=none];\n")?;
    write!(text, "  {name} -> i{to} [{attributes}];\n")
}

/// The labels under which entries have an interface, one on a line.
fn labels_of(
    alloc: Global,
    entries: &Table<WorldKey, WorldItem>,
    id: InterfaceId,
) -> Result<String, AllocError>
    ensures { IfOk result
        (λ labels. string_bytes labels ≡ label_lines (filter_map (label_for id) entries.now)) }
{
    let mut labels = String::new(alloc);
    for (key, item) in entries.iter() {
        if let Some(label) = label_for(id, key, item) {
            add_label(&mut labels, label.as_str())?;
        }
    }
    Ok(labels)
}

/// The label of an entry that has an interface under one.
fn label_for<'a>(id: InterfaceId, key: &'a WorldKey, item: &WorldItem) -> Option<&'a Text>
    ensures { option_copied result ≡ label_for id (key.now, item.now) }
{
    match (key, item) {
        (WorldKey::Name(label), WorldItem::Interface { id: other, .. }) => {
            if *other == id { Some(label) } else { None }
        }
        _ => None,
    }
}

/// Adds a label below others, where there are any.
fn add_label(labels: &mut String, label: &str) -> Result<(), AllocError>
    ensures { OnOk result
        (string_bytes labels.new ≡ and_label (string_bytes labels.old) label.now) }
{
    let label = Quoted(label);
    if labels.is_empty() {
        write!(labels, "{label}")
    } else {
        write!(labels, "\\n{label}")
    }
}
