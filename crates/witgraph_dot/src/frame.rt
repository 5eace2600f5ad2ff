//! The frames of packages.
ghost use Rattle.std.specs.Prelude.{◌≡◌, ◌++◌, OnOk, string_bytes};
ghost use Rattle.std.specs.List.{flat_map};
ghost use Rattle.witgraph_dot.specs.Frames.{frame_head, frame_text, has_inner_frame, shown_boxes, shows_world, world_boxes};
ghost use Rattle.witgraph_dot.specs.Boxes.{box_line, interface_boxes, world_box, name_box};
ghost use Rattle.witgraph_dot.specs.steps.Parts.{interface_box, world_head, inner_frame, shown_world, whole_frame, view_of};

use crate::scene::Scene;
use crate::sets::{is_one_of, is_world_among};
use crate::texts::{Quoted, QuotedName};
use std::alloc::AllocError;
use std::fmt::Write;
use wit_resolve_graph::{
    InterfaceId, Package, PackageId, PackageName, Table, World, WorldId, WorldItem, WorldKey,
};

/// Writes the frame of a package with its interfaces and worlds that are shown. Where there are none it isn't drawn.
pub fn write_frame(
    scene: &Scene<'_>,
    package: &Package,
    id: PackageId,
    text: &mut String,
) -> Result<(), AllocError>
    ensures { OnOk result (string_bytes text.new
        ≡ string_bytes text.old ++ frame_text (view_of scene.now) id «package».now) }
{
    let Some(interfaces) = scene.frames.get(id.index()) else {
        return Ok(());
    };
    if interfaces.is_empty() && !shows_world(scene, package) {
        return Ok(());
    }
    write_whole_frame(scene, package, id.index(), interfaces.as_slice(), text)
}

/// Writes the frame of a package with these interfaces, and with its worlds that are shown.
fn write_whole_frame(
    scene: &Scene<'_>,
    package: &Package,
    index: usize,
    interfaces: &[InterfaceId],
    text: &mut String,
) -> Result<(), AllocError>
    ensures { OnOk result (string_bytes text.new
        ≡ string_bytes text.old
        ++ whole_frame (view_of scene.now) index «package».now interfaces.now) }
{
    write_frame_head(index, &package.name, text)?;
    write_shown(scene, package, index, interfaces, text)?;
    write_worlds(scene, package, text)?;
    text.push_str("  }\n")
}

/// Writes the beginning of a frame, with the name of its package.
fn write_frame_head(index: usize, owner: &PackageName, text: &mut String) -> Result<(), AllocError>
    ensures { OnOk result
        (string_bytes text.new ≡ string_bytes text.old ++ frame_head index owner.now) }
{
    write!(
        text,
        "  subgraph cluster_{index} {{\n    style=\"rounded,filled\"; color=\"#c9c9c9\"; fillcolor=\"#f6f6f3\"; label=\"\";\n"
    )?;
    write_name(index, owner, text)
}

/// Writes the interfaces of a package that are shown, in a frame of their own where they have one.
fn write_shown(
    scene: &Scene<'_>,
    package: &Package,
    index: usize,
    interfaces: &[InterfaceId],
    text: &mut String,
) -> Result<(), AllocError>
    ensures { OnOk result (string_bytes text.new
        ≡ string_bytes text.old
        ++ shown_boxes scene.now.worlds.items index «package».now interfaces.now) }
{
    if has_inner_frame(scene, package, interfaces.len()) {
        write_inner_frame(package, index, interfaces, text)
    } else {
        write_interfaces(package, interfaces, text)
    }
}

/// Writes several interfaces of a package, in a frame of their own.
fn write_inner_frame(
    package: &Package,
    index: usize,
    interfaces: &[InterfaceId],
    text: &mut String,
) -> Result<(), AllocError>
    ensures { OnOk result (string_bytes text.new
        ≡ string_bytes text.old ++ inner_frame index «package».now interfaces.now) }
{
    write!(
        text,
        "    subgraph cluster_{index}_interfaces {{\n    style=rounded; color=\"#dcdcd4\"; label=\"\";\n"
    )?;
    write_interfaces(package, interfaces, text)?;
    text.push_str("    }\n")
}

/// Whether several interfaces of a package stand in a frame of their own: beside its worlds, so that these can have an
/// arrow to it.
pub fn has_inner_frame(scene: &Scene<'_>, package: &Package, interfaces: usize) -> bool
    ensures { result ≡ has_inner_frame scene.now.worlds.items «package».now interfaces }
{
    interfaces > 1 && shows_world(scene, package)
}

/// Whether a world of a package is shown.
fn shows_world(scene: &Scene<'_>, package: &Package) -> bool
    ensures { result ≡ shows_world scene.now.worlds.items «package».now }
{
    for (_, id) in package.worlds.iter() {
        if is_world_among(&scene.worlds, *id) {
            return true;
        }
    }
    false
}

/// Writes the name of a package: as a box, since arrows lead round boxes, and straight through the label of a frame.
fn write_name(index: usize, owner: &PackageName, text: &mut String) -> Result<(), AllocError>
    ensures { OnOk result
        (string_bytes text.new ≡ string_bytes text.old ++ name_box index owner.now) }
{
    let name = QuotedName(owner);
    write!(
        text,
        "    p{index} [shape=plaintext, style=filled, fillcolor=\"#f6f6f3\", fontname=\"Helvetica-Bold\", margin=\"0.02,0.02\", height=0, label=\"{name}\"];\n"
    )
}

/// Writes the interfaces of a package that are among these.
fn write_interfaces(
    package: &Package,
    shown: &[InterfaceId],
    text: &mut String,
) -> Result<(), AllocError>
    ensures { OnOk result (string_bytes text.new
        ≡ string_bytes text.old ++ interface_boxes shown.now «package».now) }
{
    for (name, id) in package.interfaces.iter() {
        if is_one_of(shown, *id) {
            write_interface(id.index(), name, text)?;
        }
    }
    Ok(())
}

/// Writes an interface.
fn write_interface(index: usize, name: &str, text: &mut String) -> Result<(), AllocError>
    ensures { OnOk result
        (string_bytes text.new ≡ string_bytes text.old ++ interface_box index name.now) }
{
    let name = Quoted(name);
    write!(text, "    i{index} [label=\"{name}\"];\n")
}

/// Writes the worlds of a package that are shown.
fn write_worlds(scene: &Scene<'_>, package: &Package, text: &mut String) -> Result<(), AllocError>
    ensures { OnOk result (string_bytes text.new
        ≡ string_bytes text.old
        ++ world_boxes scene.now.resolve.now.graph.worlds scene.now.worlds.items
        «package».now) }
{
    for (_, id) in package.worlds.iter() {
        write_shown_world(scene, *id, text)?;
    }
    Ok(())
}

/// Writes a world where it is shown.
fn write_shown_world(scene: &Scene<'_>, id: WorldId, text: &mut String) -> Result<(), AllocError>
    ensures { OnOk result (string_bytes text.new
        ≡ string_bytes text.old
        ++ shown_world scene.now.resolve.now.graph.worlds scene.now.worlds.items id) }
{
    if !is_world_among(&scene.worlds, id) {
        return Ok(());
    }
    match scene.resolve.worlds().get(id.index()) {
        Some(world) => write_world(id.index(), world, text),
        None => Ok(()),
    }
}

/// Writes a world, with its functions and types below its name.
fn write_world(index: usize, world: &World, text: &mut String) -> Result<(), AllocError>
    ensures { OnOk result
        (string_bytes text.new ≡ string_bytes text.old ++ world_box index world.now) }
{
    write_world_head(index, world.name.as_str(), text)?;
    write_labels("import", &world.imports, text)?;
    write_labels("export", &world.exports, text)?;
    text.push_str("\"];\n")
}

/// Writes the beginning of a world, with its name.
fn write_world_head(index: usize, name: &str, text: &mut String) -> Result<(), AllocError>
    ensures { OnOk result
        (string_bytes text.new ≡ string_bytes text.old ++ world_head index name.now) }
{
    let title = Quoted(name);
    write!(
        text,
        "    w{index} [shape=component, style=filled, fillcolor=\"#dbe7f6\", label=\"{title}"
    )
}

/// Writes the functions and types of entries, one on a line.
fn write_labels(
    word: &str,
    entries: &Table<WorldKey, WorldItem>,
    text: &mut String,
) -> Result<(), AllocError>
    ensures { OnOk result (string_bytes text.new
        ≡ string_bytes text.old ++ flat_map (box_line word.now) entries.now) }
{
    for (key, item) in entries.iter() {
        write_label(word, key, item, text)?;
    }
    Ok(())
}

/// Writes the line of an entry, where it is a function or a type.
fn write_label(
    word: &str,
    key: &WorldKey,
    item: &WorldItem,
    text: &mut String,
) -> Result<(), AllocError>
    ensures { OnOk result (string_bytes text.new
        ≡ string_bytes text.old ++ box_line word.now (key.now, item.now)) }
{
    let WorldKey::Name(label) = key else {
        return Ok(());
    };
    let label = Quoted(label.as_str());
    match item {
        WorldItem::Interface { .. } => Ok(()),
        WorldItem::Function(_) => write!(text, "\\n{word} func {label}"),
        WorldItem::Type_ { .. } => write!(text, "\\n{word} type {label}"),
    }
}
