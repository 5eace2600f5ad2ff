//! Arrows that lead to the same frame as one.
ghost use Rattle.std.specs.Prelude.{◌≡◌, ◌++◌, IfOk, OnOk};
ghost use Rattle.witgraph_dot.specs.Bundles.{bundle, frame_arrows, frames_of, is_whole, whole_frames, frames_but};
ghost use Rattle.witgraph_dot.specs.steps.Parts.{frame_of, arrows_to_interfaces};

use crate::arrow::{Arrow, ArrowKind, Target};
use crate::sets::{are_among, is_one_of, without};
use std::alloc::{AllocError, Global};
use wit_resolve_graph::{InterfaceId, Items, Package, PackageId};

/// The interfaces of a package that are shown, in the order of its table.
fn frame_of(
    alloc: Global,
    package: &Package,
    shown: &[InterfaceId],
) -> Result<Items<InterfaceId>, AllocError>
    ensures { IfOk result (λ frame. frame ≡ frame_of shown.now «package».now) }
{
    let mut frame = Items::new(alloc);
    for (_, id) in package.interfaces.iter() {
        if is_one_of(shown, *id) {
            frame.push(*id)?;
        }
    }
    Ok(frame)
}

/// The frame of each package.
pub fn frames_of(
    alloc: Global,
    packages: &[Package],
    shown: &[InterfaceId],
) -> Result<Items<Items<InterfaceId>>, AllocError>
    ensures { IfOk result (λ frames. frames ≡ frames_of shown.now packages.now) }
{
    let mut frames = Items::new(alloc);
    for package in packages {
        frames.push(frame_of(alloc, package, shown)?)?;
    }
    Ok(frames)
}

/// Frames without some interfaces.
pub fn frames_but(
    alloc: Global,
    frames: &[Items<InterfaceId>],
    others: &[InterfaceId],
) -> Result<Items<Items<InterfaceId>>, AllocError>
    ensures { IfOk result (λ left. left ≡ frames_but others.now frames.now) }
{
    let mut left = Items::new(alloc);
    for frame in frames {
        let rest = without(alloc, frame.as_slice(), others)?;
        left.push(Items::from_vec(rest))?;
    }
    Ok(left)
}

/// Whether a frame has several interfaces, and all of them are among some.
fn is_whole(frame: &Items<InterfaceId>, targets: &[InterfaceId]) -> bool
    ensures { result ≡ is_whole targets.now frame.now }
{
    frame.len() > 1 && are_among(frame.as_slice(), targets)
}

/// The interfaces of the frames that are whole.
pub fn whole_frames(
    alloc: Global,
    frames: &[Items<InterfaceId>],
    targets: &[InterfaceId],
) -> Result<Vec<InterfaceId>, AllocError>
    ensures { IfOk result (λ interfaces. interfaces.items ≡ whole_frames frames.now targets.now) }
{
    let mut interfaces = Vec::new(alloc);
    for frame in frames {
        if is_whole(frame, targets) {
            interfaces.extend_from_slice(frame.as_slice())?;
        }
    }
    Ok(interfaces)
}

/// Adds an arrow of a kind to each frame that is whole.
pub fn add_frames(
    frames: &[Items<InterfaceId>],
    kind: ArrowKind,
    targets: &[InterfaceId],
    arrows: &mut Vec<Arrow>,
) -> Result<(), AllocError>
    ensures { OnOk result
        (arrows.new.items ≡ arrows.old.items ++ frame_arrows frames.now kind targets.now) }
{
    for (index, frame) in frames.iter().enumerate() {
        if is_whole(frame, targets) {
            let target = Target::Frame(PackageId::from_index(index));
            arrows.push(Arrow { kind, target })?;
        }
    }
    Ok(())
}

/// Adds an arrow of a kind to each interface.
fn add_interfaces(
    kind: ArrowKind,
    targets: &[InterfaceId],
    arrows: &mut Vec<Arrow>,
) -> Result<(), AllocError>
    ensures { OnOk result
        (arrows.new.items ≡ arrows.old.items ++ arrows_to_interfaces kind targets.now) }
{
    for id in targets {
        let target = Target::Interface(*id);
        arrows.push(Arrow { kind, target })?;
    }
    Ok(())
}

/// Adds the arrows of a kind to some interfaces: one to each frame that is whole, and one to each other interface.
pub fn add_bundle(
    alloc: Global,
    frames: &[Items<InterfaceId>],
    kind: ArrowKind,
    targets: &[InterfaceId],
    arrows: &mut Vec<Arrow>,
) -> Result<(), AllocError>
    ensures { OnOk result
        (arrows.new.items ≡ arrows.old.items ++ bundle frames.now kind targets.now) }
{
    let bundled = whole_frames(alloc, frames, targets)?;
    let others = without(alloc, targets, &bundled)?;
    add_frames(frames, kind, targets, arrows)?;
    add_interfaces(kind, &others, arrows)
}
