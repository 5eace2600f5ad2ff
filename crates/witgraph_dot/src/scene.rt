//! A graph of which a picture is drawn, with what of it is shown, and which arrows there are.
ghost use Rattle.std.specs.Prelude.{◌≡◌, ◌++◌, ◌<◌, IfOk, OnOk, length, slice_get};
ghost use Rattle.wit_graph_data.specs.Queries.{interface_direct_deps};
ghost use Rattle.witgraph_dot.specs.Bundles.{frames_of};
ghost use Rattle.witgraph_dot.specs.Listed.{listed_for};
ghost use Rattle.witgraph_dot.specs.Sets.{intersection, without};
ghost use Rattle.witgraph_dot.specs.Scene.{added_arrows, export_arrows, import_arrows, import_frames, included_imports, included_worlds, is_included, shown_imports, uses_arrows, entry_arrows, is_included_by_any, outermost};
ghost use Rattle.witgraph_dot.specs.Shown.{shown_interfaces, shown_worlds};
ghost use Rattle.witgraph_dot.specs.steps.Parts.{included_arrows, left_imports, brought_imports, view_of};

use crate::arrow::{Arrow, ArrowKind, Target};
use crate::bundles::{add_bundle, add_frames, frames_but, frames_of, whole_frames};
use crate::choice::Choice;
use crate::entries::{own_exports, own_imports};
use crate::listing::Listing;
use crate::sets::{are_among, intersection, is_one_of, is_world_among, without};
use crate::shown::{shown_interfaces, shown_worlds};
use std::alloc::{AllocError, Global};
use wit_resolve_graph::{InterfaceId, Items, Resolve, WorldId};

/// A graph, with what lines list for its worlds, and what of it is shown.
#[derive(Drop)]
pub struct Scene<'a> {
    pub resolve: &'a Resolve,
    pub listing: &'a Listing,
    /// The interfaces that are shown.
    pub interfaces: Vec<InterfaceId>,
    /// The worlds that are shown.
    pub worlds: Vec<WorldId>,
    /// The interfaces of each package that are shown.
    pub frames: Items<Items<InterfaceId>>,
    /// Whether of the entries of worlds the imports that elaboration added are shown alone.
    pub only_added: bool,
}

impl<'a> Scene<'a> {
    /// What a choice shows of a graph. The only error is want of memory.
    pub fn of(
        alloc: Global,
        resolve: &'a Resolve,
        listing: &'a Listing,
        choice: &Choice,
    ) -> Result<Scene<'a>, AllocError>
        ensures graph { IfOk result (λ scene. scene.resolve.now ≡ resolve.now) }
        ensures listing { IfOk result (λ scene. scene.listing.now ≡ listing.now) }
        ensures interfaces { IfOk result
            (λ scene. scene.interfaces.items ≡ shown_interfaces choice.now resolve.now.graph) }
        ensures worlds { IfOk result
            (λ scene. scene.worlds.items ≡ shown_worlds choice.now resolve.now.graph) }
        ensures frames { IfOk result (λ scene.
            scene.frames
            ≡ frames_of (shown_interfaces choice.now resolve.now.graph)
            resolve.now.graph.packages) }
        ensures only_added { IfOk result (λ scene. scene.only_added ≡ choice.now.only_added) }
    {
        let interfaces = shown_interfaces(alloc, resolve, choice)?;
        let worlds = shown_worlds(alloc, resolve, choice)?;
        let frames = frames_of(alloc, resolve.packages(), &interfaces)?;
        Ok(Scene {
            resolve,
            listing,
            interfaces,
            worlds,
            frames,
            only_added: choice.only_added,
        })
    }

    /// The arrows from an interface to what it uses.
    pub fn uses_arrows(&self, alloc: Global, user: InterfaceId) -> Result<Vec<Arrow>, AllocError>
        requires { user < length self.now.resolve.now.graph.interfaces }
        ensures { IfOk result (λ arrows. arrows.items ≡ uses_arrows (view_of self.now) user) }
    {
        let mut used = Vec::new(alloc);
        for interface in self.resolve.interface_direct_deps(user) {
            if is_one_of(&self.interfaces, interface) && !is_one_of(&used, interface) {
                used.push(interface)?;
            }
        }
        let mut arrows = Vec::new(alloc);
        add_bundle(
            alloc,
            self.frames.as_slice(),
            ArrowKind::Used,
            &used,
            &mut arrows,
        )?;
        Ok(arrows)
    }

    /// The arrows from a world to what it imports and exports under the ids of interfaces.
    pub fn entry_arrows(&self, alloc: Global, world: WorldId) -> Result<Vec<Arrow>, AllocError>
        ensures { IfOk result (λ arrows. arrows.items ≡ entry_arrows (view_of self.now) world) }
    {
        let mut arrows = Vec::new(alloc);
        if self.only_added {
            self.add_added(alloc, world, &mut arrows)?;
        } else {
            self.add_imports(alloc, world, &mut arrows)?;
            self.add_exports(alloc, world, &mut arrows)?;
        }
        Ok(arrows)
    }

    /// What a world imports that is shown.
    fn shown_imports(&self, alloc: Global, world: WorldId) -> Result<Vec<InterfaceId>, AllocError>
        ensures { IfOk result (λ imports. imports.items ≡ shown_imports (view_of self.now) world) }
    {
        let imports = own_imports(alloc, self.resolve, world)?;
        intersection(alloc, &imports, &self.interfaces)
    }

    /// The frames without what a world exports.
    fn import_frames(
        &self,
        alloc: Global,
        world: WorldId,
    ) -> Result<Items<Items<InterfaceId>>, AllocError>
        ensures { IfOk result (λ frames. frames ≡ import_frames (view_of self.now) world) }
    {
        let exports = own_exports(alloc, self.resolve, world)?;
        frames_but(alloc, self.frames.as_slice(), &exports)
    }

    /// Of what a world imports, that to which no arrow to one of these included worlds leads.
    fn left_imports(
        &self,
        alloc: Global,
        world: WorldId,
        included: &[WorldId],
    ) -> Result<Vec<InterfaceId>, AllocError>
        ensures { IfOk result (λ left. left.items
            ≡ without (shown_imports (view_of self.now) world)
            (included_imports self.now.resolve.now.graph.worlds included.now)) }
    {
        let meant = included_imports(alloc, self.resolve, included)?;
        let imports = self.shown_imports(alloc, world)?;
        without(alloc, &imports, &meant)
    }

    /// Of these imports of a world what included worlds import, shown or not.
    fn brought_imports(
        &self,
        alloc: Global,
        world: WorldId,
        left: &[InterfaceId],
    ) -> Result<Vec<InterfaceId>, AllocError>
        ensures { IfOk result (λ brought. brought.items
            ≡ intersection left.now
            (included_imports self.now.resolve.now.graph.worlds
            (listed_for world self.now.listing.now.includes))) }
    {
        let included = self.listing.includes_of(alloc, world)?;
        let all = included_imports(alloc, self.resolve, &included)?;
        intersection(alloc, left, &all)
    }

    /// Adds the arrows to the imports that elaboration added, where these are shown alone.
    fn add_added(
        &self,
        alloc: Global,
        world: WorldId,
        arrows: &mut Vec<Arrow>,
    ) -> Result<(), AllocError>
        ensures { OnOk result
            (arrows.new.items ≡ arrows.old.items ++ added_arrows (view_of self.now) world) }
    {
        let frames = self.import_frames(alloc, world)?;
        let imports = self.shown_imports(alloc, world)?;
        let lines = self.listing.imports_of(alloc, world)?;
        let added = without(alloc, &imports, &lines)?;
        add_bundle(alloc, frames.as_slice(), ArrowKind::Added, &added, arrows)
    }

    /// Adds the arrows to what a world imports: to worlds that it includes, to whole frames that these import, and of what is
    /// left to what lines list and to what elaboration added.
    fn add_imports(
        &self,
        alloc: Global,
        world: WorldId,
        arrows: &mut Vec<Arrow>,
    ) -> Result<(), AllocError>
        ensures { OnOk result
            (arrows.new.items ≡ arrows.old.items ++ import_arrows (view_of self.now) world) }
    {
        let frames = self.import_frames(alloc, world)?;
        let frames = frames.as_slice();
        let included = self.included_worlds(alloc, world)?;
        let left = self.left_imports(alloc, world, &included)?;
        let brought = self.brought_imports(alloc, world, &left)?;
        let bundled = whole_frames(alloc, frames, &brought)?;
        let single = without(alloc, &left, &bundled)?;
        let lines = self.listing.imports_of(alloc, world)?;
        let listed = intersection(alloc, &single, &lines)?;
        let unlisted = without(alloc, &single, &lines)?;
        add_worlds(&included, arrows)?;
        add_frames(frames, ArrowKind::Listed, &brought, arrows)?;
        add_bundle(alloc, frames, ArrowKind::Listed, &listed, arrows)?;
        add_bundle(alloc, frames, ArrowKind::Added, &unlisted, arrows)
    }

    /// Adds the arrows to what a world exports.
    fn add_exports(
        &self,
        alloc: Global,
        world: WorldId,
        arrows: &mut Vec<Arrow>,
    ) -> Result<(), AllocError>
        ensures { OnOk result
            (arrows.new.items ≡ arrows.old.items ++ export_arrows (view_of self.now) world) }
    {
        let exports = own_exports(alloc, self.resolve, world)?;
        let exports = intersection(alloc, &exports, &self.interfaces)?;
        add_bundle(
            alloc,
            self.frames.as_slice(),
            ArrowKind::Exported,
            &exports,
            arrows,
        )
    }

    /// The worlds to which one arrow leads in place of arrows to their imports: those that are included, shown, and that
    /// no other of them includes.
    fn included_worlds(&self, alloc: Global, world: WorldId) -> Result<Vec<WorldId>, AllocError>
        ensures { IfOk result
            (λ included. included.items ≡ included_worlds (view_of self.now) world) }
    {
        let all = self.listing.includes_of(alloc, world)?;
        let mut included = Vec::new(alloc);
        for other in &all {
            if self.is_included(alloc, world, *other)? {
                included.push(*other)?;
            }
        }
        outermost(alloc, self.listing, &included)
    }

    /// Whether a world is shown, imports something, and another imports all that it imports.
    fn is_included(
        &self,
        alloc: Global,
        world: WorldId,
        included: WorldId,
    ) -> Result<bool, AllocError>
        ensures { IfOk result (λ is. is ≡ is_included (view_of self.now) world included) }
    {
        let imports = own_imports(alloc, self.resolve, included)?;
        let all = own_imports(alloc, self.resolve, world)?;
        Ok(
            is_world_among(&self.worlds, included)
                && !imports.is_empty()
                && are_among(&imports, &all),
        )
    }
}

/// The worlds that no other of them includes.
fn outermost(
    alloc: Global,
    listing: &Listing,
    worlds: &[WorldId],
) -> Result<Vec<WorldId>, AllocError>
    ensures { IfOk result (λ left. left.items ≡ outermost listing.now.includes worlds.now) }
{
    let mut left = Vec::new(alloc);
    for world in worlds {
        if !is_included_by_any(listing, worlds, *world) {
            left.push(*world)?;
        }
    }
    Ok(left)
}

/// Whether one of some worlds includes a world.
fn is_included_by_any(listing: &Listing, worlds: &[WorldId], world: WorldId) -> bool
    ensures { result ≡ is_included_by_any listing.now.includes worlds.now world }
{
    worlds.iter().any(|other| listing.includes(*other, world))
}

/// What worlds import under the ids of interfaces.
fn included_imports(
    alloc: Global,
    resolve: &Resolve,
    worlds: &[WorldId],
) -> Result<Vec<InterfaceId>, AllocError>
    ensures { IfOk result
        (λ imports. imports.items ≡ included_imports resolve.now.graph.worlds worlds.now) }
{
    let mut imports = Vec::new(alloc);
    for world in worlds {
        let own = own_imports(alloc, resolve, *world)?;
        imports.extend_from_slice(&own)?;
    }
    Ok(imports)
}

/// Adds an arrow to each world.
fn add_worlds(worlds: &[WorldId], arrows: &mut Vec<Arrow>) -> Result<(), AllocError>
    ensures { OnOk result (arrows.new.items ≡ arrows.old.items ++ included_arrows worlds.now) }
{
    for world in worlds {
        let target = Target::World(*world);
        arrows.push(Arrow {
            kind: ArrowKind::Listed,
            target,
        })?;
    }
    Ok(())
}
