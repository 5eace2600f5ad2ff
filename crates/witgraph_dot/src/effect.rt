//! What a command lists for worlds if it comes to something.
ghost use Rattle.std.specs.Prelude.{◌≡◌, ◌∷◌, IfOk, OnOk};
ghost use Rattle.wit_graph_data.specs.Named.{world_named};
ghost use Rattle.wit_script_explain.specs.Desk.{working};
ghost use Rattle.witgraph_dot.specs.Effects.{request_effect, with_effect, with_versions, importized_imports};
ghost use Rattle.witgraph_dot.specs.steps.Parts.{exports_of, importize_effect, change_effect, exportized_imports, semver_merged_imports};

use crate::entries::{own_exports, own_imports};
use crate::listing::Listing;
use crate::package_lines::list_groups;
use crate::sets::without;
use crate::track::is_version_of_any;
use std::alloc::{AllocError, Global};
use wit_resolve_graph::{
    Change, InterfaceId, Items, PackageName, Resolve, Text, TryClone, UnresolvedPackageGroup,
    WorldId,
};
use wit_script::Request;
use wit_script_explain::Desk;

/// What a command lists for worlds if it comes to something.
#[derive(Drop)]
pub enum Effect {
    /// What is listed stays.
    Nothing,
    /// `other`: there is a second graph, which is empty.
    Opens,
    /// `merge`: what the second graph lists, the first lists.
    Joins,
    /// The lines of these groups list imports and includes.
    Pushes(Items<UnresolvedPackageGroup>),
    /// `importize`: what this world exported counts as listed.
    Importizes {
        world: Option<WorldId>,
        exports: Items<InterfaceId>,
    },
    /// `exportize`: what is listed for this world and isn't exported then stays so.
    Exportizes(Option<WorldId>),
    /// `semver`: what this world imports then on the track of something listed counts as listed.
    Unites(Option<WorldId>),
}

impl Effect {
    /// That of a command of a script. The only error is want of memory.
    pub fn of_request(alloc: Global, desk: &Desk, request: &Request) -> Result<Effect, AllocError>
        ensures { IfOk result (λ done.
            done ≡ request_effect (working desk.now).resolve.graph request.now) }
    {
        match request {
            Request::Change(change) => Effect::of_change(alloc, &desk.working().resolve, change),
            Request::Other => Ok(Effect::Opens),
            Request::Merge => Ok(Effect::Joins),
            _ => Ok(Effect::Nothing),
        }
    }

    /// That of a change of a graph.
    fn of_change(alloc: Global, resolve: &Resolve, change: &Change) -> Result<Effect, AllocError>
        ensures { IfOk result (λ done. done ≡ change_effect resolve.now.graph change.now) }
    {
        match change {
            Change::PushGroups { main, deps } => {
                let groups = all_of(alloc, main, deps.as_slice())?;
                Ok(Effect::Pushes(groups))
            }
            Change::Importize { package, world, .. } => {
                importize_effect(alloc, resolve, package, world)
            }
            Change::Exportize { package, world, .. } => {
                Ok(Effect::Exportizes(resolve.world_named(package, world.as_str())))
            }
            Change::Semver { package, world } => {
                Ok(Effect::Unites(resolve.world_named(package, world.as_str())))
            }
            _ => Ok(Effect::Nothing),
        }
    }

    /// Lists what the command lists, on its graph as it is now. The only error is want of memory.
    pub fn apply(
        &self,
        alloc: Global,
        resolve: &Resolve,
        listing: &mut Listing,
    ) -> Result<(), AllocError>
        ensures { OnOk result (listing.new ≡ with_effect resolve.now self.now listing.old) }
    {
        match self {
            Effect::Pushes(groups) => list_groups(alloc, resolve, groups.as_slice(), listing),
            Effect::Importizes { world, exports } => {
                list_exports(alloc, listing, *world, exports.as_slice())
            }
            Effect::Exportizes(world) => list_unexported(alloc, resolve, listing, *world),
            Effect::Unites(world) => list_newest(alloc, resolve, listing, *world),
            _ => Ok(()),
        }
    }
}

/// All groups that are pushed, copied.
fn all_of(
    alloc: Global,
    main: &UnresolvedPackageGroup,
    deps: &[UnresolvedPackageGroup],
) -> Result<Items<UnresolvedPackageGroup>, AllocError>
    ensures { IfOk result (λ groups. groups ≡ main.now ∷ deps.now) }
{
    let mut groups = Items::new(alloc);
    groups.push(main.try_clone()?)?;
    for group in deps {
        groups.push(group.try_clone()?)?;
    }
    Ok(groups)
}

/// That of `importize` of the world of this name.
fn importize_effect(
    alloc: Global,
    resolve: &Resolve,
    package: &PackageName,
    world: &Text,
) -> Result<Effect, AllocError>
    ensures { IfOk result (λ done. done
        ≡ importize_effect resolve.now.graph
        (world_named resolve.now.graph «package».now world.now)) }
{
    let world = resolve.world_named(package, world.as_str());
    let exports = exports_of(alloc, resolve, &world)?;
    Ok(Effect::Importizes {
        world,
        exports: Items::from_vec(exports),
    })
}

/// What is listed, where what a world exported before takes the place of what was listed for it.
fn list_exports(
    alloc: Global,
    listing: &mut Listing,
    world: Option<WorldId>,
    exports: &[InterfaceId],
) -> Result<(), AllocError>
    ensures listed { OnOk result (listing.new.imports
        ≡ importized_imports world exports.now listing.old.imports) }
    ensures included { listing.new.includes ≡ listing.old.includes }
{
    match world {
        Some(world) => listing.replace(alloc, world, exports),
        None => Ok(()),
    }
}

/// Takes what a world exports from what is listed for it.
fn list_unexported(
    alloc: Global,
    resolve: &Resolve,
    listing: &mut Listing,
    world: Option<WorldId>,
) -> Result<(), AllocError>
    ensures listed { OnOk result (listing.new.imports
        ≡ exportized_imports world resolve.now.graph listing.old.imports) }
    ensures included { listing.new.includes ≡ listing.old.includes }
{
    let Some(world) = world else {
        return Ok(());
    };
    let listed = listing.imports_of(alloc, world)?;
    let exports = own_exports(alloc, resolve, world)?;
    let left = without(alloc, &listed, &exports)?;
    listing.replace(alloc, world, &left)
}

/// Adds to what is listed the imports of a world that stand on the track of something listed.
fn list_newest(
    alloc: Global,
    resolve: &Resolve,
    listing: &mut Listing,
    world: Option<WorldId>,
) -> Result<(), AllocError>
    ensures listed { OnOk result (listing.new.imports
        ≡ semver_merged_imports world resolve.now.track_rule resolve.now.graph
        listing.old.imports) }
    ensures included { listing.new.includes ≡ listing.old.includes }
{
    let Some(world) = world else {
        return Ok(());
    };
    let imports = own_imports(alloc, resolve, world)?;
    add_versions(alloc, resolve, listing, world, &imports)
}

/// Adds to what is listed for a world those of some interfaces that stand on the track of something listed for it.
fn add_versions(
    alloc: Global,
    resolve: &Resolve,
    listing: &mut Listing,
    world: WorldId,
    interfaces: &[InterfaceId],
) -> Result<(), AllocError>
    ensures listed { OnOk result (listing.new.imports
        ≡ with_versions resolve.now.track_rule resolve.now.graph listing.old.imports world
        interfaces.now) }
    ensures included { listing.new.includes ≡ listing.old.includes }
{
    for id in interfaces {
        let listed = listing.imports_of(alloc, world)?;
        if is_version_of_any(alloc, resolve, &listed, *id)? {
            listing.add(world, *id)?;
        }
    }
    Ok(())
}

/// The interfaces that a world exports under their own ids, none where there is no world.
fn exports_of(
    alloc: Global,
    resolve: &Resolve,
    world: &Option<WorldId>,
) -> Result<Vec<InterfaceId>, AllocError>
    ensures { IfOk result (λ exports. exports.items ≡ exports_of world.now resolve.now.graph) }
{
    match world {
        Some(world) => own_exports(alloc, resolve, *world),
        None => Ok(Vec::new(alloc)),
    }
}
