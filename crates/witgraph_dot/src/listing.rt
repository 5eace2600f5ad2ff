//! The imports that lines list, and the worlds that they include.
ghost use Rattle.std.specs.Prelude.{◌≡◌, IfOk, OnOk, filter_map, length};
ghost use Rattle.witgraph_dot.specs.Listed.{and_link, and_links, has_link, listed_for, merged_listing, moved_link, new_listing};
ghost use Rattle.witgraph_dot.specs.steps.Parts.{others_of};

use std::alloc::{AllocError, Global};
use wit_resolve_graph::{InterfaceId, Items, Remap, WorldId};

/// A world, and an interface that it imports under the interface's own id.
type Import = (WorldId, InterfaceId);

/// A world, and another that it includes, by a line or by one of a world that it includes.
pub type Include = (WorldId, WorldId);

/// An import of things that are now where a remap says; None where one is left out.
fn moved_import(import: &Import, remap: &Remap) -> Option<Import>
    ensures { result ≡ moved_link remap.now.worlds remap.now.interfaces import.now }
{
    let world = (*remap.worlds().get(import.0.index())?)?;
    let interface = (*remap.interfaces().get(import.1.index())?)?;
    Some((world, interface))
}

/// So an include.
fn moved_include(include: &Include, remap: &Remap) -> Option<Include>
    ensures { result ≡ moved_link remap.now.worlds remap.now.worlds include.now }
{
    let world = (*remap.worlds().get(include.0.index())?)?;
    let included = (*remap.worlds().get(include.1.index())?)?;
    Some((world, included))
}

/// The imports that lines list, and the worlds that they include. What a world imports beside the former under an
/// interface's own id, elaboration has added.
///
/// A line lists an import where it is an `import` line of the world or of one that it includes, whatever its gate. After
/// a command that transforms a world these count as listed: after `importize` its former exports, after `exportize` what
/// was listed and isn't exported, after `semver` also what took the place of something listed. After `merge` the lines of
/// both graphs count.
#[derive(Drop)]
pub struct Listing {
    imports: Items<Import>,
    includes: Items<Include>,
}

impl Listing {
    /// No import and no include.
    pub fn new(alloc: Global) -> Listing
        ensures { result ≡ new_listing }
    {
        Listing {
            imports: Items::new(alloc),
            includes: Items::new(alloc),
        }
    }

    /// How many imports and includes there are.
    pub fn sizes(&self) -> (usize, usize)
        ensures { result ≡ (length self.now.imports, length self.now.includes) }
    {
        (self.imports.len(), self.includes.len())
    }

    /// Whether a line lists this interface for this world.
    pub fn has(&self, world: WorldId, interface: InterfaceId) -> bool
        ensures { result ≡ has_link self.now.imports world interface }
    {
        self.imports
            .iter()
            .any(|import| import.0 == world && import.1 == interface)
    }

    /// What lines list for a world.
    pub fn imports_of(&self, alloc: Global, world: WorldId) -> Result<Vec<InterfaceId>, AllocError>
        ensures { IfOk result
            (λ interfaces. interfaces.items ≡ listed_for world self.now.imports) }
    {
        let mut interfaces = Vec::new(alloc);
        for import in self.imports.as_slice() {
            if import.0 == world {
                interfaces.push(import.1)?;
            }
        }
        Ok(interfaces)
    }

    /// Adds an interface to what is listed for a world.
    pub fn add(&mut self, world: WorldId, interface: InterfaceId) -> Result<(), AllocError>
        ensures listed { OnOk result
            (self.new.imports ≡ and_link self.old.imports world interface) }
        ensures included { self.new.includes ≡ self.old.includes }
    {
        if !self.has(world, interface) {
            self.imports.push((world, interface))?;
        }
        Ok(())
    }

    /// Adds these interfaces to what is listed for a world.
    pub fn add_all(&mut self, world: WorldId, interfaces: &[InterfaceId]) -> Result<(), AllocError>
        ensures listed { OnOk result
            (self.new.imports ≡ and_links self.old.imports world interfaces.now) }
        ensures included { self.new.includes ≡ self.old.includes }
    {
        for interface in interfaces {
            self.add(world, *interface)?;
        }
        Ok(())
    }

    /// Whether a world includes another.
    pub fn includes(&self, world: WorldId, included: WorldId) -> bool
        ensures { result ≡ has_link self.now.includes world included }
    {
        self.includes
            .iter()
            .any(|include| include.0 == world && include.1 == included)
    }

    /// The worlds that a world includes.
    pub fn includes_of(&self, alloc: Global, world: WorldId) -> Result<Vec<WorldId>, AllocError>
        ensures { IfOk result (λ worlds. worlds.items ≡ listed_for world self.now.includes) }
    {
        let mut worlds = Vec::new(alloc);
        for include in self.includes.as_slice() {
            if include.0 == world {
                worlds.push(include.1)?;
            }
        }
        Ok(worlds)
    }

    /// Adds a world to those that a world includes.
    pub fn add_include(&mut self, world: WorldId, included: WorldId) -> Result<(), AllocError>
        ensures included { OnOk result
            (self.new.includes ≡ and_link self.old.includes world included) }
        ensures listed { self.new.imports ≡ self.old.imports }
    {
        if !self.includes(world, included) {
            self.includes.push((world, included))?;
        }
        Ok(())
    }

    /// Adds these worlds to those that a world includes.
    pub fn add_includes(&mut self, world: WorldId, included: &[WorldId]) -> Result<(), AllocError>
        ensures included { OnOk result
            (self.new.includes ≡ and_links self.old.includes world included.now) }
        ensures listed { self.new.imports ≡ self.old.imports }
    {
        for other in included {
            self.add_include(world, *other)?;
        }
        Ok(())
    }

    /// Puts these interfaces in the place of what is listed for a world.
    pub fn replace(
        &mut self,
        alloc: Global,
        world: WorldId,
        interfaces: &[InterfaceId],
    ) -> Result<(), AllocError>
        ensures listed { OnOk result (self.new.imports
            ≡ and_links (others_of world self.old.imports) world interfaces.now) }
        ensures included { self.new.includes ≡ self.old.includes }
    {
        let mut imports = Items::new(alloc);
        for import in self.imports.as_slice() {
            if import.0 != world {
                imports.push(*import)?;
            }
        }
        self.imports = imports;
        self.add_all(world, interfaces)
    }

    /// Adds what is listed in a graph that was merged, whose things are now where the remap says.
    pub fn merge(&mut self, other: &Listing, remap: &Remap) -> Result<(), AllocError>
        ensures { OnOk result (self.new
            ≡ merged_listing remap.now.worlds remap.now.interfaces other.now self.old) }
    {
        for import in other.imports.as_slice() {
            if let Some((world, interface)) = moved_import(import, remap) {
                self.add(world, interface)?;
            }
        }
        for include in other.includes.as_slice() {
            if let Some((world, included)) = moved_include(include, remap) {
                self.add_include(world, included)?;
            }
        }
        Ok(())
    }
}
