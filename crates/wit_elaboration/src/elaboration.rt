//! The elaboration of worlds.
//!
//! A listed world says what it imports and exports; its elaboration adds what these need. Imports
//! get what they use before them, exports too, and what exports need from outside is imported.
ghost use Rattle.std.specs.Prelude.{◌≡◌, ◌⊎◌, ◌<◌, ◌++◌, ◌∷◌, [], IfOk, IfErr, IsTrue, OnOk, OnErr, length, take};
ghost use Rattle.wit_elaboration.specs.Elaboration.{elaborated_world, ElaboratesWorld, HasConflictAt, IsConflictError, IsElaborationError, HasSoundEntriesAt, graph_uses};
ghost use Rattle.wit_elaboration.specs.steps.Elaboration.{IsErrorAt};
ghost use Rattle.wit_elaboration.specs.Elaborated.{elaborated_exports, elaborated_imports};
ghost use Rattle.wit_elaboration.specs.steps.Elaborating.{HaveNodes, IsExportedList};
ghost use Rattle.wit_elaboration.specs.Imported.{HasTransitiveConflict};
ghost use Rattle.wit_elaboration.specs.Sound.{HasSoundEntries};
ghost use Rattle.wit_graph_data.specs.declared.error_kind.ResolveErrorKind.TheVariants.{OutOfMemory};
ghost use Rattle.wit_data.specs.Uses.{uses_of};
ghost use Rattle.wit_digraph.specs.Relation.{IsAcyclic};

use crate::closure::Closure;
use crate::closure_rows::ClosureRows;
use crate::complete::{are_complete, exports_no_interface};
use crate::conflict::find_refused;
use crate::entries::Lists;
use crate::exports::{add_functions, export_listed};
use crate::imports::{import_listed, sorted_by_class};
use crate::marks::Marks;
use std::alloc::{AllocError, Global};
use std::marker::Model;
use wit_data::{Interface, TypeDef, World, WorldId, interface_uses, uses_of};
use wit_graph_data::{Graph, ResolveError, ResolveErrorKind, ResolveResult};
use wit_values::{Items, Table, Text, TryClone};

/// What the elaboration of several worlds of one graph shares: which interfaces use which, and marks
/// for them. A world then costs what it reaches. One that is made of a closure has its rows too, as
/// long as no interface comes or goes.
#[derive(Drop)]
pub struct Elaborator {
    uses: Items<Items<usize>>,
    marks: Marks,
    rows: Option<ClosureRows>,
}

impl Model for Elaborator {
    ghost use Rattle.std.specs.Prelude.{ℕ, List, IfSome, length};
    ghost use Rattle.wit_elaboration.specs.steps.Closures.{IsClosureOf};
    ghost use Rattle.wit_elaboration.specs.steps.Elaborating.{HaveNodes};

    ghost Value = { List (List ℕ) };

    ghost view = { λ a. a.uses };

    ghost invariant = { λ a. HaveNodes a.marks (length a.uses)
        × IfSome a.rows (λ rows. IsClosureOf a.uses rows) };
}

impl Elaborator {
    /// For worlds over no interfaces. It takes no memory.
    pub fn empty(alloc: Global) -> Elaborator
        ensures { result ≡ [] }
    {
        Elaborator {
            uses: Items::new(alloc),
            marks: Marks::empty(alloc),
            rows: None,
        }
    }

    /// For worlds over these types and interfaces. It goes over all their types once. The only
    /// error is want of memory.
    pub fn new(
        alloc: Global,
        types: &[TypeDef],
        interfaces: &[Interface],
    ) -> Result<Elaborator, AllocError>
        ensures { IfOk result (λ elaborator. elaborator ≡ uses_of types.now interfaces.now) }
    {
        let uses = uses_of(alloc, types, interfaces)?;
        let marks = Marks::new(alloc, uses.len())?;
        Ok(Elaborator {
            uses,
            marks,
            rows: None,
        })
    }

    /// For the worlds of the graph of a closure, whose rows it asks first whether there can be a
    /// conflict. The only error is want of memory.
    pub fn of(alloc: Global, closure: Closure) -> Result<Elaborator, AllocError>
        ensures { IfOk result (λ elaborator. elaborator ≡ closure) }
    {
        let (uses, rows) = closure.into_parts();
        let marks = Marks::new(alloc, uses.len())?;
        Ok(Elaborator {
            uses,
            marks,
            rows: Some(rows),
        })
    }

    /// The same, where over these types it is for the first so many of the interfaces already. It
    /// goes over the types of the others once. Where there is no memory it may be for some of them.
    pub fn grow(
        &mut self,
        alloc: Global,
        types: &[TypeDef],
        interfaces: &[Interface],
    ) -> Result<(), AllocError>
        requires { self.old ≡ uses_of types.now (take (length self.old) interfaces.now) }
        ensures ok { OnOk result (self.new ≡ uses_of types.now interfaces.now) }
        ensures begins { take (length self.old) self.new ≡ self.old }
    {
        for index in self.interfaces()..interfaces.len() {
            self.add_uses(interface_uses(alloc, types, &interfaces[index])?)?;
        }
        Ok(())
    }

    /// One interface more, which uses these. Where there is no memory it is as before.
    fn add_uses(&mut self, used: Items<usize>) -> Result<(), AllocError>
        ensures ok { OnOk result (self.new ≡ self.old ++ used ∷ []) }
        ensures unchanged { OnErr result (self.new ≡ self.old) }
    {
        let interfaces = self.uses.len();
        self.rows = None;
        self.uses.push(used)?;
        let added = self.marks.add_node();
        if added.is_err() {
            self.uses.truncate(interfaces);
            self.marks.cut(interfaces);
        }
        added
    }

    /// Of the first so many interfaces alone, or of all where there are fewer. It takes no memory.
    pub fn cut(&mut self, count: usize)
        ensures { self.new ≡ take count self.old }
    {
        self.rows = None;
        self.uses.truncate(count);
        self.marks.cut(self.uses.len());
    }

    /// For how many interfaces it is.
    pub fn interfaces(&self) -> usize
        ensures { result ≡ length self.now }
    {
        self.uses.len()
    }

    /// Elaborates a world of a graph that has these types and interfaces, as the function of that
    /// name does: under the same conditions, and with the same refusals. After a refusal the graph
    /// is as before.
    pub fn elaborate(
        &mut self,
        alloc: Global,
        graph: &mut Graph,
        world: WorldId,
    ) -> ResolveResult<()>
        requires uses { self.old ≡ graph_uses graph.old }
        requires world { world < length graph.old.worlds }
        requires acyclic { IsAcyclic (graph_uses graph.old) }
        requires listed { HasSoundEntriesAt graph.old world }
        ensures ok { OnOk result (ElaboratesWorld graph.old world graph.new) }
        ensures unchanged { OnErr result (graph.new ≡ graph.old) }
        ensures cause { IfErr result
            (λ e. (e ≡ OutOfMemory) ⊎ IsElaborationError graph.old world e) }
        ensures refuses { HasConflictAt graph.old world → OnOk result ⊥ }
        ensures same { self.new ≡ self.old }
    {
        let lists = self.lists_for(alloc, graph, graph.worlds.at(world.index()))?;
        let current = graph.worlds.at_mut(world.index());
        current.imports = lists.imports;
        current.exports = lists.exports;
        Ok(())
    }

    /// The elaborated lists of a world over the types and interfaces of a graph, of which it need
    /// not be one. The graph has these types and interfaces, and conditions and refusals are those
    /// of `elaborate`.
    pub fn lists_for(&mut self, alloc: Global, graph: &Graph, world: &World) -> ResolveResult<Lists>
        requires uses { self.old ≡ graph_uses graph.now }
        requires acyclic { IsAcyclic (graph_uses graph.now) }
        requires listed { HasSoundEntries graph.now.types (length graph.now.interfaces)
            world.now.imports world.now.exports }
        ensures no_conflict { OnOk result
            (HasTransitiveConflict (graph_uses graph.now) world.now.exports → ⊥) }
        ensures imports { IfOk result (λ lists.
            lists.imports
            ≡ elaborated_imports graph.now.types (graph_uses graph.now) world.now.imports
            world.now.exports) }
        ensures exports { IfOk result (λ lists.
            lists.exports ≡ elaborated_exports (graph_uses graph.now) world.now.exports) }
        ensures cause { IfErr result
            (λ e. (e ≡ OutOfMemory) ⊎ IsConflictError graph.now world.now e) }
        ensures same { self.new ≡ self.old }
    {
        let uses = self.uses.as_slice();
        let found = find_refused(alloc, uses, &world.exports, &mut self.marks, &self.rows)?;
        match found {
            Some(index) => Err(conflict_error(alloc, graph, world, index)?),
            None => {
                let types = graph.types.as_slice();
                Ok(lists_of(alloc, types, uses, &mut self.marks, world)?)
            }
        }
    }
}

impl Elaborator {
    /// Whether a world over the types and interfaces of a graph is told at once to be its own elaboration: each import
    /// stands after what it uses, as elaboration has it, and no interface is exported. A world that is not told so may
    /// still be. The graph has these types and interfaces, and conditions are those of `elaborate`. The only error is
    /// want of memory.
    pub fn is_complete(&mut self, graph: &Graph, world: &World) -> Result<bool, AllocError>
        requires uses { self.old ≡ graph_uses graph.now }
        requires acyclic { IsAcyclic (graph_uses graph.now) }
        requires listed { HasSoundEntries graph.now.types (length graph.now.interfaces)
            world.now.imports world.now.exports }
        ensures no_conflict { IfOk result (λ complete.
            IsTrue complete → HasTransitiveConflict (graph_uses graph.now) world.now.exports
            → ⊥) }
        ensures own { IfOk result
            (λ complete. IsTrue complete → elaborated_world graph.now world.now ≡ world.now) }
        ensures same { self.new ≡ self.old }
    {
        if !exports_no_interface(&world.exports) {
            return Ok(false);
        }
        self.marks.walked.clear();
        let types = graph.types.as_slice();
        let uses = self.uses.as_slice();
        are_complete(types, uses, &mut self.marks.walked, &world.imports)
    }
}

impl TryClone for Elaborator {
    fn try_clone(&self) -> Result<Elaborator, AllocError> {
        let uses = self.uses.try_clone()?;
        let marks = Marks::new(uses.allocator(), uses.len())?;
        Ok(Elaborator {
            uses,
            marks,
            rows: None,
        })
    }
}

/// The error of a world that is refused for one of its exports.
fn conflict_error(
    alloc: Global,
    graph: &Graph,
    world: &World,
    index: usize,
) -> ResolveResult<ResolveError>
    requires { index < length world.now.exports }
    ensures error { IfOk result (λ e. IsErrorAt graph.now world.now index e) }
    ensures memory { IfErr result (λ e. e ≡ OutOfMemory) }
{
    let (key, _) = world.exports.entry_at(index);
    let name = graph.name_world_key(alloc, key)?;
    Ok(ResolveErrorKind::InvalidTransitiveDependency {
        span: world.span,
        name: Text::from_string(name),
    }
    .into())
}

/// The elaborated lists of a world.
fn lists_of(
    alloc: Global,
    types: &[TypeDef],
    uses: &[Items<usize>],
    marks: &mut Marks,
    world: &World,
) -> Result<Lists, AllocError>
    requires acyclic { IsAcyclic uses.now }
    requires listed { HasSoundEntries types.now (length uses.now) world.now.imports
        world.now.exports }
    requires nodes { HaveNodes marks.old (length uses.now) }
    requires exported { IsExportedList marks.old.exported.order world.now.exports }
    ensures imports { IfOk result (λ lists.
        lists.imports
        ≡ elaborated_imports types.now uses.now world.now.imports world.now.exports) }
    ensures exports { IfOk result
        (λ lists. lists.exports ≡ elaborated_exports uses.now world.now.exports) }
    ensures nodes { HaveNodes marks.new (length uses.now) }
{
    world.exports.keys_differ();
    marks.walked.clear();
    let imports = import_listed(alloc, types, uses, &mut marks.walked, &world.imports)?;
    marks.walked.clear();
    let mut lists = Lists {
        imports,
        exports: Table::new(alloc),
    };
    add_functions(&mut lists.exports, &world.exports)?;
    export_listed(
        alloc,
        uses,
        &marks.exported,
        &mut marks.walked,
        &mut lists,
        &world.exports,
    )?;
    let Lists {
        imports,
        mut exports,
    } = lists;
    let mut imports = sorted_by_class(alloc, types, imports)?;
    imports.shrink();
    exports.shrink();
    Ok(Lists { imports, exports })
}

/// Elaborates a world of a graph. Its imports become the listed ones with all that they, the type uses and the exports
/// need, sorted by class, dependencies first. Its exports become the functions and then the interfaces, dependencies
/// first. The world can be elaborated (`is_elaborable`), as each world of a valid graph can.
///
/// Refused with `InvalidTransitiveDependency` (4) if an exported interface uses one that isn't exported under its own
/// key and that reaches one which is. The error's name is the key of the first listed interface that leads to such a
/// use, its span that of the world. Else it is refused only for want of memory (28). A refusal leaves the graph as it
/// was.
///
/// Source: `elaborate_world` of wit-parser 0.263.0.
pub fn elaborate(alloc: Global, graph: &mut Graph, world: WorldId) -> ResolveResult<()>
    requires world { world < length graph.old.worlds }
    requires acyclic { IsAcyclic (graph_uses graph.old) }
    requires listed { HasSoundEntriesAt graph.old world }
    ensures ok { OnOk result (ElaboratesWorld graph.old world graph.new) }
    ensures unchanged { OnErr result (graph.new ≡ graph.old) }
    ensures cause { IfErr result (λ e. (e ≡ OutOfMemory) ⊎ IsElaborationError graph.old world e) }
    ensures refuses { HasConflictAt graph.old world → OnOk result ⊥ }
{
    let closure = Closure::of(alloc, graph)?;
    let mut elaborator = Elaborator::of(alloc, closure)?;
    elaborator.elaborate(alloc, graph, world)
}
