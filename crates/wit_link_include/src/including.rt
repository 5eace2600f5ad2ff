//! A world of a graph is included in one that comes next.
ghost use Rattle.std.specs.Prelude.{◌≡◌, ◌⊎◌, ◌<◌, IfErr, IfOk, OnOk, codes, length};
ghost use Rattle.wit_graph_data.specs.Error.{NoCause};
ghost use Rattle.wit_link_spec.specs.Include.{is_other_package, lists_of, with_entry_lists};
ghost use Rattle.wit_link_spec.specs.WorldReasons.{IsCauseOfInclude};
ghost use Rattle.wit_graph_data.specs.declared.error_kind.ResolveErrorKind.TheVariants.{OutOfMemory};
ghost use Rattle.wit_link_include.specs.steps.Included.{CanBeIncluded, ComeOnce, HaveOwnKeys, IsJoinError, JoinIsAccepted, copied_entries, with_joined};
ghost use Rattle.wit_remap.specs.Grown.{Grown};
ghost use Rattle.wit_link_spec.specs.steps.Parts.{before_includes, with_one};

use crate::copies::Copies;
use crate::fresh_copies::add_copies;
use crate::joining::join;
use crate::renaming::check_names;
use std::alloc::Global;
use std::mem;
use wit_data::{Items, PackageId, Span, Table, World, WorldId, WorldInclude, WorldItem, WorldKey};
use wit_graph_data::{Graph, ResolveResult};

/// Includes a world of a graph in another one of package `home`, which comes next: what goes with the included world
/// is copied to the ends of the graph, and its entries are joined to the lists of the other, which is answered.
///
/// The id of the include is of the graph. The graph is partially linked: its types, interfaces and worlds are good, and
/// nothing uses or refers to itself. The included world is good in it, and no type with a name that doesn't go with
/// that world refers to one that does. In the other world stands under the key of an interface that interface.
///
/// Refused where a renaming is of no label (16), a label that is brought is there (7), two stabilities of one
/// interface disagree (8), and for memory (28). The graph may then have grown at its ends, and nothing else has
/// changed.
///
/// Source: `resolve_include` of wit-parser 0.263.0.
pub fn include(
    alloc: Global,
    graph: &mut Graph,
    world: World,
    include: &WorldInclude,
    home: PackageId,
) -> ResolveResult<World>
    requires there { include.now.id < length graph.old.worlds }
    requires can { CanBeIncluded (before_includes graph.old world) include.now }
    requires own_keys { HaveOwnKeys (lists_of world) }
    ensures graph { OnOk result
        (graph.new ≡ (with_one home (before_includes graph.old world) include.now).graph) }
    ensures world { IfOk result (λ new.
        new
        ≡ with_entry_lists world
        (with_one home (before_includes graph.old world) include.now).lists) }
    ensures fine { OnOk result
        (NoCause (IsCauseOfInclude home (before_includes graph.old world) include.now)) }
    ensures cause { IfErr result (λ kind.
        (kind ≡ OutOfMemory)
        ⊎ IsCauseOfInclude home (before_includes graph.old world) include.now kind) }
    ensures grown { Grown graph.old graph.new }
{
    let into = WorldId::from_index(graph.worlds.len());
    let included = graph.worlds.at(include.id.index());
    check_names(alloc, include.span, &include.names, included)?;
    let copies = add_copies(alloc, graph, include.id, &include.names, into, home)?;
    let included = graph.worlds.at(include.id.index());
    join_copies(alloc, &copies, included, include.span, world, home)
}

/// A world with copies of the entries of an included one joined to its lists.
fn join_copies(
    alloc: Global,
    copies: &Copies<'_>,
    included: &World,
    span: Span,
    world: World,
    home: PackageId,
) -> ResolveResult<World>
    requires imports { ComeOnce (copied_entries copies.now included.now.imports) }
    requires exports { ComeOnce (copied_entries copies.now included.now.exports) }
    ensures ok { IfOk result (λ new.
        new
        ≡ with_joined (is_other_package included.now.package home) world
        (copied_entries copies.now included.now.imports)
        (copied_entries copies.now included.now.exports)) }
    ensures imports { OnOk result (JoinIsAccepted (is_other_package included.now.package home) span
        (codes "import") world.imports (copied_entries copies.now included.now.imports)) }
    ensures exports { OnOk result (JoinIsAccepted (is_other_package included.now.package home) span
        (codes "export") world.exports (copied_entries copies.now included.now.exports)) }
    ensures cause { IfErr result (λ kind.
        (kind ≡ OutOfMemory)
        ⊎ (IsJoinError (is_other_package included.now.package home) span (codes "import")
        world.imports (copied_entries copies.now included.now.imports) kind
        ⊎ IsJoinError (is_other_package included.now.package home) span (codes "export")
        world.exports (copied_entries copies.now included.now.exports) kind)) }
{
    let imports = copies.entries(alloc, &included.imports)?;
    let exports = copies.entries(alloc, &included.exports)?;
    let other = included.package != Some(home);
    join_lists(alloc, other, span, world, imports, exports)
}

/// A world with brought entries joined to its lists.
fn join_lists(
    alloc: Global,
    other: bool,
    span: Span,
    world: World,
    imports: Items<(WorldKey, WorldItem)>,
    exports: Items<(WorldKey, WorldItem)>,
) -> ResolveResult<World>
    requires imports { ComeOnce imports }
    requires exports { ComeOnce exports }
    ensures ok { IfOk result (λ new. new ≡ with_joined other world imports exports) }
    ensures imports { OnOk result
        (JoinIsAccepted other span (codes "import") world.imports imports) }
    ensures exports { OnOk result
        (JoinIsAccepted other span (codes "export") world.exports exports) }
    ensures cause { IfErr result (λ kind.
        (kind ≡ OutOfMemory)
        ⊎ (IsJoinError other span (codes "import") world.imports imports kind
        ⊎ IsJoinError other span (codes "export") world.exports exports kind)) }
{
    let mut world = world;
    let current = mem::replace(&mut world.imports, Table::new(alloc));
    let imports = join(alloc, other, span, "import", current, imports)?;
    world.imports = imports;
    let current = mem::replace(&mut world.exports, Table::new(alloc));
    let exports = join(alloc, other, span, "export", current, exports)?;
    world.exports = exports;
    Ok(world)
}
