//! A graph of packages with its features and its sources.
ghost use Rattle.std.specs.Prelude.{◌≡◌, ◌⊎◌, ◌↔◌, ◌<◌, ◌≤◌, ◌+◌, ◌^◌, [], ◌∷◌, Bool, Ok, Err, IfErr, IfOk, IfSome, List, OnErr, OnOk, IsTrue, is_some, length, string_bytes};
ghost use Rattle.std.specs.List.{AllByRecursion};
ghost use Rattle.std.specs.Option.{option_copied, option_map};
ghost use Rattle.wit_graph_data.specs.IdText.{id_text, interface_id_at, key_text};
ghost use Rattle.wit_elaboration.specs.Valid.{IsValid};
ghost use Rattle.wit_graph_faults.specs.Faults.{IsGraphFault};
ghost use Rattle.wit_graph_data.specs.declared.error_kind.ResolveErrorKind.{ResolveErrorKind};
ghost use Rattle.wit_graph_data.specs.declared.error_kind.ResolveErrorKind.TheVariants.{OffsetOverflow, OutOfMemory};
ghost use Rattle.wit_data.specs.Shape.{IsGroupShaped, IsShaped};
ghost use Rattle.wit_sources.specs.SourceMap.{with_sources};
ghost use Rattle.wit_link_spec.specs.Cause.{IsAdditionCause};
ghost use Rattle.wit_link.specs.Appending.{IsAdded, IsGroupsCause, addition};
ghost use Rattle.wit_merge_spec.specs.Cause.{IsMergeCause};
ghost use Rattle.wit_queries.specs.ValidBits.{AreValidBitsOf};
ghost use Rattle.wit_queries.specs.Selection.{IsSelectionError, selected_world};
ghost use Rattle.wit_resolve_graph.specs.Merging.{FilesPass, Merges, RefusesMerge, merge_of};
ghost use Rattle.wit_resolve_graph.specs.State.{new_state};
ghost use Rattle.wit_resolve_graph.specs.Step.{PushesGroups, RefusesGroups, with_feature};
ghost use Rattle.wit_semver.specs.SemverMerged.{semver_merged, IsSemverMergeCause};
ghost use Rattle.wit_transform.specs.Transformed.{AreAnswers, Exportizes, IsExportizeCause, IsImportizeCause, RefusesExportize, imports_at, exportized, importized, transformed};

use crate::groups::{add_packages, place_groups};
use crate::kept::{Kept, append_kept};
use crate::merged_imports::merge_kept_by_track;
use crate::merging::merge_kept;
use std::alloc::{AllocError, Global};
use std::marker::Model;
use std::{fmt, mem};
use wit_data::{
    Interface, InterfaceId, Items, PackageId, PackageName, SourceMap, Table, TrackRule, TryClone,
    TypeDef, UnresolvedPackage, UnresolvedPackageGroup, World, WorldId, WorldItem, WorldKey,
};
use wit_graph_data::{Features, Graph, Package, ResolveErrorKind, ResolveResult};
use wit_graph_faults::{GraphFault, find_graph_fault};
use wit_link::Remap;
use wit_queries::selection::select_world;
use wit_transform::{exportize_answered_with, exportize_with, importize_with};
use wit_validity::is_valid;
use wit_values::try_clone_four;

/// Packages whose names are resolved: a valid graph, the features that are on, the sources, and the rule that puts
/// versions on one track.
///
/// It also keeps which interfaces use which, so that a push costs what it adds, and for which types all bits are valid.
///
/// Source: `Resolve` of wit-parser 0.263.0.
pub struct Resolve {
    graph: Graph,
    kept: Kept,
    features: Features,
    source_map: SourceMap,
    track_rule: TrackRule,
}

impl Model for Resolve {
    ghost use Rattle.wit_resolve_graph.specs.State.{AreKept, State};

    ghost Value = { State };

    ghost view = { λ a. record {
      graph = a.graph;
      features = a.features;
      source_map = a.source_map;
      track_rule = a.track_rule;
    } };

    ghost invariant = { λ a. AreKept a.graph a.kept };
}

impl Resolve {
    /// An empty `Resolve`: no package, no feature, no file, and the published rule of tracks. It takes no memory.
    ///
    /// Source: `Resolve::new` of wit-parser 0.263.0.
    pub fn new(alloc: Global) -> Resolve
        ensures { result ≡ new_state }
    {
        Resolve {
            graph: Graph::new(alloc),
            kept: Kept::empty(alloc),
            features: Features::new(alloc),
            source_map: SourceMap::new(alloc),
            track_rule: TrackRule::Published,
        }
    }

    /// Makes a `Resolve` of a graph and what stands beside it. None if the graph isn't valid (`is_valid`). The only
    /// refusal is want of memory (28).
    pub fn of_graph(
        alloc: Global,
        graph: Graph,
        features: Features,
        source_map: SourceMap,
        track_rule: TrackRule,
    ) -> ResolveResult<Option<Resolve>>
        ensures value { IfOk result (λ made.
            IfSome made (λ it.
            it
            ≡ record {
              graph = graph;
              features = features;
              source_map = source_map;
              track_rule = track_rule;
            })) }
        ensures valid { IfOk result (λ made. IsTrue (is_some made) ↔ IsValid graph) }
        ensures memory { IfErr result (λ kind. kind ≡ OutOfMemory) }
    {
        if !is_valid(alloc, &graph)? {
            return Ok(None);
        }
        let kept = Kept::of(alloc, &graph)?;
        Ok(Some(Resolve {
            graph,
            kept,
            features,
            source_map,
            track_rule,
        }))
    }

    /// Makes a `Resolve` as `of_graph` does, or tells why the graph isn't valid (`find_graph_fault`). The only refusal is
    /// want of memory (28).
    pub fn of_graph_or_fault(
        alloc: Global,
        graph: Graph,
        features: Features,
        source_map: SourceMap,
        track_rule: TrackRule,
    ) -> ResolveResult<Result<Resolve, GraphFault>>
        ensures value { IfOk result (λ made.
            IfOk made (λ it.
            it
            ≡ record {
              graph = graph;
              features = features;
              source_map = source_map;
              track_rule = track_rule;
            })) }
        ensures valid { IfOk result (λ made. OnOk made (IsValid graph)) }
        ensures fault { IfOk result (λ made. IfErr made (IsGraphFault graph)) }
        ensures memory { IfErr result (λ kind. kind ≡ OutOfMemory) }
    {
        if let Some(fault) = find_graph_fault(alloc, &graph)? {
            return Ok(Err(fault));
        }
        let kept = Kept::of(alloc, &graph)?;
        Ok(Ok(Resolve {
            graph,
            kept,
            features,
            source_map,
            track_rule,
        }))
    }

    /// The graph. A caller learns here that it is valid.
    pub fn graph(&self) -> &Graph
        ensures value { result.now ≡ self.now.graph }
        ensures valid { IsValid self.now.graph }
    {
        &self.graph
    }

    /// Whether the graph is valid (`is_valid`), as it is in every `Resolve`. The only refusal is want of memory (28).
    ///
    /// Source: `assert_valid` of wit-parser 0.263.0.
    pub fn assert_valid(&self, alloc: Global) -> ResolveResult<bool>
        ensures valid { IfOk result (λ valid. IsTrue valid) }
        ensures memory { IfErr result (λ kind. kind ≡ OutOfMemory) }
    {
        is_valid(alloc, self.graph())
    }

    /// The types, each at the index that is its id.
    ///
    /// Source: `Resolve::types` of wit-parser 0.263.0.
    pub fn types(&self) -> &[TypeDef]
        ensures { result.now ≡ self.now.graph.types }
    {
        self.graph.types.as_slice()
    }

    /// The interfaces, each at the index that is its id.
    ///
    /// Source: `Resolve::interfaces` of wit-parser 0.263.0.
    pub fn interfaces(&self) -> &[Interface]
        ensures { result.now ≡ self.now.graph.interfaces }
    {
        self.graph.interfaces.as_slice()
    }

    /// The worlds, each at the index that is its id.
    ///
    /// Source: `Resolve::worlds` of wit-parser 0.263.0.
    pub fn worlds(&self) -> &[World]
        ensures { result.now ≡ self.now.graph.worlds }
    {
        self.graph.worlds.as_slice()
    }

    /// The packages, each at the index that is its id.
    ///
    /// Source: `Resolve::packages` of wit-parser 0.263.0.
    pub fn packages(&self) -> &[Package]
        ensures { result.now ≡ self.now.graph.packages }
    {
        self.graph.packages.as_slice()
    }

    /// The ids of the packages by their names.
    ///
    /// Source: `Resolve::package_names` of wit-parser 0.263.0.
    pub fn package_names(&self) -> &Table<PackageName, PackageId>
        ensures { result.now ≡ self.now.graph.package_names }
    {
        &self.graph.package_names
    }

    /// The features that are on.
    ///
    /// Source: `Resolve::features` of wit-parser 0.263.0.
    pub fn features(&self) -> &Features
        ensures { result.now ≡ self.now.features }
    {
        &self.features
    }

    /// Whether all features are on, named or not.
    ///
    /// Source: `Resolve::all_features` of wit-parser 0.263.0.
    pub fn all_features(&self) -> bool
        ensures { result ≡ self.now.features.all }
    {
        self.features.all
    }

    /// The files in which the spans stand.
    ///
    /// Source: `Resolve::source_map` of wit-parser 0.263.0.
    pub fn source_map(&self) -> &SourceMap
        ensures { result.now ≡ self.now.source_map }
    {
        &self.source_map
    }

    /// The rule that puts versions on one track.
    pub fn track_rule(&self) -> TrackRule
        ensures { result ≡ self.now.track_rule }
    {
        self.track_rule
    }

    /// A flag for each type: whether all bits are valid values of it.
    pub(crate) fn valid_bits(&self) -> &[bool]
        ensures { AreValidBitsOf self.now.graph.types result.now }
    {
        self.kept.valid_bits.as_slice()
    }
}

impl Resolve {
    /// Turns a feature on; one that is on stays so. Refused only for memory (28); then nothing changes.
    ///
    /// Source: `Resolve::features` of wit-parser 0.263.0.
    pub fn add_feature(&mut self, alloc: Global, name: &str) -> ResolveResult<()>
        ensures ok { OnOk result
            (self.new ≡ record self.old { features = with_feature self.old.features name.now }) }
        ensures unchanged { OnErr result (self.new ≡ self.old) }
        ensures cause { IfErr result (λ kind. kind ≡ OutOfMemory) }
    {
        self.features.names.insert(alloc, name)?;
        Ok(())
    }

    /// Turns all features on, or leaves only the named ones on. It takes no memory.
    ///
    /// Source: `Resolve::all_features` of wit-parser 0.263.0.
    pub fn set_all_features(&mut self, all: bool)
        ensures { self.new ≡ record self.old { features = record self.old.features { all = all } } }
    {
        self.features.all = all;
    }

    /// Sets the rule that puts versions on one track. It takes no memory.
    pub fn set_track_rule(&mut self, rule: TrackRule)
        ensures { self.new ≡ record self.old { track_rule = rule } }
    {
        self.track_rule = rule;
    }
}

impl Resolve {
    /// Appends the files of a source map to this one's, and answers the position where they begin. Spans in these files
    /// must move by that position.
    ///
    /// Refused if the end would pass 4294967295 (27), and for memory (28); then nothing changes.
    ///
    /// Source: `push_source_map` of wit-parser 0.263.0.
    pub fn push_source_map(&mut self, alloc: Global, source_map: SourceMap) -> ResolveResult<u32>
        ensures ok { IfOk result (λ offset.
            (offset ≡ self.old.source_map.end)
            × (self.new
            ≡ record self.old
            { source_map = with_sources self.old.source_map source_map })) }
        ensures unchanged { OnErr result (self.new ≡ self.old) }
        ensures cause { IfErr result (λ kind.
            (kind ≡ OutOfMemory)
            ⊎ ((kind ≡ OffsetOverflow) × (2 ^ 32 ≤ self.old.source_map.end + source_map.end))) }
        ensures refuses { 2 ^ 32 ≤ self.old.source_map.end + source_map.end → OnOk result ⊥ }
    {
        Ok(self.source_map.append(alloc, source_map)?)
    }

    /// Adds an `is_shaped` package and answers its id. Its spans move by `span_offset` positions; the sources stay.
    ///
    /// Refused as `wit_link::append` is (1 to 5, 7 to 18, 27), and for memory (28); then nothing changes.
    ///
    /// Source: `push` of wit-parser 0.263.0.
    pub fn push(
        &mut self,
        alloc: Global,
        package: UnresolvedPackage,
        span_offset: u32,
    ) -> ResolveResult<PackageId>
        requires shaped { IsShaped «package» }
        ensures ok { IfOk result (λ id.
            IsAdded (addition self.old.features self.old.graph «package» span_offset)
            self.new.graph id) }
        ensures features { self.new.features ≡ self.old.features }
        ensures source_map { self.new.source_map ≡ self.old.source_map }
        ensures track_rule { self.new.track_rule ≡ self.old.track_rule }
        ensures unchanged { OnErr result (self.new ≡ self.old) }
        ensures cause { IfErr result (λ kind.
            (kind ≡ OutOfMemory)
            ⊎ IsAdditionCause (addition self.old.features self.old.graph «package» span_offset)
            kind) }
        ensures refuses { (kind : ResolveErrorKind)
            → IsAdditionCause (addition self.old.features self.old.graph «package» span_offset) kind
            → OnOk result ⊥ }
    {
        append_kept(
            alloc,
            &mut self.graph,
            &mut self.kept,
            &self.features,
            package,
            span_offset,
        )
    }

    /// Adds the main and the nested packages of an `is_group_shaped` group, appends its files to the source map, and
    /// answers the main package's id. It is `push_groups` with this group alone, which lists the refusals.
    ///
    /// Source: `push_group` of wit-parser 0.263.0.
    pub fn push_group(
        &mut self,
        alloc: Global,
        group: UnresolvedPackageGroup,
    ) -> ResolveResult<PackageId>
        requires shaped { IsGroupShaped group }
        ensures ok { IfOk result (λ id. PushesGroups self.old group [] id self.new) }
        ensures cause { IfErr result (λ kind. RefusesGroups self.old group [] kind self.new) }
        ensures refuses { (kind : ResolveErrorKind)
            → IsGroupsCause self.old.features self.old.graph self.old.source_map.end (group ∷ [])
            kind → OnOk result ⊥ }
    {
        self.push_groups(alloc, group, Items::new(alloc))
    }

    /// Adds the packages of `is_group_shaped` groups: dependencies first, else in the order of their names. Appends the
    /// groups' files to the source map, those of the main group first. Answers the id of the main group's main package.
    ///
    /// Refused if two packages have one name (5), if packages depend on each other or one on itself (6), if the files
    /// or the span of an error end past 4294967295 (27), if `push` refuses one of them, and for memory (28). A refusal
    /// adds no package. It leaves the files in the source map, but after 27 none, and after 28 all or none.
    ///
    /// Source: `push_groups` of wit-parser 0.263.0.
    pub fn push_groups(
        &mut self,
        alloc: Global,
        main: UnresolvedPackageGroup,
        deps: Items<UnresolvedPackageGroup>,
    ) -> ResolveResult<PackageId>
        requires shaped { AllByRecursion IsGroupShaped (main ∷ deps) }
        ensures ok { IfOk result (λ id. PushesGroups self.old main deps id self.new) }
        ensures cause { IfErr result (λ kind. RefusesGroups self.old main deps kind self.new) }
        ensures refuses { (kind : ResolveErrorKind)
            → IsGroupsCause self.old.features self.old.graph self.old.source_map.end (main ∷ deps)
            kind → OnOk result ⊥ }
    {
        let name = main.main.name.try_clone()?;
        let files = self.source_map.len();
        let end = self.source_map.end();
        let packages = place_groups(alloc, &mut self.source_map, main, deps)?;
        let pushed = add_packages(
            alloc,
            &mut self.graph,
            &mut self.kept,
            &self.features,
            packages,
            &name,
        );
        if is_offset_overflow(&pushed) {
            self.source_map.truncate(files, end);
        }
        pushed
    }

    /// Merges another `Resolve` into this one. Packages, worlds, interfaces and types of one name become one; all else
    /// comes behind what is there. The files of the other come to the end of the source map, and its spans move with
    /// them. Features and the rule of tracks stay; those of the other are lost. Answers where the things of the other
    /// are now.
    ///
    /// Refused if two known stabilities that meet differ (8), if a function that comes has a `borrow` in its result
    /// (15), if things of one name disagree (24), if an interface (22) or a package (6) would depend on itself, if the
    /// exports of a world would be in conflict (4), if a position would pass 4294967295 (27), and for memory (28). A
    /// refusal leaves the graph as it was. It leaves the other's files in the source map, but after 27 none, and after
    /// 28 all or none.
    ///
    /// Source: `merge` of wit-parser 0.263.0.
    pub fn merge(&mut self, alloc: Global, mut other: Resolve) -> ResolveResult<Remap>
        ensures ok { IfOk result (λ remap. Merges self.old other remap self.new) }
        ensures cause { IfErr result (λ kind. RefusesMerge self.old other kind self.new) }
        ensures refuses { (kind : ResolveErrorKind)
            → IsMergeCause (merge_of self.old other) kind ⊎ FilesPass self.old other kind
            → OnOk result ⊥ }
    {
        let len = self.source_map.len();
        let end = self.source_map.end();
        let files = mem::replace(&mut other.source_map, SourceMap::new(alloc));
        let offset = self.source_map.append(alloc, files)?;
        let merged = merge_kept(alloc, &mut self.graph, &mut self.kept, &other.graph, offset);
        if is_offset_overflow(&merged) {
            self.source_map.truncate(len, end);
        }
        merged
    }

    /// The world that a text names: by its name in the only main package, or as `namespace:package/name` with an
    /// optional `@version`. Without a text it is the only world of the only main package.
    ///
    /// The main packages are ids of this graph; one that isn't there counts as if there were none. Refused (26) if the
    /// text is no use path, if there is no main package, if there are several and the text names no package, if the
    /// text's package isn't there, or is there at several versions and the text has none, and if there is no such world
    /// or more than one. Also refused for memory (28).
    ///
    /// Source: `select_world` of wit-parser 0.263.0.
    pub fn select_world(
        &self,
        alloc: Global,
        main_packages: &[PackageId],
        world: Option<&str>,
    ) -> ResolveResult<WorldId>
        ensures ok { IfOk result (λ id.
            selected_world self.now.graph main_packages.now (option_copied world.entry)
            ≡ Ok id) }
        ensures within { IfOk result (λ id. id < length self.now.graph.worlds) }
        ensures cause { IfErr result (IsSelectionError
            (selected_world self.now.graph main_packages.now (option_copied world.entry))) }
    {
        select_world(alloc, self.graph(), main_packages, world)
    }

    /// The id text of an interface (`Graph::id_of`). None if it has no name or isn't there. The only refusal is want of
    /// memory (28).
    ///
    /// Source: `id_of` of wit-parser 0.263.0.
    pub fn id_of(&self, alloc: Global, id: InterfaceId) -> ResolveResult<Option<String>>
        ensures text { IfOk result (λ text.
            option_map string_bytes text
            ≡ interface_id_at self.now.graph.packages self.now.graph.interfaces id) }
        ensures memory { IfErr result (λ kind. kind ≡ OutOfMemory) }
    {
        self.graph.id_of(alloc, id)
    }

    /// The id text of an interface or a world of this name in a package (`Graph::id_of_name`). Empty if the package
    /// isn't there. The only refusal is want of memory (28).
    ///
    /// Source: `id_of_name` of wit-parser 0.263.0.
    pub fn id_of_name(&self, alloc: Global, package: PackageId, name: &str) -> ResolveResult<String>
        ensures text { IfOk result
            (λ text. string_bytes text ≡ id_text self.now.graph.packages «package» name.now) }
        ensures memory { IfErr result (λ kind. kind ≡ OutOfMemory) }
    {
        self.graph.id_of_name(alloc, package, name)
    }

    /// What names a key of a world: see `Graph::name_world_key`. The only refusal is want of memory (28).
    ///
    /// Source: `name_world_key` of wit-parser 0.263.0.
    pub fn name_world_key(&self, alloc: Global, key: &WorldKey) -> ResolveResult<String>
        ensures text { IfOk result (λ text.
            string_bytes text
            ≡ key_text self.now.graph.packages self.now.graph.interfaces key.now) }
        ensures memory { IfErr result (λ kind. kind ≡ OutOfMemory) }
    {
        self.graph.name_world_key(alloc, key)
    }
}

impl Resolve {
    /// Makes the exports of a world of this graph its imports. `wit_unite::importize` lists the refusals (19, 20, 28);
    /// after one nothing has changed.
    ///
    /// Source: `importize` of wit-parser 0.263.0.
    pub fn importize(
        &mut self,
        alloc: Global,
        world: WorldId,
        out: Option<String>,
    ) -> ResolveResult<()>
        requires { world < length self.old.graph.worlds }
        ensures ok { OnOk result (self.new
            ≡ record self.old {
              graph = transformed self.old.graph world
                  (importized (option_map string_bytes out));
            }) }
        ensures unchanged { OnErr result (self.new ≡ self.old) }
        ensures cause { IfErr result (λ kind.
            (kind ≡ OutOfMemory)
            ⊎ IsImportizeCause self.old.graph world (option_map string_bytes out) kind) }
        ensures refuses { (kind : ResolveErrorKind)
            → IsImportizeCause self.old.graph world (option_map string_bytes out) kind
            → OnOk result ⊥ }
    {
        importize_with(
            alloc,
            &mut self.graph,
            &mut self.kept.caches.elaborator,
            world,
            out,
        )
    }

    /// Makes imports of a world of this graph its exports: those for which the filter answers true, or all without a
    /// filter. The filter can always be called. `wit_unite::exportize` lists the refusals (4, 20, 21, 28); after one
    /// nothing has changed.
    ///
    /// Source: `exportize` of wit-parser 0.263.0.
    pub fn exportize<F: Fn(&WorldKey, &WorldItem) -> bool + Drop>(
        &mut self,
        alloc: Global,
        world: WorldId,
        out: Option<String>,
        filter: Option<F>,
    ) -> ResolveResult<()>
        requires world { world < length self.old.graph.worlds }
        requires filter { IfSome filter (λ f. F.IsAlwaysCallable f) }
        ensures ok { OnOk result (Exportizes F.Fn filter self.old.graph world
            (option_map string_bytes out) self.new.graph) }
        ensures features { self.new.features ≡ self.old.features }
        ensures source_map { self.new.source_map ≡ self.old.source_map }
        ensures track_rule { self.new.track_rule ≡ self.old.track_rule }
        ensures unchanged { OnErr result (self.new ≡ self.old) }
        ensures cause { IfErr result (λ kind.
            (kind ≡ OutOfMemory)
            ⊎ RefusesExportize F.Fn filter self.old.graph world (option_map string_bytes out)
            kind) }
        ensures refuses { ((answers : List Bool)
            → AreAnswers F.Fn filter (imports_at self.old.graph world) answers
            → (kind : ResolveErrorKind)
            × IsExportizeCause self.old.graph world answers (option_map string_bytes out) kind)
            → OnOk result ⊥ }
    {
        exportize_with(
            alloc,
            &mut self.graph,
            &mut self.kept.caches.elaborator,
            world,
            out,
            filter,
        )
    }

    /// As `exportize`, with the answers of a filter: one for each import, in order.
    pub(crate) fn exportize_answered(
        &mut self,
        alloc: Global,
        world: WorldId,
        out: Option<String>,
        answers: &Items<bool>,
    ) -> ResolveResult<()>
        requires world { world < length self.old.graph.worlds }
        requires answers { length answers.now ≡ length (imports_at self.old.graph world) }
        ensures ok { OnOk result (self.new
            ≡ record self.old {
              graph = transformed self.old.graph world
                  (exportized answers.now (option_map string_bytes out));
            }) }
        ensures unchanged { OnErr result (self.new ≡ self.old) }
        ensures cause { IfErr result (λ kind.
            (kind ≡ OutOfMemory)
            ⊎ IsExportizeCause self.old.graph world answers.now (option_map string_bytes out)
            kind) }
        ensures refuses { (kind : ResolveErrorKind)
            → IsExportizeCause self.old.graph world answers.now (option_map string_bytes out) kind
            → OnOk result ⊥ }
    {
        exportize_answered_with(
            alloc,
            &mut self.graph,
            &mut self.kept.caches.elaborator,
            world,
            out,
            answers,
        )
    }

    /// Merges the imports of a world of this graph by tracks, with the rule in force. `wit_unite::merge_by_track` lists
    /// the refusals (4, 6, 22, 23, 25, 28); after one nothing has changed.
    ///
    /// Source: `merge_world_imports_based_on_semver` of wit-parser 0.263.0.
    pub fn merge_world_imports_based_on_semver(
        &mut self,
        alloc: Global,
        world: WorldId,
    ) -> ResolveResult<()>
        requires { world < length self.old.graph.worlds }
        ensures ok { OnOk result (self.new
            ≡ record self.old
            { graph = semver_merged self.old.track_rule self.old.graph world }) }
        ensures unchanged { OnErr result (self.new ≡ self.old) }
        ensures cause { IfErr result (λ kind.
            (kind ≡ OutOfMemory)
            ⊎ IsSemverMergeCause self.old.track_rule self.old.graph world kind) }
        ensures refuses { (kind : ResolveErrorKind)
            → IsSemverMergeCause self.old.track_rule self.old.graph world kind → OnOk result ⊥ }
    {
        merge_kept_by_track(
            alloc,
            &mut self.graph,
            &mut self.kept,
            world,
            self.track_rule,
        )
    }
}

/// Whether a call is refused because a position would pass 4294967295.
fn is_offset_overflow<T>(answer: &ResolveResult<T>) -> bool
    ensures { IsTrue result ↔ (answer.now ≡ Err OffsetOverflow) }
{
    match answer {
        Ok(_) => false,
        Err(refusal) => matches!(refusal.kind(), ResolveErrorKind::OffsetOverflow),
    }
}

/// Its packages, by name, and its features. What the packages hold is asked of the graph.
impl fmt::Debug for Resolve {
    fn fmt<W: fmt::Write>(&self, f: &mut fmt::Formatter<W>) -> fmt::Result {
        f.debug_struct("Resolve")
            .field("packages", &self.graph.packages)
            .field("features", &self.features)
            .finish_non_exhaustive()
    }
}

/// As the derived one: each field is let go. A call of it costs the check less than a derived one,
/// which is checked again wherever a value is let go.
impl Drop for Resolve {
    fn drop(self) {
        let Resolve {
            graph,
            kept,
            features,
            source_map,
            track_rule: _,
        } = self;
        drop(graph);
        drop(kept);
        drop(features);
        drop(source_map);
    }
}

impl TryClone for Resolve {
    fn try_clone(&self) -> Result<Resolve, AllocError> {
        let (graph, kept, features, source_map) = try_clone_four(
            &self.graph,
            &self.kept,
            &self.features,
            &self.source_map,
        )?;
        Ok(Resolve {
            graph,
            kept,
            features,
            source_map,
            track_rule: self.track_rule,
        })
    }
}
