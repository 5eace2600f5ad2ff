//! Sources that are parsed and pushed in one call.
ghost use Rattle.std.specs.Prelude.{◌≡◌, ◌≤◌, ◌<◌, ◌^◌, ◌⊎◌, [], ◌∷◌, Ok, Err, IfErr, IfOk, OnOk};
ghost use Rattle.wit_graph_data.specs.declared.error_kind.ResolveErrorKind.{ResolveErrorKind};
ghost use Rattle.wit_data.specs.Shape.{IsGroupShaped};
ghost use Rattle.wit_data.specs.declared.unresolved.UnresolvedPackageGroup.{UnresolvedPackageGroup};
ghost use Rattle.wit_link.specs.Appending.{IsGroupsCause};
ghost use Rattle.wit_resolve_graph.specs.Sources.{IsNotPlaced, IsPlaced, MayParse, PushesSource, RefusesSource, only_file};
ghost use Rattle.wit_resolve_graph.specs.declared.sources.ParseFault.TheVariants as parse;
ghost use Rattle.wit_sources.specs.SourceMap.{end_after};

use crate::resolve::Resolve;
use crate::sources::{ParseFault, SourceFault};
use std::alloc::Global;
use wit_data::{MapFault, PackageId, SourceMap, Span, Text, UnresolvedPackageGroup};
use wit_graph_data::{ResolveError, ResolveErrorKind};

impl Resolve {
    /// Parses the file of this path with these contents, adds the group as `push_group` does, and answers the main
    /// package's id. The parse gets a source map of this file alone. It can always be called, and each group that it
    /// may make of the file has its shape (`is_group_shaped`).
    ///
    /// Refused as `push_group` is, if the file would pass 4294967295 (27), and for memory, also if the parse wants it
    /// (28). If the parse can't read the text, its files come to the end of the sources and its span moves with them;
    /// if they or the span don't fit there the refusal is 27, for memory 28, and no file is added. A fault leaves the
    /// packages as they were, and the sources but for such files.
    ///
    /// Source: `push_source` of wit-parser 0.263.0; that a parse comes in is a rule of this project.
    pub fn push_source<F: FnOnce(SourceMap) -> Result<UnresolvedPackageGroup, ParseFault> + Drop>(
        &mut self,
        alloc: Global,
        path: &str,
        contents: &str,
        parse: F,
    ) -> Result<PackageId, SourceFault>
        requires callable { F.IsAlwaysCallable parse }
        requires shaped { (group : UnresolvedPackageGroup)
            → MayParse F.FnOnce parse path.now contents.now (Ok group) → IsGroupShaped group }
        ensures ok { IfOk result
            (λ id. PushesSource F.FnOnce parse self.old path.now contents.now id self.new) }
        ensures cause { IfErr result (λ fault.
            RefusesSource F.FnOnce parse self.old path.now contents.now fault self.new) }
        ensures refuses { ((group : UnresolvedPackageGroup)
            → MayParse F.FnOnce parse path.now contents.now (Ok group)
            → (kind : ResolveErrorKind)
            × IsGroupsCause self.old.features self.old.graph self.old.source_map.end
            (group ∷ []) kind) → OnOk result ⊥ }
    {
        let source_map = only_file(alloc, path, contents)?;
        match parse(source_map) {
            Ok(group) => Ok(self.push_group(alloc, group)?),
            Err(
                ParseFault::Text {
                    source_map,
                    span,
                    message,
                },
            ) => Err(self.place_fault(alloc, source_map, span, message)),
            Err(ParseFault::OutOfMemory) => Err(SourceFault::Resolve(ResolveError::from(
                ResolveErrorKind::OutOfMemory,
            ))),
        }
    }

    /// What is told of a text that can't be read, whose files go to the end of the sources.
    fn place_fault(
        &mut self,
        alloc: Global,
        source_map: SourceMap,
        span: Span,
        message: Text,
    ) -> SourceFault
        ensures { IsPlaced self.old source_map span message result self.new
            ⊎ IsNotPlaced self.old source_map span result self.new }
    {
        let Some(span) = span.moved(self.source_map().end()) else {
            return SourceFault::from(MapFault::OffsetOverflow);
        };
        match self.push_source_map(alloc, source_map) {
            Ok(_) => SourceFault::Parse { span, message },
            Err(refusal) => SourceFault::Resolve(refusal),
        }
    }
}

/// The source map of one file.
fn only_file(alloc: Global, path: &str, contents: &str) -> Result<SourceMap, MapFault>
    ensures ok { IfOk result (λ map. map ≡ only_file path.now contents.now) }
    ensures fits { OnOk result (end_after 0 contents.now < 2 ^ 32) }
    ensures overflow { result ≡ Err MapFault.OffsetOverflow → 2 ^ 32 ≤ end_after 0 contents.now }
{
    let contents = String::from_str(alloc, contents)?;
    let mut map = SourceMap::new(alloc);
    map.push_str(alloc, path, contents)?;
    Ok(map)
}
