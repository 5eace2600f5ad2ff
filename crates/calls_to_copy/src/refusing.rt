//! Refusals.
use crate::building::with_user;
use std::alloc::Global;
use std::fmt::Write;
use wit_resolve_graph::{
    Items, Resolve, ResolveResult, Shape, SourceMap, Span, UnresolvedPackageGroup,
};

const CONTENTS: &str = "package foo:main;\ninterface j {\n  use foo:dep/i.{t as u};\n}\n";

/// The package `foo:main` of the file `main.wit`, which names a package that isn't there.
fn naming_another(alloc: Global) -> ResolveResult<UnresolvedPackageGroup> {
    let mut source_map = SourceMap::new(alloc);
    source_map.push_str(alloc, "main.wit", String::from_str(alloc, CONTENTS)?)?;
    Ok(UnresolvedPackageGroup {
        main: with_user(alloc, "main", "dep", Span::new(38, 45))?,
        nested: Items::new(alloc),
        source_map,
    })
}

/// Pushes a package that names one that isn't there, and writes the refusal's number and its text with the line.
pub fn a_missing_package(alloc: Global) -> ResolveResult<String> {
    let mut out = String::new(alloc);
    let mut resolve = Resolve::new(alloc);
    let made = naming_another(alloc)?;
    if !made.is_shaped(alloc)? {
        out.push_str("a package without its shape\n")?;
        return Ok(out);
    }
    match resolve.push_group(alloc, made) {
        Ok(_) => out.push_str("pushed\n")?,
        Err(refusal) => {
            let number = refusal.number();
            let text = refusal.render(alloc, resolve.source_map())?;
            writeln!(out, "refused {number}\n{text}")?;
        }
    }
    Ok(out)
}
