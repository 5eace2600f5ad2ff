//! The known package whose name is nearest to one that isn't known.
ghost use Rattle.std.specs.Option.{option_copied};
ghost use Rattle.std.specs.Prelude.{◌≡◌, IfOk, length, string_bytes};
ghost use Rattle.std.specs.Str.{chars};
ghost use Rattle.wit_json_commands.specs.Nearest.{distance, is_less, is_near, nearer, nearest, nearest_known, short_text};

use std::alloc::{AllocError, Global};
use strsim::levenshtein;
use wit_data::PackageName;
use wit_graph_data::ResolveErrorKind;

/// The known package whose name is nearest to the one that isn't there (1); None of other errors, and where none is near.
/// The only error is want of memory.
pub fn nearest_known(
    alloc: Global,
    kind: &ResolveErrorKind,
) -> Result<Option<&PackageName>, AllocError>
    ensures { IfOk result (λ name. option_copied name ≡ nearest_known kind.now) }
{
    match kind {
        ResolveErrorKind::PackageNotFound {
            requested,
            known,
            ..
        } => nearest(alloc, requested, known.as_slice()),
        _ => Ok(None),
    }
}

/// The nearest of some names, where one is near. A name of more than 100 bytes has none, so the time to look for it grows
/// as the names do.
fn nearest<'a>(
    alloc: Global,
    requested: &PackageName,
    known: &'a [PackageName],
) -> Result<Option<&'a PackageName>, AllocError>
    ensures { IfOk result (λ name. option_copied name ≡ nearest requested.now known.now) }
{
    let text = format!(in alloc; "{requested}")?;
    if text.len() > 100 {
        return Ok(None);
    }
    let mut best = None;
    for name in known {
        best = nearer(alloc, requested, best, name)?;
    }
    Ok(best)
}

/// The nearest name so far, after one more.
fn nearer<'a>(
    alloc: Global,
    requested: &PackageName,
    best: Option<&'a PackageName>,
    name: &'a PackageName,
) -> Result<Option<&'a PackageName>, AllocError>
    ensures { IfOk result
        (λ found. option_copied found ≡ nearer requested.now (option_copied best.entry) name.now) }
{
    if !is_near(alloc, requested, name)? {
        return Ok(best);
    }
    let Some(former) = best else {
        return Ok(Some(name));
    };
    if is_nearer(alloc, requested, name, former)? {
        Ok(Some(name))
    } else {
        Ok(best)
    }
}

/// Whether a name is near: without the versions, at most a third of the characters of what is requested is edited.
fn is_near(alloc: Global, requested: &PackageName, name: &PackageName) -> Result<bool, AllocError>
    ensures { IfOk result (λ answer. answer ≡ is_near requested.now name.now) }
{
    let (from, into) = (short_text(alloc, requested)?, short_text(alloc, name)?);
    let found = levenshtein(alloc, &from, &into)?;
    Ok(found <= character_count(&from) / 3)
}

/// How many characters a text has.
fn character_count(text: &str) -> usize
    ensures { result ≡ length (chars text.now) }
{
    text.chars().count()
}

/// Whether a name is nearer than a former one.
fn is_nearer(
    alloc: Global,
    requested: &PackageName,
    name: &PackageName,
    former: &PackageName,
) -> Result<bool, AllocError>
    ensures { IfOk result (λ answer.
        answer ≡ is_less (distance requested.now name.now) (distance requested.now former.now)) }
{
    let (short, whole) = distance(alloc, requested, name)?;
    let (least_short, least_whole) = distance(alloc, requested, former)?;
    Ok(short < least_short || short == least_short && whole < least_whole)
}

/// How far a name is from another: the edits without the versions, then those with them.
fn distance(
    alloc: Global,
    requested: &PackageName,
    name: &PackageName,
) -> Result<(usize, usize), AllocError>
    ensures { IfOk result (λ found. found ≡ distance requested.now name.now) }
{
    let (from, into) = (short_text(alloc, requested)?, short_text(alloc, name)?);
    let short = levenshtein(alloc, &from, &into)?;
    let (from, into) = (
        format!(in alloc; "{requested}")?,
        format!(in alloc; "{name}")?,
    );
    let whole = levenshtein(alloc, &from, &into)?;
    Ok((short, whole))
}

/// `namespace:name`, without the version.
fn short_text(alloc: Global, package: &PackageName) -> Result<String, AllocError>
    ensures { IfOk result (λ text. string_bytes text ≡ short_text «package».now) }
{
    let (namespace, name) = (&package.namespace, &package.name);
    format!(in alloc; "{namespace}:{name}")
}
