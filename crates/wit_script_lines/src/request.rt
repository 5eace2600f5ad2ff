//! What a command of a script that brings no package says by its tokens alone.
ghost use Rattle.std.specs.Prelude.{◌≡◌, map, IfOk};
ghost use Rattle.wit_script_lines.specs.steps.ReadResult.{IsRead};
ghost use Rattle.wit_script_lines.specs.Request.{exportize_of, importize_of, importize_to, is_request, keys_of, request_by, select_of, select_with, track_rule_of, world_in, world_of};
ghost use Rattle.wit_script_lines.specs.Token.{alone_of};
ghost use Rattle.wit_script_lines.specs.steps.Parts.{feature_of, tracks_of, new_name_of, exportize_to};

use crate::fault::LineFault;
use crate::token::{read_package_name, read_part};
use std::alloc::{AllocError, Global};
use wit_commands::Change;
use wit_data::{Items, PackageName, Text, TrackRule};

/// A command of a script.
#[derive(Drop)]
pub enum Request {
    /// A change of the graph, where packages that are pushed are those since the last command.
    Change(Change),
    /// `other`: opens a second graph.
    Other,
    /// `merge`: the second graph goes into the first.
    Merge,
    /// `print PKG WORLD`: shows a world.
    Print {
        package: PackageName,
        world: Text,
    },
    /// `select PKG [TEXT]`: chooses a world.
    Select {
        package: PackageName,
        text: Option<Text>,
    },
}

/// Whether a first token begins a command that brings no package.
pub fn is_request(word: &str) -> bool
    ensures { result ≡ is_request word.now }
{
    match word {
        "feature" => true,
        "all-features" => true,
        "tracks" => true,
        "other" => true,
        "merge" => true,
        "importize" => true,
        "exportize" => true,
        "semver" => true,
        "print" => true,
        "select" => true,
        _ => false,
    }
}

/// What such a command says by its first token and its arguments. Not understood where none begins so
/// or takes these arguments. Else only want of memory is an error.
pub fn read_request(alloc: Global, word: &str, arguments: &[&str]) -> Result<Request, LineFault>
    ensures { IsRead (request_by word.now (map (λ t. t.now) arguments.now)) result }
{
    match word {
        "feature" => feature(alloc, arguments),
        "all-features" => alone(arguments, Request::Change(Change::SetAllFeatures(true))),
        "tracks" => tracks(arguments),
        "other" => alone(arguments, Request::Other),
        "merge" => alone(arguments, Request::Merge),
        "importize" => importize(alloc, arguments),
        "exportize" => exportize(alloc, arguments),
        "semver" => {
            let (package, world) = read_world(alloc, arguments)?;
            Ok(Request::Change(Change::Semver { package, world }))
        }
        "print" => {
            let (package, world) = read_world(alloc, arguments)?;
            Ok(Request::Print { package, world })
        }
        "select" => select(alloc, arguments),
        _ => Err(LineFault::NotUnderstood),
    }
}

/// A command without arguments.
fn alone(arguments: &[&str], request: Request) -> Result<Request, LineFault>
    ensures { IsRead (alone_of request (map (λ t. t.now) arguments.now)) result }
{
    match arguments {
        [] => Ok(request),
        _ => Err(LineFault::NotUnderstood),
    }
}

/// `NAME`
fn feature(alloc: Global, arguments: &[&str]) -> Result<Request, LineFault>
    ensures { IsRead (feature_of (map (λ t. t.now) arguments.now)) result }
{
    match arguments {
        [name] => {
            let name = read_part(alloc, name)?;
            Ok(Request::Change(Change::AddFeature(name)))
        }
        _ => Err(LineFault::NotUnderstood),
    }
}

/// The rule of tracks of this name.
fn tracks(arguments: &[&str]) -> Result<Request, LineFault>
    ensures { IsRead (tracks_of (map (λ t. t.now) arguments.now)) result }
{
    match arguments {
        [rule] => {
            let rule = track_rule(rule)?;
            Ok(Request::Change(Change::SetTrackRule(rule)))
        }
        _ => Err(LineFault::NotUnderstood),
    }
}

/// `published` or `with-prereleases`
fn track_rule(token: &str) -> Result<TrackRule, LineFault>
    ensures { IsRead (track_rule_of token.now) result }
{
    match token {
        "published" => Ok(TrackRule::Published),
        "with-prereleases" => Ok(TrackRule::WithPrereleases),
        _ => Err(LineFault::NotUnderstood),
    }
}

/// `PKG WORLD`
fn read_world(alloc: Global, arguments: &[&str]) -> Result<(PackageName, Text), LineFault>
    ensures { IsRead (world_of (map (λ t. t.now) arguments.now)) result }
{
    match arguments {
        [owner, world] => world_in(alloc, owner, world),
        _ => Err(LineFault::NotUnderstood),
    }
}

/// A world of a package.
fn world_in(alloc: Global, owner: &str, world: &str) -> Result<(PackageName, Text), LineFault>
    ensures { IsRead (world_in owner.now world.now) result }
{
    let package = read_package_name(alloc, owner)?;
    let world = read_part(alloc, world)?;
    Ok((package, world))
}

/// `PKG WORLD` or `PKG WORLD NAME`
fn importize(alloc: Global, arguments: &[&str]) -> Result<Request, LineFault>
    ensures { IsRead (importize_of (map (λ t. t.now) arguments.now)) result }
{
    match arguments {
        [owner, world] => importize_to(alloc, owner, world, None),
        [owner, world, out] => {
            let out = read_part(alloc, out)?;
            importize_to(alloc, owner, world, Some(out))
        }
        _ => Err(LineFault::NotUnderstood),
    }
}

/// The transformation of a world, which then has this name.
fn importize_to(
    alloc: Global,
    owner: &str,
    world: &str,
    out: Option<Text>,
) -> Result<Request, LineFault>
    ensures { IsRead (importize_to owner.now world.now out) result }
{
    let (package, world) = world_in(alloc, owner, world)?;
    Ok(Request::Change(Change::Importize {
        package,
        world,
        out,
    }))
}

/// `PKG WORLD NAME KEY ..`
fn exportize(alloc: Global, arguments: &[&str]) -> Result<Request, LineFault>
    ensures { IsRead (exportize_of (map (λ t. t.now) arguments.now)) result }
{
    match arguments {
        [owner, world, out, keys @ ..] => exportize_to(alloc, owner, world, out, keys),
        _ => Err(LineFault::NotUnderstood),
    }
}

/// The transformation of a world by these keys, which then has this name.
fn exportize_to(
    alloc: Global,
    owner: &str,
    world: &str,
    out: &str,
    keys: &[&str],
) -> Result<Request, LineFault>
    ensures { IsRead (exportize_to owner.now world.now out.now (map (λ t. t.now) keys.now)) result }
{
    let (package, world) = world_in(alloc, owner, world)?;
    let out = new_name(alloc, out)?;
    let keys = read_keys(alloc, keys)?;
    Ok(Request::Change(Change::Exportize {
        package,
        world,
        out,
        keys,
    }))
}

/// The new name of a transformed world, where `-` stands for none.
fn new_name(alloc: Global, token: &str) -> Result<Option<Text>, AllocError>
    ensures { IfOk result (λ name. name ≡ new_name_of token.now) }
{
    if token == "-" {
        return Ok(None);
    }
    Ok(Some(Text::try_from_str(alloc, token)?))
}

/// The keys of the imports that become exports; without any, all do.
fn read_keys(alloc: Global, tokens: &[&str]) -> Result<Option<Items<Text>>, AllocError>
    ensures { IfOk result (λ keys. keys ≡ keys_of (map (λ t. t.now) tokens.now)) }
{
    if tokens.is_empty() {
        return Ok(None);
    }
    Ok(Some(texts(alloc, tokens)?))
}

/// The texts of tokens.
fn texts(alloc: Global, tokens: &[&str]) -> Result<Items<Text>, AllocError>
    ensures { IfOk result (λ found. found ≡ map (λ t. t.now) tokens.now) }
{
    let mut found = Items::new(alloc);
    for token in tokens {
        found.push(Text::try_from_str(alloc, token)?)?;
    }
    Ok(found)
}

/// `PKG` or `PKG TEXT`
fn select(alloc: Global, arguments: &[&str]) -> Result<Request, LineFault>
    ensures { IsRead (select_of (map (λ t. t.now) arguments.now)) result }
{
    match arguments {
        [owner] => select_with(alloc, owner, None),
        [owner, text] => {
            let text = read_part(alloc, text)?;
            select_with(alloc, owner, Some(text))
        }
        _ => Err(LineFault::NotUnderstood),
    }
}

/// The choice of a world for a package.
fn select_with(alloc: Global, owner: &str, text: Option<Text>) -> Result<Request, LineFault>
    ensures { IsRead (select_with owner.now text) result }
{
    let package = read_package_name(alloc, owner)?;
    Ok(Request::Select { package, text })
}
