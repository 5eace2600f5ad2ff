//! Files and packages.
ghost use Rattle.std.specs.Prelude.{◌<◌, ◌≤◌, length, OnOk};

use crate::comments::Comments;
use crate::keyword::Keyword;
use crate::read_fault::{ReadFault, ReadFaultKind, Wanted};
use crate::reading::cursor::Cursor;
use crate::reading::lexeme::read_lexemes;
use crate::reading::statement::{read_interface, read_world};
use crate::reading::types::Types;
use crate::syntax::{File, Gate, Header, Item, ItemKind, NestedPackage, PackagePath, TopUse};
use crate::token::Sign;
use std::alloc::Global;
use wit_sources::Span;
use wit_values::Items;

/// What a file says, whose first byte has this position in a source map. The error is the first fault
/// of the text, in the words of wit-parser, or want of memory.
pub fn read_file(alloc: Global, text: &str, start: u32) -> Result<File, ReadFault> {
    let read = read_lexemes(alloc, text, start)?;
    let mut cursor = Cursor {
        alloc,
        source: text,
        rest: read.list.as_slice(),
        end: read.end,
    };
    let mut file = File {
        header: None,
        packages: Items::new(alloc),
        items: Items::new(alloc),
        types: Items::new(alloc),
    };
    let mut types = Types {
        nodes: Items::new(alloc),
    };
    read_header(&mut cursor, &mut types, &mut file)?;
    'items: while !cursor.is_at_end() {
        read_item(&mut cursor, &mut types, &mut file)?;
    }
    file.types = types.nodes;
    Ok(file)
}

/// Takes the header of a file, or the package in braces with which it begins.
fn read_header(cursor: &mut Cursor<'_>, types: &mut Types, file: &mut File) -> Result<(), ReadFault>
    ensures { OnOk result (length cursor.new.rest.now ≤ length cursor.old.rest.now) }
{
    let docs = cursor.comments();
    if !cursor.takes_word(Keyword::Package) {
        return Ok(());
    }
    let name = cursor.package_path()?;
    if cursor.takes(Sign::Semicolon) {
        file.header = Some(Header { docs, name });
        return Ok(());
    }
    let package = read_package(cursor, types, docs, name)?;
    file.packages.push(package)?;
    Ok(())
}

/// Takes an item of a file, or a package in braces.
fn read_item(cursor: &mut Cursor<'_>, types: &mut Types, file: &mut File) -> Result<(), ReadFault>
    ensures { OnOk result (length cursor.new.rest.now < length cursor.old.rest.now) }
{
    let gate = cursor.gate()?;
    if cursor.keyword() == Some(Keyword::Package) {
        let name = package_name(cursor, &gate)?;
        let package = read_package(cursor, types, gate.docs, name)?;
        file.packages.push(package)?;
    } else {
        let kind = item_kind(cursor, types)?;
        file.items.push(Item { gate, kind })?;
    }
    Ok(())
}

/// Takes the word `package`, before which no attributes may stand, and the name behind it.
fn package_name(cursor: &mut Cursor<'_>, gate: &Gate) -> Result<PackagePath, ReadFault>
    ensures { OnOk result (length cursor.new.rest.now < length cursor.old.rest.now) }
{
    let span = cursor.span();
    cursor.advance();
    if !gate.attributes.is_empty() {
        return Err(ReadFault::At(span, ReadFaultKind::AttributesOnPackage));
    }
    cursor.package_path()
}

/// Takes the braces of a package and what stands in them, with the packages in its braces in any
/// depth.
fn read_package(
    cursor: &mut Cursor<'_>,
    types: &mut Types,
    docs: Option<Comments>,
    name: PackagePath,
) -> Result<NestedPackage, ReadFault>
    ensures { OnOk result (length cursor.new.rest.now < length cursor.old.rest.now) }
{
    cursor.expect_sign(Sign::LeftBrace)?;
    let mut package = NestedPackage {
        docs,
        name,
        inner: Items::new(cursor.alloc),
        items: Items::new(cursor.alloc),
    };
    let mut open = Items::new(cursor.alloc);
    'items: loop {
        if !cursor.takes(Sign::RightBrace) {
            read_inner_item(cursor, types, &mut package, &mut open)?;
        } else if open.pop().is_none() {
            return Ok(package);
        }
    }
}

/// Takes an item in the braces of a package, or the beginning of a package in them, where the
/// packages at these places are open in it already.
fn read_inner_item(
    cursor: &mut Cursor<'_>,
    types: &mut Types,
    package: &mut NestedPackage,
    open: &mut Items<Span>,
) -> Result<(), ReadFault>
    ensures { OnOk result (length cursor.new.rest.now < length cursor.old.rest.now) }
{
    let gate = cursor.gate()?;
    if cursor.keyword() == Some(Keyword::Package) {
        let span = cursor.span();
        let name = package_name(cursor, &gate)?;
        cursor.expect_sign(Sign::LeftBrace)?;
        package.inner.push(name)?;
        open.push(span)?;
        return Ok(());
    }
    let kind = item_kind(cursor, types)?;
    if open.is_empty() {
        package.items.push(Item { gate, kind })?;
    }
    Ok(())
}

/// Takes an item, behind its attributes.
fn item_kind(cursor: &mut Cursor<'_>, types: &mut Types) -> Result<ItemKind, ReadFault>
    ensures { OnOk result (length cursor.new.rest.now < length cursor.old.rest.now) }
{
    match cursor.keyword() {
        Some(Keyword::Interface) => {
            cursor.advance();
            let name = cursor.name()?;
            Ok(ItemKind::Interface(name, read_interface(cursor, types)?))
        }
        Some(Keyword::World) => {
            cursor.advance();
            let name = cursor.name()?;
            Ok(ItemKind::World(name, read_world(cursor, types)?))
        }
        Some(Keyword::Use) => Ok(ItemKind::Use(top_use(cursor)?)),
        _ => Err(cursor.expected(Wanted::Item)),
    }
}

/// Takes a `use` of a file.
fn top_use(cursor: &mut Cursor<'_>) -> Result<TopUse, ReadFault>
    ensures { OnOk result (length cursor.new.rest.now < length cursor.old.rest.now) }
{
    let span = cursor.span();
    cursor.advance();
    let path = cursor.path()?;
    let name = cursor.name_behind_as(path.name)?;
    cursor.expect_sign(Sign::Semicolon)?;
    Ok(TopUse { path, name, span })
}
