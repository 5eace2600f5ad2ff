//! The statements of interfaces and worlds.
ghost use Rattle.std.specs.Prelude.{◌<◌, length, OnOk};

use crate::keyword::Keyword;
use crate::read_fault::{ReadFault, Wanted};
use crate::reading::cursor::Cursor;
use crate::reading::function::{MemberForm, read_function, read_members, read_resource};
use crate::reading::types::{Types, read_type};
use crate::syntax::{
    Definition, DefinitionKind, Entry, Include, InterfaceStatement, InterfaceStatementKind, Member,
    Renaming, UseNames, WorldStatement, WorldStatementKind,
};
use crate::token::{Sign, TokenKind};
use wit_values::Items;

/// Takes the braces of an interface and what stands in them.
pub(crate) fn read_interface(
    cursor: &mut Cursor<'_>,
    types: &mut Types,
) -> Result<Items<InterfaceStatement>, ReadFault>
    ensures { OnOk result (length cursor.new.rest.now < length cursor.old.rest.now) }
{
    cursor.expect_sign(Sign::LeftBrace)?;
    let mut statements = Items::new(cursor.alloc);
    'statements: while !cursor.takes(Sign::RightBrace) {
        let gate = cursor.gate()?;
        let kind = interface_statement(cursor, types)?;
        statements.push(InterfaceStatement { gate, kind })?;
    }
    Ok(statements)
}

/// Takes the braces of a world and what stands in them.
pub(crate) fn read_world(
    cursor: &mut Cursor<'_>,
    types: &mut Types,
) -> Result<Items<WorldStatement>, ReadFault>
    ensures { OnOk result (length cursor.new.rest.now < length cursor.old.rest.now) }
{
    cursor.expect_sign(Sign::LeftBrace)?;
    let mut statements = Items::new(cursor.alloc);
    'statements: while !cursor.takes(Sign::RightBrace) {
        let gate = cursor.gate()?;
        let kind = world_statement(cursor, types)?;
        statements.push(WorldStatement { gate, kind })?;
    }
    Ok(statements)
}

/// Takes a statement of an interface, behind its attributes.
fn interface_statement(
    cursor: &mut Cursor<'_>,
    types: &mut Types,
) -> Result<InterfaceStatementKind, ReadFault>
    ensures { OnOk result (length cursor.new.rest.now < length cursor.old.rest.now) }
{
    match cursor.keyword() {
        Some(Keyword::Use) => Ok(InterfaceStatementKind::Use(read_use(cursor)?)),
        Some(word) if defines(word) => {
            let definition = read_definition(cursor, types, word)?;
            Ok(InterfaceStatementKind::Define(definition))
        }
        _ => {
            let name = cursor.name_or(Wanted::InterfaceStatement)?;
            cursor.expect_sign(Sign::Colon)?;
            let signature = read_function(cursor, types)?;
            Ok(InterfaceStatementKind::Function(name, signature))
        }
    }
}

/// Takes a statement of a world, behind its attributes.
fn world_statement(
    cursor: &mut Cursor<'_>,
    types: &mut Types,
) -> Result<WorldStatementKind, ReadFault>
    ensures { OnOk result (length cursor.new.rest.now < length cursor.old.rest.now) }
{
    match cursor.keyword() {
        Some(Keyword::Use) => Ok(WorldStatementKind::Use(read_use(cursor)?)),
        Some(Keyword::Include) => Ok(WorldStatementKind::Include(read_include(cursor)?)),
        Some(Keyword::Import) => {
            cursor.advance();
            Ok(WorldStatementKind::Import(read_entry(cursor, types)?))
        }
        Some(Keyword::Export) => {
            cursor.advance();
            Ok(WorldStatementKind::Export(read_entry(cursor, types)?))
        }
        Some(word) if defines(word) => {
            let definition = read_definition(cursor, types, word)?;
            Ok(WorldStatementKind::Define(definition))
        }
        _ => Err(cursor.expected(Wanted::WorldStatement)),
    }
}

/// Whether a keyword begins the definition of a type.
fn defines(word: Keyword) -> bool {
    matches!(
        word,
        Keyword::Type_
            | Keyword::Record
            | Keyword::Variant
            | Keyword::Enum
            | Keyword::Flags
            | Keyword::Resource
    )
}

/// Takes a `use` of an interface or a world.
fn read_use(cursor: &mut Cursor<'_>) -> Result<UseNames, ReadFault>
    ensures { OnOk result (length cursor.new.rest.now < length cursor.old.rest.now) }
{
    cursor.advance();
    let path = cursor.path()?;
    cursor.expect_sign(Sign::Period)?;
    cursor.expect_sign(Sign::LeftBrace)?;
    let names = cursor.used_names()?;
    cursor.expect_sign(Sign::Semicolon)?;
    Ok(UseNames { path, names })
}

/// Takes an `include`.
fn read_include(cursor: &mut Cursor<'_>) -> Result<Include, ReadFault>
    ensures { OnOk result (length cursor.new.rest.now < length cursor.old.rest.now) }
{
    cursor.advance();
    let path = cursor.path()?;
    let names = names_behind_with(cursor)?;
    Ok(Include { path, names })
}

/// Takes the names that an `include` takes over, or the semicolon where there is no `with`.
fn names_behind_with(cursor: &mut Cursor<'_>) -> Result<Items<Renaming>, ReadFault>
    ensures { OnOk result (length cursor.new.rest.now < length cursor.old.rest.now) }
{
    if cursor.takes_word(Keyword::With) {
        cursor.expect_sign(Sign::LeftBrace)?;
        return cursor.included_names();
    }
    cursor.expect_sign(Sign::Semicolon)?;
    Ok(Items::new(cursor.alloc))
}

/// Takes the definition of a type that begins with this word.
fn read_definition(
    cursor: &mut Cursor<'_>,
    types: &mut Types,
    word: Keyword,
) -> Result<Definition, ReadFault>
    ensures { OnOk result (length cursor.new.rest.now < length cursor.old.rest.now) }
{
    cursor.advance();
    let name = cursor.name()?;
    let kind = read_defined(cursor, types, word)?;
    Ok(Definition { name, kind })
}

/// Takes what stands behind the name of a type that is defined by this word.
fn read_defined(
    cursor: &mut Cursor<'_>,
    types: &mut Types,
    word: Keyword,
) -> Result<DefinitionKind, ReadFault>
    ensures { OnOk result (length cursor.new.rest.now < length cursor.old.rest.now) }
{
    match word {
        Keyword::Record => {
            let fields = read_braced(cursor, types, MemberForm::Typed)?;
            Ok(DefinitionKind::Record(fields))
        }
        Keyword::Variant => {
            let cases = read_braced(cursor, types, MemberForm::Case)?;
            Ok(DefinitionKind::Variant(cases))
        }
        Keyword::Enum => {
            let cases = read_braced(cursor, types, MemberForm::Bare)?;
            Ok(DefinitionKind::Enum(cases))
        }
        Keyword::Flags => {
            let flags = read_braced(cursor, types, MemberForm::Bare)?;
            Ok(DefinitionKind::Flags(flags))
        }
        Keyword::Resource => Ok(DefinitionKind::Resource(read_resource(cursor, types)?)),
        _ => {
            cursor.expect_sign(Sign::Equals)?;
            let ty = read_type(cursor, types)?;
            cursor.expect_sign(Sign::Semicolon)?;
            Ok(DefinitionKind::Alias(ty))
        }
    }
}

/// Takes braces with members in them.
fn read_braced(
    cursor: &mut Cursor<'_>,
    types: &mut Types,
    form: MemberForm,
) -> Result<Items<Member>, ReadFault>
    ensures { OnOk result (length cursor.new.rest.now < length cursor.old.rest.now) }
{
    cursor.expect_sign(Sign::LeftBrace)?;
    read_members(cursor, types, form, Sign::RightBrace)
}

/// Takes what stands behind `import` or `export`: a path, or a label and what is under it.
fn read_entry(cursor: &mut Cursor<'_>, types: &mut Types) -> Result<Entry, ReadFault>
    ensures { OnOk result (length cursor.new.rest.now < length cursor.old.rest.now) }
{
    if !begins_label(cursor)? {
        let path = cursor.path()?;
        cursor.expect_sign(Sign::Semicolon)?;
        return Ok(Entry::Path(path));
    }
    let label = cursor.name()?;
    cursor.expect_sign(Sign::Colon)?;
    match cursor.keyword() {
        Some(Keyword::Func | Keyword::Async) => {
            let signature = read_function(cursor, types)?;
            Ok(Entry::Function(label, signature))
        }
        Some(Keyword::Interface) => {
            cursor.advance();
            let statements = read_interface(cursor, types)?;
            Ok(Entry::Interface(label, statements))
        }
        _ => {
            let path = cursor.path()?;
            cursor.expect_sign(Sign::Semicolon)?;
            Ok(Entry::Labelled(label, path))
        }
    }
}

/// Whether a label stands here: `name:` that doesn't go on as `name:name/`.
fn begins_label(cursor: &Cursor<'_>) -> Result<bool, ReadFault> {
    if !is_name(cursor.ahead(0)?) || cursor.ahead(1)? != Some(TokenKind::Sign(Sign::Colon)) {
        return Ok(false);
    }
    Ok(!is_name(cursor.ahead(2)?) || cursor.ahead(3)? != Some(TokenKind::Sign(Sign::Slash)))
}

/// Whether a token is a name.
fn is_name(kind: Option<TokenKind>) -> bool {
    matches!(kind, Some(TokenKind::Id | TokenKind::ExplicitId))
}
