//! Functions, and what has a name and a type.
ghost use Rattle.std.specs.Prelude.{◌<◌, ◌≤◌, length, OnOk};

use crate::keyword::Keyword;
use crate::read_fault::{ReadFault, Wanted};
use crate::reading::cursor::Cursor;
use crate::reading::types::{Types, read_type};
use crate::syntax::{Member, Piece, ResourceFunction, ResourceFunctionName, Signature, TypeRange};
use crate::token::Sign;
use wit_values::Items;

/// What stands behind the name of a member.
#[derive(Clone, Copy)]
pub(crate) enum MemberForm {
    /// `: TYPE`
    Typed,
    /// `(TYPE)`, or nothing.
    Case,
    /// Nothing.
    Bare,
}

/// Takes members with commas between, up to the sign behind them.
pub(crate) fn read_members(
    cursor: &mut Cursor<'_>,
    types: &mut Types,
    form: MemberForm,
    end: Sign,
) -> Result<Items<Member>, ReadFault>
    ensures { OnOk result (length cursor.new.rest.now < length cursor.old.rest.now) }
{
    let mut members = Items::new(cursor.alloc);
    while !cursor.takes(end) {
        let member = read_member(cursor, types, form)?;
        members.push(member)?;
        if !cursor.goes_on(end)? {
            break;
        }
    }
    Ok(members)
}

/// Takes a member.
fn read_member(
    cursor: &mut Cursor<'_>,
    types: &mut Types,
    form: MemberForm,
) -> Result<Member, ReadFault>
    ensures { OnOk result (length cursor.new.rest.now < length cursor.old.rest.now) }
{
    let docs = cursor.comments();
    let name = cursor.name()?;
    let ty = member_type(cursor, types, form)?;
    Ok(Member { docs, name, ty })
}

/// Takes the type of a member, where it has one.
fn member_type(
    cursor: &mut Cursor<'_>,
    types: &mut Types,
    form: MemberForm,
) -> Result<Option<TypeRange>, ReadFault>
    ensures { OnOk result (length cursor.new.rest.now ≤ length cursor.old.rest.now) }
{
    match form {
        MemberForm::Bare => Ok(None),
        MemberForm::Typed => {
            cursor.expect_sign(Sign::Colon)?;
            Ok(Some(read_type(cursor, types)?))
        }
        MemberForm::Case => {
            if !cursor.takes(Sign::LeftParen) {
                return Ok(None);
            }
            let payload = read_type(cursor, types)?;
            cursor.expect_sign(Sign::RightParen)?;
            Ok(Some(payload))
        }
    }
}

/// Takes a function behind its name: `async func` or `func`, and its signature.
pub(crate) fn read_function(
    cursor: &mut Cursor<'_>,
    types: &mut Types,
) -> Result<Signature, ReadFault>
    ensures { OnOk result (length cursor.new.rest.now < length cursor.old.rest.now) }
{
    let is_async = cursor.takes_word(Keyword::Async);
    cursor.expect_word(Keyword::Func)?;
    read_signature(cursor, types, is_async)
}

/// Takes the parameters and the result of a function, up to the semicolon behind them.
fn read_signature(
    cursor: &mut Cursor<'_>,
    types: &mut Types,
    is_async: bool,
) -> Result<Signature, ReadFault>
    ensures { OnOk result (length cursor.new.rest.now < length cursor.old.rest.now) }
{
    cursor.expect_sign(Sign::LeftParen)?;
    let parameters = read_members(cursor, types, MemberForm::Typed, Sign::RightParen)?;
    let result = if cursor.takes(Sign::Arrow) {
        Some(read_type(cursor, types)?)
    } else {
        None
    };
    cursor.expect_sign(Sign::Semicolon)?;
    Ok(Signature {
        is_async,
        parameters,
        result,
    })
}

/// Takes what stands behind the name of a resource: its functions, or a semicolon.
pub(crate) fn read_resource(
    cursor: &mut Cursor<'_>,
    types: &mut Types,
) -> Result<Items<ResourceFunction>, ReadFault>
    ensures { OnOk result (length cursor.new.rest.now < length cursor.old.rest.now) }
{
    let mut functions = Items::new(cursor.alloc);
    if !cursor.takes(Sign::LeftBrace) {
        cursor.expect_sign(Sign::Semicolon)?;
        return Ok(functions);
    }
    'functions: while !cursor.takes(Sign::RightBrace) {
        let function = read_resource_function(cursor, types)?;
        functions.push(function)?;
    }
    Ok(functions)
}

/// Takes a function of a resource.
fn read_resource_function(
    cursor: &mut Cursor<'_>,
    types: &mut Types,
) -> Result<ResourceFunction, ReadFault>
    ensures { OnOk result (length cursor.new.rest.now < length cursor.old.rest.now) }
{
    let gate = cursor.gate()?;
    let span = cursor.span();
    if cursor.takes_word(Keyword::Constructor) {
        let signature = read_signature(cursor, types, false)?;
        return Ok(ResourceFunction {
            gate,
            name: ResourceFunctionName::Constructor(span),
            signature,
        });
    }
    let name = cursor.name_or(Wanted::ResourceFunction)?;
    cursor.expect_sign(Sign::Colon)?;
    let kind = static_or_method(cursor, name);
    let signature = read_function(cursor, types)?;
    Ok(ResourceFunction {
        gate,
        name: kind,
        signature,
    })
}

/// Takes the word `static` before a function of this name, where it stands here.
fn static_or_method(cursor: &mut Cursor<'_>, name: Piece) -> ResourceFunctionName
    ensures { length cursor.new.rest.now ≤ length cursor.old.rest.now }
{
    if cursor.takes_word(Keyword::Static) {
        return ResourceFunctionName::Static(name);
    }
    ResourceFunctionName::Method(name)
}
