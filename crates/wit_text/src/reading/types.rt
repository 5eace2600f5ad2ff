//! Types, which may nest in any depth: the forms that are open stand in a list.
ghost use Rattle.std.specs.Prelude.{◌<◌, ◌≤◌, length, OnOk};

use crate::keyword::Keyword;
use crate::read_fault::{ReadFault, ReadFaultKind, Wanted};
use crate::reading::cursor::Cursor;
use crate::syntax::{TypeNode, TypeNodeKind, TypeRange};
use crate::token::{Sign, TokenKind};
use std::alloc::AllocError;
use wit_sources::Span;
use wit_values::Items;

/// The types of a file that were read, each behind its parts.
#[derive(Drop)]
pub(crate) struct Types {
    pub nodes: Items<TypeNode>,
}

impl Types {
    /// Adds a type, and answers its index. The only error is want of memory.
    fn add(&mut self, kind: TypeNodeKind, span: Span) -> Result<usize, AllocError> {
        let index = self.nodes.len();
        self.nodes.push(TypeNode { kind, span })?;
        Ok(index)
    }
}

/// A form of a type that isn't read to its end: which part comes next, and what was read.
#[derive(Drop)]
enum Form {
    List,
    Option,
    Future,
    Stream,
    Tuple(Items<usize>),
    ResultOk,
    ResultErr { ok: Option<usize> },
    MapKey,
    MapValue { key: usize },
}

/// A form that is open, and the place of its word.
#[derive(Drop)]
struct OpenForm {
    form: Form,
    span: Span,
}

/// Takes a type, which has to stand here.
pub(crate) fn read_type(cursor: &mut Cursor<'_>, types: &mut Types) -> Result<TypeRange, ReadFault>
    ensures { OnOk result (length cursor.new.rest.now < length cursor.old.rest.now) }
{
    let first = types.nodes.len();
    let mut open = Items::new(cursor.alloc);
    let mut read = begin_type(cursor, types, &mut open)?;
    loop {
        read = match read {
            None => begin_type(cursor, types, &mut open)?,
            Some(index) => match open.pop() {
                None => return Ok(TypeRange { first, index }),
                Some(form) => go_on(cursor, types, &mut open, form, index)?,
            },
        };
    }
}

/// Takes the beginning of a type. Answers its index where that is all of it; else its form is open
/// then.
fn begin_type(
    cursor: &mut Cursor<'_>,
    types: &mut Types,
    open: &mut Items<OpenForm>,
) -> Result<Option<usize>, ReadFault>
    ensures { OnOk result (length cursor.new.rest.now < length cursor.old.rest.now) }
{
    match cursor.keyword() {
        Some(keyword) if is_primitive(keyword) => {
            let span = cursor.expect(TokenKind::Keyword(keyword))?.span;
            Ok(Some(types.add(TypeNodeKind::Primitive(keyword), span)?))
        }
        Some(keyword) if is_form(keyword) => begin_form(cursor, types, open, keyword),
        Some(keyword) if keyword == Keyword::Own || keyword == Keyword::Borrow => {
            handle(cursor, types, keyword)
        }
        _ => {
            let name = cursor.name_or(Wanted::Type_)?;
            Ok(Some(types.add(TypeNodeKind::Named(name), name.span)?))
        }
    }
}

/// Takes `own<NAME>` or `borrow<NAME>`. Answers its index.
fn handle(
    cursor: &mut Cursor<'_>,
    types: &mut Types,
    keyword: Keyword,
) -> Result<Option<usize>, ReadFault>
    ensures { OnOk result (length cursor.new.rest.now < length cursor.old.rest.now) }
{
    let span = cursor.expect(TokenKind::Keyword(keyword))?.span;
    cursor.expect_sign(Sign::LessThan)?;
    let name = cursor.name()?;
    cursor.expect_sign(Sign::GreaterThan)?;
    let kind = match keyword {
        Keyword::Own => TypeNodeKind::Own(name),
        _ => TypeNodeKind::Borrow(name),
    };
    Ok(Some(types.add(kind, span)?))
}

/// Takes the word of a form, and what stands before its first part. Answers its index where it has
/// no part; else it is open then.
fn begin_form(
    cursor: &mut Cursor<'_>,
    types: &mut Types,
    open: &mut Items<OpenForm>,
    keyword: Keyword,
) -> Result<Option<usize>, ReadFault>
    ensures { OnOk result (length cursor.new.rest.now < length cursor.old.rest.now) }
{
    let span = cursor.expect(TokenKind::Keyword(keyword))?.span;
    if !cursor.stands(Sign::LessThan) {
        if let Some(kind) = alone(keyword) {
            return Ok(Some(types.add(kind, span)?));
        }
    }
    cursor.expect_sign(Sign::LessThan)?;
    if keyword == Keyword::Tuple && cursor.takes(Sign::GreaterThan) {
        let parts = Items::new(cursor.alloc);
        return Ok(Some(types.add(TypeNodeKind::Tuple(parts), span)?));
    }
    let form = form_of(cursor, keyword)?;
    open.push(OpenForm { form, span })?;
    Ok(None)
}

/// What a form is that stands without parts, None where it can't.
fn alone(keyword: Keyword) -> Option<TypeNodeKind> {
    match keyword {
        Keyword::Result => Some(TypeNodeKind::Result_ {
            ok: None,
            err: None,
        }),
        Keyword::Future => Some(TypeNodeKind::Future(None)),
        Keyword::Stream => Some(TypeNodeKind::Stream(None)),
        _ => None,
    }
}

/// The form of a word before its first part. Takes the `_` of a result without one.
fn form_of(cursor: &mut Cursor<'_>, keyword: Keyword) -> Result<Form, ReadFault>
    ensures { OnOk result (length cursor.new.rest.now ≤ length cursor.old.rest.now) }
{
    match keyword {
        Keyword::Option => Ok(Form::Option),
        Keyword::Future => Ok(Form::Future),
        Keyword::Stream => Ok(Form::Stream),
        Keyword::Tuple => Ok(Form::Tuple(Items::new(cursor.alloc))),
        Keyword::Map => Ok(Form::MapKey),
        Keyword::Result => {
            if !cursor.takes_word(Keyword::Underscore) {
                return Ok(Form::ResultOk);
            }
            cursor.expect_sign(Sign::Comma)?;
            Ok(Form::ResultErr { ok: None })
        }
        _ => Ok(Form::List),
    }
}

/// Takes what stands behind a part of an open form. Answers its index where it ends there; else it
/// is open again.
fn go_on(
    cursor: &mut Cursor<'_>,
    types: &mut Types,
    open: &mut Items<OpenForm>,
    last: OpenForm,
    part: usize,
) -> Result<Option<usize>, ReadFault>
    ensures { OnOk result (length cursor.new.rest.now < length cursor.old.rest.now) }
{
    let OpenForm { form, span } = last;
    match behind_part(cursor, form, part)? {
        Behind::End(kind) => Ok(Some(types.add(kind, span)?)),
        Behind::Part(form) => {
            open.push(OpenForm { form, span })?;
            Ok(None)
        }
    }
}

/// What stands behind a part of a form: its end, or another part.
#[derive(Drop)]
enum Behind {
    End(TypeNodeKind),
    Part(Form),
}

/// Takes what stands behind a part of a form.
fn behind_part(cursor: &mut Cursor<'_>, form: Form, part: usize) -> Result<Behind, ReadFault>
    ensures { OnOk result (length cursor.new.rest.now < length cursor.old.rest.now) }
{
    match form {
        Form::List => behind_element(cursor, part),
        Form::Option => end(cursor, TypeNodeKind::Option(part)),
        Form::Future => end(cursor, TypeNodeKind::Future(Some(part))),
        Form::Stream => end(cursor, TypeNodeKind::Stream(Some(part))),
        Form::Tuple(parts) => behind_tuple_part(cursor, parts, part),
        Form::ResultOk => behind_ok(cursor, part),
        Form::ResultErr { ok } => {
            let err = Some(part);
            end(cursor, TypeNodeKind::Result_ { ok, err })
        }
        Form::MapKey => {
            cursor.expect_sign(Sign::Comma)?;
            Ok(Behind::Part(Form::MapValue { key: part }))
        }
        Form::MapValue { key } => end(cursor, TypeNodeKind::Map(key, part)),
    }
}

/// Takes the `>` with which a form ends.
fn end(cursor: &mut Cursor<'_>, kind: TypeNodeKind) -> Result<Behind, ReadFault>
    ensures { OnOk result (length cursor.new.rest.now < length cursor.old.rest.now) }
{
    cursor.expect_sign(Sign::GreaterThan)?;
    Ok(Behind::End(kind))
}

/// Takes what stands behind the element of a list: its end, or a length before that.
fn behind_element(cursor: &mut Cursor<'_>, element: usize) -> Result<Behind, ReadFault>
    ensures { OnOk result (length cursor.new.rest.now < length cursor.old.rest.now) }
{
    if !cursor.takes(Sign::Comma) {
        return end(cursor, TypeNodeKind::List(element));
    }
    let len = list_len(cursor)?;
    end(cursor, TypeNodeKind::FixedLengthList(element, len))
}

/// Takes what stands behind a part of a tuple.
fn behind_tuple_part(
    cursor: &mut Cursor<'_>,
    mut parts: Items<usize>,
    part: usize,
) -> Result<Behind, ReadFault>
    ensures { OnOk result (length cursor.new.rest.now < length cursor.old.rest.now) }
{
    parts.push(part)?;
    if !cursor.takes(Sign::Comma) {
        return end(cursor, TypeNodeKind::Tuple(parts));
    }
    if cursor.takes(Sign::GreaterThan) {
        return Ok(Behind::End(TypeNodeKind::Tuple(parts)));
    }
    Ok(Behind::Part(Form::Tuple(parts)))
}

/// Takes what stands behind the first part of a result.
fn behind_ok(cursor: &mut Cursor<'_>, part: usize) -> Result<Behind, ReadFault>
    ensures { OnOk result (length cursor.new.rest.now < length cursor.old.rest.now) }
{
    let ok = Some(part);
    if cursor.takes(Sign::Comma) {
        return Ok(Behind::Part(Form::ResultErr { ok }));
    }
    end(cursor, TypeNodeKind::Result_ { ok, err: None })
}

/// Takes the length of a list, which has to be of 32 bits and not 0.
fn list_len(cursor: &mut Cursor<'_>) -> Result<u32, ReadFault>
    ensures { OnOk result (length cursor.new.rest.now < length cursor.old.rest.now) }
{
    let Some(token) = cursor.take(TokenKind::Integer) else {
        return Err(cursor.expected(Wanted::ListLength));
    };
    match token.piece().text(cursor.source).parse::<u32>() {
        Ok(0) => Err(ReadFault::At(token.span, ReadFaultKind::EmptyList)),
        Ok(len) => Ok(len),
        Err(_) => Err(ReadFault::At(token.span, ReadFaultKind::ListLength)),
    }
}

/// Whether a keyword is the word of a form that has types as its parts.
fn is_form(keyword: Keyword) -> bool {
    matches!(
        keyword,
        Keyword::List
            | Keyword::Option
            | Keyword::Result
            | Keyword::Tuple
            | Keyword::Future
            | Keyword::Stream
            | Keyword::Map
    )
}

/// Whether a keyword is a primitive.
fn is_primitive(keyword: Keyword) -> bool {
    matches!(
        keyword,
        Keyword::Bool
            | Keyword::U8
            | Keyword::U16
            | Keyword::U32
            | Keyword::U64
            | Keyword::S8
            | Keyword::S16
            | Keyword::S32
            | Keyword::S64
            | Keyword::F32
            | Keyword::F64
            | Keyword::Char
            | Keyword::String
            | Keyword::ErrorContext
    )
}
