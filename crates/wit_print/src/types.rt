//! Types where values are of them.
ghost use Rattle.std.specs.Prelude.{◌≡◌, ◌++◌, ◌+◌, ◌<◌, ◌∷◌, [], OnOk, option_copied, slice_get, string_bytes};
ghost use Rattle.wit_print.specs.Types.{defined_wit, primitive_wit, type_wit, type_within};
ghost use Rattle.wit_print.specs.steps.Pieces.{defined_pieces, fixed_list_pieces, form_pieces, handle_pieces, kind_pieces, optional_pieces, others_pieces, result_pieces, sign_text, stack_steps, stack_text, tuple_pieces, two_pieces, type_steps};

use crate::names::Name;
use std::alloc::{AllocError, Global};
use std::fmt::Write;
use wit_data::{Handle, Items, Type_, TypeDef, TypeDefKind, TypeId};

/// A word or a sign of a type.
#[derive(Clone, Copy)]
enum Sign {
    Close,
    Comma,
    Tuple,
    Option,
    Result,
    ErrorResult,
    BareResult,
    List,
    Map,
    Future,
    BareFuture,
    Stream,
    BareStream,
    Own,
    Borrow,
}

impl Sign {
    fn text(self) -> &'static str
        ensures { result.now ≡ sign_text self }
    {
        match self {
            Sign::Close => ">",
            Sign::Comma => ", ",
            Sign::Tuple => "tuple<",
            Sign::Option => "option<",
            Sign::Result => "result<",
            Sign::ErrorResult => "result<_, ",
            Sign::BareResult => "result",
            Sign::List => "list<",
            Sign::Map => "map<",
            Sign::Future => "future<",
            Sign::BareFuture => "future",
            Sign::Stream => "stream<",
            Sign::BareStream => "stream",
            Sign::Own => "own<",
            Sign::Borrow => "borrow<",
        }
    }
}

/// What is still to be written of a type.
#[derive(Clone, Copy)]
enum Piece {
    Sign(Sign),
    /// The length of a list.
    Length(u32),
    /// A type, in which at most so many types without a name are opened, one in another.
    Part(Type_, usize),
}

/// Writes a type. It may be nested in any depth.
pub fn write_type(
    alloc: Global,
    types: &[TypeDef],
    ty: Type_,
    text: &mut String,
) -> Result<(), AllocError>
    ensures { OnOk result
        (string_bytes text.new ≡ string_bytes text.old ++ type_wit types.now ty) }
{
    let mut stack = Items::new(alloc);
    stack.push(Piece::Part(ty, types.len()))?;
    write_pieces(types, stack, text)
}

/// Writes what the name of a definition stands for.
pub fn write_defined(
    alloc: Global,
    types: &[TypeDef],
    kind: &TypeDefKind,
    text: &mut String,
) -> Result<(), AllocError>
    ensures { OnOk result
        (string_bytes text.new ≡ string_bytes text.old ++ defined_wit types.now kind.now) }
{
    let mut stack = Items::new(alloc);
    push_defined(kind, types.len(), &mut stack)?;
    write_pieces(types, stack, text)
}

/// Writes the pieces of a stack, the last one first.
fn write_pieces(
    types: &[TypeDef],
    mut stack: Items<Piece>,
    text: &mut String,
) -> Result<(), AllocError>
    ensures { OnOk result
        (string_bytes text.new ≡ string_bytes text.old ++ stack_text types.now stack) }
{
    while let Some(piece) = stack.pop() {
        write_piece(types, piece, &mut stack, text)?;
    }
    Ok(())
}

/// Writes a piece, or puts the pieces of a type without a name on the stack.
fn write_piece(
    types: &[TypeDef],
    piece: Piece,
    stack: &mut Items<Piece>,
    text: &mut String,
) -> Result<(), AllocError>
    ensures text { OnOk result (string_bytes text.new ++ stack_text types.now stack.new
        ≡ string_bytes text.old ++ stack_text types.now (stack.old ++ piece ∷ [])) }
    ensures steps { OnOk result (stack_steps types.now stack.new
        < stack_steps types.now (stack.old ++ piece ∷ [])) }
{
    match piece {
        Piece::Sign(sign) => text.push_str(sign.text()),
        Piece::Length(len) => write!(text, "{len}"),
        Piece::Part(ty, depth) => write_part(types, ty, depth, stack, text),
    }
}

/// Writes a type, or puts its pieces on the stack if it has no name.
fn write_part(
    types: &[TypeDef],
    ty: Type_,
    depth: usize,
    stack: &mut Items<Piece>,
    text: &mut String,
) -> Result<(), AllocError>
    ensures text { OnOk result (string_bytes text.new ++ stack_text types.now stack.new
        ≡ string_bytes text.old ++ (type_within types.now depth ty
        ++ stack_text types.now stack.old)) }
    ensures steps { OnOk result (stack_steps types.now stack.new
        < type_steps types.now depth ty + stack_steps types.now stack.old) }
{
    let Type_::Id(id) = ty else {
        return text.push_str(primitive(ty));
    };
    let Some(def) = def_at(types, id) else {
        return Ok(());
    };
    let Some(name) = &def.name else {
        if depth == 0 {
            return Ok(());
        }
        return push_kind(&def.kind, depth - 1, stack);
    };
    let name = Name(name.as_str());
    write!(text, "{name}")
}

/// The type of an id, if it is there.
fn def_at(types: &[TypeDef], id: TypeId) -> Option<&TypeDef>
    ensures { option_copied result ≡ slice_get types.now id }
{
    types.get(id.index())
}

/// The word of a primitive, no text for a type of the list.
fn primitive(ty: Type_) -> &'static str
    ensures { result.now ≡ primitive_wit ty }
{
    match ty {
        Type_::Bool => "bool",
        Type_::U8 => "u8",
        Type_::U16 => "u16",
        Type_::U32 => "u32",
        Type_::U64 => "u64",
        Type_::S8 => "s8",
        Type_::S16 => "s16",
        Type_::S32 => "s32",
        Type_::S64 => "s64",
        Type_::F32 => "f32",
        Type_::F64 => "f64",
        Type_::Char => "char",
        Type_::String => "string",
        Type_::ErrorContext => "error-context",
        Type_::Id(_) => "",
    }
}

/// Puts the pieces of what the name of a definition stands for on a stack.
fn push_defined(
    kind: &TypeDefKind,
    depth: usize,
    stack: &mut Items<Piece>,
) -> Result<(), AllocError>
    ensures { OnOk result (stack.new ≡ stack.old ++ defined_pieces kind.now depth) }
{
    match kind {
        TypeDefKind::Handle(Handle::Own(id)) => push_form(Sign::Own, Type_::Id(*id), depth, stack),
        _ => push_kind(kind, depth, stack),
    }
}

/// Puts the pieces of a kind on a stack.
#[tactic(auto, unfolding(crate::specs::steps::Pieces::kind_pieces))]
fn push_kind(kind: &TypeDefKind, depth: usize, stack: &mut Items<Piece>) -> Result<(), AllocError>
    ensures { OnOk result (stack.new ≡ stack.old ++ kind_pieces kind.now depth) }
{
    match kind {
        TypeDefKind::Handle(handle) => push_handle(*handle, depth, stack),
        TypeDefKind::Tuple { types } => push_tuple(types.as_slice(), depth, stack),
        TypeDefKind::Option(ty) => push_form(Sign::Option, *ty, depth, stack),
        TypeDefKind::Result_ { ok, err } => push_result(*ok, *err, depth, stack),
        TypeDefKind::List(ty) => push_form(Sign::List, *ty, depth, stack),
        TypeDefKind::Map(key, value) => push_two(Sign::Map, *key, *value, depth, stack),
        TypeDefKind::FixedLengthList(ty, len) => push_fixed_list(*ty, *len, depth, stack),
        TypeDefKind::Future(ty) => {
            push_optional(Sign::BareFuture, Sign::Future, *ty, depth, stack)
        }
        TypeDefKind::Stream(ty) => {
            push_optional(Sign::BareStream, Sign::Stream, *ty, depth, stack)
        }
        TypeDefKind::Type_(ty) => stack.push(Piece::Part(*ty, depth)),
        _ => Ok(()),
    }
}

fn push_handle(handle: Handle, depth: usize, stack: &mut Items<Piece>) -> Result<(), AllocError>
    ensures { OnOk result (stack.new ≡ stack.old ++ handle_pieces handle depth) }
{
    match handle {
        Handle::Own(id) => stack.push(Piece::Part(Type_::Id(id), depth)),
        Handle::Borrow(id) => push_form(Sign::Borrow, Type_::Id(id), depth, stack),
    }
}

/// The pieces of a form with one type.
fn push_form(
    head: Sign,
    ty: Type_,
    depth: usize,
    stack: &mut Items<Piece>,
) -> Result<(), AllocError>
    ensures { OnOk result (stack.new ≡ stack.old ++ form_pieces head ty depth) }
{
    stack.push(Piece::Sign(Sign::Close))?;
    stack.push(Piece::Part(ty, depth))?;
    stack.push(Piece::Sign(head))
}

/// The pieces of a form with two types.
fn push_two(
    head: Sign,
    first: Type_,
    second: Type_,
    depth: usize,
    stack: &mut Items<Piece>,
) -> Result<(), AllocError>
    ensures { OnOk result (stack.new ≡ stack.old ++ two_pieces head first second depth) }
{
    stack.push(Piece::Sign(Sign::Close))?;
    stack.push(Piece::Part(second, depth))?;
    stack.push(Piece::Sign(Sign::Comma))?;
    stack.push(Piece::Part(first, depth))?;
    stack.push(Piece::Sign(head))
}

/// The pieces of a form that may stand without its type.
fn push_optional(
    word: Sign,
    head: Sign,
    ty: Option<Type_>,
    depth: usize,
    stack: &mut Items<Piece>,
) -> Result<(), AllocError>
    ensures { OnOk result (stack.new ≡ stack.old ++ optional_pieces word head ty depth) }
{
    match ty {
        Some(ty) => push_form(head, ty, depth, stack),
        None => stack.push(Piece::Sign(word)),
    }
}

fn push_result(
    ok: Option<Type_>,
    err: Option<Type_>,
    depth: usize,
    stack: &mut Items<Piece>,
) -> Result<(), AllocError>
    ensures { OnOk result (stack.new ≡ stack.old ++ result_pieces ok err depth) }
{
    let Some(ok) = ok else {
        return push_optional(Sign::BareResult, Sign::ErrorResult, err, depth, stack);
    };
    match err {
        Some(err) => push_two(Sign::Result, ok, err, depth, stack),
        None => push_form(Sign::Result, ok, depth, stack),
    }
}

fn push_fixed_list(
    ty: Type_,
    len: u32,
    depth: usize,
    stack: &mut Items<Piece>,
) -> Result<(), AllocError>
    ensures { OnOk result (stack.new ≡ stack.old ++ fixed_list_pieces ty len depth) }
{
    stack.push(Piece::Sign(Sign::Close))?;
    stack.push(Piece::Length(len))?;
    stack.push(Piece::Sign(Sign::Comma))?;
    stack.push(Piece::Part(ty, depth))?;
    stack.push(Piece::Sign(Sign::List))
}

fn push_tuple(types: &[Type_], depth: usize, stack: &mut Items<Piece>) -> Result<(), AllocError>
    ensures { OnOk result (stack.new ≡ stack.old ++ tuple_pieces types.now depth) }
{
    stack.push(Piece::Sign(Sign::Close))?;
    if let Some((first, others)) = types.split_first() {
        push_others(others, depth, stack)?;
        stack.push(Piece::Part(*first, depth))?;
    }
    stack.push(Piece::Sign(Sign::Tuple))
}

/// The pieces of further types, each behind a comma.
fn push_others(types: &[Type_], depth: usize, stack: &mut Items<Piece>) -> Result<(), AllocError>
    ensures { OnOk result (stack.new ≡ stack.old ++ others_pieces types.now depth) }
{
    for index in (0..types.len()).rev() {
        stack.push(Piece::Part(types[index], depth))?;
        stack.push(Piece::Sign(Sign::Comma))?;
    }
    Ok(())
}
