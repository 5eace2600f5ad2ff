//! What types of a file are.

use crate::draft::Draft;
use crate::fault::{Fault, NameFault, RuleFault};
use crate::gates::docs_of;
use crate::scope::{Context, ScopeDraft};
use std::alloc::AllocError;
use wit_data::{
    Case, Docs, EnumCase, Field, Flag, Handle, Items, Span, Stability, Type_, TypeDefKind, TypeId,
};
use wit_text::Keyword;
use wit_text::syntax::{Member, Piece, TypeNode, TypeNodeKind, TypeRange};

/// The types that were made of the parts of a type, of which the first has this number in its file.
#[derive(Clone, Copy)]
struct Parts<'a> {
    first: usize,
    made: &'a [Type_],
}

impl<'a> Parts<'a> {
    /// The type that was made of a part.
    fn part(&self, index: usize) -> Result<Type_, Fault> {
        let Some(place) = index.checked_sub(self.first) else {
            return Err(missing_part());
        };
        match self.made.get(place) {
            Some(ty) => Ok(*ty),
            None => Err(missing_part()),
        }
    }

    /// The type that was made of a part that may be missing.
    fn optional(&self, index: Option<usize>) -> Result<Option<Type_>, Fault> {
        match index {
            Some(index) => Ok(Some(self.part(index)?)),
            None => Ok(None),
        }
    }
}

impl<'a> Context<'a> {
    /// The types of a range of the file.
    pub fn nodes(&self, range: TypeRange) -> &'a [TypeNode] {
        let end = range.index.saturating_add(1);
        match self.part.types.get(range.first..end) {
            Some(nodes) => nodes,
            None => &[],
        }
    }

    /// The documentation of a member.
    fn member_docs(&self, member: &Member) -> Result<Docs, AllocError> {
        docs_of(self.alloc, self.part.source, &member.docs)
    }
}

impl<'a> ScopeDraft<'a> {
    /// A type of the file. The gate is that of new types without a name which have none by their parts.
    pub fn type_of(
        &self,
        draft: &mut Draft,
        range: TypeRange,
        gate: &Stability,
    ) -> Result<Type_, Fault> {
        let nodes = self.context.nodes(range);
        let made = self.types_of(draft, nodes, range.first, gate)?;
        match made.last() {
            Some(ty) => Ok(*ty),
            None => Err(missing_part()),
        }
    }

    /// What a type of the file is: an alias where it is a name.
    pub fn kind_of_type(
        &self,
        draft: &mut Draft,
        range: TypeRange,
        gate: &Stability,
    ) -> Result<TypeDefKind, Fault> {
        let Some((node, inner)) = self.context.nodes(range).split_last() else {
            return Err(missing_part());
        };
        let made = self.types_of(draft, inner, range.first, gate)?;
        let parts = Parts {
            first: range.first,
            made: made.as_slice(),
        };
        self.kind_of(draft, node, parts)
    }

    /// Types of the file, of which the first has this number there, each behind its parts.
    fn types_of(
        &self,
        draft: &mut Draft,
        nodes: &[TypeNode],
        first: usize,
        gate: &Stability,
    ) -> Result<Items<Type_>, Fault> {
        let mut made = Items::new(self.context.alloc);
        for node in nodes {
            let kind = self.kind_behind(draft, node, first, &made)?;
            let ty = as_type(draft, kind, node.span, gate)?;
            made.push(ty)?;
        }
        Ok(made)
    }

    /// What a type is that stands behind these.
    fn kind_behind(
        &self,
        draft: &mut Draft,
        node: &TypeNode,
        first: usize,
        made: &Items<Type_>,
    ) -> Result<TypeDefKind, Fault> {
        let made = made.as_slice();
        self.kind_of(draft, node, Parts { first, made })
    }

    /// What a type is, by what was made of its parts.
    fn kind_of(
        &self,
        draft: &mut Draft,
        node: &TypeNode,
        parts: Parts<'_>,
    ) -> Result<TypeDefKind, Fault> {
        match &node.kind {
            TypeNodeKind::Primitive(word) => Ok(TypeDefKind::Type_(primitive(*word))),
            TypeNodeKind::Named(name) => {
                Ok(TypeDefKind::Type_(Type_::Id(self.named_type(name)?)))
            }
            TypeNodeKind::Own(name) => {
                let id = self.resource(draft, name)?;
                Ok(TypeDefKind::Handle(Handle::Own(id)))
            }
            TypeNodeKind::Borrow(name) => {
                let id = self.resource(draft, name)?;
                Ok(TypeDefKind::Handle(Handle::Borrow(id)))
            }
            TypeNodeKind::Tuple(indices) => {
                let mut types = Items::new(self.context.alloc);
                for index in indices.iter() {
                    types.push(parts.part(*index)?)?;
                }
                Ok(TypeDefKind::Tuple { types })
            }
            _ => form(node, parts),
        }
    }

    /// The resource of a handle: a type that is one, or is another package's and has to be one.
    fn resource(&self, draft: &mut Draft, name: &Piece) -> Result<TypeId, Fault> {
        let id = self.named_type(name)?;
        let root = draft.root(id);
        if draft.is_unknown(root) {
            draft.required_resource_types.push((root, name.span))?;
        } else if !draft.is_resource(root) {
            return Err(self.context.name_fault(name, NameFault::NoResource));
        }
        Ok(id)
    }

    /// A record with these fields.
    pub fn record(
        &self,
        draft: &mut Draft,
        members: &[Member],
        gate: &Stability,
    ) -> Result<TypeDefKind, Fault> {
        let mut fields = Items::new(self.context.alloc);
        for member in members {
            fields.push(self.field(draft, member, gate)?)?;
        }
        Ok(TypeDefKind::Record { fields })
    }

    fn field(&self, draft: &mut Draft, member: &Member, gate: &Stability) -> Result<Field, Fault> {
        let Some(range) = member.ty else {
            return Err(missing_part());
        };
        let ty = self.type_of(draft, range, gate)?;
        let name = self.context.copy(&member.name)?;
        let docs = self.context.member_docs(member)?;
        Ok(Field {
            name,
            ty,
            docs,
            span: member.name.span,
        })
    }

    /// A variant with these cases.
    pub fn variant(
        &self,
        draft: &mut Draft,
        members: &[Member],
        gate: &Stability,
    ) -> Result<TypeDefKind, Fault> {
        let mut cases = Items::new(self.context.alloc);
        for member in members {
            cases.push(self.case(draft, member, gate)?)?;
        }
        Ok(TypeDefKind::Variant { cases })
    }

    fn case(&self, draft: &mut Draft, member: &Member, gate: &Stability) -> Result<Case, Fault> {
        let ty = match member.ty {
            Some(range) => Some(self.type_of(draft, range, gate)?),
            None => None,
        };
        let name = self.context.copy(&member.name)?;
        let docs = self.context.member_docs(member)?;
        Ok(Case {
            name,
            ty,
            docs,
            span: member.name.span,
        })
    }

    /// An enum with these cases. The only error is want of memory.
    pub fn enumeration(&self, members: &[Member]) -> Result<TypeDefKind, AllocError> {
        let mut cases = Items::new(self.context.alloc);
        for member in members {
            let name = self.context.copy(&member.name)?;
            let docs = self.context.member_docs(member)?;
            cases.push(EnumCase {
                name,
                docs,
                span: member.name.span,
            })?;
        }
        Ok(TypeDefKind::Enum { cases })
    }

    /// Flags of these names. The only error is want of memory.
    pub fn flags(&self, members: &[Member]) -> Result<TypeDefKind, AllocError> {
        let mut flags = Items::new(self.context.alloc);
        for member in members {
            let name = self.context.copy(&member.name)?;
            let docs = self.context.member_docs(member)?;
            flags.push(Flag {
                name,
                docs,
                span: member.name.span,
            })?;
        }
        Ok(TypeDefKind::Flags { flags })
    }
}

/// The type of a kind: what it names, else a type without a name.
fn as_type(
    draft: &mut Draft,
    kind: TypeDefKind,
    span: Span,
    gate: &Stability,
) -> Result<Type_, AllocError> {
    match kind {
        TypeDefKind::Type_(ty) => Ok(ty),
        kind => Ok(Type_::Id(draft.add_unnamed(kind, span, gate)?)),
    }
}

/// What a form is that has a fixed number of parts.
fn form(node: &TypeNode, parts: Parts<'_>) -> Result<TypeDefKind, Fault> {
    match &node.kind {
        TypeNodeKind::List(index) => Ok(TypeDefKind::List(parts.part(*index)?)),
        TypeNodeKind::FixedLengthList(index, len) => {
            Ok(TypeDefKind::FixedLengthList(parts.part(*index)?, *len))
        }
        TypeNodeKind::Map(key, value) => {
            let (key, value) = (parts.part(*key)?, parts.part(*value)?);
            if !is_map_key(key) {
                return Err(Fault::rule(node.span, RuleFault::MapKey));
            }
            Ok(TypeDefKind::Map(key, value))
        }
        TypeNodeKind::Option(index) => Ok(TypeDefKind::Option(parts.part(*index)?)),
        TypeNodeKind::Result_ { ok, err } => {
            let (ok, err) = (parts.optional(*ok)?, parts.optional(*err)?);
            Ok(TypeDefKind::Result_ { ok, err })
        }
        TypeNodeKind::Future(index) => Ok(TypeDefKind::Future(parts.optional(*index)?)),
        TypeNodeKind::Stream(index) => Ok(TypeDefKind::Stream(parts.optional(*index)?)),
        _ => Err(missing_part()),
    }
}

/// Whether a map may have keys of a type.
fn is_map_key(ty: Type_) -> bool {
    !matches!(
        ty,
        Type_::F32 | Type_::F64 | Type_::ErrorContext | Type_::Id(_)
    )
}

/// The primitive of a word.
fn primitive(word: Keyword) -> Type_ {
    match word {
        Keyword::Bool => Type_::Bool,
        Keyword::U8 => Type_::U8,
        Keyword::U16 => Type_::U16,
        Keyword::U32 => Type_::U32,
        Keyword::U64 => Type_::U64,
        Keyword::S8 => Type_::S8,
        Keyword::S16 => Type_::S16,
        Keyword::S32 => Type_::S32,
        Keyword::S64 => Type_::S64,
        Keyword::F32 => Type_::F32,
        Keyword::F64 => Type_::F64,
        Keyword::Char => Type_::Char,
        Keyword::String => Type_::String,
        // The last of the words that `wit_text` reads as primitives.
        _ => Type_::ErrorContext,
    }
}

/// The fault of a type whose part isn't there, which `wit_text` never makes.
fn missing_part() -> Fault {
    Fault::rule(Span::unknown(), RuleFault::MissingPart)
}
