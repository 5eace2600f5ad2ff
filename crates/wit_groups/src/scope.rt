//! An interface or a world that is being made: its names.

use crate::draft::{Draft, Named};
use crate::fault::{Fault, NameFault};
use crate::gates::common_of;
use crate::names::Directory;
use crate::written::Part;
use std::alloc::{AllocError, Global};
use wit_data::{
    InterfaceId, Names, Stability, Text, TryClone, Type_, TypeDef, TypeDefKind, TypeId, TypeOwner,
};
use wit_text::syntax::{Gate, Path, Piece, Renaming, UseNames};

/// Where an interface or a world stands: its file, and what the names of its package stand for.
#[derive(Clone, Copy)]
pub(crate) struct Context<'a> {
    pub alloc: Global,
    pub directory: &'a Directory,
    pub file: usize,
    pub part: Part<'a>,
}

impl<'a> Context<'a> {
    /// The text of a piece of the file.
    pub fn text(&self, piece: &Piece) -> &'a str {
        piece.text(self.part.source)
    }

    /// A copy of the text of a piece of the file. The only error is want of memory.
    pub fn copy(&self, piece: &Piece) -> Result<Text, AllocError> {
        Text::try_from_str(self.alloc, self.text(piece))
    }

    /// What is wrong with a name of the file.
    pub fn name_fault(&self, piece: &Piece, fault: NameFault) -> Fault {
        Fault::name(self.alloc, piece.span, fault, self.text(piece))
    }

    /// The interface that a path of the file names.
    pub fn interface(&self, draft: &Draft, path: &Path) -> Result<InterfaceId, Fault> {
        draft.interface_at(self.directory, self.file, self.part.source, path)
    }
}

/// An interface or a world that is being made, with what its names stand for.
pub(crate) struct ScopeDraft<'a> {
    pub context: Context<'a>,
    pub owner: TypeOwner,
    pub names: Names<Named>,
}

/// As the derived one: each field is let go. A call of it costs the check less than a derived one,
/// which is checked again wherever a value is let go.
impl<'a> Drop for ScopeDraft<'a> {
    fn drop(self) {
        let ScopeDraft {
            names,
            context: _,
            owner: _,
        } = self;
        drop(names);
    }
}

impl<'a> ScopeDraft<'a> {
    /// One without names, which takes no memory.
    pub fn new(context: Context<'a>, owner: TypeOwner) -> ScopeDraft<'a> {
        ScopeDraft {
            context,
            owner,
            names: Names::new(context.alloc),
        }
    }

    /// What its names stand for.
    pub fn into_names(self) -> Names<Named> {
        let ScopeDraft {
            names,
            context: _,
            owner: _,
        } = self;
        names
    }

    /// Says what a name stands for, which stands for nothing yet.
    pub fn define(&mut self, name: &Piece, named: Named) -> Result<(), Fault> {
        let key = String::from_str(self.context.alloc, self.context.text(name))?;
        if self.names.contains_key(key.as_str()) {
            return Err(self.context.name_fault(name, NameFault::DefinedTwice));
        }
        self.names.push(key, named)?;
        Ok(())
    }

    /// The type of a name.
    pub fn named_type(&self, name: &Piece) -> Result<TypeId, Fault> {
        match self.names.get(self.context.text(name)) {
            Some(Named::Type_(id)) => Ok(*id),
            Some(Named::Function) => {
                Err(self.context.name_fault(name, NameFault::FunctionAsType))
            }
            None => Err(self.context.name_fault(name, NameFault::NoName)),
        }
    }

    /// Takes over what a `use` names.
    pub fn use_names(
        &mut self,
        draft: &mut Draft,
        gate: &Gate,
        used: &UseNames,
    ) -> Result<(), Fault> {
        let id = self.context.interface(draft, &used.path)?;
        let common = common_of(self.context.alloc, self.context.part.source, gate, false)?;
        for renaming in used.names.iter() {
            self.use_name(draft, id, renaming, &common.stability)?;
        }
        Ok(())
    }

    /// Takes over a type of an interface.
    fn use_name(
        &mut self,
        draft: &mut Draft,
        id: InterfaceId,
        renaming: &Renaming,
        stability: &Stability,
    ) -> Result<(), Fault> {
        let target = self.used_type(draft, id, &renaming.name)?;
        let stability = stability.try_clone()?;
        let kind = TypeDefKind::Type_(Type_::Id(target));
        let name = self.context.copy(&renaming.new)?;
        let mut def = TypeDef::new(Some(name), kind, self.owner);
        def.stability = stability;
        def.span = renaming.name.span;
        let made = draft.add_type(def)?;
        self.define(&renaming.new, Named::Type_(made))
    }

    /// The type of an interface that has this name.
    fn used_type(&self, draft: &Draft, id: InterfaceId, name: &Piece) -> Result<TypeId, Fault> {
        match draft.name_in(id, self.context.text(name)) {
            Some(Named::Type_(ty)) => Ok(*ty),
            Some(Named::Function) => Err(self.context.name_fault(name, NameFault::UsedFunction)),
            None => Err(self.context.name_fault(name, NameFault::NoName)),
        }
    }
}
