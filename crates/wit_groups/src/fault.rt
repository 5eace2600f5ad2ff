//! Why files aren't read as a group of packages.
ghost use Rattle.wit_groups.specs.Files.{HasFiles};

use std::alloc::{AllocError, Global};
use std::fmt;
use wit_data::{PackageName, SourceMap, Span, Text};
use wit_shape::ShapeFault;
use wit_text::{ReadFault, ReadFaultKind};

/// What is wrong with a name.
#[derive(Clone, Copy, Debug, PartialEq, Eq)]
pub enum NameFault {
    /// Two interfaces or worlds of a package have it.
    DuplicateItem,
    /// A file gives it to two things.
    DuplicateInFile,
    /// No interface and no world has it.
    NoItem,
    /// No type has it.
    NoType,
    /// Nothing has it.
    NoName,
    /// The former name of `f32`, which no type has.
    Float32,
    /// The former name of `f64`, which no type has.
    Float64,
    /// An interface or a world that needs itself.
    ItemDependsOnItself,
    /// A type that needs itself.
    TypeDependsOnItself,
    /// It is that of a world.
    NotAnInterface,
    /// It is that of an interface.
    NotAWorld,
    DefinedTwice,
    /// A type has it, and a `use` below takes it.
    DefinedAbove,
    ParameterTwice,
    FunctionTwice,
    /// An import or an export under a label that is taken.
    EntryConflict(EntrySide, EntrySort),
    /// A `use` names a function.
    UsedFunction,
    /// A type is named, and a function has the name.
    FunctionAsType,
    /// A handle is of a type that is no resource.
    NoResource,
}

/// On which side of a world an entry stands.
#[derive(Clone, Copy, Debug, PartialEq, Eq)]
pub enum EntrySide {
    Import,
    Export,
}

/// What an entry of a world is.
#[derive(Clone, Copy, Debug, PartialEq, Eq)]
pub enum EntrySort {
    Interface,
    Function,
    Type_,
}

/// A rule that a thing breaks.
#[derive(Clone, Copy, Debug, PartialEq, Eq)]
pub enum RuleFault {
    AttributesOnUse,
    DeprecatedAlone,
    UnsupportedAttributes,
    MisplacedExternalId,
    /// No file says of which package it is.
    NoPackage,
    NestedTooDeep,
    SecondDocs,
    SecondConstructor,
    EntryTwice(EntrySide),
    EmptyVariant,
    EmptyEnum,
    EmptyFlags,
    MapKey,
    ConstructorResult,
    ConstructorOk,
    /// A type whose part isn't there.
    MissingPart,
}

/// What is wrong with files.
#[derive(Drop)]
pub enum GroupFaultKind {
    /// A file isn't WIT.
    Syntax(ReadFaultKind),
    Name(NameFault, Text),
    Rule(RuleFault),
    /// A file says of another package than those before it that it is of it.
    OtherPackage {
        name: PackageName,
        previous: PackageName,
    },
    /// The package lacks its shape.
    Shape(ShapeFault),
}

/// Why files aren't read as a group of packages.
#[derive(Drop)]
pub enum GroupFault {
    /// What is wrong with the files and where in them, and the files. The span is unknown where they
    /// lack something as a whole.
    Text {
        source_map: SourceMap,
        span: Span,
        kind: GroupFaultKind,
    },
    OutOfMemory,
}

impl GroupFault {
    /// The words, and below them the place with its line, marked, as `SourceMap::highlight_span` shows it; the words alone
    /// where the place is unknown. The only error is want of memory.
    pub fn render(&self, alloc: Global) -> Result<String, AllocError> {
        match self {
            GroupFault::Text {
                source_map,
                span,
                kind,
            } => {
                let words = format!(in alloc; "{kind}")?;
                let shown = source_map.highlight_span(alloc, *span, words.as_str())?;
                Ok(shown.unwrap_or(words))
            }
            GroupFault::OutOfMemory => String::from_str(alloc, "out of memory"),
        }
    }
}

impl From<AllocError> for GroupFault {
    ghost use Rattle.std.specs.Prelude.{◌≡◌};
    ghost use Rattle.wit_groups.specs.declared.fault.GroupFault.TheVariants.{OutOfMemory};

    ghost from_gives = { λ _ fault. fault ≡ OutOfMemory };

    fn from(_refused: AllocError) -> GroupFault {
        GroupFault::OutOfMemory
    }
}

/// Why files aren't read, where in their source map: or want of memory.
#[derive(Drop)]
pub(crate) enum Fault {
    At(Span, GroupFaultKind),
    OutOfMemory,
}

impl Fault {
    /// A rule that a thing at a place breaks.
    pub fn rule(span: Span, rule: RuleFault) -> Fault {
        Fault::At(span, GroupFaultKind::Rule(rule))
    }

    /// What is wrong with a name at a place, or want of memory for it.
    pub fn name(alloc: Global, span: Span, fault: NameFault, name: &str) -> Fault {
        match Text::try_from_str(alloc, name) {
            Ok(name) => Fault::At(span, GroupFaultKind::Name(fault, name)),
            Err(refused) => Fault::from(refused),
        }
    }

    /// The fault of files, which it gives back.
    pub fn of_files(self, source_map: SourceMap) -> GroupFault
        ensures { HasFiles source_map result }
    {
        match self {
            Fault::At(span, kind) => GroupFault::Text {
                source_map,
                span,
                kind,
            },
            Fault::OutOfMemory => GroupFault::OutOfMemory,
        }
    }
}

impl From<AllocError> for Fault {
    ghost use Rattle.std.specs.Prelude.{◌≡◌};
    ghost use Rattle.wit_groups.specs.declared.fault.Fault.TheVariants.{OutOfMemory};

    ghost from_gives = { λ _ fault. fault ≡ OutOfMemory };

    fn from(_refused: AllocError) -> Fault {
        Fault::OutOfMemory
    }
}

impl From<ReadFault> for Fault {
    fn from(fault: ReadFault) -> Fault {
        match fault {
            ReadFault::At(span, kind) => Fault::At(span, GroupFaultKind::Syntax(kind)),
            ReadFault::OutOfMemory => Fault::OutOfMemory,
        }
    }
}
