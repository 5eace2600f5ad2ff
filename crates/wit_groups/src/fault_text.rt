//! What faults say: the words of wit-parser.
ghost use Rattle.std.specs.Prelude.{◌≡◌};
ghost use Rattle.wit_groups.specs.Words.{before_name, behind_name, group_fault_text, rule_text, unread_group_text};

use crate::fault::{EntrySide, EntrySort, GroupFault, GroupFaultKind, NameFault, RuleFault};
use std::fmt;

impl fmt::Display for GroupFault {
    ghost output = { unread_group_text };

    fn fmt<W: fmt::Write>(&self, f: &mut fmt::Formatter<W>) -> fmt::Result {
        match self {
            GroupFault::Text { kind, .. } => write!(f, "{kind}"),
            GroupFault::OutOfMemory => f.write_str("out of memory"),
        }
    }
}

impl fmt::Display for GroupFaultKind {
    ghost output = { group_fault_text };

    fn fmt<W: fmt::Write>(&self, f: &mut fmt::Formatter<W>) -> fmt::Result {
        match self {
            GroupFaultKind::Syntax(kind) => write!(f, "{kind}"),
            GroupFaultKind::Name(fault, name) => {
                let (before, behind) = (before_name(*fault), behind_name(*fault));
                write!(f, "{before}`{name}`{behind}")
            }
            GroupFaultKind::Rule(rule) => f.write_str(rule_text(*rule)),
            GroupFaultKind::OtherPackage { name, previous } => write!(
                f,
                "package identifier `{name}` does not match previous package name of `{previous}`"
            ),
            GroupFaultKind::Shape(fault) => write!(f, "this package can't be pushed: {fault}"),
        }
    }
}

/// What stands before a name.
fn before_name(fault: NameFault) -> &'static str
    ensures { result.now ≡ before_name fault }
{
    match fault {
        NameFault::DuplicateItem => "duplicate item named ",
        NameFault::DuplicateInFile => "duplicate name ",
        NameFault::NoItem | NameFault::ItemDependsOnItself => "interface or world ",
        NameFault::NoType
        | NameFault::TypeDependsOnItself
        | NameFault::Float32
        | NameFault::Float64
        | NameFault::NoResource => "type ",
        NameFault::NoName
        | NameFault::NotAnInterface
        | NameFault::NotAWorld
        | NameFault::DefinedTwice
        | NameFault::DefinedAbove => "name ",
        NameFault::ParameterTwice => "param ",
        NameFault::FunctionTwice => "duplicate function name ",
        NameFault::EntryConflict(EntrySide::Import, _) => "import ",
        NameFault::EntryConflict(EntrySide::Export, _) => "export ",
        NameFault::UsedFunction => "cannot import function ",
        NameFault::FunctionAsType => "cannot use function ",
    }
}

/// What stands behind a name.
fn behind_name(fault: NameFault) -> &'static str
    ensures { result.now ≡ behind_name fault }
{
    match fault {
        NameFault::DuplicateItem | NameFault::FunctionTwice | NameFault::UsedFunction => "",
        NameFault::DuplicateInFile => " in this file",
        NameFault::NoItem | NameFault::NoType | NameFault::NoName => " does not exist",
        NameFault::Float32 =>
            " does not exist: the `float32` type has been renamed to `f32` and is no longer accepted",
        NameFault::Float64 =>
            " does not exist: the `float64` type has been renamed to `f64` and is no longer accepted",
        NameFault::ItemDependsOnItself | NameFault::TypeDependsOnItself => " depends on itself",
        NameFault::NotAnInterface => " is defined as a world, not an interface",
        NameFault::NotAWorld => " is defined as an interface, not a world",
        NameFault::DefinedTwice | NameFault::ParameterTwice => " is defined more than once",
        NameFault::DefinedAbove => " is defined more than once; a type above has it",
        NameFault::EntryConflict(_, EntrySort::Interface) => {
            " conflicts with prior interface of same name"
        }
        NameFault::EntryConflict(_, EntrySort::Function) => {
            " conflicts with prior func of same name"
        }
        NameFault::EntryConflict(_, EntrySort::Type_) => " conflicts with prior type of same name",
        NameFault::FunctionAsType => " as a type",
        NameFault::NoResource => " used in a handle must be a resource",
    }
}

/// What is told of a rule that isn't kept.
fn rule_text(rule: RuleFault) -> &'static str
    ensures { result.now ≡ rule_text rule }
{
    match rule {
        RuleFault::AttributesOnUse => "attributes not allowed on top-level use",
        RuleFault::DeprecatedAlone => "must pair @deprecated with either @since or @unstable",
        RuleFault::UnsupportedAttributes => "unsupported combination of attributes",
        RuleFault::MisplacedExternalId => "`@external-id` not allowed here",
        RuleFault::NoPackage => { "no `package` header was found in any WIT file for this package" }
        RuleFault::NestedTooDeep => "nested packages must be placed at the top-level",
        RuleFault::SecondDocs => "found doc comments on multiple 'package' items",
        RuleFault::SecondConstructor => "duplicate constructors",
        RuleFault::EntryTwice(EntrySide::Import) => "interface cannot be imported more than once",
        RuleFault::EntryTwice(EntrySide::Export) => "interface cannot be exported more than once",
        RuleFault::EmptyVariant => "empty variant",
        RuleFault::EmptyEnum => "empty enum",
        RuleFault::EmptyFlags => "empty flags",
        RuleFault::MapKey => {
            "invalid map key type: map keys must be bool, u8, u16, u32, u64, s8, s16, s32, s64, char, or string"
        }
        RuleFault::ConstructorResult => {
            "if a constructor return type is declared it must be a `result`"
        }
        RuleFault::ConstructorOk => "the `ok` type must be the resource being constructed",
        RuleFault::MissingPart => "a part of this type isn't there",
    }
}
