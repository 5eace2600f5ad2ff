//! Why an error that is told by a message came.
ghost use Rattle.std.specs.Prelude.{◌≡◌};
ghost use Rattle.wit_graph_data.specs.Error.{cause_number};

use std::alloc::AllocError;
use wit_values::TryClone;

/// Why an error of the kind `Semantic` came. Each cause but `Other` has a number of its own, which
/// the errors of this cause tell as theirs.
#[derive(Clone, Copy, Debug, PartialEq, Eq)]
pub enum Cause {
    /// 9: a feature gate names a version, and its package has none.
    GateWithoutVersion,
    /// 10: a feature gate names a version past that of its package.
    GateUnreleased,
    /// 11: something refers to an item that its feature gate excludes.
    Excluded,
    /// 12: a type is active, and the interface or world that owns it is excluded.
    ExcludedOwner,
    /// 13: an interface of another package has no type of that name.
    TypeNotDefined,
    /// 14: `own` or `borrow` of a type that is no resource.
    NotAResource,
    /// 15: the result of a function has a `borrow`.
    BorrowInResult,
    /// 16: an `include` renames what the included world doesn't have.
    RenameUnmatched,
    /// 17: two labels of a world's imports, or of its exports, are not strongly unique.
    NotStronglyUnique,
    /// 18: a setter has no getter beside it.
    NoGetter,
    /// 19: an export that would become an import has the label of one.
    LabelClash,
    /// 20: the package has another world of the new name.
    NameTaken,
    /// 21: an import that would become an export is a type.
    TypeExported,
    /// 22: an interface would depend on itself.
    InterfaceCycle,
    /// 23: a type would refer to itself.
    TypeCycle,
    /// 24: two packages of one name differ where a merge asks that they don't.
    MergeMismatch,
    /// 25: a newer version of an interface lacks what the older has.
    UpgradeMismatch,
    /// 26: no world is chosen, or more than one is.
    WorldSelection,
    /// Any other cause, without a number.
    Other,
}

impl Cause {
    /// The number of the cause, 9 to 26, or 0 for `Other`.
    pub fn number(self) -> u32
        ensures { result ≡ cause_number self }
    {
        match self {
            Cause::GateWithoutVersion => 9,
            Cause::GateUnreleased => 10,
            Cause::Excluded => 11,
            Cause::ExcludedOwner => 12,
            Cause::TypeNotDefined => 13,
            Cause::NotAResource => 14,
            Cause::BorrowInResult => 15,
            Cause::RenameUnmatched => 16,
            Cause::NotStronglyUnique => 17,
            Cause::NoGetter => 18,
            Cause::LabelClash => 19,
            Cause::NameTaken => 20,
            Cause::TypeExported => 21,
            Cause::InterfaceCycle => 22,
            Cause::TypeCycle => 23,
            Cause::MergeMismatch => 24,
            Cause::UpgradeMismatch => 25,
            Cause::WorldSelection => 26,
            Cause::Other => 0,
        }
    }
}

impl TryClone for Cause {
    fn try_clone(&self) -> Result<Cause, AllocError> {
        Ok(*self)
    }
}
