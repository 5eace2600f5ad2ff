//! What is wrong with a JSON value.
ghost use Rattle.std.specs.Prelude.{◌≡◌, ◌++◌, ◌∷◌, [], IfOk};
ghost use Rattle.wit_json_reading.specs.Reading.{Reading, Reads, instead_of, under};
ghost use Rattle.wit_json_reading.specs.declared.fault.Step.TheVariants.{Item, Member};

use crate::syntax::JsonPart;
use std::alloc::{AllocError, Global};
use wit_graph_faults::GraphFault;
use wit_values::{Items, Text};

/// A step from a value to one in it.
#[derive(Debug, PartialEq, Eq, Drop)]
pub enum Step {
    /// To the member of this name.
    Member(Text),
    /// To the item at this index, from 0.
    Item(usize),
}

/// What was to stand where something else stands.
#[derive(Clone, Copy, Debug, PartialEq, Eq)]
pub enum Expected {
    /// A JSON value, and nothing else.
    Document,
    /// This part of a JSON text.
    Json(JsonPart),
    /// This part of a JSON text, which ends before it.
    UnfinishedJson(JsonPart),
    /// No list or object, since as many hold this place as may.
    Nesting,
    /// An object.
    Object,
    /// A list.
    List,
    /// A text.
    Text,
    /// A number written in digits alone, below 18446744073709551616.
    Number,
    /// A number written in digits alone, below 4294967296.
    SmallNumber,
    /// A version of SemVer 2.0.0.
    Version,
    /// A list of two values.
    Pair,
    /// A list of two numbers below 4294967296 of which the first isn't greater.
    Span,
    /// A member of this name.
    Member,
    /// No member of this name.
    NoMember,
    /// One member of this name, and not a second.
    NoSecondMember,
    /// A type: a primitive by its name, or the index of a type.
    Type,
    /// A kind of type.
    TypeKind,
    /// A kind of function.
    FunctionKind,
    /// A gate.
    Gate,
    /// An owner of a type.
    Owner,
    /// A handle.
    Handle,
    /// An entry of a world.
    Entry,
    /// The name of a package.
    PackageName,
    /// An interface or a world of another package.
    ForeignItem,
    /// A file that ends before position 4294967296 of the files in a row.
    Source,
    /// `true` or `false`.
    Boolean,
    /// A command.
    Command,
    /// A rule by which versions stand on one track.
    TrackRule,
    /// A mangling.
    Mangling,
    /// Where a function stands.
    FunctionPlace,
    /// A name that no package before it has.
    NewName,
    /// As many details as there are things, under the same names and in the same order.
    Details,
    /// A valid graph; this is why it isn't one.
    ValidGraph(GraphFault),
}

/// Where a JSON value isn't as it is read, and what was to stand there.
#[derive(Debug, PartialEq, Eq, Drop)]
pub struct Fault {
    /// The steps that lead to the value, the last one first.
    pub path: Items<Step>,
    pub expected: Expected,
}

/// Why a JSON value isn't read.
#[derive(Debug, PartialEq, Eq, Drop)]
pub enum ReadError {
    /// It has a fault.
    Fault(Fault),
    /// Memory was refused.
    OutOfMemory,
}

impl From<AllocError> for ReadError {
    ghost use Rattle.std.specs.Prelude.{◌≡◌};
    ghost use Rattle.wit_json_reading.specs.declared.fault.ReadError.TheVariants.{OutOfMemory};

    ghost from_gives = { λ _ error. error ≡ OutOfMemory };

    fn from(_error: AllocError) -> ReadError {
        ReadError::OutOfMemory
    }
}

/// The fault of a value that isn't what is expected.
pub fn instead_of<T>(alloc: Global, expected: Expected) -> Result<T, ReadError>
    ensures { Reads result (instead_of expected) }
{
    let path = Items::new(alloc);
    Err(ReadError::Fault(Fault { path, expected }))
}

/// What was read of a member, as a part of its object.
pub fn in_member<T: Drop>(
    alloc: Global,
    read: Result<T, ReadError>,
    name: &str,
) -> Result<T, ReadError>
    ensures { (reading : Reading T) → Reads read reading
        → Reads result (under (Member name.now) reading) }
{
    match read {
        Ok(value) => Ok(value),
        Err(ReadError::OutOfMemory) => Err(ReadError::OutOfMemory),
        Err(ReadError::Fault(fault)) => {
            let step = Step::Member(Text::try_from_str(alloc, name)?);
            Err(ReadError::Fault(with_step(fault, step)?))
        }
    }
}

/// What was read of an item, as a part of its list.
pub fn in_item<T: Drop>(read: Result<T, ReadError>, index: usize) -> Result<T, ReadError>
    ensures { (reading : Reading T) → Reads read reading
        → Reads result (under (Item index) reading) }
{
    match read {
        Ok(value) => Ok(value),
        Err(ReadError::OutOfMemory) => Err(ReadError::OutOfMemory),
        Err(ReadError::Fault(fault)) => Err(ReadError::Fault(with_step(fault, Step::Item(index))?)),
    }
}

/// A fault with one more step to it.
fn with_step(mut fault: Fault, step: Step) -> Result<Fault, AllocError>
    ensures { IfOk result (λ longer. longer ≡ record fault { path = fault.path ++ step ∷ [] }) }
{
    fault.path.push(step)?;
    Ok(fault)
}
