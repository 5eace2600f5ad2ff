//! The faults of documents whose graphs aren't valid.
ghost use Rattle.std.specs.Prelude.{◌≡◌, ◌++◌, ◌∷◌, [], Err, IfOk, OnOk};
ghost use Rattle.wit_json_commands.specs.GraphFaults.{invalid_fault, thing_path};
ghost use Rattle.wit_json_reading.specs.Reading.{Reads};
ghost use Rattle.wit_json_reading.specs.declared.fault.Step.TheVariants.{Item, Member};

use std::alloc::{AllocError, Global};
use wit_data::{Items, Text};
use wit_graph_faults::{GraphFault, GraphPlace};
use wit_json_reading::{Expected, Fault, ReadError, Step};
use wit_resolve_graph::Resolve;

/// The fault of a document whose graph isn't valid, for this reason.
pub fn no_valid_graph(alloc: Global, reason: GraphFault) -> Result<Resolve, ReadError>
    ensures { Reads result (Err (invalid_fault reason)) }
{
    Err(ReadError::Fault(invalid_fault(alloc, reason)?))
}

fn invalid_fault(alloc: Global, reason: GraphFault) -> Result<Fault, AllocError>
    ensures { IfOk result (λ fault. fault ≡ invalid_fault reason) }
{
    let mut path = thing_path(alloc, reason.place)?;
    push_member(alloc, &mut path, "graph")?;
    push_member(alloc, &mut path, "resolve")?;
    Ok(Fault {
        path,
        expected: Expected::ValidGraph(reason),
    })
}

/// The steps from the graph to the thing that breaks a clause, the last one first.
fn thing_path(alloc: Global, place: GraphPlace) -> Result<Items<Step>, AllocError>
    ensures { IfOk result (λ path. path ≡ thing_path place) }
{
    match place {
        GraphPlace::PackageName(_) => list_path(alloc, "packages"),
        GraphPlace::Package(id) => item_path(alloc, "packages", id.index()),
        GraphPlace::PackageInterface(id, _) => part_path(
            alloc,
            "packages",
            id.index(),
            "interfaces",
        ),
        GraphPlace::PackageWorld(id, _) => part_path(alloc, "packages", id.index(), "worlds"),
        GraphPlace::Interface(id) => item_path(alloc, "interfaces", id.index()),
        GraphPlace::World(id) => item_path(alloc, "worlds", id.index()),
        GraphPlace::Type_(id) => item_path(alloc, "types", id.index()),
        GraphPlace::InterfaceType(id, _) => part_path(alloc, "interfaces", id.index(), "types"),
        GraphPlace::Function(id, _) => part_path(alloc, "interfaces", id.index(), "functions"),
        GraphPlace::Import(id, _) => part_path(alloc, "worlds", id.index(), "imports"),
        GraphPlace::Export(id, _) => part_path(alloc, "worlds", id.index(), "exports"),
    }
}

/// The step to a list.
fn list_path(alloc: Global, list: &str) -> Result<Items<Step>, AllocError>
    ensures { IfOk result (λ path. path ≡ Member list.now ∷ []) }
{
    let mut path = Items::new(alloc);
    push_member(alloc, &mut path, list)?;
    Ok(path)
}

/// The steps to an item of a list.
fn item_path(alloc: Global, list: &str, index: usize) -> Result<Items<Step>, AllocError>
    ensures { IfOk result (λ path. path ≡ Item index ∷ Member list.now ∷ []) }
{
    let mut path = Items::new(alloc);
    path.push(Step::Item(index))?;
    push_member(alloc, &mut path, list)?;
    Ok(path)
}

/// The steps to a member of an item of a list.
fn part_path(alloc: Global, list: &str, index: usize, part: &str) -> Result<Items<Step>, AllocError>
    ensures { IfOk result (λ path. path ≡ Member part.now ∷ Item index ∷ Member list.now ∷ []) }
{
    let mut path = Items::new(alloc);
    push_member(alloc, &mut path, part)?;
    path.push(Step::Item(index))?;
    push_member(alloc, &mut path, list)?;
    Ok(path)
}

fn push_member(alloc: Global, path: &mut Items<Step>, name: &str) -> Result<(), AllocError>
    ensures { OnOk result (path.new ≡ path.old ++ Member name.now ∷ []) }
{
    path.push(Step::Member(Text::try_from_str(alloc, name)?))
}
