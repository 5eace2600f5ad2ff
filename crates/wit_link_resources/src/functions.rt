//! The functions that are active of a package.
ghost use Rattle.std.specs.Prelude.{◌≡◌, ◌++◌, IfOk, OnOk, length};
ghost use Rattle.std.specs.List.{flat_map, range_with_len};
ghost use Rattle.wit_link_spec.specs.steps.AdditionRefs.{activity_of, addition_of};
ghost use Rattle.wit_link_resources.specs.steps.Active.{active_entries, active_functions, active_item, active_named, active_one, interface_functions, seen, world_functions};

use std::alloc::{AllocError, Global};
use wit_data::{Function, Names, Table, WorldItem, WorldKey};
use wit_graph_data::Features;
use wit_link_spec::{Activity, AdditionRef, is_active};

/// The functions that are active: those of the interfaces, then those of the worlds.
pub(crate) fn active_functions<'a>(
    alloc: Global,
    addition: &AdditionRef<'a>,
    activity: &Activity,
) -> Result<Vec<&'a Function>, AllocError>
    requires { activity.now ≡ activity_of (addition_of addition.now) }
    ensures { IfOk result
        (λ functions. seen functions.items ≡ active_functions (addition_of addition.now)) }
{
    let mut functions = Vec::new(alloc);
    push_interfaces(&mut functions, addition, activity)?;
    push_worlds(&mut functions, addition, activity)?;
    Ok(functions)
}

/// Adds those of the interfaces.
fn push_interfaces<'a>(
    functions: &mut Vec<&'a Function>,
    addition: &AdditionRef<'a>,
    activity: &Activity,
) -> Result<(), AllocError>
    requires { activity.now ≡ activity_of (addition_of addition.now) }
    ensures { OnOk result (seen functions.new.items
        ≡ seen functions.old.items
        ++ flat_map (interface_functions (addition_of addition.now))
        (range_with_len 0 (length addition.now.unresolved.now.interfaces))) }
{
    for (index, interface) in addition.unresolved.interfaces.as_slice().iter().enumerate() {
        if *activity.interfaces.at(index) {
            push_named(functions, addition.features, &interface.functions)?;
        }
    }
    Ok(())
}

/// Adds those of the worlds.
fn push_worlds<'a>(
    functions: &mut Vec<&'a Function>,
    addition: &AdditionRef<'a>,
    activity: &Activity,
) -> Result<(), AllocError>
    requires { activity.now ≡ activity_of (addition_of addition.now) }
    ensures { OnOk result (seen functions.new.items
        ≡ seen functions.old.items
        ++ flat_map (world_functions (addition_of addition.now))
        (range_with_len 0 (length addition.now.unresolved.now.worlds))) }
{
    for (index, world) in addition.unresolved.worlds.as_slice().iter().enumerate() {
        if *activity.worlds.at(index) {
            push_entries(functions, addition.features, &world.imports)?;
            push_entries(functions, addition.features, &world.exports)?;
        }
    }
    Ok(())
}

/// Adds those of an interface.
fn push_named<'a>(
    functions: &mut Vec<&'a Function>,
    features: &Features,
    named: &'a Names<Function>,
) -> Result<(), AllocError>
    ensures { OnOk result (seen functions.new.items
        ≡ seen functions.old.items ++ active_named features.now named.now) }
{
    for (_, function) in named.iter() {
        push_active(functions, features, function)?;
    }
    Ok(())
}

/// Adds those among the entries of a world.
fn push_entries<'a>(
    functions: &mut Vec<&'a Function>,
    features: &Features,
    entries: &'a Table<WorldKey, WorldItem>,
) -> Result<(), AllocError>
    ensures { OnOk result (seen functions.new.items
        ≡ seen functions.old.items ++ active_entries features.now entries.now) }
{
    for (_, item) in entries.iter() {
        push_item(functions, features, item)?;
    }
    Ok(())
}

/// Adds the function that an entry is, where it is one.
fn push_item<'a>(
    functions: &mut Vec<&'a Function>,
    features: &Features,
    item: &'a WorldItem,
) -> Result<(), AllocError>
    ensures { OnOk result (seen functions.new.items
        ≡ seen functions.old.items ++ active_item features.now item.now) }
{
    match item {
        WorldItem::Function(function) => push_active(functions, features, function),
        WorldItem::Interface { .. } | WorldItem::Type_ { .. } => Ok(()),
    }
}

/// Adds a function that is active.
fn push_active<'a>(
    functions: &mut Vec<&'a Function>,
    features: &Features,
    function: &'a Function,
) -> Result<(), AllocError>
    ensures { OnOk result (seen functions.new.items
        ≡ seen functions.old.items ++ active_one features.now function.now) }
{
    if is_active(features, &function.stability) {
        functions.push(function)?;
    }
    Ok(())
}
