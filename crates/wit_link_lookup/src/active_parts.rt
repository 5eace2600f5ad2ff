//! What is active of a package under the features that are on.
ghost use Rattle.std.specs.Prelude.{◌≡◌, IfOk, List, length, map};
ghost use Rattle.std.specs.List.{range_with_len};
ghost use Rattle.wit_data.specs.Each.{Each};
ghost use Rattle.wit_data.specs.Foreign.{ForeignItem};
ghost use Rattle.wit_data.specs.Shape.{IsShaped};
ghost use Rattle.wit_names.specs.declared.package_name.PackageName.{PackageName};
ghost use Rattle.wit_link_spec.specs.steps.AdditionRefs.{activity_of, addition_of};
ghost use Rattle.wit_link_spec.specs.Gates.{type_is_active};
ghost use Rattle.wit_link_lookup.specs.steps.FeatureSteps.{HasFlag, IsMarked, own_activity, own_interface_flag, own_world_flag, with_item};
ghost use Rattle.wit_link_spec.specs.steps.Parts.{some_active, foreign_items};

use std::alloc::{AllocError, Global};
use wit_data::{
    AstItem, Items, Names, PackageName, Stability, Table, UnresolvedPackage, foreign_interfaces,
    foreign_worlds,
};
use wit_graph_data::Features;
use wit_link_spec::{Activity, AdditionRef, is_active};

/// What is active of a package under the features that are on: a type, an interface or a world of its own where its
/// note lets it, one of another package where one of the places that name it does. The package has its shape. The only
/// error is want of memory.
///
/// Source: `include_stability` of wit-parser 0.263.0; WIT.md of the component model.
pub fn activity(alloc: Global, addition: &AdditionRef<'_>) -> Result<Activity, AllocError>
    requires { IsShaped addition.now.unresolved.now }
    ensures { IfOk result (λ activity. activity ≡ activity_of (addition_of addition.now)) }
{
    let mut activity = own_activity(alloc, addition.features, addition.unresolved)?;
    mark_packages(
        addition.features,
        &addition.unresolved.foreign_deps,
        &mut activity,
    );
    Ok(activity)
}

/// Whether one of several notes lets its item be active.
fn some_active(features: &Features, notes: &Items<Stability>) -> bool
    ensures { result ≡ some_active features.now notes.now }
{
    notes.iter().any(|note| is_active(features, note))
}

/// What is active where nothing that is named of other packages is.
fn own_activity(
    alloc: Global,
    features: &Features,
    unresolved: &UnresolvedPackage,
) -> Result<Activity, AllocError>
    ensures { IfOk result (λ activity. activity ≡ own_activity features.now unresolved.now) }
{
    let types = type_flags(alloc, features, unresolved)?;
    let interfaces = interface_flags(alloc, features, unresolved)?;
    let worlds = world_flags(alloc, features, unresolved)?;
    Ok(Activity {
        types,
        interfaces,
        worlds,
    })
}

/// A flag for each type: whether its gate lets it be active, whatever its owner's does.
fn type_flags(
    alloc: Global,
    features: &Features,
    unresolved: &UnresolvedPackage,
) -> Result<Items<bool>, AllocError>
    ensures { IfOk result (λ flags.
        flags
        ≡ map (type_is_active features.now unresolved.now.types)
        (range_with_len 0 (length unresolved.now.types))) }
{
    let mut flags = Items::new(alloc);
    for def in unresolved.types.as_slice() {
        flags.push(is_active(features, &def.stability))?;
    }
    Ok(flags)
}

/// A flag for each interface: whether it is the package's own and its gate lets it be active.
fn interface_flags(
    alloc: Global,
    features: &Features,
    unresolved: &UnresolvedPackage,
) -> Result<Items<bool>, AllocError>
    ensures { IfOk result (λ flags.
        flags
        ≡ map (own_interface_flag features.now unresolved.now)
        (range_with_len 0 (length unresolved.now.interfaces))) }
{
    let foreign = foreign_interfaces(alloc, &unresolved.foreign_deps)?.len();
    let interfaces = unresolved.interfaces.as_slice();
    let mut flags = Items::new(alloc);
    for (index, interface) in interfaces.iter().enumerate() {
        flags.push(index >= foreign && is_active(features, &interface.stability))?;
    }
    Ok(flags)
}

/// A flag for each world: the same.
fn world_flags(
    alloc: Global,
    features: &Features,
    unresolved: &UnresolvedPackage,
) -> Result<Items<bool>, AllocError>
    ensures { IfOk result (λ flags.
        flags
        ≡ map (own_world_flag features.now unresolved.now)
        (range_with_len 0 (length unresolved.now.worlds))) }
{
    let foreign = foreign_worlds(alloc, &unresolved.foreign_deps)?.len();
    let worlds = unresolved.worlds.as_slice();
    let mut flags = Items::new(alloc);
    for (index, world) in worlds.iter().enumerate() {
        flags.push(index >= foreign && is_active(features, &world.stability))?;
    }
    Ok(flags)
}

/// Adds what is named of other packages under an active gate.
fn mark_packages(
    features: &Features,
    deps: &Table<PackageName, Names<(AstItem, Items<Stability>)>>,
    activity: &mut Activity,
)
    requires { Each (λ (e : PackageName × List ForeignItem).
        Each (λ (item : ForeignItem). HasFlag activity.old item.1.0) e.1) deps.now }
    ensures { IsMarked features.now (foreign_items deps.now) activity.old activity.new }
{
    for (_, items) in deps.iter() {
        mark_items(features, items, activity);
    }
}

/// Adds what is named of one package under an active gate.
fn mark_items(
    features: &Features,
    items: &Names<(AstItem, Items<Stability>)>,
    activity: &mut Activity,
)
    requires { Each (λ (item : ForeignItem). HasFlag activity.old item.1.0) items.now }
    ensures { IsMarked features.now items.now activity.old activity.new }
{
    for (_, (item, notes)) in items.iter() {
        if !some_active(features, notes) {
            continue;
        }
        mark(activity, *item);
    }
}

/// Adds an item.
fn mark(activity: &mut Activity, item: AstItem)
    requires { HasFlag activity.old item }
    ensures { activity.new ≡ with_item activity.old item }
{
    match item {
        AstItem::Interface(id) => activity.interfaces.set(id.index(), true),
        AstItem::World(id) => activity.worlds.set(id.index(), true),
    }
}
