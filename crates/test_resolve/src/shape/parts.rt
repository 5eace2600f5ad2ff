//! Parts of packages, as tests need them.
use crate::fixtures::{label, list, string, text, text_or_none};
use indexmap::IndexMap;
use std::alloc::Global;
use std::process::Abort;
use wit_data::{
    Function, FunctionKind, Interface, InterfaceId, Items, Names, Param, Span, Stability, Type_,
    TypeId, World, WorldId, WorldInclude, WorldItem, WorldKey,
};

/// One item, or none.
pub fn if_there<T: Drop>(rt: &impl Abort, alloc: Global, is_there: bool, item: T) -> Items<T> {
    let mut items = Items::new(alloc);
    if is_there {
        items.push(item).expect(rt, "memory");
    }
    items
}

/// A function with one parameter and no result.
pub fn function(rt: &impl Abort, alloc: Global, name: &str, parameter: Type_) -> Function {
    let param = Param {
        name: text(rt, alloc, "p"),
        ty: parameter,
        span: Span::unknown(),
    };
    let params = list(rt, alloc, [param]);
    Function::new(
        text(rt, alloc, name),
        FunctionKind::Freestanding,
        params,
        None,
    )
}

/// An interface of these types, with a name where it isn't empty.
pub fn interface(rt: &impl Abort, alloc: Global, name: &str, types: &[(&str, usize)]) -> Interface {
    let mut listed = IndexMap::new(alloc);
    for (name, index) in types {
        listed
            .insert(string(rt, alloc, name), TypeId::from_index(*index))
            .expect(rt, "memory");
    }
    let mut interface = Interface::new(alloc, text_or_none(rt, alloc, name));
    interface.types = Names::from_map(listed).expect(rt, "memory");
    interface
}

/// A world without entries that includes the world at an index, where there is one.
pub fn world(rt: &impl Abort, alloc: Global, name: &str, included: Option<usize>) -> World {
    let mut world = World::new(alloc, text(rt, alloc, name));
    if let Some(index) = included {
        let include = WorldInclude {
            stability: Stability::Unknown,
            id: WorldId::from_index(index),
            names: Items::new(alloc),
            span: Span::unknown(),
        };
        world.includes = list(rt, alloc, [include]);
    }
    world
}

/// The entry of an interface.
pub fn interface_item(index: usize) -> WorldItem {
    WorldItem::interface(InterfaceId::from_index(index))
}

/// The entry of a function under its label.
pub fn function_entry(rt: &impl Abort, alloc: Global, function: Function) -> (WorldKey, WorldItem) {
    let key = label(rt, alloc, function.name.as_str());
    (key, WorldItem::Function(function))
}
