//! The functions of resources, which stand in the braces of these.
ghost use Rattle.std.specs.Prelude.{◌≡◌, ◌++◌, [], IfOk, OnOk, codes, flat_map, ℕ};
ghost use Rattle.std.specs.Map.{values_of};
ghost use Rattle.wit_data.specs.Entries.{Entry};
ghost use Rattle.wit_print.specs.Functions.{method_of};
ghost use Rattle.wit_print.specs.Interfaces.{methods_wit};
ghost use Rattle.wit_print.specs.Worlds.{item_functions};
ghost use Rattle.wit_print.specs.steps.Methods.{text_under};

use crate::functions::resource_around;
use crate::printer::Printer;
use std::alloc::{AllocError, Global};
use std::collections::BTreeMap;
use wit_data::{Function, Names, Table, TypeId, WorldItem, WorldKey};

/// What stands in the braces of resources. It is made by one pass over the functions of a scope, since a pass
/// for each resource would make the time a product.
#[derive(Drop)]
pub struct Methods {
    texts: BTreeMap<TypeId, String>,
}

impl Methods {
    /// Nothing.
    pub fn new(alloc: Global) -> Methods
        ensures { (r : ℕ) → text_under result r ≡ [] }
    {
        Methods {
            texts: BTreeMap::new(alloc),
        }
    }

    /// What stands in the braces of a resource.
    pub fn of(&self, resource: TypeId) -> &str
        ensures { result.now ≡ text_under self.now resource }
    {
        match self.texts.get(&resource) {
            Some(text) => text.as_str(),
            None => "",
        }
    }
}

impl Printer<'_> {
    /// The methods of the functions of an interface, four spaces further in than it.
    #[tactic(auto, unfolding(crate::specs::Interfaces::methods_wit))]
    pub fn methods_among(&self, functions: &Names<Function>) -> Result<Methods, AllocError>
        ensures { IfOk result (λ methods. (r : ℕ) → text_under methods r
            ≡ methods_wit self.now.graph.now.types (self.now.indent.now ++ codes "  ")
            (values_of functions.now) r) }
    {
        let indent = self.much_further_in()?;
        let (graph, home) = (self.graph, self.home);
        let printer = Printer::new(self.alloc, graph, home, indent.as_str(), self.methods);
        let mut methods = Methods::new(self.alloc);
        for (_, function) in functions.iter() {
            printer.add_method(function, &mut methods)?;
        }
        Ok(methods)
    }

    /// The methods of the functions that a world imports, four spaces further in than it.
    #[tactic(auto, unfolding(crate::specs::Interfaces::methods_wit))]
    pub fn imported_methods(
        &self,
        imports: &Table<WorldKey, WorldItem>,
    ) -> Result<Methods, AllocError>
        ensures { IfOk result (λ methods. (r : ℕ) → text_under methods r
            ≡ methods_wit self.now.graph.now.types (self.now.indent.now ++ codes "  ")
            (flat_map (λ (e : Entry). item_functions e.1) imports.now) r) }
    {
        let indent = self.much_further_in()?;
        let (graph, home) = (self.graph, self.home);
        let printer = Printer::new(self.alloc, graph, home, indent.as_str(), self.methods);
        let mut methods = Methods::new(self.alloc);
        for (_, item) in imports.iter() {
            if let WorldItem::Function(function) = item {
                printer.add_method(function, &mut methods)?;
            }
        }
        Ok(methods)
    }

    /// Adds a function to those of its resource, if it stands in the braces of one.
    fn add_method(&self, function: &Function, methods: &mut Methods) -> Result<(), AllocError>
        ensures { OnOk result ((r : ℕ) → text_under methods.new r
            ≡ text_under methods.old r
            ++ method_of self.now.graph.now.types self.now.indent.now r function.now) }
    {
        let Some(resource) = resource_around(self.types(), function.kind) else {
            return Ok(());
        };
        let mut text = match methods.texts.remove(&resource) {
            Some(text) => text,
            None => String::new(self.alloc),
        };
        self.write_method(function, &mut text)?;
        methods
            .texts
            .insert(resource, text)
            .map_err(AllocError::from)?;
        Ok(())
    }
}
