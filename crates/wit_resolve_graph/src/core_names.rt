//! The names in core wasm of what a `Resolve` has. Each call hands on to the one of the same name over its
//! graph.
ghost use Rattle.std.specs.Prelude.{◌≡◌, IfErr, IfOk, string_bytes, true};
ghost use Rattle.wit_core_names.specs.Names.{can_name_export, can_name_import, export_name, import_names};
ghost use Rattle.wit_graph_data.specs.declared.error_kind.ResolveErrorKind.TheVariants.{OutOfMemory};

use crate::resolve::Resolve;
use std::alloc::Global;
use wit_core_names::{
    WasmExport, WasmImport, can_name_export, can_name_import, wasm_export_name, wasm_import_name,
};
use wit_data::ManglingAndAbi;
use wit_graph_data::ResolveResult;

impl Resolve {
    /// Whether an import has names, the condition of `wasm_import_name`: an interface's key and a resource must have
    /// one; what serves exports of a resource is of an interface; futures and streams have names under the older ones
    /// alone, a type that is given is among those of the function, and only reading, writing and ending these can go
    /// on after the call. The only refusal is want of memory (28).
    pub fn can_name_import(
        &self,
        alloc: Global,
        mangling: ManglingAndAbi,
        import: &WasmImport<'_>,
    ) -> ResolveResult<bool>
        ensures told { IfOk result
            (λ told. told ≡ can_name_import self.now.graph mangling import.now) }
        ensures memory { IfErr result (λ kind. kind ≡ OutOfMemory) }
    {
        can_name_import(alloc, self.graph(), mangling, import)
    }

    /// Whether an export has a name, the condition of `wasm_export_name`: an interface's key and a
    /// resource must have one, and a callback has one under the older names with callbacks alone. It
    /// takes no memory.
    pub fn can_name_export(&self, mangling: ManglingAndAbi, export: &WasmExport<'_>) -> bool
        ensures { result ≡ can_name_export self.now.graph mangling export.now }
    {
        can_name_export(self.graph(), mangling, export)
    }

    /// The module and the field under which core wasm imports it, for what `can_name_import` says has names: see the
    /// table `import_names`. The only refusal is want of memory (28).
    ///
    /// Source: `wasm_import_name` of wit-parser 0.263.0.
    pub fn wasm_import_name(
        &self,
        alloc: Global,
        mangling: ManglingAndAbi,
        import: &WasmImport<'_>,
    ) -> ResolveResult<(String, String)>
        requires { can_name_import self.now.graph mangling import.now ≡ true }
        ensures names { IfOk result (λ names.
            (string_bytes names.0, string_bytes names.1)
            ≡ import_names self.now.graph mangling import.now) }
        ensures memory { IfErr result (λ kind. kind ≡ OutOfMemory) }
    {
        wasm_import_name(alloc, self.graph(), mangling, import)
    }

    /// The name under which core wasm exports it, for what `can_name_export` says has one: see the table
    /// `export_name`. The only refusal is want of memory (28).
    ///
    /// Source: `wasm_export_name` of wit-parser 0.263.0.
    pub fn wasm_export_name(
        &self,
        alloc: Global,
        mangling: ManglingAndAbi,
        export: &WasmExport<'_>,
    ) -> ResolveResult<String>
        requires { can_name_export self.now.graph mangling export.now ≡ true }
        ensures name { IfOk result
            (λ name. string_bytes name ≡ export_name self.now.graph mangling export.now) }
        ensures memory { IfErr result (λ kind. kind ≡ OutOfMemory) }
    {
        wasm_export_name(alloc, self.graph(), mangling, export)
    }
}
