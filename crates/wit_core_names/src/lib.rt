//! The names under which core wasm imports and exports what a world says.
#![tactic(auto)]

mod conditions;
mod export;
mod import;
pub mod laws;
mod legacy;
mod parts;
mod standard;

pub use crate::conditions::{can_name_export, can_name_import};
pub use crate::export::{WasmExport, WasmExportKind, wasm_export_name};
pub use crate::import::{
    FutureIntrinsic, ResourceIntrinsic, StreamIntrinsic, WasmImport, wasm_import_name,
};
