//! The values that everything else is made of.
ghost use Rattle.wit_json.specs.Values.{json_of_number, json_of_text, json_of_version, list_of, null_or, object_under_names, pair};

use crate::writer::{JsonText, WriteJson};
use std::alloc::AllocError;
use wit_data::{InterfaceId, Items, Names, PackageId, Text, TypeId, Version, WorldId};

impl WriteJson for Text {
    ghost json = { json_of_text };

    fn write_json(&self, out: &mut JsonText) -> Result<(), AllocError> {
        out.string(self.as_str())
    }
}

impl WriteJson for TypeId {
    ghost json = { json_of_number };

    fn write_json(&self, out: &mut JsonText) -> Result<(), AllocError> {
        out.number(self.index() as u64)
    }
}

impl WriteJson for InterfaceId {
    ghost json = { json_of_number };

    fn write_json(&self, out: &mut JsonText) -> Result<(), AllocError> {
        out.number(self.index() as u64)
    }
}

impl WriteJson for WorldId {
    ghost json = { json_of_number };

    fn write_json(&self, out: &mut JsonText) -> Result<(), AllocError> {
        out.number(self.index() as u64)
    }
}

impl WriteJson for PackageId {
    ghost json = { json_of_number };

    fn write_json(&self, out: &mut JsonText) -> Result<(), AllocError> {
        out.number(self.index() as u64)
    }
}

impl WriteJson for Version {
    ghost json = { json_of_version };

    fn write_json(&self, out: &mut JsonText) -> Result<(), AllocError> {
        let alloc = out.allocator();
        let text = format!(in alloc; "{self}")?;
        out.string(text.as_str())
    }
}

impl WriteJson for u32 {
    ghost json = { json_of_number };

    fn write_json(&self, out: &mut JsonText) -> Result<(), AllocError> {
        out.number(u64::from(*self))
    }
}

/// A list of two values.
impl<A: WriteJson, B: WriteJson> WriteJson for (A, B) {
    ghost json = { λ p. pair (A.json p.0) (B.json p.1) };

    fn write_json(&self, out: &mut JsonText) -> Result<(), AllocError> {
        out.begin_array()?;
        self.0.write_json(out)?;
        self.1.write_json(out)?;
        out.end_array()
    }
}

/// `null` where it isn't there.
impl<T: WriteJson> WriteJson for Option<T> {
    ghost json = { null_or T.json };

    fn write_json(&self, out: &mut JsonText) -> Result<(), AllocError> {
        match self {
            Some(value) => value.write_json(out),
            None => out.null(),
        }
    }
}

impl<T: WriteJson> WriteJson for Items<T> {
    ghost json = { list_of T.json };

    fn write_json(&self, out: &mut JsonText) -> Result<(), AllocError> {
        out.list(self.as_slice())
    }
}

impl<T: WriteJson> WriteJson for Names<T> {
    ghost json = { object_under_names T.json };

    fn write_json(&self, out: &mut JsonText) -> Result<(), AllocError> {
        out.begin_object()?;
        for (name, value) in self.iter() {
            out.member(name, value)?;
        }
        out.end_object()
    }
}
