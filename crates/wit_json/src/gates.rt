//! Documentation and feature gates.
ghost use Rattle.std.specs.Prelude.{◌≡◌, ◌++◌, OnOk, codes};
ghost use Rattle.json.specs.Tree.{json_tokens};
ghost use Rattle.wit_json.specs.Gates.{deprecated_member, docs_member, stability_member};
ghost use Rattle.wit_json.specs.Values.{member, object, tagged};
ghost use Rattle.wit_json.specs.steps.Members.{Adds};

use crate::writer::{JsonText, WriteJson};
use std::alloc::AllocError;
use wit_data::{Docs, Stability, Version};

impl JsonText {
    /// Writes the docs of an item, where there are some.
    pub fn docs(&mut self, docs: &Docs) -> Result<(), AllocError>
        ensures { OnOk result (Adds self.old self.new (docs_member docs.now)) }
    {
        let Some(text) = &docs.contents else {
            return Ok(());
        };
        self.key("docs")?;
        self.tagged("contents", text)
    }

    /// Writes the gate of an item, where it has one.
    pub fn stability(&mut self, stability: &Stability) -> Result<(), AllocError>
        ensures { OnOk result (Adds self.old self.new (stability_member stability.now)) }
    {
        match stability {
            Stability::Unknown => Ok(()),
            Stability::Stable { since, deprecated } => {
                self.key("stability")?;
                self.gate("stable", "since", since, deprecated)
            }
            Stability::Unstable {
                feature,
                deprecated,
            } => {
                self.key("stability")?;
                self.gate("unstable", "feature", feature, deprecated)
            }
        }
    }

    /// Writes a gate.
    pub fn gate<T: WriteJson>(
        &mut self,
        tag: &str,
        name: &str,
        value: &T,
        deprecated: &Option<Version>,
    ) -> Result<(), AllocError>
        ensures { OnOk result (self.new
            ≡ self.old
            ++ json_tokens (tagged tag.now (object (member name.now (T.json value.now)
            ++ deprecated_member deprecated.now)))) }
    {
        self.begin_tagged(tag)?;
        self.gate_parts(name, value, deprecated)?;
        self.end_object()
    }

    /// Writes what a gate names, and from which version on the item is deprecated.
    fn gate_parts<T: WriteJson>(
        &mut self,
        name: &str,
        value: &T,
        deprecated: &Option<Version>,
    ) -> Result<(), AllocError>
        ensures { OnOk result (self.new
            ≡ self.old
            ++ json_tokens (object
            (member name.now (T.json value.now) ++ deprecated_member deprecated.now))) }
    {
        self.begin_object()?;
        self.member(name, value)?;
        self.optional("deprecated", deprecated)?;
        self.end_object()
    }
}
