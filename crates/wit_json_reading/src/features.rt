//! Features and rules of tracks.
ghost use Rattle.std.specs.Prelude.{◌≡◌, [], IfOk, fold};
ghost use Rattle.json.specs.Json as json;
ghost use Rattle.wit_json_reading.specs.Features.{read_features, read_names, read_rule, names_with};
ghost use Rattle.wit_json_reading.specs.Reading.{Reads};

use crate::fault::{Expected, ReadError, instead_of};
use crate::reader::{ReadJson, list, only, required};
use json::Value;
use std::alloc::{AllocError, Global};
use wit_data::{Items, Text, TrackRule};
use wit_graph_data::Features;
use wit_values::NameSet;

impl ReadJson for NameSet {
    ghost reading = { read_names };

    #[tactic(auto, unfolding(crate::specs::Features::read_names))]
    fn read_json(alloc: Global, value: &Value<'_>) -> Result<NameSet, ReadError> {
        let texts = list(alloc, value)?;
        Ok(names(alloc, &texts)?)
    }
}

/// The set of some names.
fn names(alloc: Global, texts: &Items<Text>) -> Result<NameSet, AllocError>
    ensures { IfOk result (λ names. names ≡ fold names_with [] texts.now) }
{
    let mut names = NameSet::new(alloc);
    for text in texts.as_slice() {
        names.insert(alloc, text.as_str())?;
    }
    Ok(names)
}

impl ReadJson for Features {
    ghost reading = { read_features };

    #[tactic(auto, unfolding(crate::specs::Features::read_features))]
    fn read_json(alloc: Global, value: &Value<'_>) -> Result<Features, ReadError> {
        only(alloc, value, &["all", "names"])?;
        let all = required(alloc, value, "all")?;
        let names = required(alloc, value, "names")?;
        Ok(Features { names, all })
    }
}

impl ReadJson for TrackRule {
    ghost reading = { read_rule };

    #[tactic(auto, unfolding(crate::specs::Features::read_rule))]
    fn read_json(alloc: Global, value: &Value<'_>) -> Result<TrackRule, ReadError> {
        match value.as_str() {
            Some(word) => rule_in(alloc, word),
            None => instead_of(alloc, Expected::Text),
        }
    }
}

/// The rule of tracks of a word.
#[tactic(auto, unfolding(crate::specs::Features::read_rule))]
fn rule_in(alloc: Global, word: &str) -> Result<TrackRule, ReadError>
    ensures { Reads result (read_rule (json.string word.now)) }
{
    match word {
        "published" => Ok(TrackRule::Published),
        "with-prereleases" => Ok(TrackRule::WithPrereleases),
        _ => instead_of(alloc, Expected::TrackRule),
    }
}
