//! The names of the entries of a world.
ghost use Rattle.std.specs.Prelude.{◌≡◌, Some};
ghost use Rattle.std.specs.Char.{is_ascii_digit};
ghost use Rattle.std.specs.List.{list_all};
ghost use Rattle.wit_json.specs.Worlds.{entry_name, is_like_key, wants_mark};

use std::fmt;
use wit_data::WorldKey;

/// The name under which the entry of a key stands: two keys never have one name.
#[derive(Clone, Copy)]
pub struct EntryName<'a>(pub &'a WorldKey);

impl fmt::Display for EntryName<'_> {
    ghost output = { λ name. Some (entry_name name.0.now) };

    fn fmt<W: fmt::Write>(&self, f: &mut fmt::Formatter<W>) -> fmt::Result {
        match self.0 {
            WorldKey::Name(label) => {
                if wants_mark(label.as_str()) {
                    f.write_str("%")?;
                }
                f.write_str(label.as_str())
            }
            WorldKey::Interface(id) => {
                let index = id.index();
                write!(f, "interface-{index}")
            }
        }
    }
}

/// Whether a label could be taken for a key, or for a label with a mark.
fn wants_mark(label: &str) -> bool
    ensures { result ≡ wants_mark label.now }
{
    label.as_bytes().starts_with(b"%") || is_like_key(label.as_bytes())
}

/// Whether a label is `interface-` and digits alone.
fn is_like_key(label: &[u8]) -> bool
    ensures { result ≡ is_like_key label.now }
{
    label.starts_with(b"interface-") && are_digits(&label[10..])
}

/// Whether each byte is a digit.
fn are_digits(bytes: &[u8]) -> bool
    ensures { result ≡ list_all is_ascii_digit bytes.now }
{
    bytes.iter().all(|byte| byte.is_ascii_digit())
}
