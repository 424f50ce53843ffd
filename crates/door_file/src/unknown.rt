//! Keys that no door has.
ghost use Rattle.std.specs.Prelude.{◌≡◌, not, option_map, string_bytes};
ghost use Rattle.std.specs.List.{find};
ghost use Rattle.std.specs.BTreeMap.{keys};
ghost use Rattle.door_file.specs.Faults.{is_key};

use crate::key::Key;
use toml::Table;

/// The first key of a table, in the order of their bytes, that is none of these.
pub fn first_unknown<'a>(table: &'a Table, known: &[Key]) -> Option<&'a String>
    ensures { option_map (λ name. name.now) result
        ≡ find (λ name. not (is_key known.now (string_bytes name))) (keys table.now) }
{
    table.keys().find(|name| !is_key(known, name.as_str()))
}

/// Whether this is the text of one of the keys.
fn is_key(keys: &[Key], name: &str) -> bool
    ensures { result ≡ is_key keys.now name.now }
{
    keys.iter().any(|key| name == key.text())
}
