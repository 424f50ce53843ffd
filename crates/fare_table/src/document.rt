//! The tree of a table's text, in which each key holds what it must.
ghost use Rattle.std.specs.Prelude.{◌≡◌, ◌≢◌, None, Some, IfOk, IfErr};
ghost use Rattle.std.specs.Prelude.{string_bytes};
ghost use Rattle.toml.specs.Parse.{parse_document};
ghost use Rattle.toml.specs.View.{table_view};
ghost use Rattle.toml_reading.specs.First.{first};
ghost use Rattle.toml_reading.specs.Tree.{text_in};
ghost use Rattle.fare_table.specs.Faults.{key_faults, first_fault};
ghost use Rattle.fare_table.specs.Tree.{value_at};

use crate::fault::TableFault;
use crate::key::Key;
use crate::{checks, tree};
use std::alloc::{AllocError, Global};
use toml::Table;

/// The tree of a text. `NotToml` comes where it is no TOML document, and else the first fault of a
/// key.
pub fn read(alloc: Global, text: &str) -> Result<Table, TableFault>
    ensures ok { IfOk result (λ tree. parse_document text.now ≡ Some (table_view tree)) }
    ensures no_fault { IfOk result (λ tree. first (key_faults (table_view tree)) ≡ None) }
    ensures fault { IfErr result (λ fault. fault ≢ TableFault.Memory
        → first_fault text.now ≡ Some fault) }
{
    let tree = toml_reading::parse(alloc, text)?;
    match checks::first_fault(&tree) {
        Some(fault) => Err(fault),
        None => Ok(tree),
    }
}

/// The text of a tree's zone, which is copied.
pub fn zone_text(alloc: Global, tree: &Table) -> Result<String, AllocError>
    ensures { IfOk result (λ text. string_bytes text
        ≡ text_in (value_at Key.Zone (table_view tree.now))) }
{
    String::from_str(alloc, tree::text_at(tree, Key::Zone))
}
