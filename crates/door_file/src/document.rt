//! The tree of a file's text, in which each key holds what it must.
ghost use Rattle.std.specs.Prelude.{◌≡◌, ◌≢◌, None, Some, IfOk, IfErr};
ghost use Rattle.toml.specs.Parse.{parse_document};
ghost use Rattle.toml.specs.View.{table_view};
ghost use Rattle.toml_reading.specs.First.{first};
ghost use Rattle.door_file.specs.Faults.{faults, fault_of_tree};

use crate::fault::DoorFault;
use crate::problems;
use std::alloc::Global;
use toml::Table;

/// The tree of a text. `NotToml` is returned if the text is no TOML document, else the first fault
/// of the tree.
pub fn read(alloc: Global, text: &str) -> Result<Table, DoorFault>
    ensures ok { IfOk result (λ tree. parse_document text.now ≡ Some (table_view tree)) }
    ensures no_fault { IfOk result (λ tree. first (faults (table_view tree)) ≡ None) }
    ensures fault { IfErr result (λ fault. fault ≢ DoorFault.Memory
        → fault_of_tree (parse_document text.now) ≡ Some fault) }
{
    let tree = toml_reading::parse(alloc, text)?;
    match problems::check(alloc, &tree) {
        Err(fault) => Err(fault),
        Ok(()) => Ok(tree),
    }
}
