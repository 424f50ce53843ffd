//! The tree of a text.
ghost use Rattle.std.specs.Prelude.{◌≡◌, None, Some, IfOk, IfErr, if◌then◌else◌};
ghost use Rattle.toml.specs.Parse.{parse_document};
ghost use Rattle.toml.specs.View.{table_view};

use std::alloc::Global;
use toml::Table;

/// Why a text has no tree.
#[derive(Clone, Copy, Debug, PartialEq, Eq)]
pub enum TreeFault {
    /// Memory was refused. It says nothing of the text.
    Memory,
    /// The text is no TOML document.
    NotToml,
}

/// The tree of a text, with its keys as they stand there. `NotToml` is returned only if the text is
/// no TOML document.
pub fn parse(alloc: Global, text: &str) -> Result<Table, TreeFault>
    ensures ok { IfOk result (λ tree. parse_document text.now ≡ Some (table_view tree)) }
    ensures fault { IfErr result (λ fault. fault ≡ TreeFault.NotToml
        → parse_document text.now ≡ None) }
{
    match toml::table_from_str(alloc, text) {
        Ok(tree) => Ok(tree),
        Err(error) => Err(fault_of(error.is_memory())),
    }
}

/// The fault of a text that has no tree.
fn fault_of(is_memory: bool) -> TreeFault
    ensures { result ≡ (if is_memory then TreeFault.Memory else TreeFault.NotToml) }
{
    if is_memory {
        TreeFault::Memory
    } else {
        TreeFault::NotToml
    }
}
