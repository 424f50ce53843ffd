//! A door that was read, and the rule of a connection's name.
ghost use Rattle.std.specs.Prelude.{◌≡◌, ◌≢◌, ◌≤◌, None, Some, option_map, map, length};
ghost use Rattle.std.specs.Prelude.{IfOk, IfErr};
ghost use Rattle.std.specs.List.{position};
ghost use Rattle.std.specs.Str.{bytes_eq};
ghost use Rattle.toml.specs.Parse.{parse_document};
ghost use Rattle.door_file.specs.Rule.{entry_of, place_of_name, place_for, rule_for, IsPlaceFor};
ghost use Rattle.door_file.specs.Faults.{first_fault, fault_in, fault_of_tree};

use crate::fault::DoorFault;
use crate::key::Key;
use crate::rule::NamedRule;
use crate::{document, reading, tree};
use std::alloc::Global;
use std::str;

/// The most bytes of a door's file.
pub const MOST_BYTES: usize = 1_048_576;

/// The name of the rule for all others.
pub const OTHERS: &str = "*";

/// A door: rules with the names that they are for, in the order of the file.
#[derive(Debug, Drop)]
pub struct Door {
    rules: Vec<NamedRule>,
}

impl Door {
    ghost use Rattle.door_file.specs.Door.{rules_of};
    ghost use Rattle.door_file.specs.Meaning.{MeansDoor};

    /// Reads the text of a door's file.
    ///
    /// It accepts exactly the texts that mean a door, apart from a lack of memory, and a fault is
    /// the first one in the file's order. A key that no door has is a fault, unlike in a fare
    /// table: a misspelt `reserved` or `rate` must not open the door. `Memory` is returned if an
    /// allocation was refused, and says nothing of the text. The call allocates what the door holds
    /// and the text's tree.
    pub fn read(alloc: Global, text: &str) -> Result<Door, DoorFault>
        ensures ok { IfOk result (λ door. MeansDoor text.now (rules_of door)) }
        ensures no_fault { IfOk result (λ _. first_fault text.now ≡ None) }
        ensures fault { IfErr result (λ fault. fault ≢ DoorFault.Memory
            → first_fault text.now ≡ Some fault) }
    {
        if text.len() > MOST_BYTES {
            return Err(DoorFault::TooLong);
        }
        Door::read_tree(alloc, text)
    }

    /// Reads the bytes of a door's file. Bytes that are no UTF-8 are no TOML document.
    ///
    /// `Memory` says nothing of the bytes. Any other fault is their first one. A caller reads at
    /// most one byte more than `MOST_BYTES`.
    pub fn read_bytes(alloc: Global, bytes: &[u8]) -> Result<Door, DoorFault>
        ensures ok { IfOk result (λ door. MeansDoor bytes.now (rules_of door)) }
        ensures no_fault { IfOk result (λ _. fault_in bytes.now ≡ None) }
        ensures fault { IfErr result (λ fault. fault ≢ DoorFault.Memory
            → fault_in bytes.now ≡ Some fault) }
    {
        if bytes.len() > MOST_BYTES {
            return Err(DoorFault::TooLong);
        }
        match str::from_utf8(bytes) {
            Ok(text) => Door::read_tree(alloc, text),
            Err(_) => Err(DoorFault::NotToml),
        }
    }

    /// Reads a text that is not too long.
    fn read_tree(alloc: Global, text: &str) -> Result<Door, DoorFault>
        requires { length text.now ≤ MOST_BYTES }
        ensures ok { IfOk result (λ door. MeansDoor text.now (rules_of door)) }
        ensures no_fault { IfOk result (λ _. fault_of_tree (parse_document text.now) ≡ None) }
        ensures fault { IfErr result (λ fault. fault ≢ DoorFault.Memory
            → fault_of_tree (parse_document text.now) ≡ Some fault) }
    {
        let tree = document::read(alloc, text)?;
        let rules = reading::rules_of(alloc, tree::items_at(&tree, Key::Rule))?;
        Ok(Door { rules })
    }

    /// The rules, in the order of the file.
    pub fn rules(&self) -> &[NamedRule]
        ensures { map entry_of result.now ≡ rules_of self.now }
    {
        self.rules.as_slice()
    }

    /// The place in `rules`, counted from 0, of the rule for a connection: that of its
    /// certificate's common name, else that of `*`. A connection without a certificate has no
    /// name. `None` is returned where the door has neither rule: then nothing is allowed.
    pub fn place_for(&self, name: Option<&str>) -> Option<usize>
        ensures value { result
            ≡ place_for (option_map (λ name. name.now) name.entry) (rules_of self.now) }
        ensures rule { IsPlaceFor (option_map (λ name. name.now) name.entry)
            (rules_of self.now) result }
    {
        match name {
            Some(name) => match self.place_of_name(name) {
                Some(place) => Some(place),
                None => self.place_of_name(OTHERS),
            },
            None => self.place_of_name(OTHERS),
        }
    }

    /// The rule for a connection: that of its certificate's common name, else that of `*`. A
    /// connection without a certificate has no name. `None` is returned where the door has neither
    /// rule: then nothing is allowed.
    pub fn rule_for(&self, name: Option<&str>) -> Option<&NamedRule>
        ensures { option_map (λ rule. entry_of rule.now) result
            ≡ rule_for (option_map (λ name. name.now) name.entry) (rules_of self.now) }
    {
        match self.place_for(name) {
            Some(place) => self.rules.as_slice().get(place),
            None => None,
        }
    }

    /// The place of the rule of exactly this name.
    fn place_of_name(&self, name: &str) -> Option<usize>
        ensures { result ≡ place_of_name name.now (rules_of self.now) }
    {
        find_place(self.rules.as_slice(), name)
    }
}

/// The place of the first of these rules that has exactly this name.
fn find_place(rules: &[NamedRule], name: &str) -> Option<usize>
    ensures { result ≡ position (λ rule. bytes_eq rule.name name.now) rules.now }
{
    rules.iter().position(|rule| rule.name.as_str() == name)
}
