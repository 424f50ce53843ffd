//! A rule of a door, with the name that it is for.
use crate::name::Text;
use door_clerk::Rule;

/// A rule of a door, with the name that it is for.
#[derive(Debug, Drop)]
pub struct NamedRule {
    /// The common name of the certificates that the rule is for, of 1 to 64 bytes. `*` stands for
    /// each name that has no rule, and for connections without a certificate.
    pub name: Text,
    /// What connections of this name may send.
    pub rule: Rule,
    /// How many connections of this name may be open at once. `None` sets no limit.
    pub connections: Option<u16>,
}
