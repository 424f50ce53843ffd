//! A connection of a gate, as a line gives it.

use proxy_header::Name;

/// A connection of a gate.
#[derive(Drop)]
pub struct Connection<R, W> {
    /// What its requests come from.
    pub reader: R,
    /// What its answers go to.
    pub writer: W,
    /// The common name of the gate's certificate, if a proxy has verified one.
    pub name: Option<Name>,
}
