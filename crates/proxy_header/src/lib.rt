//! The header with which HAProxy begins a connection that it passes on: the PROXY protocol, version
//! 2. `read_header` reads it, no byte of what follows it, and gives the name of the client's
//! certificate, if HAProxy has verified one.
#![tactic(auto)]

mod fault;
mod fill;
mod front;
mod header;
mod laws;
mod name;
mod tlv;

pub use fault::HeaderFault;
pub use header::{Header, read_header};
pub use laws::one_header;
pub use name::Name;
