//! Why the first bytes of a connection are no header.

use thiserror::Error;

/// Why the first bytes of a connection are no header, in the order in which it is checked.
#[derive(Clone, Copy, Debug, PartialEq, Eq, Error)]
pub enum HeaderFault {
    /// A read failed before the header's end.
    #[error("a read failed inside the header")]
    Read,
    /// The connection ended before the header's end.
    #[error("the connection ended inside the header")]
    Cut,
    /// The first 12 bytes aren't the signature of version 2.
    #[error("no signature of the PROXY protocol, version 2")]
    Signature,
    /// The version isn't 2, but this number.
    #[error("version {0}, not 2")]
    Version(u8),
    /// The command is neither LOCAL nor PROXY, but this number.
    #[error("command {0}, neither LOCAL nor PROXY")]
    Command(u8),
    /// The byte of the address family and the transport is none of the four known ones.
    #[error("unknown address family and transport {0:#04x}")]
    Family(u8),
    /// Fewer bytes follow than the addresses of the family have.
    #[error("length {found}, but the addresses of its family have {needed} bytes")]
    Length {
        /// How many bytes follow, by the header's length.
        found: u16,
        /// How many bytes the addresses have.
        needed: u16,
    },
    /// More than 520 bytes follow the first 16.
    #[error("length {0}, over the limit of 520 bytes")]
    TooLong(u16),
    /// A TLV goes over the end of what contains it, the SSL TLV has fewer than 5 bytes, or a second
    /// SSL or CN TLV follows the first.
    #[error("a TLV goes over its end, or a second SSL or CN TLV follows the first")]
    Tlv,
    /// The certificate's name is empty, longer than 64 bytes, not UTF-8 or has a control character.
    #[error("a name that is empty, longer than 64 bytes, not UTF-8 or has a control character")]
    Name,
}
