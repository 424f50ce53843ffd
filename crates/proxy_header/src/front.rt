//! A header's first 16 bytes: 12 bytes of signature, a byte with the version and the command, a
//! byte with the address family and the transport, and two bytes with the number of the bytes that
//! follow.

ghost use Rattle.std.specs.Prelude.{◌≡◌, ℕ, IfSome, IfNone};
ghost use Rattle.proxy_header.specs.Front.{IsFront, HasAddresses, front_bytes, size_of};

use crate::fault::HeaderFault;

/// The bytes that come before a header's length is known.
pub(crate) const FRONT_SIZE: usize = 16;
/// The most bytes that may follow the first 16.
pub(crate) const REST_LIMIT: usize = 520;

/// What a header of version 2 begins with.
const SIGNATURE: [u8; 12] = [
    0x0d, 0x0a, 0x0d, 0x0a, 0x00, 0x0d, 0x0a, 0x51, 0x55, 0x49, 0x54, 0x0a,
];
/// The version, in the upper half of its byte.
const VERSION: u8 = 2;
/// The command of a connection that HAProxy opened for itself.
const COMMAND_LOCAL: u8 = 0;
/// The command of a connection that HAProxy passes on.
const COMMAND_PROXY: u8 = 1;

/// What a header's first 16 bytes say of the bytes that follow.
#[derive(Clone, Copy, Debug, PartialEq, Eq)]
pub(crate) enum Front {
    /// HAProxy opened the connection for itself, and so many bytes follow, which say nothing.
    Local(u16),
    /// HAProxy passes a connection on.
    Passed {
        /// How many of the bytes that follow are addresses; TLVs come after them.
        addresses: u16,
        /// How many bytes follow.
        size: u16,
    },
}

impl Front {
    /// Reads a header's first 16 bytes.
    pub(crate) fn read(bytes: &[u8; FRONT_SIZE]) -> Result<Front, HeaderFault>
        ensures { IsFront bytes.now result }
    {
        let (signature, fields) = bytes.split_at(SIGNATURE.len());
        if signature != SIGNATURE.as_slice() {
            return Err(HeaderFault::Signature);
        }
        let [start, family, high, low] = fields else {
            return Err(HeaderFault::Signature);
        };
        let size = u16::from_be_bytes([*high, *low]);
        front_of(*start, *family, size)
    }

    /// How many bytes follow the first 16.
    pub(crate) fn size(self) -> usize
        ensures { result ≡ size_of self }
    {
        match self {
            Front::Local(size) => size as usize,
            Front::Passed { addresses: _, size } => size as usize,
        }
    }
}

/// What these fields say, in their order.
fn front_of(start: u8, family: u8, size: u16) -> Result<Front, HeaderFault>
    ensures { IsFront (front_bytes start family size) result }
{
    if start / 16 != VERSION {
        return Err(HeaderFault::Version(start / 16));
    }
    match start % 16 {
        COMMAND_LOCAL => local(size),
        COMMAND_PROXY => passed(family, size),
        command => Err(HeaderFault::Command(command)),
    }
}

/// What LOCAL says, whatever the family.
fn local(size: u16) -> Result<Front, HeaderFault>
    ensures { (family : ℕ) → IsFront (front_bytes 0x20 family size) result }
{
    if size as usize > REST_LIMIT {
        return Err(HeaderFault::TooLong(size));
    }
    Ok(Front::Local(size))
}

/// What PROXY says with this family.
fn passed(family: u8, size: u16) -> Result<Front, HeaderFault>
    ensures { IsFront (front_bytes 0x21 family size) result }
{
    let Some(addresses) = addresses_of(family) else {
        return Err(HeaderFault::Family(family));
    };
    if size < addresses {
        return Err(HeaderFault::Length {
            found: size,
            needed: addresses,
        });
    }
    if size as usize > REST_LIMIT {
        return Err(HeaderFault::TooLong(size));
    }
    Ok(Front::Passed { addresses, size })
}

/// How many bytes the addresses of a family and transport have: TCP over IPv4, TCP over IPv6, a
/// stream of a Unix socket, and unspecified ones.
fn addresses_of(family: u8) -> Option<u16>
    ensures found { IfSome result (λ size. HasAddresses family size) }
    ensures none { IfNone result ((size : ℕ) → HasAddresses family size → ⊥) }
{
    match family {
        0x00 => Some(0),
        0x11 => Some(12),
        0x21 => Some(36),
        0x31 => Some(216),
        _ => None,
    }
}
