//! The header of a connection, and how it is read.

ghost use Rattle.std.specs.Prelude.{◌≡◌, ◌++◌, ◌⊎◌, ℕ, List, Option, Some, Err, option_map};
ghost use Rattle.std.specs.Prelude.{IfOk, IfErr, IsOkAnd, length};
ghost use Rattle.std.specs.Io.KnownBytes.{Consumes, IsAtEnd};
ghost use Rattle.proxy_header.specs.declared.fault.HeaderFault.TheVariants as faults;
ghost use Rattle.proxy_header.specs.Front.{AddressesFit, SaysFront, size_of};
ghost use Rattle.proxy_header.specs.Header.{IsHeader, IsNoHeader, name_of, name_text};

use crate::fault::HeaderFault;
use crate::fill::fill;
use crate::front::{FRONT_SIZE, Front, REST_LIMIT};
use crate::name::Name;
use crate::tlv::shown_name;
use std::io::Read;

/// What a header says.
#[derive(Clone, Copy, Debug, PartialEq, Eq)]
pub struct Header {
    /// The common name of the client's certificate, if the client presented a certificate and
    /// HAProxy verified it. A connection that HAProxy opened for itself (LOCAL) has none.
    pub name: Option<Name>,
}

/// Reads the header with which a connection begins: its 16 to 536 bytes, and no byte of what
/// follows. It allocates no memory.
///
/// `Read` and `Cut` are returned if the header isn't whole when a read fails or the connection
/// ends. The first 16 bytes are checked before more is read, and the TLVs and the name once the
/// header is whole, in the order of `HeaderFault`. After an `Err` the bytes that were read are
/// lost: close the connection.
pub fn read_header<R: Read>(reader: &mut R) -> Result<Header, HeaderFault>
    // What was taken from the reader is the header, all of it and nothing else.
    ensures ok { IfOk result (λ header. (bytes : List ℕ)
        × Consumes (R.remaining reader.old) (R.remaining reader.new) bytes
        × IsHeader bytes (name_of header)) }

    // What was taken is no header, and the fault is why.
    ensures err { IfErr result (λ fault. (bytes : List ℕ)
        × Consumes (R.remaining reader.old) (R.remaining reader.new) bytes
        × IsNoHeader bytes fault) }
    ensures cut { result ≡ Err faults.Cut → IsAtEnd (R.remaining reader.new) }

    // A header that the reader brings whole is read, whatever follows it, unless a read fails.
    ensures again { (bytes more : List ℕ) (name : Option (List ℕ))
        → R.remaining reader.old ≡ Some (bytes ++ more) → IsHeader bytes name
        → (result ≡ Err faults.Read) ⊎ IsOkAnd result (λ header. name_of header ≡ name) }
{
    take_header(reader)
}

/// Takes a header from a reader, or as many bytes as show that none comes.
fn take_header<R: Read>(reader: &mut R) -> Result<Header, HeaderFault>
    ensures ok { IfOk result (λ header. (bytes : List ℕ)
        × Consumes (R.remaining reader.old) (R.remaining reader.new) bytes
        × IsHeader bytes (name_of header)) }
    ensures err { IfErr result (λ fault. (bytes : List ℕ)
        × Consumes (R.remaining reader.old) (R.remaining reader.new) bytes
        × IsNoHeader bytes fault) }
    ensures cut { result ≡ Err faults.Cut → IsAtEnd (R.remaining reader.new) }
{
    let mut first = [0; FRONT_SIZE];
    fill(reader, &mut first)?;
    let front = Front::read(&first)?;
    let mut block = [0; REST_LIMIT];
    let rest = &mut block[..front.size()];
    fill(reader, rest)?;
    let name = name_in(front, rest)?;
    Ok(Header { name })
}

/// The name in the bytes that follow a header's first 16. `Err` is `Tlv` or `Name`.
fn name_in(front: Front, rest: &[u8]) -> Result<Option<Name>, HeaderFault>
    requires whole { length rest.now ≡ size_of front }
    requires fits { AddressesFit front }
    ensures ok { IfOk result (λ name. (first : List ℕ) → SaysFront first front
        → IsHeader (first ++ rest.now) (option_map name_text name)) }
    ensures err { IfErr result (λ fault. (first : List ℕ) → SaysFront first front
        → IsNoHeader (first ++ rest.now) fault) }
    ensures late { IfErr result (λ fault. (fault ≡ faults.Tlv) ⊎ (fault ≡ faults.Name)) }
{
    let Front::Passed { addresses, size: _ } = front else {
        return Ok(None);
    };
    let Some(bytes) = shown_name(&rest[addresses as usize..])? else {
        return Ok(None);
    };
    let Some(name) = Name::read(bytes) else {
        return Err(HeaderFault::Name);
    };
    Ok(Some(name))
}
