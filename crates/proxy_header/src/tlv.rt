//! A header's TLVs: a byte with the type, two bytes with the value's length, and the value.

ghost use Rattle.std.specs.Prelude.{◌≡◌, ◌≤◌, ◌++◌, ◌↔◌, ℕ, List, [], length, Option, IsTrue};
ghost use Rattle.std.specs.Prelude.{IfSome, IfNone, IfOk, IfErr, option_copied, option_to_list};
ghost use Rattle.proxy_header.specs.declared.fault.HeaderFault.TheVariants as faults;
ghost use Rattle.proxy_header.specs.Tlvs.{TypeLengthValue, TlvFits, tlv_bytes, IsRow, values_of};
ghost use Rattle.proxy_header.specs.Names.{Shows, IsSsl, IsVerified};

use crate::fault::HeaderFault;

/// The type of the TLV that says how the client connected by TLS.
const KIND_SSL: u8 = 0x20;
/// The type of the TLV inside it that has the common name of the client's certificate.
const KIND_COMMON_NAME: u8 = 0x22;

/// The bit of a client that presented a certificate on this connection.
const CERTIFICATE_NOW: u8 = 0x02;
/// The bit of a client that presented one on an earlier connection of its TLS session.
const CERTIFICATE_BEFORE: u8 = 0x04;

/// The name that TLVs show: that of the client's certificate, if the client presented one and
/// HAProxy verified it. `Err` is `Tlv`.
pub(crate) fn shown_name(bytes: &[u8]) -> Result<Option<&[u8]>, HeaderFault>
    ensures ok { IfOk result (λ shown. Shows bytes.now (option_copied shown)) }
    ensures err { IfErr result (λ fault. (fault ≡ faults.Tlv)
        × ((shown : Option (List ℕ)) → Shows bytes.now shown → ⊥)) }
{
    match only_value(KIND_SSL, bytes)? {
        None => Ok(None),
        Some(ssl) => verified_name(ssl),
    }
}

/// The name that the value of an SSL TLV shows.
fn verified_name(value: &[u8]) -> Result<Option<&[u8]>, HeaderFault>
    ensures ok { IfOk result (λ shown. IsSsl value.now (option_copied shown)) }
    ensures err { IfErr result (λ fault. (fault ≡ faults.Tlv)
        × ((shown : Option (List ℕ)) → IsSsl value.now shown → ⊥)) }
{
    let [client, first, second, third, fourth, tlvs @ ..] = value else {
        return Err(HeaderFault::Tlv);
    };
    let name = only_value(KIND_COMMON_NAME, tlvs)?;
    if is_verified(*client, [*first, *second, *third, *fourth]) {
        Ok(name)
    } else {
        Ok(None)
    }
}

/// Whether the client presented a certificate, and HAProxy's verification of it returned 0.
/// HAProxy also sends 0 if the client presented none.
fn is_verified(client: u8, verify: [u8; 4]) -> bool
    ensures { IsTrue result ↔ IsVerified client verify }
{
    let presented = client & CERTIFICATE_NOW != 0 || client & CERTIFICATE_BEFORE != 0;
    presented && verify == [0; 4]
}

/// The value of the only TLV of this type, or `None` if there is no such TLV. `Err` is `Tlv`: the
/// bytes aren't TLVs, one after the other, or have two of this type.
fn only_value(kind: u8, bytes: &[u8]) -> Result<Option<&[u8]>, HeaderFault>
    ensures ok { IfOk result (λ found. (tlvs : List TypeLengthValue) × IsRow bytes.now tlvs []
        × (values_of kind tlvs ≡ option_to_list (option_copied found))) }
    ensures err { IfErr result (λ fault. (fault ≡ faults.Tlv)
        × ((tlvs : List TypeLengthValue) → IsRow bytes.now tlvs []
        → length (values_of kind tlvs) ≤ 1 → ⊥)) }
{
    let mut found = None;
    let mut rest = bytes;
    while !rest.is_empty() {
        let Some((tlv_kind, value, after)) = split_tlv(rest) else {
            return Err(HeaderFault::Tlv);
        };
        if tlv_kind == kind {
            if found.is_some() {
                return Err(HeaderFault::Tlv);
            }
            found = Some(value);
        }
        rest = after;
    }
    Ok(found)
}

/// The type and the value of the TLV with which the bytes begin, and the bytes after it. `None` if
/// they don't begin with a whole TLV.
fn split_tlv(bytes: &[u8]) -> Option<(u8, &[u8], &[u8])>
    ensures found { IfSome result (λ p.
        let tlv : TypeLengthValue = record { kind = p.0; value = p.1.now } in
        TlvFits tlv × (bytes.now ≡ tlv_bytes tlv ++ p.2.now)) }
    ensures none { IfNone result ((tlv : TypeLengthValue) (rest : List ℕ) → TlvFits tlv
        → bytes.now ≡ tlv_bytes tlv ++ rest → ⊥) }
{
    let [kind, high, low, rest @ ..] = bytes else {
        return None;
    };
    let size = u16::from_be_bytes([*high, *low]) as usize;
    let (value, after) = rest.split_at_checked(size)?;
    Some((*kind, value, after))
}
