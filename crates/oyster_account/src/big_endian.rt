//! Numbers at the front of bytes, big-endian: the highest byte comes first.

ghost use Rattle.std.specs.Prelude.{◌≡◌, ◌<◌, ◌^◌, ◌++◌, ℕ, ℤ, List, IfSome, IsSomeAnd};
ghost use Rattle.std.specs.Int.{w16, w32, to_be_bytes, cast_unsigned};
ghost use Rattle.std.specs.Int.RustNames.{FitsSigned};

/// The number in the first two bytes, and the bytes after it. `None` where there are fewer.
pub fn read_u16(bytes: &[u8]) -> Option<(u16, &[u8])>
    // What is read stands at the front.
    ensures found { IfSome result (λ p. bytes.now ≡ to_be_bytes w16 p.0 ++ p.1.now) }
    // What stands at the front is read, whatever follows.
    ensures again { (n : ℕ) (rest : List ℕ) → n < 2 ^ 16 → bytes.now ≡ to_be_bytes w16 n ++ rest
        → IsSomeAnd result (λ p. (p.0 ≡ n) × (p.1.now ≡ rest)) }
{
    let [first, second, rest @ ..] = bytes else {
        return None;
    };
    Some((u16::from_be_bytes([*first, *second]), rest))
}

/// The number in the first four bytes, and the bytes after it. `None` where there are fewer.
pub fn read_u32(bytes: &[u8]) -> Option<(u32, &[u8])>
    // What is read stands at the front.
    ensures found { IfSome result (λ p. bytes.now ≡ to_be_bytes w32 p.0 ++ p.1.now) }
    // What stands at the front is read, whatever follows.
    ensures again { (n : ℕ) (rest : List ℕ) → n < 2 ^ 32 → bytes.now ≡ to_be_bytes w32 n ++ rest
        → IsSomeAnd result (λ p. (p.0 ≡ n) × (p.1.now ≡ rest)) }
{
    let [first, second, third, fourth, rest @ ..] = bytes else {
        return None;
    };
    let number = u32::from_be_bytes([*first, *second, *third, *fourth]);
    Some((number, rest))
}

/// The number of 32 bits and of two's complement in the first four bytes, and the bytes after it.
/// `None` where there are fewer.
pub fn read_i32(bytes: &[u8]) -> Option<(i32, &[u8])>
    // What is read stands at the front.
    ensures found { IfSome result (λ p. bytes.now
        ≡ to_be_bytes w32 (cast_unsigned w32 p.0) ++ p.1.now) }
    // What stands at the front is read, whatever follows.
    ensures again { (n : ℤ) (rest : List ℕ) → FitsSigned w32 n
        → bytes.now ≡ to_be_bytes w32 (cast_unsigned w32 n) ++ rest
        → IsSomeAnd result (λ p. (p.0 ≡ n) × (p.1.now ≡ rest)) }
{
    let (number, rest) = read_u32(bytes)?;
    Some((number.cast_signed(), rest))
}
