//! A law of headers, the contract of a call that does nothing.

ghost use Rattle.std.specs.Prelude.{◌≡◌, ◌++◌, ℕ, List, Option};
ghost use Rattle.proxy_header.specs.Header.{IsHeader};

/// No header begins another, and each gives one name or none: what follows it changes nothing.
pub fn one_header()
    ensures { (bytes other x y : List ℕ) (name second : Option (List ℕ)) → IsHeader bytes name
        → IsHeader other second → bytes ++ x ≡ other ++ y → (bytes ≡ other) × (name ≡ second) }
{}
