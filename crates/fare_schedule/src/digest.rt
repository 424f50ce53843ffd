//! Tables by their digests.

ghost use Rattle.std.specs.Prelude.{◌≡◌, ◌≤◌, IfSome, length};
ghost use Rattle.fare_schedule.specs.Places.{place_from};

use fare_table::{Digest, Fares};

/// The place of the first of these tables that has this digest, counted from 1.
pub(crate) fn place_among(tables: &[Fares], digest: &Digest) -> Option<usize>
    ensures value { result ≡ place_from 1 tables.now digest.now }
    ensures placed { IfSome result (λ place. place ≤ length tables.now) }
{
    for (place, table) in tables.iter().enumerate() {
        if table.digest() == *digest {
            return Some(place + 1);
        }
    }
    None
}
