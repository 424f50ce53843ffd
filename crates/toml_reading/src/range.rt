//! Whole numbers and counts, with their ranges.
ghost use Rattle.std.specs.Prelude.{◌≡◌, ◌≤◌, IfSome, is_some};
ghost use Rattle.std.specs.List.{list_all};
ghost use Rattle.toml.specs.Data.{as_integer};
ghost use Rattle.toml.specs.View.{view};
ghost use Rattle.toml_reading.specs.Range.{whole_in, whole_of, is_count};

use toml::Value;

/// The whole number that a value is, where it is one from the lowest to the highest.
pub fn whole_in(value: &Value, low: u32, high: u32) -> Option<u32>
    ensures value { result ≡ whole_in low high (view value.now) }
    ensures bound { IfSome result (λ number. number ≤ high) }
{
    whole_of(value.as_integer(), low, high)
}

/// The number, where it is there and from the lowest to the highest.
fn whole_of(whole: Option<i64>, low: u32, high: u32) -> Option<u32>
    ensures value { result ≡ whole_of low high whole }
    ensures bound { IfSome result (λ number. number ≤ high) }
{
    let whole = whole?;
    if i64::from(low) <= whole && whole <= i64::from(high) {
        Some(whole as u32)
    } else {
        None
    }
}

/// Whether each item of a list is a whole number, of any range.
pub fn are_whole(items: &[Value]) -> bool
    ensures { result ≡ list_all (λ item. is_some (as_integer (view item))) items.now }
{
    items.iter().all(|item| item.is_integer())
}

/// Whether the count, such as that of a list's items or of a text's bytes, is from the least to the
/// most.
pub fn is_count(count: usize, least: usize, most: usize) -> bool
    ensures { result ≡ is_count least most count }
{
    least <= count && count <= most
}
