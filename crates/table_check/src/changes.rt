//! What one table says otherwise than another, a line for each place.

ghost use Rattle.std.specs.Prelude.{◌≡◌, IfOk, string_bytes, option_map};
ghost use Rattle.table_check.specs.Changes.{value_among, is_among, line_if_other, line_if_new};
ghost use Rattle.table_check.specs.Changes.{line_of, first_line_of};
ghost use Rattle.table_check.specs.Changes.{lines_of_old, lines_of_new, changes_of};

use crate::reading::Said;
use std::alloc::{AllocError, Global};

/// What stands for the value where a table says nothing.
const NOTHING: &str = "none";

/// The places at which two tables differ, a line each: first those of the old table, in its order,
/// and then those that the new one alone has. A place that a table lists twice, as a holiday may
/// be, has one line, where it stands first. Tables that say the same give no line.
pub fn changes_of(alloc: Global, old: &[Said], new: &[Said]) -> Result<String, AllocError>
    ensures { IfOk result (λ text. string_bytes text ≡ changes_of old.now new.now) }
{
    let mut text = old_lines(alloc, old, new)?;
    let others = new_lines(alloc, old, new)?;
    text.push_str(&others)?;
    Ok(text)
}

/// The lines of the places of the old table.
fn old_lines(alloc: Global, old: &[Said], new: &[Said]) -> Result<String, AllocError>
    ensures { IfOk result (λ text. string_bytes text ≡ lines_of_old new.now old.now) }
{
    let mut text = String::new(alloc);
    for (row, said) in old.iter().enumerate() {
        let line = other_line(alloc, &old[..row], said, new)?;
        text.push_str(&line)?;
    }
    Ok(text)
}

/// The lines of the places that the new table alone has.
fn new_lines(alloc: Global, old: &[Said], new: &[Said]) -> Result<String, AllocError>
    ensures { IfOk result (λ text. string_bytes text ≡ lines_of_new old.now new.now) }
{
    let mut text = String::new(alloc);
    for (row, said) in new.iter().enumerate() {
        let line = new_line(alloc, old, &new[..row], said)?;
        text.push_str(&line)?;
    }
    Ok(text)
}

/// The line of a place of the old table, empty where the new one says the same, or where the place
/// stands before.
fn other_line(
    alloc: Global,
    before: &[Said],
    said: &Said,
    new: &[Said],
) -> Result<String, AllocError>
    ensures { IfOk result
        (λ text. string_bytes text ≡ line_if_other new.now before.now said.now) }
{
    match value_among(new, &said.place) {
        Some(value) if *value == *said.value => Ok(String::new(alloc)),
        Some(value) => first_line_of(alloc, before, &said.place, &said.value, value),
        None => first_line_of(alloc, before, &said.place, &said.value, NOTHING),
    }
}

/// The line of a place of the new table, empty where the old one has it too, or where it stands
/// before.
fn new_line(alloc: Global, old: &[Said], before: &[Said], said: &Said) -> Result<String, AllocError>
    ensures { IfOk result (λ text. string_bytes text ≡ line_if_new old.now before.now said.now) }
{
    match value_among(old, &said.place) {
        Some(_) => Ok(String::new(alloc)),
        None => first_line_of(alloc, before, &said.place, NOTHING, &said.value),
    }
}

/// The line of a place, with both values, where the place doesn't stand before; else it is empty.
fn first_line_of(
    alloc: Global,
    before: &[Said],
    place: &str,
    old: &str,
    new: &str,
) -> Result<String, AllocError>
    ensures { IfOk result
        (λ text. string_bytes text ≡ first_line_of before.now place.now old.now new.now) }
{
    if is_among(before, place) {
        return Ok(String::new(alloc));
    }
    line_of(alloc, place, old, new)
}

/// Whether something is said of a place.
fn is_among(said: &[Said], place: &str) -> bool
    ensures { result ≡ is_among place.now said.now }
{
    match value_among(said, place) {
        Some(_) => true,
        None => false,
    }
}

/// What a table says at a place, where it has it.
fn value_among<'a>(said: &'a [Said], place: &str) -> Option<&'a str>
    ensures { option_map (λ value. value.now) result ≡ value_among place.now said.now }
{
    for one in said {
        if *one.place == *place {
            return Some(&one.value);
        }
    }
    None
}

/// The line of a place, with both values.
fn line_of(alloc: Global, place: &str, old: &str, new: &str) -> Result<String, AllocError>
    ensures { IfOk result (λ text. string_bytes text ≡ line_of place.now old.now new.now) }
{
    format!(in alloc; "{place}: {old} -> {new}\n")
}
