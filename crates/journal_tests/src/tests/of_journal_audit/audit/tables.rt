//! Journals that are held against fare tables.

use super::*;
use crate::tests::of_journal_audit::{EXAMPLE_DIGEST, example, fault_with, table_fault};
use tap_journal::Discrepancy;

/// The digest in the journal of two touches.
const FILE_DIGEST: [u8; 32] = *b"0123456789abcdef0123456789abcdef";

/// The slot of a revision of gate 7 with number 6, from fare day 20095 on, but for the table's
/// digest.
const REVISION: [u8; 12] = *b"\xa5\x06\x00\x07\x00\x00\x00\x06\x00\x00\x00\x00";

/// The journal of two touches, of the example table.
pub(super) fn of_example() -> [u8; 193] {
    let mut bytes = FILE;
    bytes[17..49].copy_from_slice(&EXAMPLE_DIGEST);
    bytes
}

/// The bytes with a piece of them written over, from a place on.
fn over(bytes: [u8; 193], at: usize, piece: &[u8]) -> [u8; 193] {
    let mut bytes = bytes;
    for (place, byte) in piece.iter().enumerate() {
        if let Some(there) = bytes.get_mut(at.saturating_add(place)) {
            *there = *byte;
        }
    }
    bytes
}

/// How the audit of some bytes ends that is held against the example table.
fn ended(alloc: Global, bytes: &[u8]) -> Option<Result<Finding, AuditFault>> {
    let schedule = example(alloc)?;
    let mut written = Vec::new(alloc);
    Some(audit_journal(
        alloc,
        NameHashing::fixed(),
        Some(schedule),
        SOUND,
        bytes,
        &mut written,
    ))
}

#[test]
fn a_journal_is_held_against_its_first_table(rt: HostRuntime) -> Result<(), Fail> {
    let alloc = rt.alloc();
    let wrong = table_fault(FILE_DIGEST, EXAMPLE_DIGEST);
    let sound = Ok(Finding::Sound);
    assert_same(&rt, ended(alloc, &of_example()).ok_or("tables")?, sound);
    assert_same(&rt, ended(alloc, &FILE).ok_or("tables")?, Err(wrong));
    Ok(())
}

#[test]
fn the_first_touch_that_no_opening_enters_is_told(rt: HostRuntime) -> Result<(), Fail> {
    let alloc = rt.alloc();
    let twice = over(of_example(), 135, &[1]);
    let damaged = journal_fault(JournalFault::Damaged(1));
    assert_same(&rt, ended(alloc, &twice).ok_or("tables")?, Err(damaged));
    // The second touch is a revision, to the first table and then to one that isn't there.
    let revised = revised();
    let sound = Ok(Finding::Sound);
    assert_same(&rt, ended(alloc, &revised).ok_or("tables")?, sound);
    let revised = over(revised, 140, &[0]);
    let mut digest = EXAMPLE_DIGEST;
    digest[0] = 0;
    let revision = Discrepancy::Revision {
        day: 20_095,
        is_accepted: true,
        digest,
    };
    let missing = fault_with(JournalFault::MissingTable(1), revision);
    assert_same(&rt, ended(alloc, &revised).ok_or("tables")?, Err(missing));
    // Where no table is named, no revision is looked up.
    assert_sound(&rt, SOUND, &revised, "\nsound\n")
}

/// The journal whose second touch is a revision to the example table, from 2025-01-07 on.
fn revised() -> [u8; 193] {
    let digest = over(over(of_example(), 128, &REVISION), 140, &EXAMPLE_DIGEST);
    over(digest, 172, b"\x00\x00\x4e\x7f\x67\x7b\x8d\x80")
}

#[test]
fn revisions_have_their_lines(rt: HostRuntime) -> Result<(), Fail> {
    let alloc = rt.alloc();
    let line = "\nrevision 1 2025-01-07 \
        1708bef1d8124f49753d74c29fa7192b3da703a42481f59504b76a41ec002428";
    let alone = format!(in alloc; "{line}\nsound\n")?;
    assert_sound(&rt, SOUND, &revised(), alone.as_str())?;
    let schedule = example(alloc).ok_or("tables")?;
    let mut written = Vec::new(alloc);
    let ended = audit_journal(
        alloc,
        NameHashing::fixed(),
        Some(schedule),
        SOUND,
        &revised(),
        &mut written,
    );
    assert_same(&rt, ended, Ok(Finding::Sound));
    let judged = format!(in alloc; "{line} Revised\nsound\n")?;
    let text = String::from_utf8(written).ok().ok_or("a text")?;
    assert_of(&rt, text.as_str(), text.ends_with(judged.as_str()));
    Ok(())
}
