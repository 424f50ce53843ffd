//! Journals whose headers don't say what is expected of them.

use super::*;
use crate::tests::of_journal_audit::asking;

/// The header says the first capacity, and the second is expected.
const fn capacity(says: u32, expected: u32) -> AuditFault {
    AuditFault::Header(JournalHeaderFault::Capacity { says, expected })
}

/// The header says the first number of cards, and the second is expected.
const fn cards(says: u32, expected: u32) -> AuditFault {
    AuditFault::Header(JournalHeaderFault::Cards { says, expected })
}

#[test]
fn a_header_is_held_against_what_is_expected(rt: HostRuntime) -> Result<(), Fail> {
    let rows: [(&[(usize, u8)], Option<u32>, Option<u32>); 4] = [
        (&[], Some(5), None),
        (&[], None, Some(10)),
        (&[], Some(5), Some(10)),
        (&[(12, 2), (16, 9)], Some(2), Some(9)),
    ];
    for (changes, capacity, cards) in rows {
        let asked = asking(capacity, cards);
        assert_sound(&rt, asked, &with(FILE, changes), "\nsound\n")?;
    }
    Ok(())
}

#[test]
fn a_lowered_capacity_or_number_of_cards_is_told_with_both(rt: HostRuntime) -> Result<(), Fail> {
    let rows: [(&[(usize, u8)], AuditFault); 5] = [
        (&[(12, 1)], capacity(1, 5)),
        (&[(12, 6)], capacity(6, 5)),
        (&[(16, 9)], cards(9, 10)),
        (&[(15, 1), (16, 0)], cards(256, 10)),
        (&[(12, 1), (16, 9)], capacity(1, 5)),
    ];
    for (changes, want) in rows {
        assert_refused(&rt, asking(Some(5), Some(10)), &with(FILE, changes), want)?;
    }
    // What isn't expected isn't looked at, and the journal's own faults come first.
    assert_sound(
        &rt,
        asking(None, Some(10)),
        &with(FILE, &[(12, 1)]),
        "\nsound\n",
    )?;
    let damaged = journal_fault(JournalFault::Damaged(1));
    assert_refused(
        &rt,
        asking(Some(9), None),
        &with(FILE, &[(129, 9)]),
        damaged,
    )
}

#[test]
fn a_header_is_looked_at_before_a_seal(rt: HostRuntime) -> Result<(), Fail> {
    let mut asked = kept(2, false).ok_or("a seal")?;
    asked.cards = Some(10);
    assert_refused(&rt, asked, &with(FILE, &[(16, 9)]), cards(9, 10))?;
    let changed = AuditFault::Seal(SealFault::Changed);
    assert_refused(&rt, asked, &with(FILE, &[(12, 9)]), changed)
}
