//! Each fault of a statement (FAULTS.md), in the order of the causes. Nothing is written.

use super::*;

/// A card above those of the journal.
const ABOVE: u32 = 21;

/// Offsets of the journal of `sound_deeds`, each with a wrong byte and the line of its fault, in
/// the order of the causes: a closed mark, another version, a capacity of 0, another digest, a
/// touch of no kind, a second and a third touch with the number of the first, a third touch with
/// the digest of no table, and a fourth touch with the number of the first.
const WRONG: [(usize, u8, &str); 9] = [
    (0, 0, "fault journal 3 NotAJournal"),
    (8, b'9', "fault journal 4 WrongVersion"),
    (12, 0, "fault journal 10 BadLimit"),
    (17, 0, "fault journal 5 WrongTable"),
    (65, 9, "fault journal 7 Damaged 0"),
    (135, 0, "fault journal 7 Damaged 1"),
    (199, 0, "fault journal 7 Damaged 2"),
    (204, 0, "fault journal 13 MissingTable 2"),
    (263, 0, "fault journal 7 Damaged 3"),
];

/// The card is issued and topped up. A revision to the first table follows, and a touch in of a
/// card that wasn't issued.
fn sound_deeds() -> [Deed; 4] {
    let act = Act::Revise {
        digest: EXAMPLE_DIGEST,
        day: 20_100,
        moment: at(0, 7, 0),
    };
    [
        issue(at(0, 6, 30)),
        top_up(2_000, at(0, 6, 30)),
        (1, act),
        by(18, enter(2, at(0, 8, 0))),
    ]
}

/// Writes a byte at an offset.
fn put(bytes: &mut Vec<u8>, offset: usize, byte: u8) -> Result<(), Fail> {
    *bytes.get_mut(offset).ok_or("a byte")? = byte;
    Ok(())
}

/// The bytes with each byte of `WRONG`.
fn all_wrong(alloc: Global, sound: &[u8]) -> Result<Vec<u8>, Fail> {
    let mut bytes = sound.to_vec(alloc)?;
    for (offset, byte, _) in WRONG {
        put(&mut bytes, offset, byte)?;
    }
    Ok(bytes)
}

/// Nothing is written for this card, and the fault has this line.
fn assert_refused<R: Abort + AllocGlobal>(
    rt: &R,
    card: u32,
    bytes: &[u8],
    want: &str,
) -> Result<(), Fail> {
    let asked = Asked {
        card,
        days: ALL,
        format: StatementFormat::Text,
    };
    let schedule = example(rt.alloc()).ok_or("a schedule")?;
    let (text, line) = printed(rt.alloc(), schedule, asked, bytes)?;
    assert_same_at(rt, line.as_str(), want, card);
    assert_same_at(rt, text.as_str(), "", card);
    Ok(())
}

#[test]
fn the_first_cause_is_the_fault_and_nothing_is_written(rt: HostRuntime) -> Result<(), Fail> {
    let alloc = rt.alloc();
    let sound = journal(alloc, &sound_deeds()).ok_or("a journal")?;
    let mut bytes = all_wrong(alloc, &sound)?;
    // Each fault is returned until its byte is right. The last fault is that of the card.
    for (offset, _, want) in WRONG {
        assert_refused(&rt, ABOVE, &bytes, want)?;
        let right = *sound.get(offset).ok_or("a byte")?;
        put(&mut bytes, offset, right)?;
    }
    assert_refused(&rt, ABOVE, &bytes, "fault card 21 above 20")
}

#[test]
fn a_card_that_is_not_there_has_no_statement(rt: HostRuntime) -> Result<(), Fail> {
    let alloc = rt.alloc();
    let bytes = journal(alloc, &sound_deeds()).ok_or("a journal")?;
    // A refused touch issues no card, and a revision belongs to none.
    for (card, want) in [
        (0, "fault card 0 not issued"),
        (1, "fault card 1 not issued"),
        (18, "fault card 18 not issued"),
        (20, "fault card 20 not issued"),
        (21, "fault card 21 above 20"),
        (100_000, "fault card 100000 above 20"),
    ] {
        assert_refused(&rt, card, &bytes, want)?;
    }
    let empty = journal(alloc, &[]).ok_or("a journal")?;
    assert_refused(&rt, CARD, &empty, "fault card 17 not issued")?;
    assert_refused(&rt, CARD, &[], "fault journal 3 NotAJournal")
}
