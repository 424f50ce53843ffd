//! Each verdict by its name, revisions, and the touches of a card and of a day.

use super::*;

/// A revision of gate 7 from fare day 20095, 2025-01-07, to the example table itself, and one more
/// from the same day.
const REVISIONS: [&str; 2] = [
    "00330600070000000900000009\
    1708bef1d8124f49753d74c29fa7192b3da703a42481f59504b76a41ec00242800004e7f677b8d80",
    "00330600070000000a00000009\
    1708bef1d8124f49753d74c29fa7192b3da703a42481f59504b76a41ec00242800004e7f677b8d80",
];

/// Their rows behind the four first touches. The card number 9 that they carry is no card's.
const REVISED: [&str; 2] = [
    "4,2025-01-06T08:00:00Z,2025-01-07,7,9,,revision,\
    1708bef1d8124f49753d74c29fa7192b3da703a42481f59504b76a41ec002428,,Revised,0,0",
    "5,2025-01-06T08:00:00Z,2025-01-07,7,10,,revision,\
    1708bef1d8124f49753d74c29fa7192b3da703a42481f59504b76a41ec002428,,BadDay,0,0",
];

/// Touches of the cards 1 and 2 on 2025-01-06, each with the end of its row. By FARES.md,
/// "Worked examples": issue, top up 9001, 50000, 50001, 9000, 1, issue again, in at 9; on another
/// card issue, top up 189, 08:00 in at 2, top up 1, 08:00 in at 2, 07:59 out at 2; and cards that
/// weren't issued.
const TOUCHES: [(&str, &str); 14] = [
    ("000f0400010000000100000002677b8b28", ",issue,,,Issued,0,0"),
    (
        "0013030001000000020000000200002329677b8b28",
        ",top-up,,9001,OverLimit,0,0",
    ),
    (
        "001303000100000003000000020000c351677b8b28",
        ",top-up,,50001,BadAmount,0,0",
    ),
    (
        "0013030001000000040000000200002328677b8b28",
        ",top-up,,9000,ToppedUp,9000,9000",
    ),
    (
        "000f0400010000000500000002677b8b28",
        ",issue,,,AlreadyIssued,0,9000",
    ),
    (
        "001101000100000006000000020009677b8d80",
        ",in,9,,UnknownStation,0,9000",
    ),
    ("000f0400010000000700000001677b8b28", ",issue,,,Issued,0,0"),
    (
        "00130300010000000800000001000000bd677b8b28",
        ",top-up,,189,ToppedUp,189,189",
    ),
    (
        "001101000100000009000000010002677b8d80",
        ",in,2,,LowBalance,0,189",
    ),
    (
        "00130300010000000a0000000100000001677b8b28",
        ",top-up,,1,ToppedUp,1,190",
    ),
    (
        "00110100010000000b000000010002677b8d80",
        ",in,2,,Entered,-900,-710",
    ),
    (
        "00110200010000000c000000010002677b8d44",
        ",out,2,,Backwards,0,-710",
    ),
    (
        "00110100010000000d000000030009677b8d80",
        ",in,9,,UnknownCard,0,0",
    ),
    (
        "00110200010000000e000000040001677b8d80",
        ",out,1,,UnknownCard,0,0",
    ),
];

/// A card with 2000 pence by FARES.md, "Worked examples": out 1 at 08:00 with no touch in, in
/// 4 at 08:05; the second in 2 at 08:00 and again at 08:10, out 1 at 08:30; the third in 2 at
/// 08:00, out 1 at 08:25, in 4 at 08:33; the fourth in 2 at 08:00 and out 1 at 09:30:01.
const JOURNEYS: [(&str, &str); 18] = [
    ("000f0400010000000100000001677b8b28", ",Issued,0,0"),
    (
        "00130300010000000200000001000007d0677b8b28",
        ",ToppedUp,2000,2000",
    ),
    (
        "001102000100000003000000010001677b8d80",
        ",ExitedUnstarted,-900,1100",
    ),
    (
        "001101000100000004000000010004677b8eac",
        ",Entered,-900,200",
    ),
    ("000f0400010000000500000002677b8b28", ",Issued,0,0"),
    (
        "00130300010000000600000002000007d0677b8b28",
        ",ToppedUp,2000,2000",
    ),
    (
        "001101000100000007000000020002677b8d80",
        ",Entered,-900,1100",
    ),
    (
        "001101000100000008000000020002677b8fd8",
        ",EnteredOverOpen,-900,200",
    ),
    ("001102000100000009000000020001677b9488", ",Exited,550,750"),
    ("000f0400010000000a00000003677b8b28", ",Issued,0,0"),
    (
        "00130300010000000b00000003000007d0677b8b28",
        ",ToppedUp,2000,2000",
    ),
    (
        "00110100010000000c000000030002677b8d80",
        ",Entered,-900,1100",
    ),
    ("00110200010000000d000000030001677b935c", ",Exited,550,1650"),
    (
        "00110100010000000e000000030004677b953c",
        ",EnteredContinued,-900,750",
    ),
    ("000f0400010000000f00000004677b8b28", ",Issued,0,0"),
    (
        "00130300010000001000000004000007d0677b8b28",
        ",ToppedUp,2000,2000",
    ),
    (
        "001101000100000011000000040002677b8d80",
        ",Entered,-900,1100",
    ),
    (
        "001102000100000012000000040001677ba299",
        ",ExitedLate,-700,400",
    ),
];

/// The journal of these touches.
fn journal_of(alloc: Global, touches: &[(&str, &str)]) -> Result<Vec<u8>, Fail> {
    let mut frames = Vec::new(alloc);
    for (frame, _) in touches {
        frames.push(*frame)?;
    }
    Ok(journal(alloc, false, &frames).ok_or("a journal")?)
}

/// Whether a text has a row for each touch behind its heading, and each ends as its touch says.
fn end_so(text: &str, touches: &[(&str, &str)]) -> Result<bool, Fail> {
    let (_, behind) = text.split_once("\r\n").ok_or("a heading")?;
    let mut rest = behind;
    for (_, want) in touches {
        let (row, behind) = rest.split_once("\r\n").ok_or("a row")?;
        if !row.ends_with(*want) {
            return Ok(false);
        }
        rest = behind;
    }
    Ok(rest.is_empty())
}

/// Whether the journal of these touches is told by rows that end as they say.
fn are_told(alloc: Global, touches: &[(&str, &str)]) -> Result<bool, Fail> {
    let bytes = journal_of(alloc, touches)?;
    let (text, ended) = told(alloc, ALL, HistoryFormat::Csv, &bytes)?;
    ended?;
    end_so(text.as_str(), touches)
}

/// The worked journal with the two revisions behind its touches.
fn revised_journal(alloc: Global) -> Result<Vec<u8>, Fail> {
    let mut frames = FRAMES.to_vec(alloc)?;
    frames.extend_from_slice(&REVISIONS)?;
    Ok(journal(alloc, false, &frames).ok_or("a journal")?)
}

#[test]
fn each_verdict_has_its_name(rt: HostRuntime) -> Result<(), Fail> {
    let alloc = rt.alloc();
    assert_same(&rt, are_told(alloc, &TOUCHES)?, true);
    assert_same(&rt, are_told(alloc, &JOURNEYS)?, true);
    Ok(())
}

#[test]
fn a_revision_stands_under_its_own_day(rt: HostRuntime) -> Result<(), Fail> {
    let alloc = rt.alloc();
    let mut rows = worked_rows(alloc)?;
    for row in REVISED {
        rows.push_str(row)?;
        rows.push_str("\r\n")?;
    }
    let bytes = revised_journal(alloc)?;
    assert_told(&rt, ALL, HistoryFormat::Csv, &bytes, rows.as_str())
}

#[test]
fn a_card_above_those_of_the_journal_is_told_with_their_number(
    rt: HostRuntime,
) -> Result<(), Fail> {
    let alloc = rt.alloc();
    let bytes = journal(alloc, false, &FRAMES).ok_or("a journal")?;
    for (card, want) in [
        (10, Ok(())),
        (
            11,
            Err(AuditFault::Card {
                card: 11,
                cards: 10,
            }),
        ),
    ] {
        let wanted = Wanted {
            card: Some(card),
            day: None,
        };
        let (text, ended) = told(alloc, wanted, HistoryFormat::Frames, &bytes)?;
        assert_same(&rt, ended, want);
        assert_same(&rt, text.as_str(), "");
    }
    Ok(())
}

#[test]
fn the_touches_of_a_card_and_of_a_day_are_told(rt: HostRuntime) -> Result<(), Fail> {
    let alloc = rt.alloc();
    let bytes = revised_journal(alloc)?;
    let rows: [(Option<u32>, Option<i32>, &[&str]); 6] = [
        (Some(1), None, &FRAMES),
        (Some(9), None, &[]),
        (None, Some(20_094), &FRAMES),
        (None, Some(20_095), &REVISIONS),
        (Some(1), Some(20_094), &FRAMES),
        (Some(1), Some(20_095), &[]),
    ];
    for (card, day, want) in rows {
        let frames = text_of(alloc, want, "\n")?;
        let wanted = Wanted { card, day };
        assert_told(&rt, wanted, HistoryFormat::Frames, &bytes, frames.as_str())?;
    }
    Ok(())
}
