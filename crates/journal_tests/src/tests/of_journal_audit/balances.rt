//! What no clause says of balances: worked journals with their rows, and what stands where a write
//! or an allocation fails. The amounts are those of FARES.md, "Worked examples".

mod failing;

use super::{EXAMPLE_DIGEST, example, journal_fault, table_fault};
use crate::tests::{assert_same, assert_same_at};
use journal_audit::{AuditFault, Totals, write_balances};
use oyster_account::{Act, Touch};
use reply_book::NameHashing;
use std::alloc::Global;
use std::process::Abort;
use std::test::Fail;
use tap_journal::JournalFault;

/// The heading of the rows.
const HEADING: &str = "card,state,balance,paid_in,charged\r\n";

/// The beginning of a journal of the second format with capacity 20 for 10 cards, of the example
/// table.
const HEADER: [u8; 64] = *b"\xa5OYSTERJ2\x00\x00\x00\x14\x00\x00\x00\x0a\
    \x17\x08\xbe\xf1\xd8\x12\x4f\x49\x75\x3d\x74\xc2\x9f\xa7\x19\x2b\
    \x3d\xa7\x03\xa4\x24\x81\xf5\x95\x04\xb7\x6a\x41\xec\x00\x24\x28\
    \x00\x00\x00\x00\x00\x00\x00\x00\x00\x00\x00\x00\x00\x00\x00";

/// Monday 2025-01-06, 08:00:00.
const EIGHT: u32 = 1_736_150_400;

/// A card's number and what it did.
type Deed = (u32, Act);

/// Card 1 was issued, topped up by 2000, touched in at 2 and out at 1 25 minutes later.
const WORKED: [Deed; 4] = [
    (1, Act::Issue { moment: EIGHT }),
    (
        1,
        Act::TopUp {
            pence: 2_000,
            moment: EIGHT,
        },
    ),
    (
        1,
        Act::Enter {
            station: 2,
            moment: EIGHT,
        },
    ),
    (
        1,
        Act::Leave {
            station: 1,
            moment: EIGHT + 1_500,
        },
    ),
];

/// Deeds of three cards. Refused are the first touch in of card 1, with 189 on it, that of card 2,
/// which wasn't issued, and the top-up of card 3 by more than 50000.
const REFUSED: [Deed; 12] = [
    (3, Act::Issue { moment: EIGHT }),
    (1, Act::Issue { moment: EIGHT }),
    (
        1,
        Act::TopUp {
            pence: 189,
            moment: EIGHT,
        },
    ),
    (
        1,
        Act::Enter {
            station: 2,
            moment: EIGHT - 600,
        },
    ),
    (
        2,
        Act::Enter {
            station: 2,
            moment: EIGHT,
        },
    ),
    (
        3,
        Act::TopUp {
            pence: 2_000,
            moment: EIGHT,
        },
    ),
    (
        3,
        Act::TopUp {
            pence: 50_001,
            moment: EIGHT,
        },
    ),
    (
        1,
        Act::TopUp {
            pence: 1,
            moment: EIGHT,
        },
    ),
    (
        1,
        Act::Enter {
            station: 2,
            moment: EIGHT,
        },
    ),
    (
        3,
        Act::Leave {
            station: 1,
            moment: EIGHT,
        },
    ),
    (
        1,
        Act::Revise {
            digest: EXAMPLE_DIGEST,
            day: 20_100,
            moment: EIGHT,
        },
    ),
    (
        3,
        Act::Enter {
            station: 4,
            moment: EIGHT + 300,
        },
    ),
];

/// The slot of a deed, with this number of gate 7. In the first format it is the first 32 bytes.
fn slot_of(number: u32, deed: &Deed) -> [u8; 64] {
    let (card, act) = deed;
    let touch = Touch {
        gate: 7,
        number,
        card: *card,
        act: *act,
    };
    let mut touch_bytes = [0; 51];
    touch.write_into(&mut touch_bytes);
    let mut slot = [0; 64];
    slot[0] = 0xa5;
    slot[1..52].copy_from_slice(&touch_bytes);
    slot
}

/// The journal of these deeds, numbered from 0 by gate 7, with slots of this size and a closed
/// mark.
fn journal(alloc: Global, version: u8, slot_size: usize, deeds: &[Deed]) -> Option<Vec<u8>> {
    let mut bytes = Vec::new(alloc);
    bytes.extend_from_slice(&HEADER).ok()?;
    if let Some(place) = bytes.get_mut(8) {
        *place = version;
    }
    for (place, deed) in deeds.iter().enumerate() {
        let slot = slot_of(u32::try_from(place).ok()?, deed);
        bytes.extend_from_slice(slot.get(..slot_size)?).ok()?;
    }
    bytes.push(0).ok()?;
    Some(bytes)
}

/// What is written of the balances at a place of some bytes, and how that ends.
fn told(
    alloc: Global,
    at: Option<u32>,
    bytes: &[u8],
) -> Result<(String, Result<Totals, AuditFault>), Fail> {
    let schedule = example(alloc).ok_or("tables")?;
    let mut written = Vec::new(alloc);
    let ended = write_balances(
        alloc,
        NameHashing::fixed(),
        schedule,
        at,
        bytes,
        &mut written,
    );
    let text = String::from_utf8(written).ok().ok_or("a text")?;
    Ok((text, ended))
}

/// These totals.
fn totals(cards: u32, paid_in: u64, charged: i64, balance: i64) -> Totals {
    Totals {
        cards,
        paid_in,
        charged,
        balance,
    }
}

/// The balances at a place of some bytes have these rows, and end with these totals.
fn assert_told<R: Abort + AllocGlobal>(
    rt: &R,
    at: Option<u32>,
    bytes: &[u8],
    rows: &str,
    want: Totals,
) -> Result<(), Fail> {
    let (text, ended) = told(rt.alloc(), at, bytes)?;
    assert_same(rt, ended, Ok(want));
    let lines = format!(in rt.alloc(); "{HEADING}{rows}")?;
    assert_same(rt, text.as_str(), lines.as_str());
    Ok(())
}

/// The balances at a place of some bytes end with this fault, and nothing is written.
fn assert_refused<R: Abort + AllocGlobal>(
    rt: &R,
    at: Option<u32>,
    bytes: &[u8],
    want: AuditFault,
) -> Result<(), Fail> {
    let (text, ended) = told(rt.alloc(), at, bytes)?;
    assert_same(rt, ended, Err(want));
    assert_same(rt, text.as_str(), "");
    Ok(())
}

#[test]
fn a_card_has_a_row_at_each_place(rt: HostRuntime) -> Result<(), Fail> {
    let alloc = rt.alloc();
    let rows = [
        (Some(0), "", totals(0, 0, 0, 0)),
        (Some(1), "1,outside,0,0,0\r\n", totals(1, 0, 0, 0)),
        (
            Some(2),
            "1,outside,2000,2000,0\r\n",
            totals(1, 2_000, 0, 2_000),
        ),
        (
            Some(3),
            "1,inside,1100,2000,900\r\n",
            totals(1, 2_000, 900, 1_100),
        ),
        (
            Some(4),
            "1,outside,1650,2000,350\r\n",
            totals(1, 2_000, 350, 1_650),
        ),
        (
            None,
            "1,outside,1650,2000,350\r\n",
            totals(1, 2_000, 350, 1_650),
        ),
    ];
    for (version, size) in [(b'2', 64), (b'1', 32)] {
        let bytes = journal(alloc, version, size, &WORKED).ok_or("a journal")?;
        for (at, row, want) in rows {
            assert_told(&rt, at, &bytes, row, want)?;
        }
    }
    Ok(())
}

#[test]
fn refused_touches_and_revisions_count_for_no_card(rt: HostRuntime) -> Result<(), Fail> {
    let alloc = rt.alloc();
    let bytes = journal(alloc, b'2', 64, &REFUSED).ok_or("a journal")?;
    let rows = "1,inside,-710,190,900\r\n3,inside,200,2000,1800\r\n";
    assert_told(&rt, None, &bytes, rows, totals(2, 2_190, 2_700, -510))
}

#[test]
fn the_first_cause_is_told_and_no_balance_is_written(rt: HostRuntime) -> Result<(), Fail> {
    let alloc = rt.alloc();
    // The slot of the touch out has the number of the touch in.
    let mut bytes = journal(alloc, b'2', 64, &WORKED).ok_or("a journal")?;
    if let Some(number) = bytes.get_mut(263) {
        *number = 2;
    }
    let damaged = journal_fault(JournalFault::Damaged(3));
    for (at, want) in [
        (Some(5), AuditFault::Place(4)),
        (Some(4), damaged),
        (None, damaged),
    ] {
        assert_refused(&rt, at, &bytes, want)?;
    }
    let (_, ended) = told(alloc, Some(3), &bytes)?;
    assert_same(&rt, ended.is_ok(), true);
    let mut made = EXAMPLE_DIGEST;
    made[0] = 0;
    for (place, want) in [
        (17, table_fault(made, EXAMPLE_DIGEST)),
        (0, journal_fault(JournalFault::NotAJournal)),
    ] {
        if let Some(byte) = bytes.get_mut(place) {
            *byte = 0;
        }
        assert_refused(&rt, Some(5), &bytes, want)?;
    }
    Ok(())
}
