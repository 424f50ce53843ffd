//! Revisions of fares. They are committed and stay; one to a table that isn't there is no entry.
use super::steps::{work, work_with, worked};
use super::*;
use tap_disk::Disk;
use tap_journal::{Discrepancy, JournalFault};

/// A text of the example table, and what comes in its place.
type Change = (&'static str, &'static str);

/// The single fare of the zones 1 and 2, in the example and in the revised table.
const SINGLE: Change = ("350, off_peak = 290", "380, off_peak = 300");

/// The peak maximum, in the example and in the revised table.
const MAXIMUM: Change = ("maximum_peak = 900", "maximum_peak = 1000");

/// The digest of the revised table, by the system's `sha256sum`.
const DIGEST: [u8; 32] = [
    0x96, 0xcc, 0x50, 0xb0, 0x39, 0x6b, 0x0e, 0x93, 0x39, 0x71, 0xad, 0x24, 0x64, 0xa5, 0x08, 0xf6,
    0x30, 0xc6, 0x46, 0x3f, 0x90, 0xc3, 0x22, 0xda, 0x83, 0x93, 0xbc, 0xc1, 0xa5, 0x46, 0xa9, 0xbe,
];

/// The text with this change, at its first place.
fn changed(alloc: Global, text: &str, change: Change) -> Option<String> {
    let (from, to) = change;
    let (front, back) = text.split_once(from)?;
    format!(in alloc; "{front}{to}{back}").ok()
}

/// The revised table: the example with another single and another peak maximum.
pub fn table(alloc: Global) -> Option<Fares> {
    let text = changed(alloc, EXAMPLE_TABLE, SINGLE)?;
    let text = changed(alloc, text.as_str(), MAXIMUM)?;
    Fares::read(alloc, text.as_str()).ok()
}

/// A revision to the revised table from Monday, 6 January 2025, on, on which card 1 has travelled.
pub const TRAVELLED: Touch = Touch {
    gate: 7,
    number: 5,
    card: 0,
    act: Act::Revise {
        digest: DIGEST,
        day: 20094,
        moment: 1_736_150_400,
    },
};

/// A revision to it from the day after that on.
pub const REVISE: Touch = Touch {
    gate: 7,
    number: 6,
    card: 0,
    act: Act::Revise {
        digest: DIGEST,
        day: 20095,
        moment: 1_736_150_400,
    },
};

/// The same under the number of the top-up.
const TAKEN: Touch = Touch {
    gate: 7,
    number: 2,
    card: 0,
    act: Act::Revise {
        digest: DIGEST,
        day: 20095,
        moment: 1_736_150_400,
    },
};

/// The reply to a revision of a day that was travelled on.
pub const BAD_DAY: Reply = Reply {
    verdict: 27,
    change: 0,
    balance: 0,
};

/// The reply to one that is accepted.
pub const REVISED_REPLY: Reply = Reply {
    verdict: 9,
    change: 0,
    balance: 0,
};

/// A journey of card 1 with both revisions behind it: the fifth touch is the first that names the
/// revised table.
pub const fn missing_touches() -> [Touch; 6] {
    [ISSUE, TOP_UP, ENTER, LEAVE, TRAVELLED, REVISE]
}

/// The step of a touch of card 1 from the first seat, with its place and reply.
const fn answered(number: u32, act: Act, place: u32, reply: Reply) -> Step {
    from_first(
        Touch {
            gate: 7,
            number,
            card: 1,
            act,
        },
        Answer::First(place, reply),
    )
}

/// A touch in at station 2.
const fn enter(moment: u32) -> Act {
    Act::Enter { station: 2, moment }
}

/// A touch out at station 1.
const fn leave(moment: u32) -> Act {
    Act::Leave { station: 1, moment }
}

const fn reply(verdict: u8, change: i32, balance: i64) -> Reply {
    Reply {
        verdict,
        change,
        balance,
    }
}

/// Two journeys from 2 to 1 behind the six touches, on Tuesday: from 04:25 to 04:50, which is
/// Monday still by its fare day, so that the old prices count, and from 08:00 to 08:25 by the new
/// ones.
pub fn new_prices() -> [Step; 4] {
    [
        answered(7, enter(1_736_223_900), 6, reply(1, -700, 950)),
        answered(8, leave(1_736_225_400), 7, reply(4, 410, 1360)),
        answered(9, enter(1_736_236_800), 8, reply(1, -1000, 360)),
        answered(10, leave(1_736_238_300), 9, reply(4, 620, 980)),
    ]
}

#[test]
fn a_revision_is_committed_and_stays_after_an_opening(rt: HostRuntime) {
    let alloc = rt.alloc();
    let disk = disk_of(&rt, alloc, 10, &[ISSUE, TOP_UP, ENTER, LEAVE]);
    let steps = [
        from_first(TRAVELLED, Answer::First(4, BAD_DAY)),
        from_first(REVISE, Answer::First(5, REVISED_REPLY)),
        from_first(REVISE, Answer::Again(5, REVISED_REPLY)),
    ];
    let (outcome, disk) = work_with(&rt, alloc, disk, Given::Revised, &steps);
    assert_same(&rt, outcome, worked(4, 1650, 6));
    let steps = [
        from_first(TRAVELLED, Answer::Again(4, BAD_DAY)),
        from_first(REVISE, Answer::Again(5, REVISED_REPLY)),
    ];
    let (outcome, disk) = work_with(&rt, alloc, disk, Given::Revised, &steps);
    assert_same(&rt, outcome, worked(6, 1650, 6));
    let (outcome, _disk) = work_with(&rt, alloc, disk, Given::Revised, &new_prices());
    assert_same(&rt, outcome, worked(6, 980, 10));
}

/// What a disk holds.
fn content_of(rt: &impl Abort, alloc: Global, disk: &MemoryDisk) -> Vec<u8> {
    let mut copy = crashed(rt, disk, Choice::New);
    let mut bytes = vec![in alloc; 0u8; 1000].ok().expect(rt, "memory");
    let count = copy
        .read(0, bytes.as_mut_slice())
        .ok()
        .expect(rt, "the disk wasn't read");
    bytes.truncate(count);
    bytes
}

/// The disks hold the same.
fn assert_same_content(rt: &impl Abort, alloc: Global, found: &MemoryDisk, want: &MemoryDisk) {
    let want = content_of(rt, alloc, want);
    assert_same(rt, content_of(rt, alloc, found).as_slice(), want.as_slice());
}

#[test]
fn a_revision_to_a_table_that_is_not_there_is_no_entry(rt: HostRuntime) {
    let alloc = rt.alloc();
    let base = disk_of(&rt, alloc, 10, &[ISSUE, TOP_UP, ENTER, LEAVE]);
    let (outcome, untouched) = work(&rt, alloc, crashed(&rt, &base, Choice::New), &[]);
    assert_same(&rt, outcome, worked(4, 1650, 4));
    let steps = [
        from_first(REVISE, Answer::Fault(SubmitFault::UnknownTable)),
        from_first(REVISE, Answer::Fault(SubmitFault::UnknownTable)),
    ];
    let (outcome, disk) = work(&rt, alloc, crashed(&rt, &base, Choice::New), &steps);
    assert_same(&rt, outcome, worked(4, 1650, 4));
    assert_same(&rt, disk.calls(), untouched.calls());
    assert_same_content(&rt, alloc, &disk, &base);
    let steps = [from_first(REVISE, Answer::First(4, REVISED_REPLY))];
    let (outcome, _disk) = work_with(&rt, alloc, disk, Given::Revised, &steps);
    assert_same(&rt, outcome, worked(4, 1650, 5));
}

#[test]
fn an_unknown_table_comes_behind_a_conflict_and_before_a_full_journal(rt: HostRuntime) {
    let alloc = rt.alloc();
    let full = disk_of(&rt, alloc, 2, &[ISSUE, TOP_UP]);
    let steps = [
        from_first(TAKEN, Answer::Fault(SubmitFault::Conflict)),
        from_first(REVISE, Answer::Fault(SubmitFault::UnknownTable)),
        from_first(ENTER, Answer::Fault(SubmitFault::Full)),
    ];
    let (outcome, disk) = work(&rt, alloc, full, &steps);
    assert_same(&rt, outcome, worked(2, 2000, 2));
    let steps = [from_first(REVISE, Answer::Fault(SubmitFault::Full))];
    let (outcome, _disk) = work_with(&rt, alloc, disk, Given::Revised, &steps);
    assert_same(&rt, outcome, worked(2, 2000, 2));
}

/// What is found of a revision to the revised table, which isn't there.
const fn revision(day: i32, is_accepted: bool) -> Option<Discrepancy> {
    Some(Discrepancy::Revision {
        day,
        is_accepted,
        digest: DIGEST,
    })
}

/// A journal of these touches isn't opened by these tables, for this cause and with what was found
/// beside it. The disk is handed back
/// as it was.
fn assert_refused(
    rt: &impl Abort,
    alloc: Global,
    touches: &[Touch],
    given: Given,
    want: (JournalFault, Option<Discrepancy>),
) -> MemoryDisk {
    let disk = disk_of(rt, alloc, 10, touches);
    let before = content_of(rt, alloc, &disk);
    let fault = read_with(rt, alloc, disk, given, CARDS, 1)
        .err()
        .expect(rt, "the disk was opened");
    assert_same(rt, (fault.cause, fault.found), want);
    assert_same(rt, fault.disk.failures(), 0);
    let after = content_of(rt, alloc, &fault.disk);
    assert_same(rt, after.as_slice(), before.as_slice());
    fault.disk
}

#[test]
fn a_journal_that_names_a_missing_table_is_not_opened(rt: HostRuntime) {
    let alloc = rt.alloc();
    let want = (JournalFault::MissingTable(4), revision(20094, false));
    let disk = assert_refused(&rt, alloc, &missing_touches(), Given::Example, want);
    let (outcome, _disk) = work_with(&rt, alloc, disk, Given::Revised, &[]);
    assert_same(&rt, outcome, worked(6, 1650, 6));
}

#[test]
fn the_first_faulty_touch_of_a_journal_is_told(rt: HostRuntime) {
    let alloc = rt.alloc();
    for (touches, given, want) in [
        (
            [ISSUE, REVISE, ISSUE],
            Given::Example,
            (JournalFault::MissingTable(1), revision(20095, true)),
        ),
        (
            [ISSUE, ISSUE, REVISE],
            Given::Example,
            (JournalFault::Damaged(1), None),
        ),
        (
            [ISSUE, TOP_UP, TAKEN],
            Given::Example,
            (JournalFault::Damaged(2), None),
        ),
        (
            [ISSUE, REVISE, REVISE],
            Given::Revised,
            (JournalFault::Damaged(2), None),
        ),
    ] {
        let _disk = assert_refused(&rt, alloc, &touches, given, want);
    }
}
