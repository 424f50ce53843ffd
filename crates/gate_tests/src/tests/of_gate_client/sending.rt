//! Lines that ask for touches, touches that are settled over lines that fail, and what is printed.
ghost use Rattle.std.specs.Prelude.{⊤};

use super::*;
use gate_client::{Asked, Line, SettleFault, Station, Told, TryFault, asked_by, exchange, settle};
use oyster_account::Act;
use std::fmt::Display;
use test_streams::{Pieces, Taker};

/// The clock of the tests.
const NOW: u32 = 1_736_149_800;

/// Lines, and the card and the act that each asks for.
const LINES: [(&str, u32, Act); 9] = [
    ("issue 3", 3, Act::Issue { moment: NOW }),
    (
        "in 3 17",
        3,
        Act::Enter {
            station: 17,
            moment: NOW,
        },
    ),
    (
        "out 3 21",
        3,
        Act::Leave {
            station: 21,
            moment: NOW,
        },
    ),
    (
        "top-up 3 1000",
        3,
        Act::TopUp {
            pence: 1000,
            moment: NOW,
        },
    ),
    ("at 5 issue 3", 3, Act::Issue { moment: 5 }),
    (
        "at 0 in 0 0",
        0,
        Act::Enter {
            station: 0,
            moment: 0,
        },
    ),
    (
        "at 4294967295 out 4294967295 65535",
        4_294_967_295,
        Act::Leave {
            station: 65_535,
            moment: 4_294_967_295,
        },
    ),
    (
        "at 007 top-up 0003 4294967295",
        3,
        Act::TopUp {
            pence: 4_294_967_295,
            moment: 7,
        },
    ),
    (
        "issue 4294967295",
        4_294_967_295,
        Act::Issue { moment: NOW },
    ),
];

/// Lines that ask for no touch.
const NONE_ASKED: [&str; 24] = [
    "",
    " ",
    "issue",
    "issue ",
    "issue x",
    "issue 3 ",
    " issue 3",
    "issue  3",
    "issue +3",
    "issue -3",
    "issue 4294967296",
    "Issue 3",
    "in 3",
    "in 3 ",
    "in 3 65536",
    "in 3 +1",
    "in 3 1 2",
    "out 3",
    "top-up 3",
    "at 5",
    "at x issue 3",
    "at 4294967296 issue 3",
    "at 5 at 6 issue 3",
    "revision 3",
];

#[test]
fn lines_ask_for_touches(rt: HostRuntime) {
    for (line, card, act) in &LINES {
        let want = Some(Asked {
            card: *card,
            act: *act,
        });
        assert_same_at(&rt, asked_by(line, NOW), want, line);
    }
}

#[test]
fn other_lines_ask_for_none(rt: HostRuntime) {
    for line in &NONE_ASKED {
        assert_same_at(&rt, asked_by(line, NOW), None, line);
    }
}

/// That this is printed so.
pub(super) fn assert_printed(rt: &impl Abort, alloc: Global, printed: &impl Display, want: &str) {
    let text = printed.to_string(alloc).expect(rt, "no memory");
    assert_same(rt, text.as_str(), want);
    drop(text);
}

/// That a reply of this verdict to the row's touch is told so.
fn assert_told(rt: &impl Abort, alloc: Global, row: &Row, verdict: u8, want: &str) {
    let told = Told {
        touch: row.touch,
        reply: Reply {
            verdict,
            ..row.reply
        },
    };
    assert_printed(rt, alloc, &told, want);
}

/// The names of verdicts in FARES.md, "Verdicts", as a reply to the issue tells them.
const NAMES: [(u8, &str); 20] = [
    (1, "7,1,1,issue,,,Entered,0,0"),
    (2, "7,1,1,issue,,,EnteredContinued,0,0"),
    (3, "7,1,1,issue,,,EnteredOverOpen,0,0"),
    (4, "7,1,1,issue,,,Exited,0,0"),
    (5, "7,1,1,issue,,,ExitedUnstarted,0,0"),
    (6, "7,1,1,issue,,,ExitedLate,0,0"),
    (7, "7,1,1,issue,,,ToppedUp,0,0"),
    (8, "7,1,1,issue,,,Issued,0,0"),
    (9, "7,1,1,issue,,,Revised,0,0"),
    (0, "7,1,1,issue,,,verdict 0,0,0"),
    (10, "7,1,1,issue,,,verdict 10,0,0"),
    (20, "7,1,1,issue,,,UnknownCard,0,0"),
    (21, "7,1,1,issue,,,AlreadyIssued,0,0"),
    (22, "7,1,1,issue,,,UnknownStation,0,0"),
    (23, "7,1,1,issue,,,Backwards,0,0"),
    (24, "7,1,1,issue,,,LowBalance,0,0"),
    (25, "7,1,1,issue,,,BadAmount,0,0"),
    (26, "7,1,1,issue,,,OverLimit,0,0"),
    (27, "7,1,1,issue,,,BadDay,0,0"),
    (255, "7,1,1,issue,,,verdict 255,0,0"),
];

#[test]
fn replies_print_as_their_lines(rt: HostRuntime) {
    for (verdict, want) in &NAMES {
        assert_told(&rt, rt.alloc(), &ROWS[0], *verdict, want);
    }
    assert_told(
        &rt,
        rt.alloc(),
        &ROWS[1],
        7,
        "7,2,1,top-up,,2000,ToppedUp,2000,2000",
    );
    assert_told(
        &rt,
        rt.alloc(),
        &ROWS[2],
        1,
        "7,3,1,in,2,,Entered,-900,1100",
    );
}

/// A station that makes lines by a script, each with what is read from it, or none.
#[derive(Drop)]
pub(super) struct Script<'a> {
    pub(super) alloc: Global,
    pub(super) answers: &'a [Option<&'a [u8]>],
    /// How many lines were asked for.
    pub(super) asked: usize,
    /// How many faults were told.
    pub(super) failed: usize,
}

impl<'a> Station<&'a [u8], Vec<u8>> for Script<'a> {
    ghost made = { λ _. ⊤ };

    fn connect(&mut self) -> Option<Line<&'a [u8], Vec<u8>>> {
        let place = self.asked;
        self.asked = place.saturating_add(1);
        let answer = self.answers.get(place).copied()??;
        Some(line_of(self.alloc, answer))
    }

    fn failed(&mut self, _fault: TryFault) {
        self.failed = self.failed.saturating_add(1);
    }
}

/// A line from which this is read.
pub(super) fn line_of(alloc: Global, answer: &[u8]) -> Line<&[u8], Vec<u8>> {
    Line {
        reader: answer,
        writer: Vec::new(alloc),
    }
}

/// A client whose first row's touch waits.
fn waiting(rt: &impl Abort, alloc: Global) -> Client<MemoryDisk> {
    open(rt, alloc, holding(rt, alloc, &FILE))
}

/// What comes of the settling of the touch that waits, by lines with these answers, behind one with
/// the first answer, where there is one: what was heard, how many lines were asked for, and how
/// many faults were told.
fn settled<'a>(
    rt: &impl Abort,
    alloc: Global,
    client: &mut Client<MemoryDisk>,
    first: Option<&'a [u8]>,
    answers: &'a [Option<&'a [u8]>],
    tries: u32,
) -> (Result<Reply, SettleFault>, usize, usize) {
    let waits = client.waiting().is_some();
    assert!(rt; waits);
    let mut station = Script {
        alloc,
        answers,
        asked: 0,
        failed: 0,
    };
    let line = match first {
        Some(answer) => Some(line_of(alloc, answer)),
        None => None,
    };
    let done = match settle(client, &mut station, line, tries) {
        Ok((reply, line)) => {
            assert_same(rt, line.writer.as_slice(), ROWS[0].frame);
            drop(line);
            Ok(reply)
        }
        Err(fault) => Err(fault),
    };
    (done, station.asked, station.failed)
}

#[test]
fn a_touch_is_settled_over_the_first_line_that_answers(rt: HostRuntime) {
    let mut client = waiting(&rt, rt.alloc());
    let halted = b"\x00\x08\xff\x03\x00\x07\x00\x00\x00\x01";
    let answers: [Option<&[u8]>; 6] = [
        None,
        Some(b""),
        Some(&ROWS[0].answer[..21]),
        Some(halted),
        Some(ROWS[1].answer),
        Some(ROWS[0].answer),
    ];
    let found = settled(&rt, rt.alloc(), &mut client, None, &answers, 5);
    assert_same(&rt, found, (Err(SettleFault::Tries(5)), 5, 5));
    assert_waits(&rt, &client, Some(ROWS[0].touch));
    let found = settled(&rt, rt.alloc(), &mut client, None, &answers, 6);
    assert_same(&rt, found, (Ok(ROWS[0].reply), 6, 5));
    assert_waits(&rt, &client, None);
    drop(client);
}

#[test]
fn a_touch_is_settled_over_the_line_at_hand(rt: HostRuntime) {
    let mut client = waiting(&rt, rt.alloc());
    let found = settled(&rt, rt.alloc(), &mut client, Some(ROWS[0].answer), &[], 1);
    assert_same(&rt, found, (Ok(ROWS[0].reply), 0, 0));
    assert_waits(&rt, &client, None);
    drop(client);
}

#[test]
fn the_stations_faults_end_the_settling_or_not(rt: HostRuntime) {
    let mut client = waiting(&rt, rt.alloc());
    for (code, want) in [
        (0, SettleFault::Tries(1)),
        (1, SettleFault::Tries(1)),
        (2, SettleFault::Conflict),
        (3, SettleFault::Tries(1)),
        (4, SettleFault::Tries(1)),
        (5, SettleFault::Full),
        (6, SettleFault::UnknownTable),
        (7, SettleFault::NotAllowed),
        (8, SettleFault::Tries(1)),
    ] {
        let answer = [0, 8, 0xff, code, 0, 7, 0, 0, 0, 1];
        let (found, _, _) = settled(&rt, rt.alloc(), &mut client, None, &[Some(&answer)], 1);
        assert_same_at(&rt, found, Err(want), &code);
        assert_waits(&rt, &client, Some(ROWS[0].touch));
    }
    drop(client);
}

#[test]
fn a_fault_ends_a_line_and_the_touch_waits_on(rt: HostRuntime) {
    let mut client = waiting(&rt, rt.alloc());
    for left in 0..17 {
        assert_cut(&rt, rt.alloc(), &mut client, left);
    }
    drop(client);
}

/// That a try over a line that takes so many bytes is cut, and nothing is read behind it.
fn assert_cut(rt: &impl Abort, alloc: Global, client: &mut Client<MemoryDisk>, left: usize) {
    let waits = client.waiting().is_some();
    assert!(rt; waits);
    let mut taker = Taker {
        taken: Vec::new(alloc),
        size: 1,
        left,
        fails: left % 2 == 0,
        holds: false,
    };
    let mut giver = Pieces {
        rest: ROWS[0].answer,
        size: 1,
        fails: false,
    };
    let found = exchange(client, &mut giver, &mut taker);
    assert_same_at(rt, found, Err(TryFault::Cut), &left);
    assert_same_at(rt, giver.rest, ROWS[0].answer, &left);
    assert_same_at(
        rt,
        Some(taker.taken.as_slice()),
        ROWS[0].frame.get(..left),
        &left,
    );
    assert_waits(rt, client, Some(ROWS[0].touch));
    drop(taker);
    drop(giver);
}

#[test]
fn faults_print_their_names(rt: HostRuntime) {
    let alloc = rt.alloc();
    assert_printed(&rt, alloc, &FileFault::AnotherFile, "6 AnotherFile");
    assert_printed(&rt, alloc, &FileFault::Foreign(12), "8 Foreign 12");
    assert_printed(&rt, alloc, &AskFault::Full, "3 Full");
    assert_printed(&rt, alloc, &HearFault::Refused(3), "3 Refused 3");
    assert_printed(&rt, alloc, &gate_client::LineFault, "Cut");
    assert_printed(&rt, alloc, &SettleFault::Tries(10), "tries 10");
    assert_printed(
        &rt,
        alloc,
        &SettleFault::UnknownTable,
        "answer 6 UnknownTable",
    );
    assert_printed(&rt, alloc, &SettleFault::NotAllowed, "answer 7 NotAllowed");
    let unheard = TryFault::Unheard(HearFault::NoAnswer);
    assert_printed(&rt, alloc, &unheard, "hear 1 NoAnswer");
}
