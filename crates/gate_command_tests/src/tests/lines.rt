//! Lines that ask for touches and enquiries, lines that ask for nothing, and runs that end before
//! the last line.

use super::*;
use std::io::ErrorKind;

/// The answer to an enquiry: card 1 is outside, with 1650 pence.
const HOLDING: &[u8] = b"\x00\x0e\x85\x01\x00\x00\x00\x00\x00\x00\x06\x72\x00\x00\x00\x04";

/// The frame of the enquiry.
const ENQUIRY: &[u8] = b"\x00\x05\x05\x00\x00\x00\x01";

/// The three frames of a card's first morning, and the replies.
const MORNING: &[u8] = b"\x00\x0f\x04\x00\x07\x00\x00\x00\x01\x00\x00\x00\x01\x67\x7b\x8b\x28\
    \x00\x13\x03\x00\x07\x00\x00\x00\x02\x00\x00\x00\x01\x00\x00\x07\xd0\x67\x7b\x8c\x54\
    \x00\x11\x01\x00\x07\x00\x00\x00\x03\x00\x00\x00\x01\x00\x02\x67\x7b\x8d\x80";

const ANSWERED: &[u8] = b"\x00\x14\x81\x00\x07\x00\x00\x00\x01\x08\x00\x00\x00\x00\
    \x00\x00\x00\x00\x00\x00\x00\x00\
    \x00\x14\x81\x00\x07\x00\x00\x00\x02\x07\x00\x00\x07\xd0\
    \x00\x00\x00\x00\x00\x00\x07\xd0\
    \x00\x14\x81\x00\x07\x00\x00\x00\x03\x01\xff\xff\xfc\x7c\
    \x00\x00\x00\x00\x00\x00\x04\x4c";

#[test]
fn each_line_is_sent_and_its_reply_printed_in_order(rt: HostRuntime) -> Result<(), Fail> {
    let rows: [(&[&[u8]], &[u8], &[u8], &str); 3] = [
        (
            &[
                ISSUE_LINE,
                b"at 1736150100 top-up 1 2000\n",
                b"at 1736150400 in 1 2",
            ],
            MORNING,
            ANSWERED,
            "7,1,1,issue,,,Issued,0,0\n7,2,1,top-up,,2000,ToppedUp,2000,2000\n\
             7,3,1,in,2,,Entered,-900,1100\n",
        ),
        // Without a moment it is the clock's. As other systems end a line.
        (&[b"issue 1\r\n"], ISSUE, ISSUED, ISSUED_LINE),
        (
            &[b"enquire 1\n"],
            ENQUIRY,
            HOLDING,
            "7,,1,enquiry,,,outside,,1650\n",
        ),
    ];
    for (input, sent, given, printed) in rows {
        let want = Ended {
            status: 0,
            printed,
            told: "",
            sent,
            waited: 0,
        };
        let tries = [Try::Gives(given)];
        assert_first_run(&rt, 3, script(input, &tries), &want)?;
    }
    Ok(())
}

#[test]
fn a_line_that_asks_for_nothing_is_told_and_the_next_is_read(rt: HostRuntime) -> Result<(), Fail> {
    let want = Ended {
        status: 1,
        printed: "7,,1,enquiry,,,outside,,1650\n",
        told: "fault line 1\n  \"isue 1\": write issue CARD, in CARD STATION, out CARD STATION or \
               top-up CARD PENCE, with at SECONDS before it for a moment other than now, or \
               enquire CARD\nfault line 2\n  \"1234567890123456789012345678901234567890\": write \
               issue CARD, in CARD STATION, out CARD STATION or top-up CARD PENCE, with at \
               SECONDS before it for a moment other than now, or enquire CARD\nfault line 3\n",
        sent: ENQUIRY,
        waited: 0,
    };
    let input: [&[u8]; 4] = [
        b"isue 1\n",
        b"12345678901234567890123456789012345678901\n",
        b"issue \xff\n",
        b"enquire 1\n",
    ];
    let tries = [Try::Gives(HOLDING)];
    assert_first_run(&rt, 3, script(&input, &tries), &want)
}

/// A run of these lines, which fails so, ends by this fault.
fn assert_fails<R: Abort + AllocGlobal>(
    rt: &R,
    script: Script<'_>,
    told: &str,
    sent: &[u8],
) -> Result<(), Fail> {
    let want = Ended {
        status: 1,
        printed: "",
        told,
        sent,
        waited: 0,
    };
    assert_first_run(rt, 3, script, &want)
}

#[test]
fn a_read_a_write_and_a_clock_that_fail_end_the_run(rt: HostRuntime) -> Result<(), Fail> {
    let tries = [Try::Gives(ISSUED)];
    let input = [ISSUE_LINE];
    let given = script(&input, &tries);
    let none = script(&[], &tries);
    for (kind, told) in [
        (ErrorKind::Other, "fault run 2 Read\n"),
        (ErrorKind::OutOfMemory, "fault run 1 Memory\n"),
    ] {
        let failing = Script {
            failure: Some(kind),
            ..none
        };
        assert_fails(&rt, failing, told, b"")?;
    }
    assert_fails(
        &rt,
        Script { room: 0, ..given },
        "fault run 3 Write\n",
        ISSUE,
    )?;
    // The last moment that a touch can have is 4294967295.
    for now in [None, Some(Duration::from_secs(4_294_967_296))] {
        assert_fails(&rt, Script { now, ..given }, "fault clock\n", b"")?;
    }
    Ok(())
}

#[test]
fn a_touch_that_is_not_stored_is_not_sent(rt: HostRuntime) -> Result<(), Fail> {
    let alloc = rt.alloc();
    let input = [ISSUE_LINE, ISSUE_LINE];
    let tries = [Try::Gives(ISSUED)];
    let full = Ended {
        status: 1,
        printed: ISSUED_LINE,
        told: "fault ask 3 Full\n  gate7.touches\n",
        sent: ISSUE,
        waited: 0,
    };
    let given = script(&input, &tries);
    assert_first_run(&rt, 1, given, &full)?;
    let failed = Ended {
        printed: "",
        told: "fault ask 4 Device\n  gate7.touches\n",
        sent: b"",
        ..full
    };
    let mut disk = MemoryDisk::new(alloc)?;
    // The making makes seven calls.
    disk.fail_at(8);
    let client = Client::create(disk, GATE, 3).ok();
    let asked = asked_of_one(alloc)?;
    assert_run(&rt, client, &asked, given, &failed)
}

#[test]
fn an_enquiry_without_an_answer_names_its_card(rt: HostRuntime) -> Result<(), Fail> {
    let alloc = rt.alloc();
    let mut asked = asked_of_one(alloc)?;
    asked.tries = Some(1);
    let refused = b"\x00\x08\xff\x07\x00\x00\x00\x00\x00\x00";
    let rows: [(Try<'_>, &str, &[u8], u64); 2] = [
        (
            Try::Unreached,
            "again 10.0.0.1:7040 connect\nfault enquiry tries 1\n  card 1\n",
            b"",
            200,
        ),
        (
            Try::Gives(refused),
            "fault enquiry answer 7 NotAllowed\n  card 1\n",
            ENQUIRY,
            0,
        ),
    ];
    let input: [&[u8]; 1] = [b"enquire 1\n"];
    for (tried, told, sent, waited) in rows {
        let want = Ended {
            status: 1,
            printed: "",
            told,
            sent,
            waited,
        };
        let tries = [tried];
        assert_run(
            &rt,
            new_client(alloc, 3),
            &asked,
            script(&input, &tries),
            &want,
        )?;
    }
    Ok(())
}
