//! The addresses of a station in turn, the connections that fail, and the pauses between tries.

use super::*;

/// The second line of a fault after the last try of the issue.
const WAITS: &str = "  gate7.touches: gate 7 number 1 waits; settle it by --resend\n";

/// What is told of so many tries of the issue without a reply, behind the lines of the tries.
fn unanswered(alloc: Global, again: &str, tries: u32) -> Result<String, AllocError> {
    format!(in alloc; "{again}fault tries {tries}\n{WAITS}")
}

/// A run on the issue's line by these addresses, that is tried so often with this first pause, and
/// of which no try brings a reply, tells these lines of its tries, and waits for so long.
fn assert_unanswered<R: Abort + AllocGlobal>(
    rt: &R,
    addresses: Vec<&str>,
    (tries, pause): (u32, u32),
    again: &str,
    waited: u64,
) -> Result<(), Fail> {
    let alloc = rt.alloc();
    let mut asked = asked(FILE, addresses);
    asked.tries = Some(tries);
    asked.pause = pause;
    let told = unanswered(alloc, again, tries)?;
    let want = Ended {
        status: 1,
        printed: "",
        told: told.as_str(),
        sent: b"",
        waited,
    };
    let input = [ISSUE_LINE];
    assert_run(rt, new_client(alloc, 3), &asked, script(&input, &[]), &want)
}

#[test]
fn the_addresses_are_tried_in_turn_with_a_pause_behind_the_last(
    rt: HostRuntime,
) -> Result<(), Fail> {
    let addresses = vec![in rt.alloc(); STATION, "10.0.0.2:7040"]?;
    let again = "again 10.0.0.1:7040 connect\nagain 10.0.0.2:7040 connect\n\
                 again 10.0.0.1:7040 connect\nagain 10.0.0.2:7040 connect\n\
                 again 10.0.0.1:7040 connect\n";
    assert_unanswered(&rt, addresses, (5, 200), again, 200 + 400)
}

#[test]
fn each_pause_is_twice_as_long_up_to_the_longest(rt: HostRuntime) -> Result<(), Fail> {
    let once = "again 10.0.0.1:7040 connect\n";
    let four = "again 10.0.0.1:7040 connect\nagain 10.0.0.1:7040 connect\n\
                again 10.0.0.1:7040 connect\nagain 10.0.0.1:7040 connect\n";
    for (tries, pause, again, waited) in [
        (1, 1, once, 1),
        (4, 200, four, 200 + 400 + 800 + 1_600),
        (4, 14_000, four, 14_000 + 28_000 + 30_000 + 30_000),
        (4, 30_000, four, 4 * 30_000),
    ] {
        let addresses = vec![in rt.alloc(); STATION]?;
        assert_unanswered(&rt, addresses, (tries, pause), again, waited)?;
    }
    Ok(())
}

/// A run on the issue's line by these tries ends with its reply, and by this.
fn assert_issued<R: Abort + AllocGlobal>(
    rt: &R,
    script: Script<'_>,
    told: &str,
    sent: &[u8],
    waited: u64,
) -> Result<(), Fail> {
    let want = Ended {
        status: 0,
        printed: ISSUED_LINE,
        told,
        sent,
        waited,
    };
    assert_first_run(rt, 3, script, &want)
}

#[test]
fn a_connection_that_fails_is_told_and_the_same_is_sent_again(rt: HostRuntime) -> Result<(), Fail> {
    let twice = b"\x00\x0f\x04\x00\x07\x00\x00\x00\x01\x00\x00\x00\x01\x67\x7b\x8b\x28\
        \x00\x0f\x04\x00\x07\x00\x00\x00\x01\x00\x00\x00\x01\x67\x7b\x8b\x28";
    let stray = b"\x00\x08\xff\x02\x00\x07\x00\x00\x00\x02";
    let input = [ISSUE_LINE];
    let rows: [(Try<'_>, &str, &[u8]); 6] = [
        (Try::Unreached, "again 10.0.0.1:7040 connect\n", ISSUE),
        (Try::Unset, "again 10.0.0.1:7040 connect\n", ISSUE),
        (Try::Untaken, "again 10.0.0.1:7040 send\n", ISSUE),
        (
            Try::Gives(b""),
            "again 10.0.0.1:7040 hear 1 NoAnswer\n",
            twice,
        ),
        (
            Try::Gives(stray),
            "again 10.0.0.1:7040 hear 2 Stray\n",
            twice,
        ),
        (
            Try::Gives(b"\x00\x08\xff\x04\x00\x07\x00\x00\x00\x01"),
            "again 10.0.0.1:7040 hear 3 Refused 4\n",
            twice,
        ),
    ];
    for (tried, told, sent) in rows {
        let tries = [tried, Try::Gives(ISSUED)];
        assert_issued(&rt, script(&input, &tries), told, sent, 200)?;
    }
    Ok(())
}

#[test]
fn a_pause_is_shorter_by_up_to_a_half(rt: HostRuntime) -> Result<(), Fail> {
    let input = [ISSUE_LINE];
    let tries = [Try::Unreached, Try::Gives(ISSUED)];
    let told = "again 10.0.0.1:7040 connect\n";
    // A part of a thousand for each microsecond of the clock's millisecond.
    for (nanoseconds, waited) in [(500_000, 150), (999_000, 100), (7_250_000, 175)] {
        let mut late = script(&input, &tries);
        late.now = Some(Duration::new(u64::from(MOMENT), nanoseconds));
        assert_issued(&rt, late, told, ISSUE, waited)?;
    }
    Ok(())
}

#[test]
fn a_connection_that_ended_while_it_was_idle_is_no_failure(rt: HostRuntime) -> Result<(), Fail> {
    let topped_up = b"\x00\x14\x81\x00\x07\x00\x00\x00\x02\x07\x00\x00\x07\xd0\
        \x00\x00\x00\x00\x00\x00\x07\xd0";
    let sent = b"\x00\x0f\x04\x00\x07\x00\x00\x00\x01\x00\x00\x00\x01\x67\x7b\x8b\x28\
        \x00\x13\x03\x00\x07\x00\x00\x00\x02\x00\x00\x00\x01\x00\x00\x07\xd0\x67\x7b\x8c\x54\
        \x00\x13\x03\x00\x07\x00\x00\x00\x02\x00\x00\x00\x01\x00\x00\x07\xd0\x67\x7b\x8c\x54";
    let idle: [Try<'_>; 2] = [Try::Gives(ISSUED), Try::Gives(topped_up)];
    // The first pause is the first again after a reply.
    let late: [Try<'_>; 4] = [
        Try::Unreached,
        Try::Gives(ISSUED),
        Try::Unreached,
        Try::Gives(topped_up),
    ];
    let rows: [(&[Try<'_>], &str, u64); 2] = [
        (&idle, "again 10.0.0.1:7040 hear 1 NoAnswer\n", 0),
        (
            &late,
            "again 10.0.0.1:7040 connect\nagain 10.0.0.1:7040 hear 1 NoAnswer\n\
             again 10.0.0.1:7040 connect\n",
            200 + 200,
        ),
    ];
    let input: [&[u8]; 2] = [ISSUE_LINE, b"at 1736150100 top-up 1 2000\n"];
    for (tries, told, waited) in rows {
        let want = Ended {
            status: 0,
            printed: "7,1,1,issue,,,Issued,0,0\n7,2,1,top-up,,2000,ToppedUp,2000,2000\n",
            told,
            sent,
            waited,
        };
        assert_first_run(&rt, 3, script(&input, tries), &want)?;
    }
    Ok(())
}
