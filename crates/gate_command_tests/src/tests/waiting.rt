//! A touch that waits from before: it is sent first, sent alone, or given up.

use super::*;
use oyster_account::Act;

/// The station's answers Conflict, Halted and NotAllowed to touch 1 of gate 7.
const CONFLICT: &[u8] = b"\x00\x08\xff\x02\x00\x07\x00\x00\x00\x01";

const HALTED: &[u8] = b"\x00\x08\xff\x03\x00\x07\x00\x00\x00\x01";

const NOT_ALLOWED: &[u8] = b"\x00\x08\xff\x07\x00\x07\x00\x00\x00\x01";

/// A client whose first touch, the issue, waits.
fn waiting(alloc: Global) -> Option<Client<MemoryDisk>> {
    let mut client = new_client(alloc, 3)?;
    client.ask(1, Act::Issue { moment: MOMENT }).ok()?;
    Some(client)
}

/// What a run asks for beside its lines: whether it resends, whether it gives up, and how often a
/// request is tried.
type Asked = (bool, bool, Option<u32>);

/// A run in which the issue waits, and which reads the issue's line once more, ends so where its
/// connection gives these bytes.
fn assert_waiting<R: Abort + AllocGlobal>(
    rt: &R,
    (resends, gives_up, tries): Asked,
    given: &[u8],
    want: &Ended<'_>,
) -> Result<(), Fail> {
    let alloc = rt.alloc();
    let mut asked = asked_of_one(alloc)?;
    asked.resends = resends;
    asked.gives_up = gives_up;
    asked.tries = tries;
    let input = [ISSUE_LINE];
    let answers = [Try::Gives(given)];
    assert_run(rt, waiting(alloc), &asked, script(&input, &answers), want)
}

/// A run that sends the issue once, waits for no time, and is answered by this.
fn ended<'a>(status: u8, printed: &'a str, told: &'a str) -> Ended<'a> {
    Ended {
        status,
        printed,
        told,
        sent: ISSUE,
        waited: 0,
    }
}

#[test]
fn what_waits_is_sent_first_or_alone(rt: HostRuntime) -> Result<(), Fail> {
    let again = b"\x00\x14\x81\x00\x07\x00\x00\x00\x01\x08\x00\x00\x00\x00\
        \x00\x00\x00\x00\x00\x00\x00\x00\
        \x00\x14\x81\x00\x07\x00\x00\x00\x02\x15\x00\x00\x00\x00\
        \x00\x00\x00\x00\x00\x00\x00\x00";
    let both = Ended {
        status: 0,
        printed: "7,1,1,issue,,,Issued,0,0\n7,2,1,issue,,,AlreadyIssued,0,0\n",
        told: "",
        sent: b"\x00\x0f\x04\x00\x07\x00\x00\x00\x01\x00\x00\x00\x01\x67\x7b\x8b\x28\
            \x00\x0f\x04\x00\x07\x00\x00\x00\x02\x00\x00\x00\x01\x67\x7b\x8b\x28",
        waited: 0,
    };
    assert_waiting(&rt, (false, false, None), again, &both)?;
    let alone = ended(0, ISSUED_LINE, "");
    assert_waiting(&rt, (true, false, None), again, &alone)
}

#[test]
fn a_fault_that_repeats_do_not_change_ends_the_run(rt: HostRuntime) -> Result<(), Fail> {
    for (given, told) in [
        (
            CONFLICT,
            "fault answer 2 Conflict\n  gate7.touches: gate 7 number 1 waits; settle it by \
             --resend\n",
        ),
        (
            NOT_ALLOWED,
            "fault answer 7 NotAllowed\n  gate7.touches: gate 7 number 1 waits; settle it by \
             --resend\n",
        ),
    ] {
        let want = ended(1, "", told);
        assert_waiting(&rt, (false, false, None), given, &want)?;
    }
    Ok(())
}

#[test]
fn a_touch_is_given_up_after_an_answer_alone(rt: HostRuntime) -> Result<(), Fail> {
    let given_up = ended(0, "7,1,1,issue,,,given-up,,\n", "");
    for given in [CONFLICT, NOT_ALLOWED] {
        assert_waiting(&rt, (false, true, None), given, &given_up)?;
    }
    let replied = ended(0, ISSUED_LINE, "");
    assert_waiting(&rt, (false, true, None), ISSUED, &replied)?;
    let told = "again 10.0.0.1:7040 hear 3 Refused 3\nfault tries 1\n  gate7.touches: gate 7 \
                number 1 waits; settle it by --resend\n";
    let mut waits = ended(1, "", told);
    waits.waited = 200;
    assert_waiting(&rt, (false, true, Some(1)), HALTED, &waits)
}

#[test]
fn a_touch_that_the_disk_does_not_give_up_is_told(rt: HostRuntime) -> Result<(), Fail> {
    let alloc = rt.alloc();
    let mut disk = MemoryDisk::new(alloc)?;
    // The making makes seven calls, and the asking four.
    disk.fail_at(12);
    let mut client = Client::create(disk, GATE, 3).ok().ok_or("a client")?;
    client
        .ask(1, Act::Issue { moment: MOMENT })
        .ok()
        .ok_or("an issue")?;
    let mut asked = asked_of_one(alloc)?;
    asked.gives_up = true;
    let answers = [Try::Gives(CONFLICT)];
    let failed = ended(1, "", "fault ask 4 Device\n  gate7.touches\n");
    assert_run(&rt, Some(client), &asked, script(&[], &answers), &failed)
}

#[test]
fn a_run_without_a_touch_that_waits_resends_none(rt: HostRuntime) -> Result<(), Fail> {
    let alloc = rt.alloc();
    let none = Ended {
        status: 0,
        printed: "",
        told: "",
        sent: b"",
        waited: 0,
    };
    let input = [ISSUE_LINE];
    for (resends, gives_up) in [(true, false), (false, true)] {
        let mut asked = asked_of_one(alloc)?;
        asked.resends = resends;
        asked.gives_up = gives_up;
        assert_run(
            &rt,
            new_client(alloc, 3),
            &asked,
            script(&input, &[]),
            &none,
        )?;
    }
    Ok(())
}
