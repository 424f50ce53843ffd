//! What a door lets through to an office, and what is told of the rest.

use super::assert_same;
use super::notices::{assert_told_at_look, new_ends, new_teller, watched};
use super::scripts::{Frame, whole};
use super::serve::served_at;
use door_file::Door;
use office_lines::{Notices, Reason, Tally, Watch, Watched};
use station_door::{ShutOut, StationDoor};
use std::alloc::Global;
use std::sync::atomic::Ordering;
use std::test::Fail;

/// The door of a file with this text.
fn door_of(alloc: Global, text: &str) -> Result<StationDoor, Fail> {
    let door = Door::read(alloc, text)?;
    Ok(StationDoor::new(alloc, door)?)
}

/// What a line came to that served one connection with as many answers as requests.
fn one_connection(requests: u64) -> Tally {
    Tally {
        connections: 1,
        requests,
        answers: requests,
        ends: [1, 0, 0, 0, 0, 0, 0],
    }
}

#[test]
fn what_a_rule_does_not_allow_is_answered_by_fault_7_and_is_no_entry(
    rt: HostRuntime,
) -> Result<(), Fail> {
    let text = "rule = [{name = \"*\", gates = [1], kinds = [\"issue\"]}]";
    let door = door_of(rt.alloc(), text)?;
    let script = whole(
        0,
        &[
            Frame::FirstIssue,
            Frame::Issue,
            Frame::FirstTopUp,
            Frame::Ask,
            Frame::FirstIssue,
        ],
        &[
            Frame::FirstIssued,
            Frame::IssueNotAllowed,
            Frame::FirstTopUpNotAllowed,
            Frame::AskNotAllowed,
            Frame::FirstIssued,
        ],
    );
    let (tallies, entries) = served_at(&rt, 1, 2, &[script], Some(&door))?;
    assert_same(&rt, tallies.as_slice(), [one_connection(5)].as_slice());
    assert_same(&rt, entries, 1);
    Ok(())
}

#[test]
fn a_reserve_is_left_to_others_and_a_repeat_takes_none_of_it(rt: HostRuntime) -> Result<(), Fail> {
    let text = "rule = [{name = \"*\", gates = [1], \
        kinds = [\"issue\", \"top-up\"], reserved = 1}]";
    let door = door_of(rt.alloc(), text)?;
    let script = whole(
        0,
        &[Frame::FirstIssue, Frame::FirstTopUp, Frame::FirstIssue],
        &[
            Frame::FirstIssued,
            Frame::FirstTopUpNotAllowed,
            Frame::FirstIssued,
        ],
    );
    let (tallies, entries) = served_at(&rt, 1, 2, &[script], Some(&door))?;
    assert_same(&rt, tallies.as_slice(), [one_connection(3)].as_slice());
    assert_same(&rt, entries, 1);
    Ok(())
}

#[test]
fn a_connection_without_a_rule_is_not_served(rt: HostRuntime) -> Result<(), Fail> {
    let text = "rule = [{name = \"gate-7\", gates = [7], kinds = [\"issue\"]}]";
    let door = door_of(rt.alloc(), text)?;
    let script = whole(0, &[Frame::Issue], &[]);
    let (tallies, entries) = served_at(&rt, 1, 2, &[script], Some(&door))?;
    assert_same(&rt, tallies.as_slice(), [one_connection(0)].as_slice());
    assert_same(&rt, entries, 0);
    Ok(())
}

#[test]
fn what_was_kept_out_is_told_once_a_minute_for_each_rule_and_reason(
    rt: HostRuntime,
) -> Result<(), Fail> {
    let text = "rule = [{name = \"*\", kinds = [\"enquiry\"]}, \
        {name = \"gate-7\", gates = [7], kinds = [\"in\"], connections = 1}]";
    let door = door_of(rt.alloc(), text)?;
    let teller = new_teller();
    let ends = new_ends();
    let at_door = Watched {
        door: Some(&door),
        ..watched(0)
    };
    let watch = Notices::new(rt.alloc(), &teller, &ends, at_door)?;
    assert_told_at_look(&rt, &watch, &teller.told, 0);
    watch.kept_out(0, Reason::Kind, 7);
    watch.kept_out(0, Reason::Kind, 8);
    assert_told_at_look(&rt, &watch, &teller.told, 1);
    watch.kept_out(0, Reason::Kind, 9);
    watch.kept_out(1, Reason::Gate, 8);
    assert_told_at_look(&rt, &watch, &teller.told, 2);
    watch.shut_out(&rt, ShutOut::NoRule, None);
    watch.shut_out(&rt, ShutOut::Connections { place: 1 }, None);
    assert_told_at_look(&rt, &watch, &teller.told, 4);
    teller.seconds.store(59, Ordering::Relaxed);
    assert_told_at_look(&rt, &watch, &teller.told, 4);
    teller.seconds.store(61, Ordering::Relaxed);
    assert_told_at_look(&rt, &watch, &teller.told, 5);
    // no rule stands at this place
    watch.kept_out(2, Reason::Kind, 7);
    assert_told_at_look(&rt, &watch, &teller.told, 5);
    Ok(())
}
