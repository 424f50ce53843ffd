//! Touches that are given up, with crashes between the calls.
use super::*;
use gate_law::{ask_in_steps, crash_in_steps, give_up_in_steps};
use tap_disk::Choice;

/// A client that was asked for the first row's touch and gave it up, behind a crash of this kind.
fn given_up(rt: &impl Abort, alloc: Global, choice: Choice) -> Client<MemoryDisk> {
    let mut client = new_client(rt, alloc, 3);
    let Touch { card, act, .. } = ROWS[0].touch;
    assert_same(rt, ask_in_steps(&mut client, card, act), Ok(ROWS[0].touch));
    let waits = client.waiting().is_some();
    assert!(rt; waits);
    assert_same(rt, give_up_in_steps(&mut client), Ok(()));
    crash_in_steps(alloc, client, GATE, choice).expect(rt, "not opened")
}

#[test]
fn what_was_given_up_is_so_behind_each_crash(rt: HostRuntime) {
    for choice in [Choice::Old, Choice::New, Choice::Torn(0)] {
        let mut client = given_up(&rt, rt.alloc(), choice);
        assert_same(&rt, client.waiting(), None);
        // The number 2 is used up.
        let next = Touch {
            number: 3,
            ..ROWS[2].touch
        };
        assert_same(&rt, ask_in_steps(&mut client, 1, next.act), Ok(next));
        drop(client);
    }
}
