//! Texts that are written whole, or in part.

use super::{assert_same, assert_same_at};
use std::alloc::Global;
use test_streams::Taker;
use text_io::{WriteFault, write_text, write_whole};

/// A writer that takes `room` bytes in all, two a write, and then nothing.
fn taker(alloc: Global, room: usize, holds: bool) -> Taker {
    Taker {
        taken: Vec::new(alloc),
        size: 2,
        left: room,
        fails: false,
        holds,
    }
}

#[test]
fn a_text_is_written_whole_or_a_beginning_of_it(rt: HostRuntime) {
    for room in 0..6usize {
        let mut writer = taker(rt.alloc(), room, false);
        let whole = write_whole(&mut writer, b"touch");
        assert_same_at(&rt, whole.is_ok(), room == 5, room);
        assert_same(&rt, Some(writer.taken.as_slice()), b"touch".get(..room));
    }
}

#[test]
fn a_text_that_is_held_back_was_not_written(rt: HostRuntime) {
    let mut writer = taker(rt.alloc(), 5, true);
    assert_same(&rt, write_whole(&mut writer, b"touch"), Ok(()));
    assert_same(&rt, write_text(&mut writer, b""), Err(WriteFault));

    let mut writer = taker(rt.alloc(), 5, false);
    assert_same(&rt, write_text(&mut writer, b"touch"), Ok(()));
    assert_same(&rt, writer.taken.len(), 5);
}
