//! A replay that is refused memory.

use super::rows::{FIRST_PATH, REVISION};
use super::tables::both;
use super::{assert_same_at, lines_of};
use line_replay::{LineReplayFault, replay_text};
use reply_book::NameHashing;
use std::alloc::Global;
use std::io::Cursor;
use std::process::Abort;
use std::test::Fail;
use text_io::RunFault;

/// How often a replay that was refused memory is begun again.
const TRIES: u32 = 10;

/// How the replay of the worked revision ends, whose answers stand as far as they were written.
/// There is none where there was no memory for what it is given.
fn attempt(rt: &impl Abort, alloc: Global) -> Option<Result<(), LineReplayFault>> {
    let asked = lines_of(alloc, &[&FIRST_PATH, &REVISION], false).ok()?;
    let answered = lines_of(alloc, &[&FIRST_PATH, &REVISION], true).ok()?;
    let schedule = both(alloc)?;
    let mut room = Cursor::new([0; 1024]);
    let ended = replay_text(
        alloc,
        NameHashing::fixed(),
        schedule,
        10,
        &mut asked.as_slice(),
        &mut room,
        1_000,
    );
    let size = room.position() as usize;
    let taken = room.get_ref().get(..size).unwrap_or(&[]);
    assert_same_at(rt, answered.starts_with(taken), true, "beginning");
    if ended.is_ok() {
        assert_same_at(rt, taken.len(), answered.len(), "length");
    }
    Some(ended)
}

#[test]
fn a_replay_that_was_refused_memory_is_begun_again(rt: HostRuntime) -> Result<(), Fail> {
    for _ in 0..TRIES {
        match attempt(&rt, rt.alloc()) {
            Some(Ok(())) => return Ok(()),
            Some(Err(LineReplayFault::Run(RunFault::Memory))) | None => {}
            Some(Err(fault)) => return Err(fault.into()),
        }
    }
    Err("memory is refused again and again".into())
}
