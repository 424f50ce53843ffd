//! A history that is refused memory.

use super::*;
use crate::tests::of_journal_audit::is_of_memory;
use std::io::Cursor;

/// How often a history that was refused memory is begun again.
const TRIES: u32 = 10;

/// How the history of the worked journal ends. So short a one stands in one piece: nothing is
/// written where it was refused memory. There is none where there was no memory for what it is
/// given.
fn attempt(rt: &impl Abort, alloc: Global) -> Option<Result<(), AuditFault>> {
    let schedule = example(alloc)?;
    let bytes = journal(alloc, false, &FRAMES)?;
    let mut room = Cursor::new([0; 512]);
    let ended = write_history(
        alloc,
        NameHashing::fixed(),
        schedule,
        ALL,
        HistoryFormat::Csv,
        bytes,
        &mut room,
    );
    let size = room.position() as usize;
    let taken = room.get_ref().get(..size).unwrap_or(&[]);
    if ended.is_ok() {
        assert_same(rt, taken.ends_with(b",Exited,550,1650\r\n"), true);
    } else {
        assert_same(rt, taken.len(), 0);
    }
    Some(ended)
}

#[test]
fn a_history_that_was_refused_memory_is_begun_again(rt: HostRuntime) -> Result<(), Fail> {
    for _ in 0..TRIES {
        match attempt(&rt, rt.alloc()) {
            Some(Ok(())) => return Ok(()),
            None => {}
            Some(Err(AuditFault::Memory)) => {}
            Some(Err(AuditFault::Journal(refused))) if is_of_memory(refused) => {}
            Some(Err(fault)) => return Err(fault.into()),
        }
    }
    Err("memory is refused again and again".into())
}
