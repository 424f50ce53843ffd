//! Statements for which memory is refused.

use super::worked::{FORMS, monday};
use super::*;
use console::TrialFault;
use std::io::Cursor;
use tap_journal::JournalFault;
use text_io::RunFault;

/// How often a statement that was refused memory is begun again.
const TRIES: u32 = 10;

/// Whether a fault says that memory was refused.
fn is_of_memory(fault: &CommandFault) -> bool {
    match fault {
        CommandFault::Trial(TrialFault::Run(RunFault::Memory)) => true,
        CommandFault::Journal(refused, _) => refused.cause == JournalFault::Memory,
        _ => false,
    }
}

/// Writes the worked Monday in a format. `None` if memory was refused: then nothing was written. No
/// other fault is returned.
fn attempt(rt: &impl Abort, alloc: Global, format: StatementFormat, want: &str) -> Option<()> {
    let bytes = journal(alloc, &monday())?;
    let schedule = example(alloc)?;
    let mut room = Cursor::new([0; 2_048]);
    let ended = write_statement(
        alloc,
        NameHashing::fixed(),
        schedule,
        CARD,
        ALL,
        format,
        bytes,
        &mut room,
    );
    let size = room.position() as usize;
    match ended {
        Ok(()) => {
            let taken = room.get_ref().get(..size);
            assert_same(rt, taken, Some(want.as_bytes()));
            Some(())
        }
        Err(fault) => {
            assert_same(rt, is_of_memory(&fault), true);
            assert_same(rt, size, 0);
            None
        }
    }
}

/// The worked Monday is written in a format, again if memory was refused.
fn begin_again<R: Abort + AllocGlobal>(
    rt: &R,
    format: StatementFormat,
    want: &str,
) -> Result<(), Fail> {
    for _ in 0..TRIES {
        if attempt(rt, rt.alloc(), format, want).is_some() {
            return Ok(());
        }
    }
    Err("memory is refused again and again".into())
}

#[test]
fn a_statement_that_was_refused_memory_is_begun_again(rt: HostRuntime) -> Result<(), Fail> {
    for (format, want) in FORMS {
        begin_again(&rt, format, want)?;
    }
    Ok(())
}
