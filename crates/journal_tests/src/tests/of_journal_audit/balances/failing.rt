//! Balances of which a write fails, or that are refused memory.

use super::*;
use crate::tests::of_journal_audit::is_of_memory;
use std::io::Cursor;
use test_streams::Taker;

/// How often balances that were refused memory are begun again.
const TRIES: u32 = 10;

/// A writer of so many bytes takes the beginning of the worked journal's rows, and the balances
/// fail where there are more.
fn assert_begun<R: Abort + AllocGlobal>(rt: &R, bytes: &[u8], left: usize) -> Result<(), Fail> {
    let whole = b"card,state,balance,paid_in,charged\r\n1,outside,1650,2000,350\r\n";
    let schedule = example(rt.alloc()).ok_or("tables")?;
    let mut writer = Taker {
        taken: Vec::new(rt.alloc()),
        size: 7,
        left,
        fails: true,
        holds: false,
    };
    let ended = write_balances(
        rt.alloc(),
        NameHashing::fixed(),
        schedule,
        None,
        bytes,
        &mut writer,
    );
    let size = whole.len().min(left);
    assert_same_at(rt, Some(writer.taken.as_slice()), whole.get(..size), left);
    if left < whole.len() {
        assert_same_at(rt, ended, Err(AuditFault::Write), left);
    } else {
        assert_same_at(rt, ended, Ok(totals(1, 2_000, 350, 1_650)), left);
    }
    Ok(())
}

#[test]
fn a_beginning_of_the_balances_stands_where_a_write_fails(rt: HostRuntime) -> Result<(), Fail> {
    let bytes = journal(rt.alloc(), b'2', 64, &WORKED).ok_or("a journal")?;
    for left in [0, 10, 40, 100] {
        assert_begun(&rt, &bytes, left)?;
    }
    Ok(())
}

/// How the balances of the worked journal end. Nothing is written where memory was refused. There
/// are none where there was no memory for the table or the journal.
fn attempt(rt: &impl Abort, alloc: Global) -> Option<Result<Totals, AuditFault>> {
    let bytes = journal(alloc, b'2', 64, &WORKED)?;
    let schedule = example(alloc)?;
    let mut room = Cursor::new([0; 128]);
    let ended = write_balances(
        alloc,
        NameHashing::fixed(),
        schedule,
        None,
        &bytes,
        &mut room,
    );
    if ended.is_err() {
        assert_same(rt, room.position(), 0);
    }
    Some(ended)
}

#[test]
fn balances_that_were_refused_memory_are_begun_again(rt: HostRuntime) -> Result<(), Fail> {
    for _ in 0..TRIES {
        match attempt(&rt, rt.alloc()) {
            Some(Ok(told)) => {
                assert_same(&rt, told, totals(1, 2_000, 350, 1_650));
                return Ok(());
            }
            None => {}
            Some(Err(AuditFault::Memory)) => {}
            Some(Err(AuditFault::Journal(refused))) if is_of_memory(refused) => {}
            Some(Err(fault)) => return Err(fault.into()),
        }
    }
    Err("memory is refused again and again".into())
}
