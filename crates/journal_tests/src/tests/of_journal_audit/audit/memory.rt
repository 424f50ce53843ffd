//! An audit that is refused memory.

ghost use Rattle.std.specs.Prelude.{◌≡◌, [], IfSome};
ghost use Rattle.fare_schedule.specs.Schedule.{revisions_of};

use super::tables::of_example;
use super::*;
use crate::tests::of_journal_audit::{example, is_of_memory};
use std::io::Cursor;

/// How often an audit that was refused memory is begun again.
const TRIES: u32 = 10;

/// How the audit of the journal of the example table ends, with the tables that are named. Nothing
/// is written where it was refused memory.
fn attempt(
    rt: &impl Abort,
    alloc: Global,
    schedule: Option<Schedule>,
) -> Result<Finding, AuditFault>
    requires { IfSome schedule (λ s. revisions_of s ≡ []) }
{
    let bytes = of_example();
    let mut room = Cursor::new([0; 512]);
    let ended = audit_journal(
        alloc,
        NameHashing::fixed(),
        schedule,
        SEALED,
        &bytes,
        &mut room,
    );
    let size = room.position() as usize;
    let taken = room.get_ref().get(..size).unwrap_or(&[]);
    if ended.is_ok() {
        assert_same(rt, taken.ends_with(b"\nsound\n"), true);
    } else {
        assert_same(rt, taken.len(), 0);
    }
    ended
}

/// Whether an audit came to its end. It was refused memory where it didn't.
fn is_done(ended: Result<Finding, AuditFault>) -> Result<bool, Fail> {
    match ended {
        Ok(found) => Ok(found == Finding::Sound),
        Err(AuditFault::Memory) => Ok(false),
        Err(AuditFault::Journal(refused)) if is_of_memory(refused) => Ok(false),
        Err(fault) => Err(fault.into()),
    }
}

#[test]
fn an_audit_that_was_refused_memory_is_begun_again(rt: HostRuntime) -> Result<(), Fail> {
    for _ in 0..TRIES {
        if let Some(schedule) = example(rt.alloc()) {
            if is_done(attempt(&rt, rt.alloc(), Some(schedule)))? {
                return Ok(());
            }
        }
    }
    Err("memory is refused again and again".into())
}

#[test]
fn so_is_one_for_which_no_table_is_named(rt: HostRuntime) -> Result<(), Fail> {
    for _ in 0..TRIES {
        if is_done(attempt(&rt, rt.alloc(), None))? {
            return Ok(());
        }
    }
    Err("memory is refused again and again".into())
}
