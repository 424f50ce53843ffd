//! Calls that are refused memory: each is made again.
use super::*;
use fare_table::TableFault;

/// How often a call that was refused is made again.
const TRIES: u32 = 10;

/// The example table with these changes, read again where memory was refused.
fn read(alloc: Global, changes: &[Change]) -> Result<Fares, Fail> {
    for _ in 0..TRIES {
        let Some(text) = changed(alloc, EXAMPLE_TABLE, changes) else {
            continue;
        };
        match Fares::read(alloc, text.as_str()) {
            Ok(fares) => return Ok(fares),
            Err(TableFault::Memory) => {}
            Err(fault) => return Err(fault.into()),
        }
    }
    Err("memory is refused again and again".into())
}

/// Supplies the revised table. Where memory was refused to it, the schedule stays.
fn supply(rt: &impl Abort, alloc: Global, schedule: &mut Schedule) -> Result<(), Fail> {
    for _ in 0..TRIES {
        match schedule.supply(read(alloc, &DEARER)?) {
            Ok(()) => return Ok(()),
            Err(fault) => assert_same(rt, fault, SupplyFault::Memory),
        }
        assert_that(rt, !schedule.knows(&REVISED));
        assert_days(rt, schedule, &[(20095, EXAMPLE)]);
    }
    Err("memory is refused again and again".into())
}

/// Makes room for a revision. Where memory was refused to it, the schedule stays.
fn make_room(rt: &impl Abort, schedule: &mut Schedule) -> Result<(), Fail> {
    for _ in 0..TRIES {
        if schedule.ready().is_ok() {
            return Ok(());
        }
        assert_that(rt, schedule.knows(&REVISED));
        assert_same(rt, schedule.last_day(), None);
    }
    Err("memory is refused again and again".into())
}

#[test]
fn a_refused_growth_leaves_the_schedule(rt: HostRuntime) -> Result<(), Fail> {
    let alloc = rt.alloc();
    let mut schedule = Schedule::new(alloc, read(alloc, &[])?)?;
    supply(&rt, alloc, &mut schedule)?;
    make_room(&rt, &mut schedule)?;
    revise(&rt, &mut schedule, &REVISED, 20095);
    assert_days(&rt, &schedule, &[(20094, EXAMPLE), (20095, REVISED)]);
    Ok(())
}
