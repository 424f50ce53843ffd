//! Readings that are refused memory. A script of `scripts/tests` refuses each allocation of these
//! tests in turn: the call that met it is made again, and has to answer as with ample memory.
use super::fares::assert_example;
use super::{Change, assert_same, changed};
use fare_table::{EXAMPLE_TABLE, Fares, Key, TableFault};
use std::alloc::Global;
use std::process::Abort;

/// A sixth station that has the number of the third.
const SIXTH_STATION: Change = (
    "zones = [2, 3]},\n]",
    "zones = [2, 3]},\n  {id = 3, name = \"Fir\", zones = [1]},\n]",
);

/// No single from 1 to 3.
const NO_SINGLE: Change = ("  {low = 1, high = 3, peak = 400, off_peak = 310},\n", "");

/// A maximum off-peak below the 310 pence from 1 to 3, and above all other prices.
const LOW_MAXIMUM: Change = ("maximum_off_peak = 700", "maximum_off_peak = 309");

/// The table of a text, read again where memory was refused.
fn read_again(alloc: Global, text: &str) -> Result<Fares, TableFault> {
    match Fares::read(alloc, text) {
        Err(TableFault::Memory) => Fares::read(alloc, text),
        read => read,
    }
}

/// The example table with these changes, made again where memory was refused.
fn changed_again(rt: &impl Abort, alloc: Global, changes: &[Change]) -> String {
    let made = match changed(alloc, EXAMPLE_TABLE, changes) {
        None => changed(alloc, EXAMPLE_TABLE, changes),
        made => made,
    };
    made.expect(rt, "a changed text")
}

/// A text is refused by this fault.
fn assert_fault(rt: &impl Abort, alloc: Global, text: &str, fault: TableFault) {
    assert_same(rt, read_again(alloc, text).err(), Some(fault));
}

#[test]
fn the_example_is_read_again_where_memory_was_refused(rt: HostRuntime) {
    let fares = read_again(rt.alloc(), EXAMPLE_TABLE);
    assert_example(&rt, &fares.ok().expect(&rt, "a table"), "the example");
}

/// Changes of the example, and the fault of the table. One that is mended leaves the next in order.
const FAULTS: [(&[Change], TableFault); 3] = [
    (
        &[LOW_MAXIMUM, NO_SINGLE, SIXTH_STATION],
        TableFault::Twice(Key::Station, 6),
    ),
    (&[LOW_MAXIMUM, NO_SINGLE], TableFault::MissingSingle(1, 3)),
    (&[LOW_MAXIMUM], TableFault::MaximumTooLow),
];

#[test]
fn a_fault_is_found_again_where_memory_was_refused(rt: HostRuntime) {
    let alloc = rt.alloc();
    for (changes, fault) in FAULTS.as_slice() {
        let text = changed_again(&rt, alloc, *changes);
        assert_fault(&rt, alloc, text.as_str(), *fault);
    }
    assert_fault(&rt, alloc, "x =", TableFault::NotToml);
    assert_fault(&rt, alloc, "", TableFault::Missing(Key::Zone, 0));
}
