//! Schedules of tables that are the example with some texts changed.
mod in_force;
mod memory;
mod supply;

use super::tables::{Change, DEARER, EXAMPLE_DIGEST, changed, revise, revised, schedule_of, table};
use super::{assert_same, assert_same_at, assert_that};
use fare_schedule::{Schedule, SupplyFault};
use fare_table::{EXAMPLE_TABLE, Fares};
use std::alloc::Global;
use std::process::Abort;
use std::test::Fail;

/// The digest of the example table.
const EXAMPLE: [u8; 32] = EXAMPLE_DIGEST;

/// The digest of the revised table, by the system's `sha256sum`.
const REVISED: [u8; 32] = [
    0x96, 0xcc, 0x50, 0xb0, 0x39, 0x6b, 0x0e, 0x93, 0x39, 0x71, 0xad, 0x24, 0x64, 0xa5, 0x08, 0xf6,
    0x30, 0xc6, 0x46, 0x3f, 0x90, 0xc3, 0x22, 0xda, 0x83, 0x93, 0xbc, 0xc1, 0xa5, 0x46, 0xa9, 0xbe,
];

/// On each of these fare days the table of this digest is in force.
fn assert_days(rt: &impl Abort, schedule: &Schedule, days: &[(i32, [u8; 32])]) {
    for (day, digest) in days {
        assert_same_at(rt, schedule.on(*day).digest(), *digest, *day);
    }
}
