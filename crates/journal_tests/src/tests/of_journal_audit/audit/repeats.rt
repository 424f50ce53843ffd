//! Journals in which a gate and number stands twice, with no table named.

use super::*;

/// The journal with a third touch behind its two, a top-up by 2000 pence of this gate and number,
/// and with this number of gate 7 in the second. The first is of gate 7 with number 1.
fn with_third(second: u8, gate: u8, number: u8) -> [u8; 257] {
    let mut bytes = [0; 257];
    bytes[..192].copy_from_slice(&FILE[..192]);
    bytes[135] = second;
    bytes[192..256].copy_from_slice(&FILE[128..192]);
    bytes[195] = gate;
    bytes[199] = number;
    bytes
}

#[test]
fn a_gate_and_number_that_stood_before_is_damage(rt: HostRuntime) -> Result<(), Fail> {
    let rows = [
        (2, 7, 3, None),
        (2, 8, 1, None),
        (2, 8, 2, None),
        (2, 7, 1, Some(2)),
        (2, 7, 2, Some(2)),
        (1, 7, 3, Some(1)),
        (1, 7, 1, Some(1)),
    ];
    for (second, gate, number, place) in rows {
        let bytes = with_third(second, gate, number);
        match place {
            None => {
                let last = "touches 3\nroom 2\ntrailing 1\nsound\n";
                assert_sound(&rt, SOUND, &bytes, last)?;
            }
            Some(place) => {
                let damaged = journal_fault(JournalFault::Damaged(place));
                assert_refused(&rt, SOUND, &bytes, damaged)?;
            }
        }
    }
    Ok(())
}
