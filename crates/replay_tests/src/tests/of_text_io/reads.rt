//! Inputs that are read piece by piece, and whole.

use super::{assert_same, assert_same_at};
use std::alloc::{AllocError, Global};
use std::process::Abort;
use std::test::Fail;
use test_streams::Pieces;
use text_io::{RunFault, read_all, read_piece};

/// 2,500 bytes: 0 to 249, ten times.
fn counted(alloc: Global) -> Result<Vec<u8>, AllocError> {
    let mut bytes = Vec::new(alloc);
    for _ in 0..10 {
        for byte in 0..250u8 {
            bytes.push(byte)?;
        }
    }
    Ok(bytes)
}

// The piece has room for three bytes, and a read gives at most two.
#[test]
fn one_read_gives_the_beginning_of_a_piece(rt: HostRuntime) {
    let mut reader = Pieces {
        rest: b"Alder",
        size: 2,
        fails: false,
    };
    for want in ["Al", "de", "r", "", ""] {
        let mut piece = [0; 3];
        let size = read_piece(&mut reader, &mut piece).unwrap_or(9);
        assert_same(&rt, piece.get(..size), Some(want.as_bytes()));
    }
}

/// How an input is read: how many bytes a read gives at most, whether the reader fails at its end,
/// and how many reads are allowed. Then how many bytes are left, and whether the input was read.
type Reading = (usize, bool, u32, usize, bool);

/// The last read of an input gives no byte. One read gives at most 1,024.
const READINGS: [Reading; 9] = [
    (1_000, false, 4, 0, true),
    (1_000, false, 1_000_000, 0, true),
    (usize::MAX, false, 4, 0, true),
    (1, false, 2_501, 0, true),
    // It fails, or takes too many reads.
    (1_000, true, 1_000_000, 0, false),
    (1_000, false, 3, 0, false),
    (1_000, false, 2, 500, false),
    (usize::MAX, false, 2, 452, false),
    (1_000, false, 0, 2_500, false),
];

/// The bytes are read so.
fn assert_read(rt: &impl Abort, alloc: Global, bytes: &[u8], reading: Reading) {
    let (size, fails, turns, left, is_read) = reading;
    let mut reader = Pieces {
        rest: bytes,
        size,
        fails,
    };
    let want = if is_read {
        Ok(bytes)
    } else {
        Err(RunFault::Read)
    };
    match read_all(alloc, &mut reader, turns) {
        Ok(found) => assert_same_at(rt, Ok(found.as_slice()), want, reading),
        Err(fault) => assert_same_at(rt, Err(fault), want, reading),
    }
    assert_same_at(rt, reader.rest.len(), left, reading);
}

#[test]
fn an_input_is_read_to_its_end_or_refused(rt: HostRuntime) -> Result<(), Fail> {
    assert_read(&rt, rt.alloc(), b"", (1, false, 1, 0, true));
    let bytes = counted(rt.alloc())?;
    for reading in READINGS {
        assert_read(&rt, rt.alloc(), &bytes, reading);
    }
    Ok(())
}
