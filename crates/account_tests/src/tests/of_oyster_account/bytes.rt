//! The bytes of a touch, with the values of PROTOCOL.md.

use super::*;
use oyster_account::{read_i32, read_u16, read_u32};

/// The digest of a table.
const DIGEST: [u8; 32] = [
    0x96, 0xcc, 0x50, 0xb0, 0x39, 0x6b, 0x0e, 0x93, 0x39, 0x71, 0xad, 0x24, 0x64, 0xa5, 0x08, 0xf6,
    0x30, 0xc6, 0x46, 0x3f, 0x90, 0xc3, 0x22, 0xda, 0x83, 0x93, 0xbc, 0xc1, 0xa5, 0x46, 0xa9, 0xbe,
];

/// Touches of gate 7 and card 1: the number, the act, its moment, and the bytes.
const TOUCHES: [(u32, Act, u32, &[u8]); 6] = [
    (
        1,
        Act::Issue {
            moment: 1_736_149_800,
        },
        1_736_149_800,
        &[4, 0, 7, 0, 0, 0, 1, 0, 0, 0, 1, 0x67, 0x7b, 0x8b, 0x28],
    ),
    (
        2,
        Act::TopUp {
            pence: 2000,
            moment: 1_736_150_100,
        },
        1_736_150_100,
        &[
            3, 0, 7, 0, 0, 0, 2, 0, 0, 0, 1, 0, 0, 7, 0xd0, 0x67, 0x7b, 0x8c, 0x54,
        ],
    ),
    (
        3,
        Act::Enter {
            station: 2,
            moment: 1_736_150_400,
        },
        1_736_150_400,
        &[
            1, 0, 7, 0, 0, 0, 3, 0, 0, 0, 1, 0, 2, 0x67, 0x7b, 0x8d, 0x80,
        ],
    ),
    (
        4,
        Act::Leave {
            station: 1,
            moment: 1_736_151_900,
        },
        1_736_151_900,
        &[
            2, 0, 7, 0, 0, 0, 4, 0, 0, 0, 1, 0, 1, 0x67, 0x7b, 0x93, 0x5c,
        ],
    ),
    (
        6,
        Act::Revise {
            digest: DIGEST,
            day: 20095,
            moment: 1_736_150_400,
        },
        1_736_150_400,
        &[
            6, 0, 7, 0, 0, 0, 6, 0, 0, 0, 1, 0x96, 0xcc, 0x50, 0xb0, 0x39, 0x6b, 0x0e, 0x93, 0x39,
            0x71, 0xad, 0x24, 0x64, 0xa5, 0x08, 0xf6, 0x30, 0xc6, 0x46, 0x3f, 0x90, 0xc3, 0x22,
            0xda, 0x83, 0x93, 0xbc, 0xc1, 0xa5, 0x46, 0xa9, 0xbe, 0, 0, 0x4e, 0x7f, 0x67, 0x7b,
            0x8d, 0x80,
        ],
    ),
    (
        8,
        Act::Revise {
            digest: DIGEST,
            day: -3,
            moment: 1_736_150_400,
        },
        1_736_150_400,
        &[
            6, 0, 7, 0, 0, 0, 8, 0, 0, 0, 1, 0x96, 0xcc, 0x50, 0xb0, 0x39, 0x6b, 0x0e, 0x93, 0x39,
            0x71, 0xad, 0x24, 0x64, 0xa5, 0x08, 0xf6, 0x30, 0xc6, 0x46, 0x3f, 0x90, 0xc3, 0x22,
            0xda, 0x83, 0x93, 0xbc, 0xc1, 0xa5, 0x46, 0xa9, 0xbe, 0xff, 0xff, 0xff, 0xfd, 0x67,
            0x7b, 0x8d, 0x80,
        ],
    ),
];

/// The touch has these bytes, and is read from them and with others behind them, and from no fewer.
fn assert_bytes(rt: &impl Abort, touch: Touch, bytes: &[u8]) {
    let mut out = [0xee; 51];
    let length = touch.write_into(&mut out);
    assert_same(rt, length, bytes.len());
    assert_that(rt, length <= 51);
    assert_same(rt, &out[..length], bytes);
    assert_that(rt, out[length..].iter().all(|byte| *byte == 0xee));
    assert_same(rt, Touch::read(bytes), Some((touch, length)));
    assert_same(rt, Touch::read(&out), Some((touch, length)));
    for front in 0..bytes.len() {
        assert_same_at(rt, Touch::read(&bytes[..front]), None, front);
    }
}

#[test]
fn a_touch_has_its_bytes_and_is_read_from_them(rt: HostRuntime) {
    for (number, act, moment, bytes) in TOUCHES.as_slice() {
        let touch = Touch {
            gate: 7,
            number: *number,
            card: 1,
            act: *act,
        };
        assert_same(&rt, touch.moment(), *moment);
        assert_same(&rt, touch.is_revision(), bytes.len() == 51);
        assert_bytes(&rt, touch, *bytes);
    }
    for kind in [0, 5, 7] {
        assert_same_at(&rt, Touch::read(&[kind; 51]), None, kind);
    }
}

#[test]
fn a_number_is_read_by_its_highest_byte_first(rt: HostRuntime) {
    let none: &[u8] = &[];
    assert_same(&rt, read_u16(&[1, 2, 3]), Some((258, [3].as_slice())));
    assert_same(&rt, read_u16(&[0xff, 0xfe]), Some((65_534, none)));
    assert_same(&rt, read_u16(&[1]), None);
    let moment = [0x67, 0x7b, 0x8d, 0x80, 4, 5];
    let read = Some((1_736_150_400, [4, 5].as_slice()));
    assert_same(&rt, read_u32(&moment), read);
    assert_same(&rt, read_u32(&moment[..3]), None);
    let days = [0xff, 0xff, 0xff, 0xfd, 0, 0, 0x4e, 0x7f];
    let read = Some((-3, [0, 0, 0x4e, 0x7f].as_slice()));
    assert_same(&rt, read_i32(&days), read);
    assert_same(&rt, read_i32(&days[4..]), Some((20_095, none)));
    assert_same(&rt, read_i32(&days[..3]), None);
}
