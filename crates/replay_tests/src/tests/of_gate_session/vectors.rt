//! The frames of docs/vectors.txt with their answers, and what they say.

use gate_session::Request;
use oyster_account::{Act, Touch};

/// A card's first morning: issued, topped up by 2000 pence, in at station 2, out at station 1, and
/// then an enquiry. Behind it the longest request: the revision of fares from day 20095 on, of
/// gate 7 and number 6.
pub const FRAMES: [&[u8]; 6] = [
    b"\x00\x0f\x04\x00\x07\x00\x00\x00\x01\x00\x00\x00\x01\x67\x7b\x8b\x28",
    b"\x00\x13\x03\x00\x07\x00\x00\x00\x02\x00\x00\x00\x01\x00\x00\x07\xd0\x67\x7b\x8c\x54",
    b"\x00\x11\x01\x00\x07\x00\x00\x00\x03\x00\x00\x00\x01\x00\x02\x67\x7b\x8d\x80",
    b"\x00\x11\x02\x00\x07\x00\x00\x00\x04\x00\x00\x00\x01\x00\x01\x67\x7b\x93\x5c",
    b"\x00\x05\x05\x00\x00\x00\x01",
    b"\x00\x33\x06\x00\x07\x00\x00\x00\x06\x00\x00\x00\x00\
    0123456789abcdef0123456789abcdef\x00\x00\x4e\x7f\x67\x7b\x8d\x80",
];

/// The frames of the morning, without the revision.
pub const MORNING: usize = 5;

/// The answers to the frames of the morning.
pub const ANSWERS: [&[u8]; 5] = [
    b"\x00\x14\x81\x00\x07\x00\x00\x00\x01\x08\x00\x00\x00\x00\x00\x00\x00\x00\x00\x00\x00\x00",
    b"\x00\x14\x81\x00\x07\x00\x00\x00\x02\x07\x00\x00\x07\xd0\x00\x00\x00\x00\x00\x00\x07\xd0",
    b"\x00\x14\x81\x00\x07\x00\x00\x00\x03\x01\xff\xff\xfc\x7c\x00\x00\x00\x00\x00\x00\x04\x4c",
    b"\x00\x14\x81\x00\x07\x00\x00\x00\x04\x04\x00\x00\x02\x26\x00\x00\x00\x00\x00\x00\x06\x72",
    b"\x00\x0e\x85\x01\x00\x00\x00\x00\x00\x00\x06\x72\x00\x00\x00\x04",
];

/// The answer to bytes that begin no request.
pub const BAD_FRAME: &[u8] = b"\x00\x08\xff\x01\x00\x00\x00\x00\x00\x00";

/// The touch of gate 7 and this number on card 1.
fn touch(number: u32, act: Act) -> Request {
    Request::Touch(Touch {
        gate: 7,
        number,
        card: 1,
        act,
    })
}

/// The requests of `FRAMES`.
pub fn requests() -> [Request; 6] {
    [
        touch(1, Act::Issue { moment: 1736149800 }),
        touch(
            2,
            Act::TopUp {
                pence: 2000,
                moment: 1736150100,
            },
        ),
        touch(
            3,
            Act::Enter {
                station: 2,
                moment: 1736150400,
            },
        ),
        touch(
            4,
            Act::Leave {
                station: 1,
                moment: 1736151900,
            },
        ),
        Request::Enquire(1),
        Request::Touch(Touch {
            gate: 7,
            number: 6,
            card: 0,
            act: Act::Revise {
                digest: *b"0123456789abcdef0123456789abcdef",
                day: 20_095,
                moment: 1_736_150_400,
            },
        }),
    ]
}
