//! A connection whose gate vanished without a word is noticed by the system.

use libc::net;
use std::os::fd::RawFd;

/// After how many seconds without a byte the system asks whether a gate is still there.
const ASKED_AFTER: u16 = 60;
/// After how many seconds without an answer it asks again.
const ASKED_EACH: u16 = 10;
/// How often it asks before the connection is over.
const ASKED_TIMES: u16 = 5;
/// For how many milliseconds bytes that were sent may be without the gate's acknowledgement before
/// the connection is over: as long as all the asking takes.
const UNANSWERED: u32 = 110_000;

/// Has the system end a connection whose gate has vanished, within two minutes. It is advice: a
/// system that refuses it keeps the connection until it is used.
pub(crate) fn keep_alive(connection: RawFd) {
    let (on, after) = (option(1), option(u32::from(ASKED_AFTER)));
    let (each, times) = (
        option(u32::from(ASKED_EACH)),
        option(u32::from(ASKED_TIMES)),
    );
    let unanswered = option(UNANSWERED);
    // Unsafe by its declaration in C alone: it reads four bytes of an array of sixteen.
    let _ = unsafe {
        [
            net::setsockopt(connection, net::SOL_SOCKET, net::SO_KEEPALIVE, &on, 4),
            net::setsockopt(connection, net::IPPROTO_TCP, net::TCP_KEEPIDLE, &after, 4),
            net::setsockopt(connection, net::IPPROTO_TCP, net::TCP_KEEPINTVL, &each, 4),
            net::setsockopt(connection, net::IPPROTO_TCP, net::TCP_KEEPCNT, &times, 4),
            net::setsockopt(
                connection,
                net::IPPROTO_TCP,
                net::TCP_USER_TIMEOUT,
                &unanswered,
                4,
            ),
        ]
    };
}

/// An option's value as the system reads it: four bytes, in the processor's order.
fn option(value: u32) -> [u8; 16] {
    let mut bytes = [0u8; 16];
    bytes[..4].copy_from_slice(&value.to_ne_bytes());
    bytes
}
