//! A server's end of a connection, by which its last answer reaches the gate.

use std::io::Read;
use std::net::{OpenStream, Shutdown};
use std::time::{Clock, Duration};

/// For how many seconds what a gate still sends is read, and dropped.
const LONGEST: u64 = 1;

/// How many bytes of it are read at once, and how often at most.
const PIECE: usize = 4_096;

const PIECES: u32 = 256;

/// Ends a connection whose gate may still be sending: the answers end, and what comes is read for a
/// second at most, and up to a mebibyte. A connection that is closed with bytes unread is reset,
/// and a gate may then lose an answer that it didn't read yet.
pub(crate) fn hang_up<R: Clock, S: Read + OpenStream>(rt: &R, stream: &mut S) {
    let Ok(begun) = rt.monotonic() else {
        return;
    };
    if stream.shutdown(Shutdown::Write).is_err() {
        return;
    }
    let mut piece = [0; PIECE];
    for _ in 0..PIECES {
        if !waits_again(rt, stream, begun) {
            return;
        }
        match stream.read(&mut piece) {
            Ok(size) if size > 0 => {}
            _ => return,
        }
    }
}

/// Lets the next read wait for what is left of the time. `false` where nothing is.
fn waits_again<R: Clock, S: OpenStream>(rt: &R, stream: &S, begun: Duration) -> bool {
    let Ok(now) = rt.monotonic() else {
        return false;
    };
    let left = Duration::from_secs(LONGEST).saturating_sub(now.saturating_sub(begun));
    !left.is_zero() && stream.set_read_timeout(Some(left)).is_ok()
}
