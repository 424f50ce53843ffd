//! Standard error, where it keeps nobody waiting.

use libc::net;
use libc::types::pollfd;
use std::fmt::Display;
use std::io;

/// Prints to standard error what it takes at once, and drops what it doesn't. Where nobody reads
/// what was printed to a pipe, a line would wait here, and gates with it.
#[derive(Drop)]
pub struct Unhindered<'a, R>(pub &'a R);

impl<R: Eprint> Eprint for Unhindered<'_, R> {
    fn eprint<D: Display + Drop>(&self, value: D) -> io::Result<()> {
        if takes_a_line() {
            return self.0.eprint(value);
        }
        Ok(())
    }

    fn eprintln<D: Display + Drop>(&self, value: D) -> io::Result<()> {
        if takes_a_line() {
            return self.0.eprintln(value);
        }
        Ok(())
    }
}

/// Standard error takes a line at once.
fn takes_a_line() -> bool {
    let mut standard_error = [pollfd {
        fd: 2,
        events: net::POLLOUT,
        revents: 0,
    }];
    net::poll(&mut standard_error, 0) > 0 && standard_error[0].revents & net::POLLOUT != 0
}
