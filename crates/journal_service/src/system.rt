//! What a server has of the system, under one name.

use std::sync::Wait;
use std::thread::Threads;
use std::time::Clock;

/// The system as a server has it beside files and sockets: memory, a clock, threads that may wait,
/// and the standard streams that it writes. `main` alone has the system itself.
pub trait System: AllocGlobal + Clock + Threads + Wait + Sync + Print + Eprint {}

impl<R: AllocGlobal + Clock + Threads + Wait + Sync + Print + Eprint> System for R {}
