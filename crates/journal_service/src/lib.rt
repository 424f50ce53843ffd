//! The commands that take a journal's lock: `serve`, which serves an office over TCP, and
//! `migrate`. A journal's file is taken, waited for and made, and gates are served.
#![tactic(auto)]

mod disks;
mod journal;
mod making;
mod migrate;
mod proxy;
mod refusal;
mod server;
mod standard;
mod standby;
mod station_line;
mod system;

pub use disks::{JournalFiles, SystemDisks};
pub use migrate::explained_migrate;
pub use server::serve_gates;
pub use standard::standard_files;
pub use system::System;
