//! The commands `verify`, `history` and `balances`: what is told of a journal that is read alone,
//! from its bytes: what they hold or why they are no sound journal, its touches with their
//! judgements, and what its cards hold. Its main promises are those of `audit_journal`,
//! `write_history` and `write_balances`: what is written is a stated function of the bytes and of
//! the tables. In `CommandFault` stands in which words the fault of any command is told.
#![tactic(auto)]

mod audit;
mod balances;
mod commands;
mod fault;
mod gate_file;
mod history;
mod laws;
mod line_end;
mod names;
mod touches;

pub use audit::audit_journal;
pub use audit::finding::Finding;
pub use audit::header::Asked;
pub use balances::totals::Totals;
pub use balances::write_balances;
pub use commands::balances::explained_balances;
pub use commands::behind::{look_behind, tell_behind, tell_end, tell_many};
pub use commands::fault::{CommandFault, tell_command_fault};
pub use commands::history::explained_history;
pub use commands::output::{PIPE_STATUS, ended_by};
pub use commands::second_line::explained;
pub use commands::settled::{Settled, settled_file};
pub use commands::verify::explained_verify;
pub use fault::{AuditFault, GateFault, JournalHeaderFault, SealFault};
pub use gate_file::audit_gate_file;
pub use history::date::{CLOCK_SIZE, DAY_LIMIT, DayPrinter, clock};
pub use history::verdict::verdict_field;
pub use history::wanted::Wanted;
pub use history::write_history;
pub use laws::a_journal_has_no_cause_alone;
pub use touches::{digest_of_first, enter_touches};
