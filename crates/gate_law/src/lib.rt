//! The law over a station and its gates, as steps: what agrees of the touches in the gates' files,
//! of what the gates' callers were told, and of the station's history and journal, whatever is lost
//! and wherever a disk crashes; and which of these steps the calls of a gate's client and the
//! sessions of a station are. Its main promises are those of `every_gate_agrees` and
//! `one_machine_answers`, of `ask_in_steps` and `open_in_steps`, and that of `settle_in_memory`:
//! where it returns a reply, the touch stands once in the station's history, with that reply, and
//! in the gate's file.
#![tactic(auto)]

mod among;
mod at_once;
mod book_clerk;
mod client_steps;
mod laws;
mod laws_of_all;
mod laws_of_calls;
mod round;

pub use among::{exchange_among_others, settle_among_others};
pub use at_once::settle_at_once;
pub use book_clerk::{BookClerk, fitting};
pub use client_steps::{
    ask_in_steps, crash_in_steps, give_up_in_steps, hear_in_steps, open_in_steps, send_in_steps,
};
pub use laws::{
    a_gate_leaves_what_it_gave_up, gate_and_station_agree, lines_bring_the_first, none_is_idle,
};
pub use laws_of_all::{
    each_gate_is_a_run, every_gate_agrees, gates_leave_what_they_gave_up, no_condition_is_idle,
    one_machine_answers,
};
pub use laws_of_calls::{
    a_gate_leaves_the_others, asking_is_a_step, books_keep_stations, giving_up_is_a_step,
    hearing_is_a_step, new_clients_are_blank, new_ones_start, opening_is_a_step, ready_books_reply,
    sending_is_a_step, sessions_are_runs,
};
pub use round::{Carried, NoReplyFault, TouchFault, ask_and_settle, settle_in_memory};
