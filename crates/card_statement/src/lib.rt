//! A card's statement: what each fare day charged, and for what. Its laws say that the days sum to
//! what the card's balance has lost, and that a day's charge follows from its rows.
#![tactic(auto)]

mod day_row;
mod gathered;
mod laws;
mod making;
mod named_cap;
mod ready;
mod rules;
mod runs;
mod statement;

pub use laws::{
    accepted_is_known, day_is_explained, days_sum_to_the_charge, judged_history_is_ready,
    named_cap_attains, statement_balances,
};
pub use statement::{Day, Incomplete, JourneyRow, Reason, Statement, TopUp};

#[cfg(test)]
mod tests;
