//! Laws of a card's statement, for every scheme and every list of accepted acts.

ghost use Rattle.card_statement.specs.Laws.{DoDaysSum, IsStatementBalance, DoesCapAttain};
ghost use Rattle.card_statement.specs.Laws.{IsDayExplained};
ghost use Rattle.card_statement.specs.Known.{IsAcceptedKnown, IsHistoryReady};

/// The rows of the fare days, with their incomplete touches, sum to the charge for the card's
/// travel.
pub fn days_sum_to_the_charge()
    ensures { DoDaysSum }
{}

/// The balance of a statement, calculated from its rows alone, is the card's balance.
pub fn statement_balances()
    ensures { IsStatementBalance }
{}

/// The cap that a statement names for a day gives the charge for the day's journeys. If no cap is
/// named, the sum of their fares is the charge.
pub fn named_cap_attains()
    ensures { DoesCapAttain }
{}

/// The charge for a day's journeys is the price of the cap that the row names, and the fares of
/// the journeys that the row marks as not covered.
pub fn day_is_explained()
    ensures { IsDayExplained }
{}

/// An act that the account's rules accept is at a known station, or at none.
pub fn accepted_is_known()
    ensures { IsAcceptedKnown }
{}

/// If each touch of a card has the reply of the account's rules, the card's accepted travel is in
/// order and of known stations, as [`Statement::of`](crate::Statement::of) requires it.
pub fn judged_history_is_ready()
    ensures { IsHistoryReady }
{}
