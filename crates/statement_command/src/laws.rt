//! A law of a statement's lines, the contract of a call that does nothing.

ghost use Rattle.statement_command.specs.Laws.{AreSumsOfBalances};

/// Without a last day, the sums of a card's statement are those of its row of `balances`.
pub fn sums_are_those_of_balances()
    ensures { AreSumsOfBalances }
{}
