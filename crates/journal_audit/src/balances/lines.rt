//! The lines that are written of rows.

ghost use Rattle.std.specs.Prelude.{◌≡◌, ◌≤◌, string_bytes, IfOk};
ghost use Rattle.station_limits.specs.declared.limits.TheConstants.{HISTORY_LIMIT};
ghost use Rattle.journal_audit.specs.Sums.{pence_moved, most_moved};
ghost use Rattle.journal_audit.specs.BalancesRows.{AreMeasuredRows};
ghost use Rattle.journal_audit.specs.BalancesLines.{state_word, row_line, text_of_rows};

use crate::balances::row::Row;
use oyster_account::CardState;
use std::alloc::{AllocError, Global};

/// The names of the columns.
const HEADING: &str = "card,state,balance,paid_in,charged\r\n";

/// The heading, and a line for each row.
pub(crate) fn text_of_rows(alloc: Global, rows: &[Row]) -> Result<String, AllocError>
    requires { AreMeasuredRows rows.now }
    ensures { IfOk result (λ text. string_bytes text ≡ text_of_rows rows.now) }
{
    let mut text = String::new(alloc);
    text.push_str(HEADING)?;
    for row in rows {
        let line = line_of(alloc, row)?;
        text.push_str(&line)?;
    }
    Ok(text)
}

/// The line of a row.
fn line_of(alloc: Global, row: &Row) -> Result<String, AllocError>
    requires { pence_moved row.now.sums ≤ most_moved HISTORY_LIMIT }
    ensures { IfOk result (λ text. string_bytes text ≡ row_line row.now) }
{
    let card = row.card;
    let state = state_word(row.view.state);
    let balance = row.view.balance;
    let paid_in = row.sums.paid_in;
    let charged = row.sums.charge();
    format!(in alloc; "{card},{state},{balance},{paid_in},{charged}\r\n")
}

/// The word for a state.
fn state_word(state: CardState) -> &'static str
    ensures { result.now ≡ state_word state }
{
    match state {
        CardState::Vacant => "vacant",
        CardState::Outside => "outside",
        CardState::Inside => "inside",
    }
}
