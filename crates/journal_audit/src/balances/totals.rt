//! The sums over the rows.

ghost use Rattle.std.specs.Prelude.{◌≡◌, ◌<◌, ◌≤◌, ◌^◌, length, All};
ghost use Rattle.station_limits.specs.declared.limits.TheConstants.{HISTORY_LIMIT};
ghost use Rattle.journal_audit.specs.Sums.{pence_moved, most_moved};
ghost use Rattle.journal_audit.specs.BalancesRows.{IsBalanced, AreMeasuredRows};
ghost use Rattle.journal_audit.specs.Totals.{totals_of, sums_in, AreTotalsBalanced};

use crate::balances::row::Row;
use crate::balances::sums::{NOTHING, Sums};

/// How many cards were issued, and the sums over them, in pence.
#[derive(Clone, Copy, Debug, PartialEq, Eq)]
pub struct Totals {
    /// How many cards were issued.
    pub cards: u32,
    /// What was paid in.
    pub paid_in: u64,
    /// What was charged.
    pub charged: i64,
    /// What the cards hold: what was paid in, less what was charged.
    pub balance: i64,
}

/// The totals of rows, each of which is balanced.
pub(crate) fn totals_of(rows: &[Row]) -> Totals
    requires few { length rows.now < 2 ^ 32 }
    requires rows { All IsBalanced rows.now }
    requires measured { AreMeasuredRows rows.now }
    ensures value { result ≡ totals_of rows.now }
    ensures balanced { AreTotalsBalanced result }
{
    let sums = sums_in(rows);
    Totals {
        cards: rows.len() as u32,
        paid_in: sums.paid_in,
        charged: sums.charge(),
        balance: sums.left(),
    }
}

/// What the cards of the rows moved together.
fn sums_in(rows: &[Row]) -> Sums
    requires { AreMeasuredRows rows.now }
    ensures value { result ≡ sums_in rows.now }
    ensures measured { pence_moved result ≤ most_moved HISTORY_LIMIT }
{
    let mut sums = NOTHING;
    for row in rows {
        sums = sums.plus(row.sums);
    }
    sums
}
