//! What a line says of a verdict.

ghost use Rattle.std.specs.Prelude.{◌≡◌, ◌≤◌, ◌+◌, ◌++◌, length};
ghost use Rattle.journal_audit.specs.declared.line_end.TheConstants.{LINE_ROOM};
ghost use Rattle.journal_audit.specs.declared.history.verdict.TheConstants.{VERDICT_LIMIT};
ghost use Rattle.journal_audit.specs.HistoryRow.{verdict_field};

use crate::line_end::LineEnd;
use oyster_account::verdict_name;

/// The most bytes of a verdict's name.
pub(crate) const VERDICT_LIMIT: usize = 16;

/// Puts the name of the verdict that has this code.
#[tactic(auto, using(crate::proofs::LineEndLemmas::verdict_short))]
pub(crate) fn put_verdict(line: &mut LineEnd, verdict: u8)
    requires { VERDICT_LIMIT + length line.old ≤ LINE_ROOM }
    ensures text { line.new ≡ verdict_field verdict ++ line.old }
    ensures room { length line.new ≤ VERDICT_LIMIT + length line.old }
{
    line.put(verdict_field(verdict).as_bytes());
}

/// The name of the verdict that has this code (FARES.md, "Verdicts"). It is empty where none
/// has: no reply comes with it.
#[tactic(auto, unfolding(crate::specs::HistoryRow::verdict_field))]
pub fn verdict_field(verdict: u8) -> &'static str
    ensures { result.now ≡ verdict_field verdict }
{
    match verdict_name(verdict) {
        Some(name) => name,
        None => "",
    }
}
