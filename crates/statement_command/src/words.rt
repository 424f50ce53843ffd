//! Words and amounts that more than one format prints.

ghost use Rattle.std.specs.Prelude.{◌≡◌};
ghost use Rattle.statement_command.specs.Words.{band_word, cap_word, reason_word, covered_word};
ghost use Rattle.statement_command.specs.Words.{sign_word, balance_pence};

use card_statement::Reason;

/// The band of a fare.
pub(crate) fn band_word(off_peak: bool) -> &'static str
    ensures { result.now ≡ band_word off_peak }
{
    if off_peak { "off-peak" } else { "peak" }
}

/// The kind of a cap.
pub(crate) fn cap_word(off_peak: bool) -> &'static str
    ensures { result.now ≡ cap_word off_peak }
{
    if off_peak { "off-peak" } else { "anytime" }
}

/// Whether a cap covers a journey.
pub(crate) fn covered_word(covered: bool) -> &'static str
    ensures { result.now ≡ covered_word covered }
{
    if covered { "yes" } else { "no" }
}

/// The name of a reason.
pub(crate) fn reason_word(reason: Reason) -> &'static str
    ensures { result.now ≡ reason_word reason }
{
    match reason {
        Reason::Open => "Open",
        Reason::EnteredOver => "EnteredOver",
        Reason::NotLeftInTime => "NotLeftInTime",
        Reason::Late => "Late",
        Reason::Unstarted => "Unstarted",
    }
}

/// The sign of a balance.
pub(crate) fn sign_word(paid_in: u64, charged: u64) -> &'static str
    ensures { result.now ≡ sign_word paid_in charged }
{
    if paid_in < charged { "-" } else { "" }
}

/// A balance without its sign, in pence.
pub(crate) fn balance_pence(paid_in: u64, charged: u64) -> u64
    ensures { result ≡ balance_pence paid_in charged }
{
    if paid_in < charged {
        charged - paid_in
    } else {
        paid_in - charged
    }
}
