//! What an audit finds of a sound journal.

ghost use Rattle.std.specs.Prelude.{◌≡◌};
ghost use Rattle.journal_audit.specs.Finding.{finding_of, last_line};

use tap_journal::BEHIND_LIMIT;

/// What an audit finds of a sound journal.
#[derive(Clone, Copy, Debug, PartialEq, Eq)]
pub enum Finding {
    /// It is sound, and no more is to be said.
    Sound,
    /// It is sound, and more slots behind its end have an open mark than crashes leave: the touches
    /// in these slots may have been answered.
    LookBehind,
}

/// What is found where so many slots behind the end have an open mark.
pub(crate) fn finding_of(behind: u32) -> Finding
    ensures { result ≡ finding_of behind }
{
    if behind <= BEHIND_LIMIT {
        Finding::Sound
    } else {
        Finding::LookBehind
    }
}

/// The last line of a sound journal's.
pub(crate) fn last_line(found: Finding) -> &'static str
    ensures { result.now ≡ last_line found }
{
    match found {
        Finding::Sound => "sound\n",
        Finding::LookBehind => "sound, but look behind\n",
    }
}
