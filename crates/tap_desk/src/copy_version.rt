//! The version of a published copy: which entries of a book it is of.
ghost use Rattle.std.specs.Prelude.{◌≡◌, ◌+◌, ◌++◌, ◌∷◌, [], true, None, Some, length};
ghost use Rattle.tap_desk.specs.CommitLog.{logged, table_of};
ghost use Rattle.tap_desk.specs.Listed.{listed, IsLegalBy};

use crate::commit_log::{CommitLog, LogPrefix};
use reply_book::Entry;
use std::marker::Brand;

/// Which commit log it is, and by which tables for how many cards. Each call of a program picks it.
pub trait LogName {
    ghost use Rattle.std.specs.Prelude.{ℕ, Option};
    ghost use Rattle.logbook.specs.Pages.{Book};
    ghost use Rattle.reply_book.specs.Tables.{Tables};

    ghost commit_log: { Book };

    ghost table: { Option (Tables × ℕ) };
}

impl LogName for Brand {
    ghost use Rattle.std.specs.Prelude.{None};

    ghost commit_log = { record { number = 0; log_name = 0; cells_name = 0 } };

    ghost table = { None };
}

/// Which entries a published copy is of: a log prefix, and then perhaps one more, which may not be
/// in the commit log yet.
pub struct CopyVersion {
    /// The log prefix before the last entry.
    pub before: LogPrefix,
    /// The last entry, where it isn't in that prefix.
    pub last: Option<Entry>,
    /// How many entries there are.
    pub front: u32,
    /// Whether the commit log is the one that the name stands for.
    pub named: bool,
    ghost counted: { front ≡ length (logged before.log ++ listed last) },
    ghost legal: { IsLegalBy (table_of before.log) (logged before.log ++ listed last) },
}

/// By hand, so that it is one call wherever one is dropped.
impl Drop for CopyVersion {
    fn drop(self) {
        let CopyVersion {
            before: _,
            last: _,
            front: _,
            named: _,
        } = self;
    }
}

impl CopyVersion {
    /// The version of all that was logged.
    pub(crate) fn whole(commit_log: &CommitLog, front: u32) -> CopyVersion
        requires counted { front ≡ length (logged commit_log.now.seen.log) }
        requires legal { IsLegalBy (table_of commit_log.now.seen.log)
            (logged commit_log.now.seen.log) }
        ensures before { result.before ≡ commit_log.now.seen }
        ensures last { result.last ≡ None }
        ensures named { result.named ≡ true }
    {
        CopyVersion {
            before: commit_log.seen.again(),
            last: None,
            front,
            named: true,
        }
    }

    /// The version of all that was logged, and then of one entry more.
    pub(crate) fn after(
        commit_log: &CommitLog,
        entry: Entry,
        front: u32,
        named: bool,
    ) -> CopyVersion
        requires counted { front ≡ length (logged commit_log.now.seen.log) + 1 }
        requires legal { IsLegalBy (table_of commit_log.now.seen.log)
            (logged commit_log.now.seen.log ++ entry ∷ []) }
        ensures before { result.before ≡ commit_log.now.seen }
        ensures last { result.last ≡ Some entry }
        ensures named { result.named ≡ named }
    {
        CopyVersion {
            before: commit_log.seen.again(),
            last: Some(entry),
            front,
            named,
        }
    }

    /// A copy.
    pub(crate) fn again(&self) -> CopyVersion
        ensures { result ≡ self.now }
    {
        CopyVersion {
            before: self.before.again(),
            last: self.last,
            front: self.front,
            named: self.named,
        }
    }
}
