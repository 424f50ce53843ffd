//! A journal's disk before it is opened: a journal is made on an empty one, where that is allowed.

ghost use Rattle.std.specs.Prelude.{◌≡◌, [], true, false, IfOk, IfErr};
ghost use Rattle.tap_journal.specs.Image.{Image};
ghost use Rattle.tap_journal.specs.Layout.{header_of};
ghost use Rattle.tap_journal.specs.Left.{AllLeft, OnlyRead};
ghost use Rattle.journal_service.specs.Prepared.{IsUnmade, WasEmpty};

use command_line::Serve;
use fare_table::Digest;
use journal_audit::CommandFault;
use tap_disk::Disk;
use tap_journal::{Journal, JournalFault};

/// A disk that is ready to be opened.
#[derive(Drop)]
pub(crate) struct Prepared<D> {
    /// The disk.
    pub disk: D,
    /// Whether a journal was made on it now.
    pub is_new: bool,
}

/// Why a disk isn't ready.
#[derive(Drop)]
pub(crate) enum Unprepared<D> {
    /// It can't be looked at.
    Unseen(CommandFault, D),
    /// It was empty, and the making of a journal failed on it. It may hold some bytes that are no
    /// journal.
    Unmade(CommandFault, D),
}

/// Makes a journal of no touches on an empty disk, with the capacity and the cards of the words and
/// with the first table of this digest. A server that is strict makes none: it leaves each disk as
/// it is.
///
/// A disk that holds something is only looked at. A fault is `Device`, or `BadLimit` for numbers
/// that are out of their limits.
pub(crate) fn prepare<D: Disk>(
    disk: D,
    digest: &Digest,
    asked: &Serve<'_>,
) -> Result<Prepared<D>, Unprepared<D>>
    // A server that is strict makes nothing, and writes nothing.
    ensures strict { asked.now.strict ≡ true → IfOk result (λ prepared. prepared.is_new ≡ false) }
    ensures kept { IfOk result (λ prepared. prepared.is_new ≡ false
        → OnlyRead D.content D.outcome D.honest disk prepared.disk) }
    ensures makes_none { asked.now.strict ≡ true
        → IfErr result (λ refused. IsUnmade refused → ⊥) }

    // What was made is the journal of no touches, where nothing was.
    ensures made { IfOk result (λ prepared. prepared.is_new ≡ true → D.honest prepared.disk
        → AllLeft (D.outcome prepared.disk)
        (Image (header_of asked.now.capacity asked.now.cards digest.now) [])) }
    ensures empty { IfOk result (λ prepared. prepared.is_new ≡ true → D.honest prepared.disk
        → D.content disk ≡ []) }
    ensures unmade { IfErr result (WasEmpty D.honest (D.content disk)) }
{
    let mut disk = disk;
    let Ok(size) = disk.len() else {
        return Err(Unprepared::Unseen(JournalFault::Device.into(), disk));
    };
    if asked.strict || size > 0 {
        return Ok(Prepared {
            disk,
            is_new: false,
        });
    }
    match Journal::create(disk, asked.capacity, asked.cards, digest) {
        Ok(journal) => Ok(Prepared {
            disk: journal.close(),
            is_new: true,
        }),
        Err(fault) => Err(Unprepared::Unmade(fault.cause.into(), fault.disk)),
    }
}
