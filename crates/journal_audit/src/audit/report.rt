//! What is told of the bytes of a journal.

ghost use Rattle.std.specs.Prelude.{◌≡◌, [], option_map, IfOk, IfErr, IfSome};
ghost use Rattle.fare_schedule.specs.Schedule.{revisions_of};
ghost use Rattle.reply_book.specs.Tables.{tables_in};
ghost use Rattle.journal_audit.specs.Audit.{IsSound, HasRefused};

use crate::audit::finding::{Finding, finding_of};
use crate::audit::header::{Asked, check_header};
use crate::audit::lines::{header_lines, text_of};
use crate::audit::revisions::revisions_entered;
use crate::audit::seal::check_seal;
use crate::fault::AuditFault;
use crate::touches::first_digest;
use fare_schedule::Schedule;
use reply_book::NameHashing;
use std::alloc::Global;
use tap_journal::read_alone;

/// The lines of the sound journal that some bytes are, held against tables where they are named,
/// with the header that is expected, and with the seals that are asked for; and what is found of
/// it.
pub(crate) fn report(
    alloc: Global,
    hashing: NameHashing,
    schedule: Option<Schedule>,
    asked: &Asked,
    bytes: &[u8],
) -> Result<(Vec<u8>, Finding), AuditFault>
    requires { IfSome schedule (λ s. revisions_of s ≡ []) }
    ensures ok { IfOk result (λ told. IsSound (option_map tables_in schedule) asked.now bytes.now
        told.0.items told.1) }
    ensures fault { IfErr result (HasRefused (option_map tables_in schedule) asked.now bytes.now) }
{
    let found = read_alone(alloc, bytes, first_digest(&schedule))?;
    let revisions = revisions_entered(alloc, hashing, found.cards, schedule, &found.touches)?;
    check_header(asked, found.capacity, found.cards)?;
    let told = check_seal(&asked.seal, found.format, found.touches.len() as u32, bytes)?;
    let header = header_lines(alloc, &found)?;
    let text = text_of(alloc, header.as_str(), &found, &revisions, &told)?;
    Ok((text, finding_of(found.behind)))
}
