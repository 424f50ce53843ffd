//! The command `verify`: a journal or a gate's file that is read alone, and what is told of it.

ghost use Rattle.std.specs.Prelude.{◌≡◌, ◌⊎◌, [], IfOk, IfErr, IfSome, option_map};
ghost use Rattle.std.specs.Process.{exit_status};
ghost use Rattle.fare_schedule.specs.Schedule.{revisions_of};
ghost use Rattle.reply_book.specs.Tables.{tables_in as tables_by};
ghost use Rattle.journal_audit.specs.Command.{asked_by};
ghost use Rattle.journal_audit.specs.Told.{IsExplained};
ghost use Rattle.journal_audit.specs.Verified.{AreTablesAsked, AreTablesRefused, IsUnread};
ghost use Rattle.journal_audit.specs.Verified.{status_of, IsVerified, HasVerified};
ghost use Rattle.journal_audit.specs.Verified.{HasEndedEarly, HasVerifiedAs, IsUnverifiedAs};
ghost use Rattle.journal_audit.specs.Verified.{HasVerifiedFile, HasEndedFileEarly, IsFileUnread};

use crate::audit::audit_journal;
use crate::audit::finding::Finding;
use crate::audit::header::Asked;
use crate::commands::fault::CommandFault;
use crate::commands::second_line::explained;
use crate::commands::settled::settled_file;
use crate::gate_file::audit_gate_file;
use command_line::Verify;
use console::{TrialFault, WholeFiles};
use fare_schedule::Schedule;
use reply_book::NameHashing;
use std::alloc::Global;
use std::io::Write;
use std::process::ExitCode;
use table_check::tables_in;

/// As `explained_verify`, without the second line of a fault.
pub(crate) fn verify_journal<R: AllocGlobal + Eprint, F: WholeFiles, W: Write>(
    rt: &R,
    hashing: NameHashing,
    files: &F,
    asked: &Verify<'_>,
    writer: &mut W,
) -> Result<ExitCode, CommandFault>
    ensures ok { IfOk result (λ status. HasVerifiedAs (F.gave files.now) asked.now asked.now.gate
        (W.contents writer.old) (W.contents writer.new) (exit_status status)) }
    ensures fault { IfErr result (IsUnverifiedAs (F.gave files.now) asked.now asked.now.gate
        (W.contents writer.old) (W.contents writer.new) (writer.new ≡ writer.old)) }
{
    match asked.gate {
        Some(gate) => verify_gate_file(rt, files, gate, asked, writer),
        None => verify_station(rt, hashing, files, asked, writer),
    }
}

/// Writes what the journal in a file holds, by the fare tables that are named, where they are.
/// Where a gate is named, it is that gate's file, and no table is looked at. The status is 3 where
/// more is to be looked at.
///
/// The tables are looked at first, and then the journal's file. It is opened for reading alone, and
/// isn't locked: a server or a gate may go on with it. It is read to its end before anything is
/// written, and read again where it changed meanwhile and looks damaged.
///
/// A fault of the journal in this file has its second line (`explained`).
pub fn explained_verify<R: AllocGlobal + Eprint, F: WholeFiles, W: Write>(
    rt: &R,
    hashing: NameHashing,
    files: &F,
    asked: &Verify<'_>,
    output: &mut W,
) -> Result<ExitCode, CommandFault>
    ensures ok { IfOk result (λ status. HasVerifiedAs (F.gave files.now) asked.now asked.now.gate
        (W.contents output.old) (W.contents output.new) (exit_status status)) }
    ensures fault { IfErr result (IsExplained (IsUnverifiedAs (F.gave files.now) asked.now
        asked.now.gate (W.contents output.old) (W.contents output.new)
        (output.new ≡ output.old))) }
{
    match verify_journal(rt, hashing, files, asked, output) {
        Ok(status) => Ok(status),
        Err(fault) => Err(explained(rt.alloc(), asked.journal, asked.table, fault)),
    }
}

/// Writes what a station's journal in a file holds, by the fare tables that are named, where they
/// are.
fn verify_station<R: AllocGlobal + Eprint, F: WholeFiles, W: Write>(
    rt: &R,
    hashing: NameHashing,
    files: &F,
    asked: &Verify<'_>,
    writer: &mut W,
) -> Result<ExitCode, CommandFault>
    ensures ok { IfOk result (λ status. HasVerified (F.gave files.now) asked.now
        (W.contents writer.old) (W.contents writer.new)
        (λ tables bytes text. IsVerified tables (asked_by asked.now) (exit_status status)
        bytes text)) }
    ensures fault { IfErr result (λ fault.
        (IsUnread (F.gave files.now) asked.now fault × (writer.new ≡ writer.old))
        ⊎ HasEndedEarly (F.gave files.now) asked.now
        (W.contents writer.old) (W.contents writer.new) fault) }
{
    let alloc = rt.alloc();
    let schedule = tables_asked(alloc, files, asked)?;
    let read = settled_file(rt, files, asked.journal)?;
    let wanted = asked_of(asked);
    let found = audit_journal(alloc, hashing, schedule, wanted, &read.bytes, writer)?;
    Ok(ExitCode::from(status_of(found)))
}

/// Writes what the file of this gate holds.
fn verify_gate_file<R: AllocGlobal + Eprint, F: WholeFiles, W: Write>(
    rt: &R,
    files: &F,
    gate: u16,
    asked: &Verify<'_>,
    writer: &mut W,
) -> Result<ExitCode, CommandFault>
    ensures ok { IfOk result (λ status. HasVerifiedFile (F.gave files.now) asked.now gate
        (W.contents writer.old) (W.contents writer.new) (exit_status status)) }
    ensures fault { IfErr result (λ fault. (IsFileUnread fault × (writer.new ≡ writer.old))
        ⊎ HasEndedFileEarly (F.gave files.now) asked.now gate
        (W.contents writer.old) (W.contents writer.new) fault) }
{
    let content = settled_file(rt, files, asked.journal)?;
    let wanted = asked_of(asked);
    let found = audit_gate_file(rt.alloc(), gate, wanted, &content.bytes, writer)?;
    Ok(ExitCode::from(status_of(found)))
}

/// The first table with the further ones, where tables are named.
fn tables_asked<F: WholeFiles>(
    alloc: Global,
    files: &F,
    asked: &Verify<'_>,
) -> Result<Option<Schedule>, TrialFault>
    ensures ok { IfOk result (λ named. AreTablesAsked (F.gave files.now) asked.now
        (option_map tables_by named)) }
    ensures revisions { IfOk result
        (λ named. IfSome named (λ schedule. revisions_of schedule ≡ [])) }
    ensures fault { IfErr result (AreTablesRefused (F.gave files.now) asked.now) }
{
    match asked.table {
        Some(path) => {
            let schedule = tables_in(alloc, files, Some(path), asked.revisions.as_slice())?;
            Ok(Some(schedule))
        }
        None => Ok(None),
    }
}

/// The status of what an audit found.
fn status_of(found: Finding) -> u8
    ensures { result ≡ status_of found }
{
    match found {
        Finding::Sound => 0,
        Finding::LookBehind => 3,
    }
}

/// What an audit is asked of the header and the seals.
fn asked_of(asked: &Verify<'_>) -> Asked
    ensures { result ≡ asked_by asked.now }
{
    Asked {
        capacity: asked.expect_capacity,
        cards: asked.expect_cards,
        seal: asked.seal,
    }
}
