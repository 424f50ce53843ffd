//! The command `migrate`: a journal of the first format, carried over to a new file.

ghost use Rattle.std.specs.Prelude.{◌≡◌, ◌⊎◌, ℕ, IfOk, IfErr, OnOk};
ghost use Rattle.std.specs.Io.KnownBytes.{Appends};
ghost use Rattle.std.specs.Process.{exit_status};
ghost use Rattle.text_io.specs.declared.fault.RunFault.TheVariants.{Write};
ghost use Rattle.console.specs.declared.fault.TrialFault.TheVariants.{Run};
ghost use Rattle.table_check.specs.Tables.{IsTableIn};
ghost use Rattle.fare_table.specs.Fares.{digest_of};
ghost use Rattle.fare_table.specs.declared.fares.Fares.{Fares};
ghost use Rattle.journal_audit.specs.Told.{IsExplained};
ghost use Rattle.journal_audit.specs.declared.commands.fault.CommandFault.TheVariants.{Trial};
ghost use Rattle.journal_service.specs.Migrated.{migrated_line};
ghost use Rattle.journal_service.specs.Carried.{HasCarried};

use crate::disks::JournalFiles;
use command_line::Migrate;
use console::WholeFiles;
use fare_table::Digest;
use journal_audit::{CommandFault, explained, tell_end};
use std::alloc::Global;
use std::io;
use std::io::Write;
use std::process::ExitCode;
use std::rt::Files;
use table_check::first_table;
use tap_disk::Disk;
use tap_journal::{Journal, NotCarried};
use text_io::RunFault;

/// As `explained_migrate`, without the second line of a fault.
pub(crate) fn migrate_journal<
    R: AllocGlobal + Files + Eprint,
    F: WholeFiles,
    D: Disk,
    S: JournalFiles<D>,
    W: Write,
>(
    rt: &R,
    files: &F,
    disks: &S,
    asked: &Migrate<'_>,
    writer: &mut W,
) -> Result<ExitCode, CommandFault>
    ensures ok { OnOk result ((table : Fares) × (number : ℕ)
        × IsTableIn (F.gave files.now) asked.now.table.now table
        × HasCarried D.honest D.content D.outcome (S.opened_alone disks.now) (S.opened disks.now)
        asked.now (digest_of table) number
        × Appends (W.contents writer.old) (W.contents writer.new) (migrated_line number)) }
    ensures status { IfOk result (λ status. exit_status status ≡ 0) }
    ensures fault { IfErr result (λ fault.
        (writer.new ≡ writer.old) ⊎ (fault ≡ Trial (Run Write))) }
{
    let digest = first_table(rt.alloc(), files, Some(asked.table))?.digest();
    let touches = carry_over(rt.alloc(), disks, asked, &digest)?;
    match write_migrated(writer, touches) {
        Ok(()) => {
            tell_end(rt, files, asked.from);
            Ok(ExitCode::SUCCESS)
        }
        Err(_) => Err(RunFault::Write.into()),
    }
}

/// Carries a journal of the first format over to a new file, and writes how many touches it has.
///
/// The table is looked at first, then the old file, and only then the new file is made. The old
/// file is opened for reading alone. Open slots behind its end are told of.
///
/// A fault of the journal in this file has its second line (`explained`).
pub fn explained_migrate<
    R: AllocGlobal + Files + Eprint,
    F: WholeFiles,
    D: Disk,
    S: JournalFiles<D>,
    W: Write,
>(
    rt: &R,
    files: &F,
    disks: &S,
    asked: &Migrate<'_>,
    output: &mut W,
) -> Result<ExitCode, CommandFault>
    ensures ok { OnOk result ((table : Fares) × (number : ℕ)
        × IsTableIn (F.gave files.now) asked.now.table.now table
        × HasCarried D.honest D.content D.outcome (S.opened_alone disks.now) (S.opened disks.now)
        asked.now (digest_of table) number
        × Appends (W.contents output.old) (W.contents output.new) (migrated_line number)) }
    ensures status { IfOk result (λ status. exit_status status ≡ 0) }
    ensures fault { IfErr result (IsExplained (λ fault.
        (output.new ≡ output.old) ⊎ (fault ≡ Trial (Run Write)))) }
{
    match migrate_journal(rt, files, disks, asked, output) {
        Ok(status) => Ok(status),
        Err(fault) => {
            let table = Some(asked.table);
            Err(explained(rt.alloc(), asked.from, table, fault))
        }
    }
}

/// Carries the old file's touches over to the new file, by the digest of their table, and answers
/// how many there are.
fn carry_over<D: Disk, S: JournalFiles<D>>(
    alloc: Global,
    disks: &S,
    asked: &Migrate<'_>,
    digest: &Digest,
) -> Result<u32, CommandFault>
    ensures ok { IfOk result (HasCarried D.honest D.content D.outcome
        (S.opened_alone disks.now) (S.opened disks.now) asked.now digest.now) }
{
    let source = disks.open_alone(asked.from)?;
    let target = disks.open(asked.to)?;
    match Journal::migrate(alloc, source, target, asked.cards, digest) {
        Ok((_, _, touches)) => Ok(touches),
        Err(fault) => Err(NotCarried {
            cause: fault.cause,
            found: fault.found,
        }
        .into()),
    }
}

/// Writes the line of a journal that was carried over: how many touches it has. It takes no memory.
pub(crate) fn write_migrated<W: Write>(writer: &mut W, touches: u32) -> io::Result<()>
    ensures { OnOk result (Appends (W.contents writer.old) (W.contents writer.new)
        (migrated_line touches)) }
{
    write!(writer, "migrated {touches}\n")?;
    writer.flush()
}
