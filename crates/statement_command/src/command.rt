//! The command `statement`: a card's statement from a journal's file.

ghost use Rattle.std.specs.Prelude.{◌≡◌, IfOk, IfErr, OnOk};
ghost use Rattle.std.specs.Process.{exit_status};
ghost use Rattle.journal_audit.specs.Told.{IsExplained};
ghost use Rattle.statement_command.specs.Command.{HasToldStatement, IsStatementUntold};

use crate::days::Days;
use crate::journal::write_statement;
use command_line::Statement;
use console::WholeFiles;
use journal_audit::{CommandFault, Settled, explained, settled_file, tell_many};
use reply_book::NameHashing;
use std::io::Write;
use std::process::ExitCode;
use table_check::tables_in;

/// Prints the statement of a card from the journal in a file, by the fare tables that are named.
///
/// The tables are read first, and then the journal's file, without a lock: a server may run
/// meanwhile. The file is read to its end before anything is printed, and read again if it changed
/// meanwhile and looks damaged. A note on standard error follows if more slots after the journal's
/// end are valid than crashes leave.
pub fn tell_statement<R: AllocGlobal + Eprint, F: WholeFiles, W: Write>(
    rt: &R,
    hashing: NameHashing,
    files: &F,
    asked: &Statement<'_>,
    writer: &mut W,
) -> Result<ExitCode, CommandFault>
    ensures ok { OnOk result (HasToldStatement (F.gave files.now) asked.now
        (W.contents writer.old) (W.contents writer.new)) }
    ensures status { IfOk result (λ status. exit_status status ≡ 0) }
    ensures fault { IfErr result (IsStatementUntold (F.gave files.now) asked.now
        (W.contents writer.old) (W.contents writer.new) (writer.new ≡ writer.old)) }
{
    let alloc = rt.alloc();
    let schedule = tables_in(alloc, files, Some(asked.table), asked.revisions.as_slice())?;
    let Settled { bytes, behind } = settled_file(rt, files, asked.journal)?;
    let days = Days {
        from: asked.from,
        to: asked.to,
    };
    write_statement(
        alloc,
        hashing,
        schedule,
        asked.card,
        days,
        asked.format,
        bytes,
        writer,
    )?;
    tell_many(rt, behind);
    Ok(ExitCode::SUCCESS)
}

/// Prints the statement of a card, with the second line of a fault.
pub fn explained_statement<R: AllocGlobal + Eprint, F: WholeFiles, W: Write>(
    rt: &R,
    hashing: NameHashing,
    files: &F,
    asked: &Statement<'_>,
    output: &mut W,
) -> Result<ExitCode, CommandFault>
    ensures ok { OnOk result (HasToldStatement (F.gave files.now) asked.now
        (W.contents output.old) (W.contents output.new)) }
    ensures status { IfOk result (λ status. exit_status status ≡ 0) }
    ensures fault { IfErr result (IsExplained (IsStatementUntold (F.gave files.now) asked.now
        (W.contents output.old) (W.contents output.new) (output.new ≡ output.old))) }
{
    match tell_statement(rt, hashing, files, asked, output) {
        Ok(status) => Ok(status),
        Err(fault) => {
            let table = Some(asked.table);
            Err(explained(rt.alloc(), asked.journal, table, fault))
        }
    }
}
