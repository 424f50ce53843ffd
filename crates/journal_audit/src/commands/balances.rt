//! The command `balances`: what the cards of a journal hold that is read alone.

ghost use Rattle.std.specs.Prelude.{◌≡◌, IfOk, IfErr, OnOk};
ghost use Rattle.std.specs.Process.{exit_status};
ghost use Rattle.journal_audit.specs.Journals.{HasToldBalances, AreBalancesUntold};
ghost use Rattle.journal_audit.specs.Told.{IsExplained};
ghost use Rattle.journal_audit.specs.declared.commands.fault.CommandFault.TheVariants.{Output};
ghost use Rattle.console.specs.declared.detail.Detail.{Detail};

use crate::balances::totals::Totals;
use crate::balances::write_balances;
use crate::commands::behind::tell_many;
use crate::commands::fault::CommandFault;
use crate::commands::second_line::explained;
use crate::commands::settled::settled_file;
use command_line::Balances;
use console::{Detail, SystemRefusal, WholeFiles};
use reply_book::NameHashing;
use std::alloc::Global;
use std::io;
use std::io::Write;
use std::process::ExitCode;
use table_check::tables_in;

/// As `explained_balances`, without the second line of a fault.
pub(crate) fn tell_balances<R: AllocGlobal + Eprint, F: WholeFiles, W: Write>(
    rt: &R,
    hashing: NameHashing,
    files: &F,
    asked: &Balances<'_>,
    writer: &mut W,
) -> Result<ExitCode, CommandFault>
    ensures ok { OnOk result (HasToldBalances (F.gave files.now) asked.now
        (W.contents writer.old) (W.contents writer.new)) }
    ensures status { IfOk result (λ status. exit_status status ≡ 0) }
    ensures fault { IfErr result (AreBalancesUntold (F.gave files.now) asked.now
        (W.contents writer.old) (W.contents writer.new) (writer.new ≡ writer.old)) }
{
    let alloc = rt.alloc();
    let schedule = tables_in(alloc, files, Some(asked.table), asked.revisions.as_slice())?;
    let read = settled_file(rt, files, asked.journal)?;
    let totals = write_balances(alloc, hashing, schedule, asked.at, &read.bytes, writer)?;
    tell_many(rt, read.behind);
    match tell_totals(rt, &totals) {
        Ok(()) => Ok(ExitCode::SUCCESS),
        Err(error) => Err(sums_fault(alloc, &error)),
    }
}

/// Writes what each issued card of the journal in a file holds, by the fare tables that are named,
/// and tells standard error the sums. `Output` comes where it doesn't take them: then all rows were
/// written.
///
/// The tables are looked at first, and then the journal's file. It is opened for reading alone, and
/// isn't locked: a server may go on with it. It is read to its end before anything is written, and
/// read again where it changed meanwhile and looks damaged. More open slots behind the journal's
/// end than crashes leave are noted on standard error before the sums.
///
/// A fault of the journal in this file has its second line (`explained`).
pub fn explained_balances<R: AllocGlobal + Eprint, F: WholeFiles, W: Write>(
    rt: &R,
    hashing: NameHashing,
    files: &F,
    asked: &Balances<'_>,
    output: &mut W,
) -> Result<ExitCode, CommandFault>
    ensures ok { OnOk result (HasToldBalances (F.gave files.now) asked.now
        (W.contents output.old) (W.contents output.new)) }
    ensures status { IfOk result (λ status. exit_status status ≡ 0) }
    ensures fault { IfErr result (IsExplained (AreBalancesUntold (F.gave files.now) asked.now
        (W.contents output.old) (W.contents output.new) (output.new ≡ output.old))) }
{
    match tell_balances(rt, hashing, files, asked, output) {
        Ok(status) => Ok(status),
        Err(fault) => Err(explained(rt.alloc(), asked.journal, Some(asked.table), fault)),
    }
}

/// The fault of sums that standard error doesn't take, for this error.
fn sums_fault(alloc: Global, error: &io::Error) -> CommandFault
    ensures { (detail : Detail) × (result ≡ Output detail) }
{
    let refusal = SystemRefusal::of(error);
    CommandFault::Output(Detail::of(alloc, "standard error", &refusal))
}

/// Tells the sums over all issued cards, and that they are balanced: `write_balances` refuses a
/// journal in which a card's, or their sum, isn't. An error is that of standard error.
fn tell_totals<R: Eprint>(rt: &R, totals: &Totals) -> io::Result<()> {
    let (cards, balance) = (totals.cards, totals.balance);
    let (paid_in, charged) = (totals.paid_in, totals.charged);
    eprintln!(rt; "cards {cards}")?;
    eprintln!(rt; "balance {balance}")?;
    eprintln!(rt; "paid_in {paid_in}")?;
    eprintln!(rt; "charged {charged}")?;
    eprintln!(rt; "balanced")
}
