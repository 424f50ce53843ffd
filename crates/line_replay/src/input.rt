//! The command `replay`: request frames that are read, and answered by lines.

ghost use Rattle.std.specs.Prelude.{◌≡◌, ◌⊎◌, IfOk, IfErr, OnOk, map, option_map};
ghost use Rattle.std.specs.Process.{exit_status};
ghost use Rattle.station_limits.specs.declared.limits.TheConstants.{CARDS_LIMIT};
ghost use Rattle.program_options.specs.Numbers.{IsWithin};
ghost use Rattle.table_check.specs.Tables.{AreRefused};
ghost use Rattle.line_replay.specs.Input.{IsWhole, IsUnasked, HasReplayed, HasEndedEarly};

use crate::replay::replay_text;
use console::{TURNS, TrialFault, WholeFiles};
use reply_book::NameHashing;
use std::alloc::Global;
use std::io::{Read, Write};
use std::process::ExitCode;
use table_check::tables_in;

/// Replays what a reader gives to a writer, by the fare table in a file or the example table, and
/// by further tables, with so many cards. The tables are looked at before anything is read. A fault
/// is theirs, as `tables_in` tells it, or that of `replay_text`, which has written a beginning of
/// the answers then.
pub fn replay_input<F: WholeFiles, R: Read, W: Write>(
    alloc: Global,
    hashing: NameHashing,
    files: &F,
    table: Option<&str>,
    revisions: &[&str],
    cards: u32,
    reader: &mut R,
    writer: &mut W,
) -> Result<ExitCode, TrialFault>
    requires { IsWithin CARDS_LIMIT cards }
    ensures ok { OnOk result (HasReplayed (F.gave files.now)
        (option_map (λ word. word.now) table.entry) (map (λ word. word.now) revisions.now) cards
        (R.remaining reader.old) (R.remaining reader.new)
        (W.contents writer.old) (W.contents writer.new) IsWhole) }
    ensures status { IfOk result (λ status. exit_status status ≡ 0) }
    ensures fault { IfErr result (λ fault.
        (IsUnasked reader.old reader.new writer.old writer.new × AreRefused (F.gave files.now)
        (option_map (λ word. word.now) table.entry) (map (λ word. word.now) revisions.now) fault)
        ⊎ HasEndedEarly (F.gave files.now)
        (option_map (λ word. word.now) table.entry) (map (λ word. word.now) revisions.now) cards
        (R.remaining reader.old) (R.remaining reader.new)
        (W.contents writer.old) (W.contents writer.new) fault) }
{
    let schedule = tables_in(alloc, files, table, revisions)?;
    replay_text(alloc, hashing, schedule, cards, reader, writer, TURNS)?;
    Ok(ExitCode::SUCCESS)
}
