//! What `serve` writes on standard output (COMMANDS.md, "The report"). It takes no memory.

ghost use Rattle.std.specs.Prelude.{OnOk};
ghost use Rattle.std.specs.Io.KnownBytes.{Appends};
ghost use Rattle.office_lines.specs.Report.{opened_line, tally_line, tally_lines, end_line};
ghost use Rattle.office_lines.specs.Report.{report_text};

use crate::tally::Tally;
use std::io;
use std::io::Write;

/// Writes the first line: how many touches were found in the journal.
pub fn write_opened<W: Write>(writer: &mut W, opened: u32) -> io::Result<()>
    ensures { OnOk result (Appends (W.contents writer.old) (W.contents writer.new)
        (opened_line opened)) }
{
    write!(writer, "opened {opened}\n")?;
    writer.flush()
}

/// Writes the lines behind that of the opening: each gate line's, in their order, and the last.
pub fn write_report<W: Write>(
    writer: &mut W,
    tallies: &[Tally],
    halted: bool,
    entries: u32,
) -> io::Result<()>
    ensures { OnOk result (Appends (W.contents writer.old) (W.contents writer.new)
        (report_text tallies.now halted entries)) }
{
    write_tallies(writer, tallies)?;
    write_end(writer, halted, entries)?;
    writer.flush()
}

/// Writes the lines of the gate lines, whose numbers count from 1.
fn write_tallies<W: Write>(writer: &mut W, tallies: &[Tally]) -> io::Result<()>
    ensures { OnOk result (Appends (W.contents writer.old) (W.contents writer.new)
        (tally_lines 1 tallies.now)) }
{
    let mut line: usize = 0;
    for tally in tallies {
        line += 1;
        write_tally(writer, line, tally)?;
    }
    Ok(())
}

/// Writes the line of a gate line.
fn write_tally<W: Write>(writer: &mut W, line: usize, tally: &Tally) -> io::Result<()>
    ensures { OnOk result (Appends (W.contents writer.old) (W.contents writer.new)
        (tally_line line tally.now)) }
{
    let connections = tally.connections;
    let requests = tally.requests;
    let answers = tally.answers;
    write!(
        writer,
        "line {line} connections {connections} requests {requests} answers {answers}\n"
    )
}

/// Writes the last line: how many entries the history has, and whether the journal's disk failed.
fn write_end<W: Write>(writer: &mut W, halted: bool, entries: u32) -> io::Result<()>
    ensures { OnOk result (Appends (W.contents writer.old) (W.contents writer.new)
        (end_line halted entries)) }
{
    if halted {
        write!(writer, "halted {entries}\n")
    } else {
        write!(writer, "closed {entries}\n")
    }
}
