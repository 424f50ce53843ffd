//! The check of a fare table: what is written says whether the table is valid, or what is wrong
//! with it.

ghost use Rattle.std.specs.Prelude.{◌≡◌, string_bytes, IfOk};
ghost use Rattle.std.specs.Io.KnownBytes.{IsAtEnd};
ghost use Rattle.text_io.specs.Writing.{Ran, Wrote};
ghost use Rattle.fare_table.specs.Faults.{fault_in};
ghost use Rattle.table_check.specs.Check.{report_of, lines_of_table, report_in, HasChecked};

use fare_table::{Fares, TableFault};
use std::alloc::{AllocError, Global};
use std::io::{Read, Write};
use text_io::{RunFault, read_all, write_text};

/// What is told of a fare table.
pub struct TableReport {
    /// The lines that are written.
    text: String,
    /// The table's first fault. A valid table has none.
    fault: Option<TableFault>,
}

/// By hand, so that it is one call wherever one is dropped.
impl Drop for TableReport {
    fn drop(self) {
        let TableReport { text: _, fault: _ } = self;
    }
}

/// Reads a fare table to its end, and writes its numbers of rows and its digest, or the line of its
/// fault (COMMANDS.md, "check"). It answers whether the table is valid.
///
/// `Memory` and `Read` come before anything is written. At `Write` a beginning was.
pub fn check_table<R: Read, W: Write>(
    alloc: Global,
    reader: &mut R,
    writer: &mut W,
    turns: u32,
) -> Result<bool, RunFault>
    ensures written { Ran (R.remaining reader.old) (R.remaining reader.new)
        (W.contents writer.old) (W.contents writer.new)
        (λ bytes text. HasChecked (report_of bytes) text result) }
    ensures end { IfOk result (λ _. IsAtEnd (R.remaining reader.new)) }
{
    let bytes = read_all(alloc, reader, turns)?;
    check_bytes(alloc, &bytes, writer)
}

/// Writes of the bytes of a fare table what `check_table` writes, and answers whether the table is
/// valid. `Memory` comes before anything is written. At `Write` a beginning was.
pub fn check_bytes<W: Write>(alloc: Global, bytes: &[u8], writer: &mut W) -> Result<bool, RunFault>
    ensures { Wrote (W.contents writer.old) (W.contents writer.new)
        (λ text. HasChecked (report_of bytes.now) text result) }
{
    let report = report_table(alloc, bytes)?;
    report.write(writer)
}

/// What is told of the fare table that bytes hold. Nothing is written yet.
pub fn report_table(alloc: Global, bytes: &[u8]) -> Result<TableReport, AllocError>
    ensures report { IfOk result (λ report. report_in report ≡ report_of bytes.now) }
    ensures fault { IfOk result (λ report. report.fault ≡ fault_in bytes.now) }
{
    match Fares::read_bytes(alloc, bytes) {
        Ok(fares) => Ok(TableReport {
            text: table_lines(alloc, &fares)?,
            fault: None,
        }),
        Err(TableFault::Memory) => Err(AllocError),
        Err(fault) => Ok(TableReport {
            text: format!(in alloc; "{fault}\n")?,
            fault: Some(fault),
        }),
    }
}

impl TableReport {
    /// The table's first fault. A valid table has none.
    pub fn fault(&self) -> Option<TableFault>
        ensures { result ≡ self.now.fault }
    {
        self.fault
    }

    /// Writes the report, and answers whether the table is valid. At `Write` a beginning was
    /// written.
    pub fn write<W: Write>(&self, writer: &mut W) -> Result<bool, RunFault>
        ensures { Wrote (W.contents writer.old) (W.contents writer.new)
            (λ text. HasChecked (report_in self.now) text result) }
    {
        write_text(writer, self.text.as_bytes())?;
        Ok(self.fault.is_none())
    }
}

/// The lines of a table that was read.
fn table_lines(alloc: Global, fares: &Fares) -> Result<String, AllocError>
    ensures { IfOk result (λ text. string_bytes text ≡ lines_of_table fares.now) }
{
    let stations = fares.station_count();
    let singles = fares.single_count();
    let caps = fares.caps().len();
    let digest = hex::encode(alloc, fares.digest())?;
    format!(in alloc; "stations {stations}\nsingles {singles}\ncaps {caps}\ndigest {digest}\n")
}
