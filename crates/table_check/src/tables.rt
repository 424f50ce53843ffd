//! The fare tables that a command's words name, and what is told of one that is refused.

ghost use Rattle.std.specs.Prelude.{◌≡◌, ◌++◌, ◌∷◌, [], None, IfOk, IfErr, OnOk, OnErr, map};
ghost use Rattle.std.specs.Prelude.{option_map};
ghost use Rattle.fare_schedule.specs.Schedule.{tables_of, revisions_of};
ghost use Rattle.fare_schedule.specs.Supply.{supply_fault};
ghost use Rattle.reply_book.specs.Tables.{tables_in as tables_by};
ghost use Rattle.fare_table.specs.Table.{IsTableOf};
ghost use Rattle.table_check.specs.Tables.{IsTableIn, IsFirstTable, AreTablesIn, AreTablesOf};
ghost use Rattle.table_check.specs.Tables.{IsTaken, IsSupplyFault};
ghost use Rattle.table_check.specs.Tables.{IsTableFault, IsTableInFault, IsFirstFault};
ghost use Rattle.table_check.specs.Tables.{IsNotTaken, IsFurtherFault, AreRefused};

use crate::sheet::Sheet;
use crate::standing::place_of;
use console::{Detail, TrialFault, WholeFiles};
use fare_schedule::{Schedule, SupplyFault};
use fare_table::{EXAMPLE_TABLE, Fares, TableFault};
use std::alloc::Global;
use text_io::RunFault;

/// The first fare table: that in a file, or the example table where no file is named.
///
/// A fault is `File` where the file isn't had or isn't read to its end, `Table`, or want of memory.
pub fn first_table<F: WholeFiles>(
    alloc: Global,
    files: &F,
    path: Option<&str>,
) -> Result<Fares, TrialFault>
    ensures ok { IfOk result
        (IsFirstTable (F.gave files.now) (option_map (λ word. word.now) path.entry)) }
    ensures fault { IfErr result
        (IsFirstFault (F.gave files.now) (option_map (λ word. word.now) path.entry)) }
{
    match path {
        Some(path) => table_in(alloc, files, path),
        None => Ok(Fares::read(alloc, EXAMPLE_TABLE)?),
    }
}

/// The first table with the tables in further files, to which fares may be revised. The files are
/// looked at one by one: the first that is refused is the fault, as `first_table` tells it, or
/// `Supply`.
pub fn schedule_of<F: WholeFiles>(
    alloc: Global,
    files: &F,
    first: Fares,
    revisions: &[&str],
) -> Result<Schedule, TrialFault>
    ensures first { IfOk result (λ schedule. (tables_by schedule).first ≡ first) }
    ensures supplied { IfOk result (λ schedule. AreTablesIn (F.gave files.now)
        (map (λ word. word.now) revisions.now) (tables_by schedule).supplied) }
    ensures revisions { IfOk result (λ schedule. revisions_of schedule ≡ []) }
    ensures fault { IfErr result (IsFurtherFault (F.gave files.now) first
        (map (λ word. word.now) revisions.now)) }
{
    let mut schedule = Schedule::new(alloc, first)?;
    let mut place = 0;
    for path in revisions {
        place += 1;
        supply_from(alloc, files, &mut schedule, path, place)?;
    }
    Ok(schedule)
}

/// The first table, in a file or the example's, with the tables in further files. Faults are those
/// of `first_table` and of `schedule_of`.
pub fn tables_in<F: WholeFiles>(
    alloc: Global,
    files: &F,
    first: Option<&str>,
    revisions: &[&str],
) -> Result<Schedule, TrialFault>
    ensures ok { IfOk result (λ schedule. AreTablesOf (F.gave files.now)
        (option_map (λ word. word.now) first.entry) (map (λ word. word.now) revisions.now)
        (tables_by schedule)) }
    ensures revisions { IfOk result (λ schedule. revisions_of schedule ≡ []) }
    ensures fault { IfErr result (AreRefused (F.gave files.now)
        (option_map (λ word. word.now) first.entry) (map (λ word. word.now) revisions.now)) }
{
    let first = first_table(alloc, files, first)?;
    schedule_of(alloc, files, first, revisions)
}

/// Adds the table in a file to a schedule: the one of this place among the further tables, from 1.
fn supply_from<F: WholeFiles>(
    alloc: Global,
    files: &F,
    schedule: &mut Schedule,
    path: &str,
    place: usize,
) -> Result<(), TrialFault>
    ensures supplied { OnOk result
        (IsTaken (F.gave files.now) schedule.old path.now schedule.new) }
    ensures revisions { revisions_of schedule.new ≡ revisions_of schedule.old }
    ensures kept { OnErr result (tables_of schedule.new ≡ tables_of schedule.old) }
    ensures fault { IfErr result
        (IsNotTaken (F.gave files.now) schedule.old path.now place) }
{
    let table = table_in(alloc, files, path)?;
    supply(alloc, schedule, table, path, place)?;
    Ok(())
}

/// Adds a further table to a schedule. A fault is told with the table's place among them, from 1,
/// and names its file.
fn supply(
    alloc: Global,
    schedule: &mut Schedule,
    table: Fares,
    path: &str,
    place: usize,
) -> Result<(), TrialFault>
    ensures ok { OnOk result (supply_fault schedule.old table ≡ None) }
    ensures supplied { OnOk result
        (tables_of schedule.new ≡ tables_of schedule.old ++ table ∷ []) }
    ensures kept { OnErr result (tables_of schedule.new ≡ tables_of schedule.old) }
    ensures revisions { revisions_of schedule.new ≡ revisions_of schedule.old }
    ensures fault { IfErr result (IsSupplyFault schedule.old table place) }
{
    match schedule.supply(table) {
        Ok(()) => Ok(()),
        Err(SupplyFault::Memory) => Err(TrialFault::Run(RunFault::Memory)),
        Err(fault) => {
            let detail = Detail::of_file(alloc, path);
            Err(TrialFault::Supply(fault, place, detail))
        }
    }
}

/// The fare table in a file.
fn table_in<F: WholeFiles>(alloc: Global, files: &F, path: &str) -> Result<Fares, TrialFault>
    ensures ok { IfOk result (IsTableIn (F.gave files.now) path.now) }
    ensures fault { IfErr result (IsTableInFault (F.gave files.now) path.now) }
{
    let bytes = files.bytes_in(alloc, path)?;
    table_of(alloc, path, &bytes)
}

/// The fare table that the bytes of the file at a path are.
pub(crate) fn table_of(alloc: Global, path: &str, bytes: &[u8]) -> Result<Fares, TrialFault>
    ensures ok { IfOk result (IsTableOf bytes.now) }
    ensures fault { IfErr result (IsTableFault bytes.now) }
{
    match Fares::read_bytes(alloc, bytes) {
        Ok(fares) => Ok(fares),
        Err(TableFault::Memory) => Err(TrialFault::Run(RunFault::Memory)),
        Err(fault) => {
            let detail = table_detail(alloc, path, bytes, fault);
            Err(TrialFault::Table(fault, detail))
        }
    }
}

/// What is told of a table's fault beside its line: the file, and where in it the fault stands,
/// with what stands there and what may.
fn table_detail(alloc: Global, path: &str, bytes: &[u8], fault: TableFault) -> Detail {
    match Sheet::read(alloc, bytes) {
        Ok(sheet) => sheet_detail(alloc, path, &sheet, fault),
        Err(fault) => fault.detail(alloc, path),
    }
}

/// The same, of a table that is a document.
pub(crate) fn sheet_detail(
    alloc: Global,
    path: &str,
    sheet: &Sheet<'_>,
    fault: TableFault,
) -> Detail {
    match place_of(sheet, fault) {
        Some(place) => Detail::of(alloc, path, &place),
        None => Detail::of_file(alloc, path),
    }
}
