//! What no clause says of statements: the text of worked journals in each format, the fault lines
//! in the order of their causes, and what is written if a write or an allocation fails. Each text
//! is worked out by hand from FARES.md and COMMANDS.md, "statement".

ghost use Rattle.std.specs.Prelude.{◌≡◌, ◌+◌, ◌*◌, [], IfSome};
ghost use Rattle.fare_schedule.specs.Schedule.{revisions_of};

mod cards;
mod command;
mod days;
mod failing;
mod faults;
mod memory;
mod names;
mod reasons;
mod revised;
mod worked;

use command_line::StatementFormat;
use fare_schedule::Schedule;
use fare_table::{EXAMPLE_TABLE, Fares};
use journal_audit::CommandFault;
use oyster_account::{Act, Touch};
use reply_book::NameHashing;
use statement_command::{Days, write_statement};
use std::alloc::{AllocError, Global};
use std::fmt::Debug;
use std::process::Abort;
use std::test::Fail;

/// The card whose statement is printed.
const CARD: u32 = 17;

/// All days.
const ALL: Days = Days {
    from: None,
    to: None,
};

/// The header, up to the digest, of a journal of the second format for 20 touches and 20 cards.
const START: [u8; 17] = *b"\xa5OYSTERJ2\x00\x00\x00\x14\x00\x00\x00\x14";

/// The digest of the example table's text by the system's `sha256sum`.
const EXAMPLE_DIGEST: [u8; 32] =
    *b"\x17\x08\xbe\xf1\xd8\x12\x4f\x49\x75\x3d\x74\xc2\x9f\xa7\x19\x2b\
    \x3d\xa7\x03\xa4\x24\x81\xf5\x95\x04\xb7\x6a\x41\xec\x00\x24\x28";

/// The number of a card, and its act.
type Deed = (u32, Act);

/// A part of a table's text, and the text that replaces it.
type Change = (&'static str, &'static str);

/// A statement that is asked for.
#[derive(Clone, Copy)]
struct Asked {
    card: u32,
    days: Days,
    format: StatementFormat,
}

/// The whole statement of the card in a format.
fn whole(format: StatementFormat) -> Asked {
    Asked {
        card: CARD,
        days: ALL,
        format,
    }
}

/// The moment of a time in UTC, this number of days after Monday 2025-01-06.
fn at(day: u8, hour: u8, minute: u8) -> u32
    ensures { result ≡ 1736121600 + day * 86400 + hour * 3600 + minute * 60 }
{
    1_736_121_600 + u32::from(day) * 86_400 + u32::from(hour) * 3_600 + u32::from(minute) * 60
}

/// The card is issued.
fn issue(moment: u32) -> Deed {
    (CARD, Act::Issue { moment })
}

/// These pence are paid in.
fn top_up(pence: u32, moment: u32) -> Deed {
    (CARD, Act::TopUp { pence, moment })
}

/// The card is touched in.
fn enter(station: u16, moment: u32) -> Deed {
    (CARD, Act::Enter { station, moment })
}

/// The card is touched out.
fn leave(station: u16, moment: u32) -> Deed {
    (CARD, Act::Leave { station, moment })
}

/// The same act of another card.
fn by(card: u32, deed: Deed) -> Deed {
    let (_, act) = deed;
    (card, act)
}

/// A schedule of the example table alone. `None` if memory was refused.
fn example(alloc: Global) -> Option<Schedule>
    ensures { IfSome result (λ schedule. revisions_of schedule ≡ []) }
{
    let first = Fares::read(alloc, EXAMPLE_TABLE).ok()?;
    Schedule::new(alloc, first).ok()
}

/// The example table with these changes, each made once, at the first place. `None` if a part isn't
/// in the table's text, or memory was refused.
fn changed(alloc: Global, changes: &[Change]) -> Option<Fares> {
    let mut made = String::from_str(alloc, EXAMPLE_TABLE).ok()?;
    for (from, to) in changes {
        let (front, back) = made.as_str().split_once(*from)?;
        made = format!(in alloc; "{front}{to}{back}").ok()?;
    }
    Fares::read(alloc, made.as_str()).ok()
}

/// The slot of a deed at gate 7 with this number. The first format has the first 32 bytes of it.
fn slot_of(number: u32, deed: &Deed) -> [u8; 64] {
    let (card, act) = deed;
    let touch = Touch {
        gate: 7,
        number,
        card: *card,
        act: *act,
    };
    let mut touch_bytes = [0; 51];
    touch.write_into(&mut touch_bytes);
    let mut slot = [0; 64];
    slot[0] = 0xa5;
    slot[1..52].copy_from_slice(&touch_bytes);
    slot
}

/// The journal of these deeds at gate 7, numbered from 0, with slots of this size and the digest of
/// the first table. `None` if memory was refused.
fn journal_of(
    alloc: Global,
    slot_size: usize,
    digest: &[u8; 32],
    deeds: &[Deed],
) -> Option<Vec<u8>> {
    let mut bytes = Vec::new(alloc);
    bytes.extend_from_slice(&START).ok()?;
    bytes.extend_from_slice(digest).ok()?;
    bytes.extend_from_slice(&[0; 15]).ok()?;
    for (place, deed) in deeds.iter().enumerate() {
        let slot = slot_of(u32::try_from(place).ok()?, deed);
        bytes.extend_from_slice(slot.get(..slot_size)?).ok()?;
    }
    // The closed mark after the last slot.
    bytes.push(0).ok()?;
    Some(bytes)
}

/// The journal of these deeds in the second format, for the example table. `None` if memory was
/// refused.
fn journal(alloc: Global, deeds: &[Deed]) -> Option<Vec<u8>> {
    journal_of(alloc, 64, &EXAMPLE_DIGEST, deeds)
}

/// The line of a fault, empty if there was none.
fn line_of(alloc: Global, ended: Result<(), CommandFault>) -> Result<String, AllocError> {
    match ended {
        Ok(()) => Ok(String::new(alloc)),
        Err(fault) => format!(in alloc; "{fault}"),
    }
}

/// The text that is written of the statement that is asked for, and the line of the fault, empty if
/// there was none.
fn printed(
    alloc: Global,
    schedule: Schedule,
    asked: Asked,
    bytes: &[u8],
) -> Result<(String, String), Fail>
    requires { revisions_of schedule ≡ [] }
{
    let bytes = bytes.to_vec(alloc)?;
    let Asked { card, days, format } = asked;
    let mut written = Vec::new(alloc);
    let ended = write_statement(
        alloc,
        NameHashing::fixed(),
        schedule,
        card,
        days,
        format,
        bytes,
        &mut written,
    );
    let line = line_of(alloc, ended)?;
    let text = String::from_utf8(written).ok().ok_or("a text")?;
    Ok((text, line))
}

/// These are equal.
fn assert_same<T: PartialEq + Debug + Copy>(rt: &impl Abort, found: T, want: T) {
    assert_eq!(rt; found, want);
}

/// These are equal, in the case that is named.
fn assert_same_at<T: PartialEq + Debug + Copy, C: Debug + Copy>(
    rt: &impl Abort,
    found: T,
    want: T,
    at: C,
) {
    assert_eq!(rt; found, want, "{at:?}");
}

/// The statement that is asked for has this text, by this schedule.
fn assert_printed_by<R: Abort + AllocGlobal>(
    rt: &R,
    schedule: Schedule,
    asked: Asked,
    bytes: &[u8],
    want: &str,
) -> Result<(), Fail>
    requires { revisions_of schedule ≡ [] }
{
    let (text, line) = printed(rt.alloc(), schedule, asked, bytes)?;
    assert_same_at(rt, line.as_str(), "", (asked.card, asked.format));
    assert_same_at(rt, text.as_str(), want, (asked.card, asked.format));
    Ok(())
}

/// The statement that is asked for has this text, by the example table.
fn assert_printed<R: Abort + AllocGlobal>(
    rt: &R,
    asked: Asked,
    bytes: &[u8],
    want: &str,
) -> Result<(), Fail> {
    let schedule = example(rt.alloc()).ok_or("a schedule")?;
    assert_printed_by(rt, schedule, asked, bytes, want)
}

/// The statement of the whole history has these texts, as text, as comma-separated values and as a
/// JSON object, by the example table.
fn assert_forms<R: Abort + AllocGlobal>(
    rt: &R,
    bytes: &[u8],
    texts: [&str; 3],
) -> Result<(), Fail> {
    let [text, csv, json] = texts;
    for (format, want) in [
        (StatementFormat::Text, text),
        (StatementFormat::Csv, csv),
        (StatementFormat::Json, json),
    ] {
        assert_printed(rt, whole(format), bytes, want)?;
    }
    Ok(())
}
