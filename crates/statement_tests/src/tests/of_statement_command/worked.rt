//! Two worked days in each format: the Monday of COMMANDS.md, "statement", with a cap and an open
//! touch in, and a Monday in summer, when the zone's clock is an hour ahead of UTC.

use super::*;

/// The worked Monday as text.
pub(super) const TEXT: &str = "card 17

2025-01-06
      3.50  06:40 to 07:05  zones 1 to 2  peak, capped: Birch to Alder
      3.50  07:40 to 08:05  zones 1 to 2  peak, capped: Birch to Alder
      3.50  08:40 to 09:05  zones 1 to 2  peak, capped: Birch to Alder
     10.50  fares
      8.50  daily cap of zones 1 to 2, anytime
      8.50  journeys
      7.00  10:00  maximum: touched in at Birch, and no touch in or out followed
     15.50  charged for 2025-01-06

top-ups
     20.00  2025-01-06 06:30

     20.00  paid in
     15.50  charged
      4.50  balance
";

/// The worked Monday as comma-separated values.
const CSV: &str = "kind,day,pence,low,high,detail,station,moment,to,ended,covered\r
journey,2025-01-06,350,1,2,peak,2,2025-01-06T06:40:00Z,1,2025-01-06T07:05:00Z,yes\r
journey,2025-01-06,350,1,2,peak,2,2025-01-06T07:40:00Z,1,2025-01-06T08:05:00Z,yes\r
journey,2025-01-06,350,1,2,peak,2,2025-01-06T08:40:00Z,1,2025-01-06T09:05:00Z,yes\r
fares,2025-01-06,1050,,,,,,,,\r
cap,2025-01-06,850,1,2,anytime,,,,,\r
journeys,2025-01-06,850,,,,,,,,\r
touch,2025-01-06,700,,,Open,2,2025-01-06T10:00:00Z,,,\r
charge,2025-01-06,1550,,,,,,,,\r
top_up,2025-01-06,2000,,,,,2025-01-06T06:30:00Z,,,\r
paid_in,,2000,,,,,,,,\r
charged,,1550,,,,,,,,\r
balance,,450,,,,,,,,\r
";

/// The worked Monday as a JSON object.
const JSON: &str = "{\"card\":17,\"from\":null,\"to\":null,\"before\":null,\"days\":[
{\"day\":\"2025-01-06\",\"journeys\":[
{\"pence\":350,\"low\":1,\"high\":2,\"off_peak\":false,\"covered\":true,\
\"from\":{\"station\":2,\"name\":\"Birch\",\"moment\":\"2025-01-06T06:40:00Z\",\"time\":\"06:40\"},\
\"to\":{\"station\":1,\"name\":\"Alder\",\"moment\":\"2025-01-06T07:05:00Z\",\"time\":\"07:05\"}},
{\"pence\":350,\"low\":1,\"high\":2,\"off_peak\":false,\"covered\":true,\
\"from\":{\"station\":2,\"name\":\"Birch\",\"moment\":\"2025-01-06T07:40:00Z\",\"time\":\"07:40\"},\
\"to\":{\"station\":1,\"name\":\"Alder\",\"moment\":\"2025-01-06T08:05:00Z\",\"time\":\"08:05\"}},
{\"pence\":350,\"low\":1,\"high\":2,\"off_peak\":false,\"covered\":true,\
\"from\":{\"station\":2,\"name\":\"Birch\",\"moment\":\"2025-01-06T08:40:00Z\",\"time\":\"08:40\"},\
\"to\":{\"station\":1,\"name\":\"Alder\",\"moment\":\"2025-01-06T09:05:00Z\",\"time\":\"09:05\"}}
],\"fares\":1050,\"cap\":{\"pence\":850,\"low\":1,\"high\":2,\"off_peak\":false},\
\"charge_for_journeys\":850,\"touches\":[
{\"pence\":700,\"reason\":\"Open\",\
\"at\":{\"station\":2,\"name\":\"Birch\",\"moment\":\"2025-01-06T10:00:00Z\",\"time\":\"10:00\"}}
],\"charge\":1550}
],\"top_ups\":[
{\"day\":\"2025-01-06\",\"pence\":2000,\"moment\":\"2025-01-06T06:30:00Z\"}
],\"refused\":[
],\"paid_in\":2000,\"charged\":1550,\"balance\":450}
";

/// The Monday in summer as text.
const SUMMER_TEXT: &str = "card 17

2025-07-07
      2.10  08:00 to 08:10  zones 2 to 2  peak: Birch to Birch
      2.90  10:00 to 10:20  zones 1 to 2  off-peak, capped: Birch to Alder
      2.90  11:00 to 11:20  zones 1 to 2  off-peak, capped: Birch to Alder
      2.90  12:00 to 12:20  zones 1 to 2  off-peak, capped: Birch to Alder
     10.80  fares
      6.00  daily cap of zones 1 to 2, off-peak
      8.10  journeys
      8.10  charged for 2025-07-07

top-ups
     20.00  2025-07-07 06:59

     20.00  paid in
      8.10  charged
     11.90  balance
";

/// The Monday in summer as comma-separated values.
const SUMMER_CSV: &str = "kind,day,pence,low,high,detail,station,moment,to,ended,covered\r
journey,2025-07-07,210,2,2,peak,2,2025-07-07T07:00:00Z,2,2025-07-07T07:10:00Z,no\r
journey,2025-07-07,290,1,2,off-peak,2,2025-07-07T09:00:00Z,1,2025-07-07T09:20:00Z,yes\r
journey,2025-07-07,290,1,2,off-peak,2,2025-07-07T10:00:00Z,1,2025-07-07T10:20:00Z,yes\r
journey,2025-07-07,290,1,2,off-peak,2,2025-07-07T11:00:00Z,1,2025-07-07T11:20:00Z,yes\r
fares,2025-07-07,1080,,,,,,,,\r
cap,2025-07-07,600,1,2,off-peak,,,,,\r
journeys,2025-07-07,810,,,,,,,,\r
charge,2025-07-07,810,,,,,,,,\r
top_up,2025-07-07,2000,,,,,2025-07-07T05:59:00Z,,,\r
paid_in,,2000,,,,,,,,\r
charged,,810,,,,,,,,\r
balance,,1190,,,,,,,,\r
";

/// The Monday in summer as a JSON object.
const SUMMER_JSON: &str = "{\"card\":17,\"from\":null,\"to\":null,\"before\":null,\"days\":[
{\"day\":\"2025-07-07\",\"journeys\":[
{\"pence\":210,\"low\":2,\"high\":2,\"off_peak\":false,\"covered\":false,\
\"from\":{\"station\":2,\"name\":\"Birch\",\"moment\":\"2025-07-07T07:00:00Z\",\"time\":\"08:00\"},\
\"to\":{\"station\":2,\"name\":\"Birch\",\"moment\":\"2025-07-07T07:10:00Z\",\"time\":\"08:10\"}},
{\"pence\":290,\"low\":1,\"high\":2,\"off_peak\":true,\"covered\":true,\
\"from\":{\"station\":2,\"name\":\"Birch\",\"moment\":\"2025-07-07T09:00:00Z\",\"time\":\"10:00\"},\
\"to\":{\"station\":1,\"name\":\"Alder\",\"moment\":\"2025-07-07T09:20:00Z\",\"time\":\"10:20\"}},
{\"pence\":290,\"low\":1,\"high\":2,\"off_peak\":true,\"covered\":true,\
\"from\":{\"station\":2,\"name\":\"Birch\",\"moment\":\"2025-07-07T10:00:00Z\",\"time\":\"11:00\"},\
\"to\":{\"station\":1,\"name\":\"Alder\",\"moment\":\"2025-07-07T10:20:00Z\",\"time\":\"11:20\"}},
{\"pence\":290,\"low\":1,\"high\":2,\"off_peak\":true,\"covered\":true,\
\"from\":{\"station\":2,\"name\":\"Birch\",\"moment\":\"2025-07-07T11:00:00Z\",\"time\":\"12:00\"},\
\"to\":{\"station\":1,\"name\":\"Alder\",\"moment\":\"2025-07-07T11:20:00Z\",\"time\":\"12:20\"}}
],\"fares\":1080,\"cap\":{\"pence\":600,\"low\":1,\"high\":2,\"off_peak\":true},\
\"charge_for_journeys\":810,\"touches\":[
],\"charge\":810}
],\"top_ups\":[
{\"day\":\"2025-07-07\",\"pence\":2000,\"moment\":\"2025-07-07T05:59:00Z\"}
],\"refused\":[
],\"paid_in\":2000,\"charged\":810,\"balance\":1190}
";

/// The worked Monday in each format.
pub(super) const FORMS: [(StatementFormat, &str); 3] = [
    (StatementFormat::Text, TEXT),
    (StatementFormat::Csv, CSV),
    (StatementFormat::Json, JSON),
];

/// An issue and a top-up of 2000 at 06:30, three journeys from 2 to 1, and a touch in at 10:00.
pub(super) fn monday() -> [Deed; 9] {
    [
        issue(at(0, 6, 30)),
        top_up(2_000, at(0, 6, 30)),
        enter(2, at(0, 6, 40)),
        leave(1, at(0, 7, 5)),
        enter(2, at(0, 7, 40)),
        leave(1, at(0, 8, 5)),
        enter(2, at(0, 8, 40)),
        leave(1, at(0, 9, 5)),
        enter(2, at(0, 10, 0)),
    ]
}

/// On 2025-07-07, 182 days after 2025-01-06: a journey from 2 to 2 in the early window, and three
/// off-peak ones from 2 to 1. The off-peak cap's 600 and the first fare's 210 are less than 850.
fn summer() -> [Deed; 10] {
    [
        issue(at(182, 5, 58)),
        top_up(2_000, at(182, 5, 59)),
        enter(2, at(182, 7, 0)),
        leave(2, at(182, 7, 10)),
        enter(2, at(182, 9, 0)),
        leave(1, at(182, 9, 20)),
        enter(2, at(182, 10, 0)),
        leave(1, at(182, 10, 20)),
        enter(2, at(182, 11, 0)),
        leave(1, at(182, 11, 20)),
    ]
}

/// The worked Monday in a format has this text.
fn assert_monday<R: Abort + AllocGlobal>(
    rt: &R,
    format: StatementFormat,
    want: &str,
) -> Result<(), Fail> {
    let bytes = journal(rt.alloc(), &monday()).ok_or("a journal")?;
    assert_printed(rt, whole(format), &bytes, want)
}

#[test]
fn a_statement_is_printed_as_text(rt: HostRuntime) -> Result<(), Fail> {
    assert_monday(&rt, StatementFormat::Text, TEXT)
}

#[test]
fn a_statement_is_printed_as_comma_separated_values(rt: HostRuntime) -> Result<(), Fail> {
    assert_monday(&rt, StatementFormat::Csv, CSV)
}

#[test]
fn a_statement_is_printed_as_a_json_object(rt: HostRuntime) -> Result<(), Fail> {
    assert_monday(&rt, StatementFormat::Json, JSON)
}

#[test]
fn times_are_by_the_clock_and_moments_in_utc(rt: HostRuntime) -> Result<(), Fail> {
    let bytes = journal(rt.alloc(), &summer()).ok_or("a journal")?;
    assert_forms(&rt, &bytes, [SUMMER_TEXT, SUMMER_CSV, SUMMER_JSON])
}

#[test]
fn a_journal_of_the_first_format_has_the_same_statement(rt: HostRuntime) -> Result<(), Fail> {
    let alloc = rt.alloc();
    let mut bytes = journal_of(alloc, 32, &EXAMPLE_DIGEST, &monday()).ok_or("a journal")?;
    *bytes.get_mut(8).ok_or("a version")? = b'1';
    assert_printed(&rt, whole(StatementFormat::Text), &bytes, TEXT)
}
