//! A revision of fares between two journeys (FARES.md, "Revision"). The revised table also has
//! another name of station 1.

ghost use Rattle.std.specs.Prelude.{◌≡◌, [], IfSome};
ghost use Rattle.fare_schedule.specs.Schedule.{revisions_of};

use super::*;

/// What the revised table has in place of the example table's: the single fare of the zones 1 and
/// 2, the peak maximum, and the name.
const CHANGES: [Change; 3] = [
    ("350, off_peak = 290", "380, off_peak = 300"),
    ("maximum_peak = 900", "maximum_peak = 1000"),
    ("\"Alder\"", "\"Aspen\""),
];

/// The digest of the revised table's text by the system's `sha256sum`.
const REVISED_DIGEST: [u8; 32] =
    *b"\x98\x36\x74\x7e\x96\xa9\x7f\xc7\x9f\x16\xac\x9d\x71\x0b\x83\xeb\
    \x02\xee\x9c\x15\x44\xb3\xf7\x78\x8c\x2c\xe6\x85\xf4\x8d\x65\x70";

/// The fare day 2025-01-07, from which the revised table counts.
const TUESDAY: i32 = 20_095;

/// The card's statement as text.
const TEXT: &str = "card 17

2025-01-06
      3.50  08:00 to 08:25  zones 1 to 2  peak: Birch to Alder
      2.90  04:25 (+1) to 04:50 (+1)  zones 1 to 2  off-peak: Birch to Aspen
      6.40  fares
            no daily cap
      6.40  journeys
      6.40  charged for 2025-01-06

2025-01-07
      3.80  08:00 to 08:25  zones 1 to 2  peak: Birch to Aspen
      3.80  fares
            no daily cap
      3.80  journeys
     10.00  09:00  maximum: touched out at Aspen without a touch in
     13.80  charged for 2025-01-07

top-ups
     20.00  2025-01-06 06:30

refused
            2025-01-07 09:10  LowBalance: touch in at Aspen

     20.00  paid in
     20.20  charged
     -0.20  balance
";

/// The same as comma-separated values.
const CSV: &str = "kind,day,pence,low,high,detail,station,moment,to,ended,covered\r
journey,2025-01-06,350,1,2,peak,2,2025-01-06T08:00:00Z,1,2025-01-06T08:25:00Z,no\r
journey,2025-01-06,290,1,2,off-peak,2,2025-01-07T04:25:00Z,1,2025-01-07T04:50:00Z,no\r
fares,2025-01-06,640,,,,,,,,\r
journeys,2025-01-06,640,,,,,,,,\r
charge,2025-01-06,640,,,,,,,,\r
journey,2025-01-07,380,1,2,peak,2,2025-01-07T08:00:00Z,1,2025-01-07T08:25:00Z,no\r
fares,2025-01-07,380,,,,,,,,\r
journeys,2025-01-07,380,,,,,,,,\r
touch,2025-01-07,1000,,,Unstarted,1,2025-01-07T09:00:00Z,,,\r
charge,2025-01-07,1380,,,,,,,,\r
top_up,2025-01-06,2000,,,,,2025-01-06T06:30:00Z,,,\r
refused,2025-01-07,,,,LowBalance,1,2025-01-07T09:10:00Z,,,\r
paid_in,,2000,,,,,,,,\r
charged,,2020,,,,,,,,\r
balance,,-20,,,,,,,,\r
";

/// The same as a JSON object.
const JSON: &str = "{\"card\":17,\"from\":null,\"to\":null,\"before\":null,\"days\":[
{\"day\":\"2025-01-06\",\"journeys\":[
{\"pence\":350,\"low\":1,\"high\":2,\"off_peak\":false,\"covered\":false,\
\"from\":{\"station\":2,\"name\":\"Birch\",\"moment\":\"2025-01-06T08:00:00Z\",\"time\":\"08:00\"},\
\"to\":{\"station\":1,\"name\":\"Alder\",\"moment\":\"2025-01-06T08:25:00Z\",\"time\":\"08:25\"}},
{\"pence\":290,\"low\":1,\"high\":2,\"off_peak\":true,\"covered\":false,\
\"from\":{\"station\":2,\"name\":\"Birch\",\"moment\":\"2025-01-07T04:25:00Z\",\"time\":\"04:25\"},\
\"to\":{\"station\":1,\"name\":\"Aspen\",\"moment\":\"2025-01-07T04:50:00Z\",\"time\":\"04:50\"}}
],\"fares\":640,\"cap\":null,\"charge_for_journeys\":640,\"touches\":[
],\"charge\":640},
{\"day\":\"2025-01-07\",\"journeys\":[
{\"pence\":380,\"low\":1,\"high\":2,\"off_peak\":false,\"covered\":false,\
\"from\":{\"station\":2,\"name\":\"Birch\",\"moment\":\"2025-01-07T08:00:00Z\",\"time\":\"08:00\"},\
\"to\":{\"station\":1,\"name\":\"Aspen\",\"moment\":\"2025-01-07T08:25:00Z\",\"time\":\"08:25\"}}
],\"fares\":380,\"cap\":null,\"charge_for_journeys\":380,\"touches\":[
{\"pence\":1000,\"reason\":\"Unstarted\",\
\"at\":{\"station\":1,\"name\":\"Aspen\",\"moment\":\"2025-01-07T09:00:00Z\",\"time\":\"09:00\"}}
],\"charge\":1380}
],\"top_ups\":[
{\"day\":\"2025-01-06\",\"pence\":2000,\"moment\":\"2025-01-06T06:30:00Z\"}
],\"refused\":[
{\"day\":\"2025-01-07\",\"moment\":\"2025-01-07T09:10:00Z\",\"verdict\":\"LowBalance\",\
\"act\":\"in\",\"station\":1,\"pence\":null}
],\"paid_in\":2000,\"charged\":2020,\"balance\":-20}
";

/// A schedule of the example table and the revised one. `None` if memory was refused.
fn both(alloc: Global) -> Option<Schedule>
    ensures { IfSome result (λ schedule. revisions_of schedule ≡ []) }
{
    let mut schedule = example(alloc)?;
    let revised = changed(alloc, &CHANGES)?;
    schedule.supply(revised).ok()?;
    Some(schedule)
}

/// A revision to the revised table. It has the number of the card, and belongs to no card.
fn revise(moment: u32) -> Deed {
    let act = Act::Revise {
        digest: REVISED_DIGEST,
        day: TUESDAY,
        moment,
    };
    (CARD, act)
}

/// A journey on Monday; the revision, and the same revision again, which is refused; a journey that
/// begins on Monday's fare day and ends on Tuesday's; a journey on Tuesday; a touch out without a
/// touch in; and a touch in with a balance of -20, which is refused.
fn journeys() -> [Deed; 12] {
    [
        issue(at(0, 6, 30)),
        top_up(2_000, at(0, 6, 30)),
        enter(2, at(0, 8, 0)),
        leave(1, at(0, 8, 25)),
        revise(at(0, 12, 0)),
        revise(at(0, 12, 1)),
        enter(2, at(1, 4, 25)),
        leave(1, at(1, 4, 50)),
        enter(2, at(1, 8, 0)),
        leave(1, at(1, 8, 25)),
        leave(1, at(1, 9, 0)),
        enter(1, at(1, 9, 10)),
    ]
}

#[test]
fn each_row_is_by_the_table_of_its_day(rt: HostRuntime) -> Result<(), Fail> {
    let bytes = journal(rt.alloc(), &journeys()).ok_or("a journal")?;
    for (format, want) in [
        (StatementFormat::Text, TEXT),
        (StatementFormat::Csv, CSV),
        (StatementFormat::Json, JSON),
    ] {
        let schedule = both(rt.alloc()).ok_or("a schedule")?;
        assert_printed_by(&rt, schedule, whole(format), &bytes, want)?;
    }
    Ok(())
}
