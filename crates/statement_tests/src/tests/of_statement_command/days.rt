//! The first and the last fare day that are asked for, and the sums before and up to them.

use super::worked::monday;
use super::*;

/// The fare day 2025-01-05.
const SUNDAY: i32 = 20_093;
/// The fare day 2025-01-06.
const MONDAY: i32 = 20_094;
/// The fare day 2025-01-07.
const TUESDAY: i32 = 20_095;
/// The fare day 2025-01-08.
const WEDNESDAY: i32 = 20_096;
/// The fare day 2025-01-09.
const THURSDAY: i32 = 20_097;

/// The Tuesday after the worked Monday, which has no touches, as text.
const TUESDAY_TEXT: &str = "card 17
before 2025-01-07
     20.00  paid in
     15.50  charged

     20.00  paid in
     15.50  charged
      4.50  balance
";

/// The same as comma-separated values.
pub(super) const TUESDAY_CSV: &str =
    "kind,day,pence,low,high,detail,station,moment,to,ended,covered\r
paid_in_before,,2000,,,,,,,,\r
charged_before,,1550,,,,,,,,\r
paid_in,,2000,,,,,,,,\r
charged,,1550,,,,,,,,\r
balance,,450,,,,,,,,\r
";

/// The same as a JSON object.
const TUESDAY_JSON: &str = "{\"card\":17,\"from\":\"2025-01-07\",\"to\":\"2025-01-07\",\
\"before\":{\"paid_in\":2000,\"charged\":1550},\"days\":[
],\"top_ups\":[
],\"refused\":[
],\"paid_in\":2000,\"charged\":1550,\"balance\":450}
";

/// The statement of `three_days` up to Sunday, before all touches.
const UP_TO_SUNDAY: &str = "card 17

      0.00  paid in
      0.00  charged
      0.00  balance
";

/// The same up to Monday. The top-up of Tuesday morning at 04:29 belongs to Monday's fare day.
const UP_TO_MONDAY: &str = "card 17

2025-01-06
      3.50  08:00 to 08:25  zones 1 to 2  peak: Birch to Alder
      3.50  fares
            no daily cap
      3.50  journeys
      3.50  charged for 2025-01-06

top-ups
     20.00  2025-01-06 06:30
      1.00  2025-01-07 04:29

     21.00  paid in
      3.50  charged
     17.50  balance
";

/// The same from Tuesday.
const FROM_TUESDAY: &str = "card 17
before 2025-01-07
     21.00  paid in
      3.50  charged

2025-01-07
      2.40  08:00 to 08:25  zones 2 to 3  peak: Birch to Cedar
      2.40  fares
            no daily cap
      2.40  journeys
      2.40  charged for 2025-01-07

top-ups
      3.00  2025-01-08 12:00

refused
            2025-01-07 09:00  UnknownStation: touch in at station 9

     24.00  paid in
      5.90  charged
     18.10  balance
";

/// The same for Tuesday alone.
const TUESDAY_ALONE: &str = "card 17
before 2025-01-07
     21.00  paid in
      3.50  charged

2025-01-07
      2.40  08:00 to 08:25  zones 2 to 3  peak: Birch to Cedar
      2.40  fares
            no daily cap
      2.40  journeys
      2.40  charged for 2025-01-07

refused
            2025-01-07 09:00  UnknownStation: touch in at station 9

     21.00  paid in
      5.90  charged
     15.10  balance
";

/// The same for Wednesday alone, which has only a top-up.
const WEDNESDAY_ALONE: &str = "card 17
before 2025-01-08
     21.00  paid in
      5.90  charged

top-ups
      3.00  2025-01-08 12:00

     24.00  paid in
      5.90  charged
     18.10  balance
";

/// The same from Thursday, after all touches.
const FROM_THURSDAY: &str = "card 17
before 2025-01-09
     24.00  paid in
      5.90  charged

     24.00  paid in
      5.90  charged
     18.10  balance
";

/// The first and the last day that are asked for, with the text.
const ROWS: [(Option<i32>, Option<i32>, &str); 6] = [
    (None, Some(SUNDAY), UP_TO_SUNDAY),
    (None, Some(MONDAY), UP_TO_MONDAY),
    (Some(TUESDAY), None, FROM_TUESDAY),
    (Some(TUESDAY), Some(TUESDAY), TUESDAY_ALONE),
    (Some(WEDNESDAY), Some(WEDNESDAY), WEDNESDAY_ALONE),
    (Some(THURSDAY), None, FROM_THURSDAY),
];

/// A statement up to Monday. The touch out on Tuesday gives the reason for the touch in.
const OVER_NIGHT: &str = "card 17

2025-01-06
      0.00  fares
            no daily cap
      0.00  journeys
      7.00  03:00 (+1)  maximum: touched in at Birch, and touched out after the time limit
      7.00  charged for 2025-01-06

top-ups
     20.00  2025-01-06 06:30

     20.00  paid in
      7.00  charged
     13.00  balance
";

/// The card's statement of these days in a format.
fn of_days(from: Option<i32>, to: Option<i32>, format: StatementFormat) -> Asked {
    Asked {
        card: CARD,
        days: Days { from, to },
        format,
    }
}

/// On Monday a top-up of 2000 and a journey for 350; on Tuesday a top-up of 100 at 04:29, a journey
/// for 240 and a refused touch; on Wednesday a top-up of 300.
fn three_days() -> [Deed; 9] {
    [
        issue(at(0, 6, 30)),
        top_up(2_000, at(0, 6, 30)),
        enter(2, at(0, 8, 0)),
        leave(1, at(0, 8, 25)),
        top_up(100, at(1, 4, 29)),
        enter(2, at(1, 8, 0)),
        leave(3, at(1, 8, 25)),
        enter(9, at(1, 9, 0)),
        top_up(300, at(2, 12, 0)),
    ]
}

#[test]
fn what_was_before_the_first_day_is_summed(rt: HostRuntime) -> Result<(), Fail> {
    let bytes = journal(rt.alloc(), &monday()).ok_or("a journal")?;
    for (format, want) in [
        (StatementFormat::Text, TUESDAY_TEXT),
        (StatementFormat::Csv, TUESDAY_CSV),
        (StatementFormat::Json, TUESDAY_JSON),
    ] {
        let asked = of_days(Some(TUESDAY), Some(TUESDAY), format);
        assert_printed(&rt, asked, &bytes, want)?;
    }
    Ok(())
}

#[test]
fn the_first_and_the_last_day_are_printed(rt: HostRuntime) -> Result<(), Fail> {
    let bytes = journal(rt.alloc(), &three_days()).ok_or("a journal")?;
    for (from, to, want) in ROWS {
        let asked = of_days(from, to, StatementFormat::Text);
        assert_printed(&rt, asked, &bytes, want)?;
    }
    Ok(())
}

#[test]
fn a_touch_after_the_last_day_gives_the_reason_of_one_before(rt: HostRuntime) -> Result<(), Fail> {
    let deeds = [
        issue(at(0, 6, 30)),
        top_up(2_000, at(0, 6, 30)),
        enter(2, at(1, 3, 0)),
        leave(1, at(1, 4, 30) + 1),
    ];
    let bytes = journal(rt.alloc(), &deeds).ok_or("a journal")?;
    let asked = of_days(None, Some(MONDAY), StatementFormat::Text);
    assert_printed(&rt, asked, &bytes, OVER_NIGHT)
}
