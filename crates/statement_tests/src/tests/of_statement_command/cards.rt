//! A journal of three cards. A statement lists the touches of its card alone, with those that were
//! refused (FARES.md, "Verdicts").

use super::*;

/// The card's statement as text.
const TEXT: &str = "card 17

2025-01-06
      3.50  08:00 to 08:25  zones 1 to 2  peak: Birch to Alder
      3.50  fares
            no daily cap
      3.50  journeys
      3.50  charged for 2025-01-06

top-ups
     20.00  2025-01-06 07:01

refused
            2025-01-06 04:30  UnknownCard: touch in at Birch
            2025-01-06 06:31  AlreadyIssued: issue
            2025-01-06 06:32  OverLimit: top-up of 90.01
            2025-01-06 06:33  BadAmount: top-up of 500.01
            2025-01-06 07:00  LowBalance: touch in at Birch
            2025-01-06 07:03  UnknownStation: touch in at station 9
            2025-01-06 08:24  Backwards: touch out at Cedar

     20.00  paid in
      3.50  charged
     16.50  balance
";

/// The same as comma-separated values.
const CSV: &str = "kind,day,pence,low,high,detail,station,moment,to,ended,covered\r
journey,2025-01-06,350,1,2,peak,2,2025-01-06T08:00:00Z,1,2025-01-06T08:25:00Z,no\r
fares,2025-01-06,350,,,,,,,,\r
journeys,2025-01-06,350,,,,,,,,\r
charge,2025-01-06,350,,,,,,,,\r
top_up,2025-01-06,2000,,,,,2025-01-06T07:01:00Z,,,\r
refused,2025-01-06,,,,UnknownCard,2,2025-01-06T04:30:00Z,,,\r
refused,2025-01-06,,,,AlreadyIssued,,2025-01-06T06:31:00Z,,,\r
refused,2025-01-06,9001,,,OverLimit,,2025-01-06T06:32:00Z,,,\r
refused,2025-01-06,50001,,,BadAmount,,2025-01-06T06:33:00Z,,,\r
refused,2025-01-06,,,,LowBalance,2,2025-01-06T07:00:00Z,,,\r
refused,2025-01-06,,,,UnknownStation,9,2025-01-06T07:03:00Z,,,\r
refused,2025-01-06,,,,Backwards,3,2025-01-06T08:24:00Z,,,\r
paid_in,,2000,,,,,,,,\r
charged,,350,,,,,,,,\r
balance,,1650,,,,,,,,\r
";

/// The same as a JSON object.
const JSON: &str = "{\"card\":17,\"from\":null,\"to\":null,\"before\":null,\"days\":[
{\"day\":\"2025-01-06\",\"journeys\":[
{\"pence\":350,\"low\":1,\"high\":2,\"off_peak\":false,\"covered\":false,\
\"from\":{\"station\":2,\"name\":\"Birch\",\"moment\":\"2025-01-06T08:00:00Z\",\"time\":\"08:00\"},\
\"to\":{\"station\":1,\"name\":\"Alder\",\"moment\":\"2025-01-06T08:25:00Z\",\"time\":\"08:25\"}}
],\"fares\":350,\"cap\":null,\"charge_for_journeys\":350,\"touches\":[
],\"charge\":350}
],\"top_ups\":[
{\"day\":\"2025-01-06\",\"pence\":2000,\"moment\":\"2025-01-06T07:01:00Z\"}
],\"refused\":[
{\"day\":\"2025-01-06\",\"moment\":\"2025-01-06T04:30:00Z\",\"verdict\":\"UnknownCard\",\
\"act\":\"in\",\"station\":2,\"pence\":null},
{\"day\":\"2025-01-06\",\"moment\":\"2025-01-06T06:31:00Z\",\"verdict\":\"AlreadyIssued\",\
\"act\":\"issue\",\"station\":null,\"pence\":null},
{\"day\":\"2025-01-06\",\"moment\":\"2025-01-06T06:32:00Z\",\"verdict\":\"OverLimit\",\
\"act\":\"top-up\",\"station\":null,\"pence\":9001},
{\"day\":\"2025-01-06\",\"moment\":\"2025-01-06T06:33:00Z\",\"verdict\":\"BadAmount\",\
\"act\":\"top-up\",\"station\":null,\"pence\":50001},
{\"day\":\"2025-01-06\",\"moment\":\"2025-01-06T07:00:00Z\",\"verdict\":\"LowBalance\",\
\"act\":\"in\",\"station\":2,\"pence\":null},
{\"day\":\"2025-01-06\",\"moment\":\"2025-01-06T07:03:00Z\",\"verdict\":\"UnknownStation\",\
\"act\":\"in\",\"station\":9,\"pence\":null},
{\"day\":\"2025-01-06\",\"moment\":\"2025-01-06T08:24:00Z\",\"verdict\":\"Backwards\",\
\"act\":\"out\",\"station\":3,\"pence\":null}
],\"paid_in\":2000,\"charged\":350,\"balance\":1650}
";

/// The statement of card 18: it was issued, and its touch in was refused.
const OTHER: &str = "card 18

refused
            2025-01-06 07:02  LowBalance: touch in at Birch

      0.00  paid in
      0.00  charged
      0.00  balance
";

/// The statement of card 19: it was issued and topped up, and made a journey.
const THIRD: &str = "card 19

2025-01-06
      2.40  08:10 to 08:30  zones 2 to 3  peak: Birch to Cedar
      2.40  fares
            no daily cap
      2.40  journeys
      2.40  charged for 2025-01-06

top-ups
      5.00  2025-01-06 08:05

      5.00  paid in
      2.40  charged
      2.60  balance
";

/// A touch for each refusal but `BadDay`, which only a revision has, and touches of two other
/// cards.
fn mixed() -> [Deed; 17] {
    [
        enter(2, at(0, 4, 30)),
        issue(at(0, 6, 30)),
        issue(at(0, 6, 31)),
        top_up(9_001, at(0, 6, 32)),
        top_up(50_001, at(0, 6, 33)),
        enter(2, at(0, 7, 0)),
        top_up(2_000, at(0, 7, 1)),
        by(18, issue(at(0, 7, 1))),
        by(18, enter(2, at(0, 7, 2))),
        enter(9, at(0, 7, 3)),
        enter(2, at(0, 8, 0)),
        by(19, issue(at(0, 8, 4))),
        by(19, top_up(500, at(0, 8, 5))),
        by(19, enter(2, at(0, 8, 10))),
        leave(1, at(0, 8, 25)),
        by(19, leave(3, at(0, 8, 30))),
        leave(3, at(0, 8, 24)),
    ]
}

#[test]
fn the_refused_touches_of_the_card_are_listed(rt: HostRuntime) -> Result<(), Fail> {
    let bytes = journal(rt.alloc(), &mixed()).ok_or("a journal")?;
    assert_forms(&rt, &bytes, [TEXT, CSV, JSON])
}

#[test]
fn a_statement_has_no_touch_of_another_card(rt: HostRuntime) -> Result<(), Fail> {
    let bytes = journal(rt.alloc(), &mixed()).ok_or("a journal")?;
    for (card, want) in [(17, TEXT), (18, OTHER), (19, THIRD)] {
        let asked = Asked {
            card,
            days: ALL,
            format: StatementFormat::Text,
        };
        assert_printed(&rt, asked, &bytes, want)?;
    }
    Ok(())
}
