//! Each reason for a maximum charge, and a balance below 0 (FARES.md, "Statement" and "Balance").

use super::*;

/// The card with a touch for each reason, as text.
const TEXT: &str = "card 17

2025-01-06
      0.00  fares
            no daily cap
      0.00  journeys
      9.00  06:40  maximum: touched out at Alder without a touch in
      9.00  06:45  maximum: touched in at Birch, and the next touch was another touch in
      9.00  06:50  maximum: touched in at Birch, and touched out after the time limit
      9.00  08:20  maximum: touched out at Alder after the time limit
      7.00  10:00  maximum: touched in at Cedar, and no touch in or out followed
     43.00  charged for 2025-01-06

top-ups
     80.00  2025-01-06 06:30

     80.00  paid in
     43.00  charged
     37.00  balance
";

/// The same as comma-separated values.
const CSV: &str = "kind,day,pence,low,high,detail,station,moment,to,ended,covered\r
fares,2025-01-06,0,,,,,,,,\r
journeys,2025-01-06,0,,,,,,,,\r
touch,2025-01-06,900,,,Unstarted,1,2025-01-06T06:40:00Z,,,\r
touch,2025-01-06,900,,,EnteredOver,2,2025-01-06T06:45:00Z,,,\r
touch,2025-01-06,900,,,NotLeftInTime,2,2025-01-06T06:50:00Z,,,\r
touch,2025-01-06,900,,,Late,1,2025-01-06T08:20:01Z,,,\r
touch,2025-01-06,700,,,Open,3,2025-01-06T10:00:00Z,,,\r
charge,2025-01-06,4300,,,,,,,,\r
top_up,2025-01-06,8000,,,,,2025-01-06T06:30:00Z,,,\r
paid_in,,8000,,,,,,,,\r
charged,,4300,,,,,,,,\r
balance,,3700,,,,,,,,\r
";

/// The same as a JSON object.
const JSON: &str = "{\"card\":17,\"from\":null,\"to\":null,\"before\":null,\"days\":[
{\"day\":\"2025-01-06\",\"journeys\":[
],\"fares\":0,\"cap\":null,\"charge_for_journeys\":0,\"touches\":[
{\"pence\":900,\"reason\":\"Unstarted\",\
\"at\":{\"station\":1,\"name\":\"Alder\",\"moment\":\"2025-01-06T06:40:00Z\",\"time\":\"06:40\"}},
{\"pence\":900,\"reason\":\"EnteredOver\",\
\"at\":{\"station\":2,\"name\":\"Birch\",\"moment\":\"2025-01-06T06:45:00Z\",\"time\":\"06:45\"}},
{\"pence\":900,\"reason\":\"NotLeftInTime\",\
\"at\":{\"station\":2,\"name\":\"Birch\",\"moment\":\"2025-01-06T06:50:00Z\",\"time\":\"06:50\"}},
{\"pence\":900,\"reason\":\"Late\",\
\"at\":{\"station\":1,\"name\":\"Alder\",\"moment\":\"2025-01-06T08:20:01Z\",\"time\":\"08:20\"}},
{\"pence\":700,\"reason\":\"Open\",\
\"at\":{\"station\":3,\"name\":\"Cedar\",\"moment\":\"2025-01-06T10:00:00Z\",\"time\":\"10:00\"}}
],\"charge\":4300}
],\"top_ups\":[
{\"day\":\"2025-01-06\",\"pence\":8000,\"moment\":\"2025-01-06T06:30:00Z\"}
],\"refused\":[
],\"paid_in\":8000,\"charged\":4300,\"balance\":3700}
";

/// A debt as text.
const DEBT_TEXT: &str = "card 17

2025-01-06
      0.00  fares
            no daily cap
      0.00  journeys
      9.00  08:00  maximum: touched in at Birch, and no touch in or out followed
      9.00  charged for 2025-01-06

top-ups
      1.90  2025-01-06 06:30

      1.90  paid in
      9.00  charged
     -7.10  balance
";

/// A debt as comma-separated values.
const DEBT_CSV: &str = "kind,day,pence,low,high,detail,station,moment,to,ended,covered\r
fares,2025-01-06,0,,,,,,,,\r
journeys,2025-01-06,0,,,,,,,,\r
touch,2025-01-06,900,,,Open,2,2025-01-06T08:00:00Z,,,\r
charge,2025-01-06,900,,,,,,,,\r
top_up,2025-01-06,190,,,,,2025-01-06T06:30:00Z,,,\r
paid_in,,190,,,,,,,,\r
charged,,900,,,,,,,,\r
balance,,-710,,,,,,,,\r
";

/// A debt as a JSON object.
const DEBT_JSON: &str = "{\"card\":17,\"from\":null,\"to\":null,\"before\":null,\"days\":[
{\"day\":\"2025-01-06\",\"journeys\":[
],\"fares\":0,\"cap\":null,\"charge_for_journeys\":0,\"touches\":[
{\"pence\":900,\"reason\":\"Open\",\
\"at\":{\"station\":2,\"name\":\"Birch\",\"moment\":\"2025-01-06T08:00:00Z\",\"time\":\"08:00\"}}
],\"charge\":900}
],\"top_ups\":[
{\"day\":\"2025-01-06\",\"pence\":190,\"moment\":\"2025-01-06T06:30:00Z\"}
],\"refused\":[
],\"paid_in\":190,\"charged\":900,\"balance\":-710}
";

/// A touch for each reason: a touch out without a touch in; a touch in before another touch in; a
/// touch in, and a touch out 90 minutes and a second later; and a touch in that is the last.
fn incomplete() -> [Deed; 7] {
    [
        issue(at(0, 6, 30)),
        top_up(8_000, at(0, 6, 30)),
        leave(1, at(0, 6, 40)),
        enter(2, at(0, 6, 45)),
        enter(2, at(0, 6, 50)),
        leave(1, at(0, 8, 20) + 1),
        enter(3, at(0, 10, 0)),
    ]
}

#[test]
fn each_reason_is_printed_with_its_maximum(rt: HostRuntime) -> Result<(), Fail> {
    let bytes = journal(rt.alloc(), &incomplete()).ok_or("a journal")?;
    assert_forms(&rt, &bytes, [TEXT, CSV, JSON])
}

#[test]
fn a_debt_has_its_sign(rt: HostRuntime) -> Result<(), Fail> {
    let deeds = [
        issue(at(0, 6, 30)),
        top_up(190, at(0, 6, 30)),
        enter(2, at(0, 8, 0)),
    ];
    let bytes = journal(rt.alloc(), &deeds).ok_or("a journal")?;
    assert_forms(&rt, &bytes, [DEBT_TEXT, DEBT_CSV, DEBT_JSON])
}
