//! A station's name with characters that JSON escapes (RFC 8259, section 7): a quotation mark, a
//! backslash and a control character. A character of two bytes is printed as it is.

ghost use Rattle.std.specs.Prelude.{◌≡◌, [], IfSome};
ghost use Rattle.fare_schedule.specs.Schedule.{revisions_of};

use super::*;

/// Another name of station 2, escaped as in TOML: B"i\r, the control character 1, and an e acute.
const CHANGE: [Change; 1] = [("\"Birch\"", "\"B\\\"i\\\\r\\u0001\u{e9}\"")];

/// The digest of that table's text by the system's `sha256sum`.
const DIGEST: [u8; 32] = *b"\x1f\x98\x06\x32\x89\x87\xe2\xec\xb2\x12\x00\x9b\x79\x10\xb9\xa4\
    \x03\xf4\xda\x02\x7b\xd9\x48\x23\x3d\x6d\xbc\xdf\x7a\x3d\x4d\x77";

/// The text has the name as it is.
const TEXT: &str = "card 17

2025-01-06
      0.00  fares
            no daily cap
      0.00  journeys
      7.00  10:00  maximum: touched in at B\"i\\r\u{1}\u{e9}, and no touch in or out followed
      7.00  charged for 2025-01-06

top-ups
     20.00  2025-01-06 06:30

     20.00  paid in
      7.00  charged
     13.00  balance
";

/// The JSON object has the name as JSON escapes it.
const JSON: &str = "{\"card\":17,\"from\":null,\"to\":null,\"before\":null,\"days\":[
{\"day\":\"2025-01-06\",\"journeys\":[
],\"fares\":0,\"cap\":null,\"charge_for_journeys\":0,\"touches\":[
{\"pence\":700,\"reason\":\"Open\",\"at\":{\"station\":2,\"name\":\"B\\\"i\\\\r\\u0001\u{e9}\",\
\"moment\":\"2025-01-06T10:00:00Z\",\"time\":\"10:00\"}}
],\"charge\":700}
],\"top_ups\":[
{\"day\":\"2025-01-06\",\"pence\":2000,\"moment\":\"2025-01-06T06:30:00Z\"}
],\"refused\":[
],\"paid_in\":2000,\"charged\":700,\"balance\":1300}
";

/// A schedule of the table with that name. `None` if memory was refused.
fn named(alloc: Global) -> Option<Schedule>
    ensures { IfSome result (λ schedule. revisions_of schedule ≡ []) }
{
    let table = changed(alloc, &CHANGE)?;
    Schedule::new(alloc, table).ok()
}

#[test]
fn a_name_is_escaped_in_json_alone(rt: HostRuntime) -> Result<(), Fail> {
    let alloc = rt.alloc();
    let deeds = [
        issue(at(0, 6, 30)),
        top_up(2_000, at(0, 6, 30)),
        enter(2, at(0, 10, 0)),
    ];
    let bytes = journal_of(alloc, 64, &DIGEST, &deeds).ok_or("a journal")?;
    for (format, want) in [(StatementFormat::Text, TEXT), (StatementFormat::Json, JSON)] {
        let schedule = named(alloc).ok_or("a schedule")?;
        assert_printed_by(&rt, schedule, whole(format), &bytes, want)?;
    }
    Ok(())
}
