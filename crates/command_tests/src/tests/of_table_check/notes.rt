//! Texts that are looked over, with what is told worked out by hand.

use crate::tests::assert_same_at;
use std::alloc::Global;
use std::fmt::Write;
use std::test::Fail;
use table_check::{Found, Sheet, Survey, SurveyFault, Wanted, look_over};

/// What is told of a text, which is a document.
fn survey_of(alloc: Global, text: &str) -> Result<Survey, Fail> {
    match look_over(alloc, text.as_bytes()) {
        Ok((_, survey)) => Ok(survey),
        Err(_) => Err("no document".into()),
    }
}

/// The lines that tell which keys of a text aren't known.
fn noted(alloc: Global, text: &str) -> Result<String, Fail> {
    let survey = survey_of(alloc, text)?;
    let mut lines = String::new(alloc);
    for unknown in &survey.unknown {
        write!(lines, "{unknown}\n")?;
    }
    Ok(lines)
}

/// Why a text is no document, as it is told.
fn misread(alloc: Global, bytes: &[u8]) -> Result<String, Fail> {
    match look_over(alloc, bytes) {
        Err(SurveyFault::Misread(misread)) => Ok(misread.to_string(alloc)?),
        _ => Err("a document, or no memory".into()),
    }
}

/// A text that is a document.
pub fn sheet_of(alloc: Global, text: &'static str) -> Result<Sheet<'static>, Fail> {
    match Sheet::read(alloc, text.as_bytes()) {
        Ok(sheet) => Ok(sheet),
        Err(_) => Err("no document".into()),
    }
}

/// What is told of a place in a text: its line, 0 where it has none, and what stands there, nothing
/// where nothing does.
fn told(alloc: Global, text: &'static str, wanted: Wanted) -> Result<String, Fail> {
    let sheet = sheet_of(alloc, text)?;
    let line = sheet.line_of(wanted).unwrap_or(0);
    let mut said = String::new(alloc);
    write!(said, "{line}: ")?;
    if let Some(value) = sheet.value_of(wanted) {
        let found = Found { value };
        write!(said, "{found}")?;
    }
    Ok(said)
}

/// What of a text is above its maximum, as it is told, with its line. Nothing is told by nothing.
fn above(alloc: Global, text: &'static str) -> Result<String, Fail> {
    let sheet = sheet_of(alloc, text)?;
    let mut said = String::new(alloc);
    if let Some(above) = sheet.above() {
        let line = sheet.line_of(above.price).unwrap_or(0);
        write!(said, "line {line}: {above}")?;
    }
    Ok(said)
}

/// Texts, each with what is told of the keys that are unknown.
static NOTES: [(&str, &str); 11] = [
    ("pairs = []", "note: pairs isn't known; is pair meant?\n"),
    (
        "[[caps]]\nlo = 1",
        "note: caps isn't known; is cap meant?\n",
    ),
    (
        "holiday = []",
        "note: holiday isn't known; is holidays meant?\n",
    ),
    ("zoen = 1", "note: zoen isn't known; is zone meant?\n"),
    (
        "maximum-off-peak = 1",
        "note: maximum-off-peak isn't known; is maximum_off_peak meant?\n",
    ),
    ("comment = 1", "note: comment isn't known\n"),
    ("\"\" = 1", "note:  isn't known\n"),
    ("\"a\\nb\" = 1", "note: a\\nb isn't known\n"),
    (
        "station = [{id = 1, name = \"A\"}, {id = 2, naem = \"B\", x = 1}]",
        "note: station.naem in row 2 isn't known; is name meant?\n\
         note: station.x in row 2 isn't known\n",
    ),
    (
        "b = 1\na = 1\npair = [{low = 1}]\ncap = [{}, 1, {}, {prices = 1}]",
        "note: a isn't known\nnote: b isn't known\n\
         note: pair.low in row 1 isn't known; is lo meant?\n\
         note: cap.prices in row 4 isn't known; is price meant?\n",
    ),
    (
        "interchange = [{c = 1, minute = 1}]",
        "note: interchange.c in row 1 isn't known\n\
         note: interchange.minute in row 1 isn't known; is minutes meant?\n",
    ),
];

#[test]
fn an_unknown_key_is_told_with_the_one_that_was_meant(rt: HostRuntime) -> Result<(), Fail> {
    let alloc = rt.alloc();
    for (text, notes) in NOTES.as_slice() {
        let told = noted(alloc, *text)?;
        assert_same_at(&rt, told.as_str(), *notes, *text);
    }
    Ok(())
}

/// Texts, each with whether its first unknown key is one of the table itself that stands in a row.
static MISPLACED: [(&str, bool); 4] = [
    ("[[cap]]\nlo = 1\nholidays = []", true),
    ("station = [{id = 1, zone = 1}]", true),
    ("[[cap]]\nlo = 1\nhigh = 2", false),
    ("holiday = []", false),
];

#[test]
fn a_key_of_the_table_in_a_row_is_misplaced(rt: HostRuntime) -> Result<(), Fail> {
    let alloc = rt.alloc();
    for (text, want) in MISPLACED.as_slice() {
        let survey = survey_of(alloc, *text)?;
        let unknown = survey.unknown.first().ok_or("no unknown key")?;
        assert_same_at(&rt, unknown.is_misplaced(), *want, *text);
    }
    Ok(())
}

#[test]
fn the_rows_of_lists_that_may_be_left_out_are_counted(rt: HostRuntime) -> Result<(), Fail> {
    let text = "pair = [1, {}]\nholidays = [\"x\", 2, 3]\n[[interchange]]\n";
    let found = survey_of(rt.alloc(), text)?;
    let Survey {
        pairs,
        interchanges,
        holidays,
        ..
    } = &found;
    assert_eq!(rt; (*pairs, *interchanges, *holidays), (2, 1, 3));
    Ok(())
}

#[test]
fn a_text_that_is_no_document_is_told_by_its_place(rt: HostRuntime) -> Result<(), Fail> {
    let alloc = rt.alloc();
    let rows: [(&[u8], &str); 4] = [
        (b"x = 1\ny = 0190\n", "line 2, column "),
        (b"zone = 1\n# \xff\n", "line 2, column 3: "),
        (b"# \xc3\xa4\nx = \xff", "line 2, column 5: "),
        (b"zone = \"GMT0\"\nx =\n", "line 2, column 4: "),
    ];
    for (bytes, place) in rows.as_slice() {
        let told = misread(alloc, *bytes)?;
        assert_same_at(&rt, told.as_str().starts_with(*place), true, told.as_str());
        assert_same_at(&rt, told.len() > place.len(), true, told.as_str());
    }
    Ok(())
}

/// Texts, each with what is told of the first price above its maximum.
static ABOVE: [(&str, &str); 4] = [
    ("", ""),
    (
        "maximum_peak = 9\nmaximum_off_peak = 10",
        "line 2: at most maximum_peak, 9",
    ),
    (
        "maximum_peak = 9\nmaximum_off_peak = 7\n\
         single = [{peak = 9, off_peak = 7},\n {peak = 9, off_peak = 8}]\n\
         pair = [{peak = 10, off_peak = 7}]",
        "line 4: at most maximum_off_peak, 7",
    ),
    (
        "maximum_peak = 9\nmaximum_off_peak = 7\npair = [{}, 1,\n\n{peak = 10, off_peak = 8}]",
        "line 5: at most maximum_peak, 9",
    ),
];

#[test]
fn the_first_price_above_its_maximum_is_told(rt: HostRuntime) -> Result<(), Fail> {
    let alloc = rt.alloc();
    for (text, words) in ABOVE.as_slice() {
        let told = above(alloc, *text)?;
        assert_same_at(&rt, told.as_str(), *words, *text);
    }
    Ok(())
}

/// Texts with what is looked for in them, and its line and what stands there.
static PLACES: [(&str, Wanted, &str); 12] = [
    (
        "a = 1\nzone = \"G\\tB\"\n",
        Wanted::Key("zone"),
        "2: \"G\\tB\"",
    ),
    (
        "# zone = 1\n'zone' = [1, 2]",
        Wanted::Key("zone"),
        "2: a list of 2",
    ),
    (
        "x = \"\"\"\nzone = 1\"\"\"\"\nzone = true",
        Wanted::Key("zone"),
        "3: true",
    ),
    (
        "b.zone = 1\nzone = 1.5",
        Wanted::Key("zone"),
        "2: a number with a decimal point",
    ),
    ("a = 1", Wanted::Key("zone"), "0: "),
    (
        "cap = [\n{lo = 1},\n{hi = 2, lo = 3}]",
        Wanted::Cell("cap", 2, "lo"),
        "3: 3",
    ),
    (
        "cap = [ # [\n[1, 2], {lo = [\n1], hi = 2}]",
        Wanted::Cell("cap", 2, "hi"),
        "3: 2",
    ),
    (
        "[[cap]]\nlo = 1\n[[pair]]\nlo = 2\n[[cap]]\nhi = 3\nlo = 4",
        Wanted::Cell("cap", 2, "lo"),
        "7: 4",
    ),
    (
        "[[cap]]\n[cap.x]\nlo = 1\n[[cap]]\nlo = -2",
        Wanted::Cell("cap", 2, "lo"),
        "5: -2",
    ),
    (
        "[[cap]]\n[[ cap ]] # two\nlo = 1",
        Wanted::Row("cap", 2),
        "2: a table",
    ),
    (
        "holidays = [\n\"a\", 2025-01-07, \n3]",
        Wanted::Row("holidays", 2),
        "2: a date without quotes",
    ),
    (
        "holidays = [\n\"a\", 2025-01-07, \n3]",
        Wanted::Row("holidays", 4),
        "0: ",
    ),
];

#[test]
fn a_key_is_told_by_its_line_with_what_stands_there(rt: HostRuntime) -> Result<(), Fail> {
    let alloc = rt.alloc();
    for (text, wanted, words) in PLACES.as_slice() {
        let told = told(alloc, *text, *wanted)?;
        assert_same_at(&rt, told.as_str(), *words, *text);
    }
    Ok(())
}
