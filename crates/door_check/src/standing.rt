//! Where a fault of a door is in its file, the value there, and what is allowed.

ghost use Rattle.std.specs.Prelude.{◌≡◌, Some};
ghost use Rattle.door_file.specs.Keys.{shape_of};
ghost use Rattle.door_check.specs.Allowed.{allowed_by, printed_allowed};

use crate::items::item_at_fault;
use console::Detail;
use door_file::{DoorFault, Key, MOST_BYTES, Place, Problem, Shape};
use std::alloc::Global;
use std::fmt;
use table_check::{Allowed, Found, PlaceContent, SecondLine, Sheet, Wanted};

/// What is allowed where a fault of a door is. It prints as it is told.
#[derive(Clone, Copy, PartialEq, Eq)]
pub(crate) enum DoorAllowed {
    /// A value that a key of a fare table may have too.
    Value(Allowed),
    /// The list of rules.
    Rules,
    /// A name that no earlier rule has.
    OtherName,
    /// Gate numbers and ranges.
    Gates,
    /// The words of kinds of request.
    Kinds,
    /// Each kind once.
    Once,
    /// One of the keys of a rule.
    RuleKey,
    /// The key of the file.
    FileKey,
}

/// What is at a place of a door, in the rule of a number. It prints with the number before it.
#[derive(Clone, Copy)]
struct InRule<'a> {
    /// The number of the rule, from 1, and 0 for the file itself.
    rule: usize,
    /// What is there.
    standing: PlaceContent<'a>,
}

/// Where a fault of a door is, what is there, and what is allowed.
type Spot<'a> = SecondLine<InRule<'a>, DoorAllowed>;

/// A file that has more bytes than a door may have. It prints as that.
struct Long;

/// The line that follows the line of a door's fault: the file, and the place in it with the value
/// there and what is allowed. Without memory for the place it names the file alone.
pub(crate) fn door_detail(alloc: Global, path: &str, bytes: &[u8], fault: &DoorFault) -> Detail {
    if let DoorFault::TooLong = fault {
        return Detail::of(alloc, path, &Long);
    }
    match Sheet::read(alloc, bytes) {
        Ok(sheet) => sheet_detail(alloc, path, &sheet, fault),
        Err(fault) => fault.detail(alloc, path),
    }
}

/// The same, for a file that is a TOML document.
fn sheet_detail(alloc: Global, path: &str, sheet: &Sheet<'_>, fault: &DoorFault) -> Detail {
    match fault {
        DoorFault::At(place, problem) => {
            let spot = spot_at(sheet, *place, *problem);
            Detail::of(alloc, path, &spot)
        }
        DoorFault::UnknownKey(name, rule) => {
            let spot = unknown_at(sheet, name.as_str(), *rule);
            Detail::of(alloc, path, &spot)
        }
        _ => Detail::of_file(alloc, path),
    }
}

/// The spot of a problem at a place.
fn spot_at<'a>(sheet: &'a Sheet<'_>, place: Place, problem: Problem) -> Spot<'a> {
    let Place { rule, key } = place;
    let wanted = wanted_at(rule, key);
    let standing = standing_at(sheet, wanted, place, problem);
    SecondLine {
        line: line_at(sheet, wanted, rule),
        standing: InRule { rule, standing },
        allowed: allowed_at(rule, key, problem),
    }
}

/// The spot of a key that no door has: that of its rule.
fn unknown_at<'a>(sheet: &'a Sheet<'_>, name: &'a str, rule: usize) -> Spot<'a> {
    let standing = PlaceContent::Unknown(name);
    SecondLine {
        line: rule_line(sheet, rule),
        standing: InRule { rule, standing },
        allowed: if rule == 0 {
            DoorAllowed::FileKey
        } else {
            DoorAllowed::RuleKey
        },
    }
}

/// What is looked for in a file's text: a key of the file, a rule, or a key of a rule.
fn wanted_at(rule: usize, key: Key) -> Wanted {
    if rule == 0 {
        return Wanted::Key(key.text());
    }
    match key {
        Key::Rule => Wanted::Row(Key::Rule.text(), rule),
        key => Wanted::Cell(Key::Rule.text(), rule, key.text()),
    }
}

/// The line of what is looked for, or else that of its rule.
fn line_at(sheet: &Sheet<'_>, wanted: Wanted, rule: usize) -> Option<usize> {
    match sheet.line_of(wanted) {
        Some(line) => Some(line),
        None => rule_line(sheet, rule),
    }
}

/// The line in which a rule begins. The file itself has none.
fn rule_line(sheet: &Sheet<'_>, rule: usize) -> Option<usize> {
    if rule == 0 {
        return None;
    }
    sheet.line_of(Wanted::Row(Key::Rule.text(), rule))
}

/// What is at a place, which has this problem.
fn standing_at<'a>(
    sheet: &'a Sheet<'_>,
    wanted: Wanted,
    place: Place,
    problem: Problem,
) -> PlaceContent<'a> {
    let Place { rule, key } = place;
    match sheet.value_of(wanted) {
        Some(value) if key == Key::Rule && rule > 0 => PlaceContent::Value(Found { value }),
        Some(value) => {
            let value = item_at_fault(key, problem, value);
            PlaceContent::Named(key.text(), Found { value })
        }
        None => PlaceContent::Nothing(key.text()),
    }
}

/// What is allowed at a key of the rule of this number, from 1, or of the file, which has 0.
fn allowed_at(rule: usize, key: Key, problem: Problem) -> DoorAllowed
    ensures { result ≡ allowed_by rule problem (shape_of key) }
{
    match (key.shape(), problem) {
        (Shape::Rules, _) => {
            if rule == 0 {
                DoorAllowed::Rules
            } else {
                DoorAllowed::Value(Allowed::Table)
            }
        }
        (Shape::Name, Problem::Twice) => DoorAllowed::OtherName,
        (Shape::Name, _) => DoorAllowed::Value(Allowed::Name),
        (Shape::Gates, _) => DoorAllowed::Gates,
        (Shape::Kinds, Problem::Twice) => DoorAllowed::Once,
        (Shape::Kinds, _) => DoorAllowed::Kinds,
        (Shape::Whole(low, high), _) => DoorAllowed::Value(Allowed::Whole(low, high)),
    }
}

impl fmt::Display for DoorAllowed {
    ghost output = { λ allowed. Some (printed_allowed allowed) };

    fn fmt<W: fmt::Write>(&self, f: &mut fmt::Formatter<W>) -> fmt::Result {
        match *self {
            DoorAllowed::Value(allowed) => write!(f, "{allowed}"),
            DoorAllowed::Rules => f.write_str("a list of 1 to 1000 rules"),
            DoorAllowed::OtherName => f.write_str("a name that no earlier rule has"),
            DoorAllowed::Gates => f.write_str(
                "gate numbers from 1 to 65535 or ranges as [100, 120]; enquiries alone need none",
            ),
            DoorAllowed::Kinds => f.write_str(
                "one or more of \"in\", \"out\", \"top-up\", \"issue\", \"revise\" and \"enquiry\"",
            ),
            DoorAllowed::Once => f.write_str("each kind once"),
            DoorAllowed::RuleKey => f.write_str(
                "the keys of a rule are name, gates, kinds, ahead, rate, burst, reserved and \
                 connections",
            ),
            DoorAllowed::FileKey => f.write_str("the file has the list rule alone"),
        }
    }
}

impl fmt::Display for InRule<'_> {
    fn fmt<W: fmt::Write>(&self, f: &mut fmt::Formatter<W>) -> fmt::Result {
        let (rule, standing) = (self.rule, self.standing);
        if rule > 0 {
            write!(f, "rule {rule}: ")?;
        }
        write!(f, "{standing}")
    }
}

impl fmt::Display for Long {
    fn fmt<W: fmt::Write>(&self, f: &mut fmt::Formatter<W>) -> fmt::Result {
        let most = MOST_BYTES;
        write!(f, "more than {most} bytes")
    }
}
