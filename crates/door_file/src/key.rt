//! The keys of a door's file: their texts, and what each of them holds.
ghost use Rattle.std.specs.Prelude.{◌≡◌, Some};
ghost use Rattle.door_file.specs.Keys.{text_of, shape_of};

use std::fmt;

/// The most rules of a door.
pub const MOST_RULES: usize = 1_000;

/// The highest number of a gate.
pub const HIGHEST_GATE: u32 = 65_535;

/// The most seconds that a moment may be allowed to be ahead of the server's clock: a day.
pub const MOST_AHEAD: u32 = 86_400;

/// The most touches a second.
pub const MOST_RATE: u32 = 1_000;

/// The most touches at once.
pub const MOST_BURST: u32 = 10_000;

/// The most places of the journal that are reserved for others.
pub const MOST_RESERVED: u32 = 1_000_000;

/// The most connections at once.
pub const MOST_CONNECTIONS: u32 = 65_535;

/// A key of a door's file.
#[derive(Clone, Copy, Debug, PartialEq, Eq)]
pub enum Key {
    /// The list of rules. It is the one key of the file itself.
    Rule,
    /// The name that the rule is for.
    Name,
    /// The gate numbers that a touch may have.
    Gates,
    /// The kinds of request that may be sent.
    Kinds,
    /// By how many seconds a touch's moment may be ahead of the server's clock.
    Ahead,
    /// How many touches a second may be sent.
    Rate,
    /// How many touches may be sent at once.
    Burst,
    /// How many of the journal's last places are left to others.
    Reserved,
    /// How many connections may be open at once.
    Connections,
}

/// What a key holds.
#[derive(Clone, Copy, Debug, PartialEq, Eq)]
pub enum Shape {
    /// The list of rules, from 1 to 1,000.
    Rules,
    /// A text of 1 to 64 bytes.
    Name,
    /// A list of gate numbers and of ranges of two gate numbers.
    Gates,
    /// A list of the words of kinds.
    Kinds,
    /// A whole number, from the first to the second.
    Whole(u32, u32),
}

/// The keys of a rule, in their order.
pub const RULE_KEYS: [Key; 8] = [
    Key::Name,
    Key::Gates,
    Key::Kinds,
    Key::Ahead,
    Key::Rate,
    Key::Burst,
    Key::Reserved,
    Key::Connections,
];

/// The keys of the file itself.
pub const FILE_KEYS: [Key; 1] = [Key::Rule];

impl Key {
    /// The text that is in the file for the key.
    pub fn text(self) -> &'static str
        ensures { result.now ≡ text_of self }
    {
        match self {
            Key::Rule => "rule",
            Key::Name => "name",
            Key::Gates => "gates",
            Key::Kinds => "kinds",
            Key::Ahead => "ahead",
            Key::Rate => "rate",
            Key::Burst => "burst",
            Key::Reserved => "reserved",
            Key::Connections => "connections",
        }
    }

    /// What the key holds.
    pub fn shape(self) -> Shape
        ensures { result ≡ shape_of self }
    {
        match self {
            Key::Rule => Shape::Rules,
            Key::Name => Shape::Name,
            Key::Gates => Shape::Gates,
            Key::Kinds => Shape::Kinds,
            Key::Ahead => Shape::Whole(0, MOST_AHEAD),
            Key::Rate => Shape::Whole(1, MOST_RATE),
            Key::Burst => Shape::Whole(1, MOST_BURST),
            Key::Reserved => Shape::Whole(0, MOST_RESERVED),
            Key::Connections => Shape::Whole(1, MOST_CONNECTIONS),
        }
    }
}

impl fmt::Display for Key {
    ghost output = { λ key. Some (text_of key) };

    fn fmt<W: fmt::Write>(&self, f: &mut fmt::Formatter<W>) -> fmt::Result {
        f.write_str(self.text())
    }
}
