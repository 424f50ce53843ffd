//! Where in a TOML text a key of a table, or of a list's row, stands.

use crate::pieces::{Kind, Piece};

/// What is looked for in a table. Rows count from 1.
#[derive(Clone, Copy, Debug, PartialEq, Eq)]
pub enum Wanted {
    /// A key of the table itself.
    Key(&'static str),
    /// A row of the list at a key.
    Row(&'static str, usize),
    /// A key of a row of the list at a key.
    Cell(&'static str, usize, &'static str),
}

/// Whose the keys are that stand outside of all brackets.
#[derive(Clone, Copy)]
enum Under {
    /// The table's own.
    Top,
    /// Those of this row of the list that is looked for.
    Row(usize),
    /// Those of anything else.
    Other,
}

/// What the next piece belongs to.
#[derive(Clone, Copy)]
enum Part {
    /// A line that begins.
    Line,
    /// A heading, in this many brackets.
    Heading(usize),
    /// A key.
    Key,
    /// A value.
    Value,
}

/// What was read of a text so far.
#[derive(Clone, Copy)]
struct Walk<'a> {
    /// The list, the row and the key that are looked for: no list and row 0 for a key of the table
    /// itself, and no key for a row.
    list: &'static str,
    row: usize,
    key: &'static str,
    found: Option<usize>,
    under: Under,
    part: Part,
    /// How many headings of the list there were.
    rows: usize,
    /// Where the heading that is read begins, and its first two words.
    heading: usize,
    first: &'a [u8],
    second: &'a [u8],
    /// Where the first heading begins.
    first_heading: Option<usize>,
    /// Whether the value that is read is the list that is looked for.
    is_list: bool,
    /// How many brackets are open in it.
    depth: usize,
    /// How many of its elements have begun, and whether the last is a table.
    elements: usize,
    in_table: bool,
    /// Whether an element, or a key of one, comes next.
    begins: bool,
}

/// How many bytes stand before what is looked for, where it is in the text that these pieces are
/// of. A key in quotes with escapes is taken for another one.
pub fn place_of<'a>(pieces: &[Piece<'a>], wanted: Wanted) -> Option<usize> {
    walked(pieces, wanted).found
}

/// How many bytes stand before the first heading in brackets, where there is one.
pub fn first_heading<'a>(pieces: &[Piece<'a>]) -> Option<usize> {
    walked(pieces, Wanted::Key("")).first_heading
}

/// The walk through all pieces of a text.
fn walked<'a>(pieces: &[Piece<'a>], wanted: Wanted) -> Walk<'a> {
    let (list, row, key) = parts_of(wanted);
    let mut walk = Walk {
        list,
        row,
        key,
        found: None,
        under: Under::Top,
        part: Part::Line,
        rows: 0,
        heading: 0,
        first: &[],
        second: &[],
        first_heading: None,
        is_list: false,
        depth: 0,
        elements: 0,
        in_table: false,
        begins: false,
    };
    walk.read_all(pieces);
    walk
}

/// The list, the row and the key of what is looked for.
fn parts_of(wanted: Wanted) -> (&'static str, usize, &'static str) {
    match wanted {
        Wanted::Key(key) => ("", 0, key),
        Wanted::Row(list, row) => (list, row, ""),
        Wanted::Cell(list, row, key) => (list, row, key),
    }
}

impl<'a> Walk<'a> {
    /// Reads all pieces of a text.
    fn read_all(&mut self, pieces: &[Piece<'a>]) {
        for piece in pieces {
            let piece = *piece;
            match self.part {
                Part::Line => self.begin_line(piece),
                Part::Heading(brackets) => self.read_heading(piece, brackets),
                Part::Key => self.read_key(piece),
                Part::Value => self.read_value(piece),
            }
        }
        if let Part::Heading(brackets) = self.part {
            self.end_heading(brackets);
        }
    }

    /// A line begins with this piece.
    fn begin_line(&mut self, piece: Piece<'a>) {
        match piece.kind {
            Kind::Sign(b'[') => {
                self.part = Part::Heading(1);
                self.heading = piece.at;
                self.first_heading = self.first_heading.or(Some(piece.at));
                self.first = &[];
                self.second = &[];
            }
            Kind::Word(word) => {
                self.part = Part::Key;
                self.is_list = self.is_own_list(word);
                match self.under {
                    Under::Top => self.find("", 0, word, piece.at),
                    Under::Row(row) => self.find(self.list, row, word, piece.at),
                    Under::Other => {}
                }
            }
            _ => {}
        }
    }

    /// Whether a key outside of all brackets is that of the list that is looked for.
    fn is_own_list(&self, word: &[u8]) -> bool {
        matches!(self.under, Under::Top) && name_in(word) == self.list.as_bytes()
    }

    /// Reads a piece of a heading in so many brackets.
    fn read_heading(&mut self, piece: Piece<'a>, brackets: usize) {
        match piece.kind {
            Kind::Sign(b'[') => self.part = Part::Heading(brackets.saturating_add(1)),
            Kind::Sign(b'\n') => {
                self.end_heading(brackets);
                self.part = Part::Line;
            }
            Kind::Word(word) if self.first.is_empty() => self.first = word,
            Kind::Word(word) if self.second.is_empty() => self.second = word,
            _ => {}
        }
    }

    /// A heading in so many brackets is read: a row of the list that is looked for begins, or a
    /// table in its last row, or anything else.
    fn end_heading(&mut self, brackets: usize) {
        let (first, second, at) = (self.first, self.second, self.heading);
        self.find("", 0, first, at);
        self.under = Under::Other;
        if name_in(first) != self.list.as_bytes() {
            return;
        }
        if !second.is_empty() {
            self.find(self.list, self.rows, second, at);
        } else if brackets == 2 {
            self.rows = self.rows.saturating_add(1);
            self.under = Under::Row(self.rows);
            self.find(self.list, self.rows, &[], at);
        }
    }

    /// Reads a piece behind the first word of a key.
    fn read_key(&mut self, piece: Piece<'a>) {
        match piece.kind {
            Kind::Sign(b'=') => {
                self.part = Part::Value;
                self.depth = 0;
                self.elements = 0;
                self.begins = false;
            }
            Kind::Sign(b'.') => self.is_list = false,
            _ => {}
        }
    }

    /// Reads a piece of a value.
    fn read_value(&mut self, piece: Piece<'a>) {
        match piece.kind {
            Kind::Sign(b'\n') if self.depth == 0 => self.part = Part::Line,
            Kind::Sign(b'\n') => {}
            Kind::Sign(b'[') => self.open(false, piece.at),
            Kind::Sign(b'{') => self.open(true, piece.at),
            Kind::Sign(b']') | Kind::Sign(b'}') => {
                self.depth = self.depth.saturating_sub(1);
                self.begins = false;
            }
            Kind::Sign(b',') => self.begins = self.depth == 1 || (self.depth == 2 && self.in_table),
            Kind::Sign(_) => {}
            Kind::Word(word) => self.read_word(word, piece.at),
        }
    }

    /// A list or a table begins in the value that is read.
    fn open(&mut self, is_table: bool, at: usize) {
        match self.depth {
            0 => {
                self.is_list = self.is_list && !is_table;
                self.begins = true;
            }
            1 => {
                self.begin_element(at);
                self.in_table = is_table;
                self.begins = is_table;
            }
            _ => self.begins = false,
        }
        self.depth = self.depth.saturating_add(1);
    }

    /// Reads a word of a value.
    fn read_word(&mut self, word: &'a [u8], at: usize) {
        if self.begins {
            match self.depth {
                1 => self.begin_element(at),
                2 if self.is_list => self.find(self.list, self.elements, word, at),
                _ => {}
            }
        }
        self.begins = false;
    }

    /// An element of the value that is read begins.
    fn begin_element(&mut self, at: usize) {
        if self.begins {
            self.elements = self.elements.saturating_add(1);
            if self.is_list {
                self.find(self.list, self.elements, &[], at);
            }
        }
    }

    /// Here a key of a row of a list stands, or the row, or a key of the table itself.
    fn find(&mut self, list: &str, row: usize, word: &[u8], at: usize) {
        let is_wanted = self.list == list
            && self.row == row
            && self.key.as_bytes() == name_in(word);
        if is_wanted && self.found.is_none() {
            self.found = Some(at);
        }
    }
}

/// The key that a word is: what stands within its quotes.
fn name_in(word: &[u8]) -> &[u8] {
    match word {
        [b'"', name @ .., b'"'] | [b'\'', name @ .., b'\''] => name,
        _ => word,
    }
}
