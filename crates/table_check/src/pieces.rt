//! The pieces that a TOML text is written in: its words, and the signs between them.

use std::alloc::{AllocError, Global};

/// A word of a text, a text in quotes among them, or a sign, outside of the comments.
#[derive(Clone, Copy, Debug, PartialEq, Eq)]
pub struct Piece<'a> {
    /// How many bytes stand before it.
    pub at: usize,
    /// What it is.
    pub kind: Kind<'a>,
}

/// What a piece is.
#[derive(Clone, Copy, Debug, PartialEq, Eq)]
pub enum Kind<'a> {
    /// A word, with the quotes that it stands in.
    Word(&'a [u8]),
    /// One of the signs `[ ] { } = , .`, or the end of a line.
    Sign(u8),
}

/// In what the next byte stands.
#[derive(Clone, Copy)]
enum Inside {
    /// Between pieces.
    Nothing,
    /// In a comment.
    Comment,
    /// In a word without quotes that begins here.
    Word(usize),
    /// In a text that begins here, in such quotes, which are three at a time or one.
    Quoted(usize, u8, bool),
}

/// What was read of a text so far.
#[derive(Drop)]
struct Reader<'a> {
    bytes: &'a [u8],
    inside: Inside,
    /// The bytes before this place belong to what was read.
    next: usize,
    pieces: Vec<Piece<'a>>,
}

/// The pieces of a text, which is a TOML document, in their order.
pub fn pieces_of<'a>(alloc: Global, bytes: &'a [u8]) -> Result<Vec<Piece<'a>>, AllocError> {
    let mut reader = Reader {
        bytes,
        inside: Inside::Nothing,
        next: 0,
        pieces: Vec::new(alloc),
    };
    for (at, byte) in bytes.iter().enumerate() {
        if reader.next <= at {
            reader.read(at, *byte)?;
        }
    }
    reader.end_word(bytes.len())?;
    Ok(reader.pieces)
}

impl<'a> Reader<'a> {
    /// Reads a byte.
    fn read(&mut self, at: usize, byte: u8) -> Result<(), AllocError> {
        match self.inside {
            Inside::Comment if byte != b'\n' => Ok(()),
            Inside::Quoted(start, quote, threefold) => {
                self.read_quoted(at, byte, start, quote, threefold)
            }
            _ => self.read_plain(at, byte),
        }
    }

    /// Reads a byte that stands in no comment and in no quotes, or ends a comment.
    fn read_plain(&mut self, at: usize, byte: u8) -> Result<(), AllocError> {
        match byte {
            b'"' | b'\'' => {
                let threefold = self.has_two(at.saturating_add(1), byte);
                self.next = at.saturating_add(if threefold { 3 } else { 1 });
                self.inside = Inside::Quoted(at, byte, threefold);
                Ok(())
            }
            b'#' => {
                self.end_word(at)?;
                self.inside = Inside::Comment;
                Ok(())
            }
            b'[' | b']' | b'{' | b'}' | b'=' | b',' | b'.' | b'\n' => {
                self.end_word(at)?;
                self.add(at, Kind::Sign(byte))
            }
            b' ' | b'\t' | b'\r' => self.end_word(at),
            _ => {
                self.begin_word(at);
                Ok(())
            }
        }
    }

    /// Reads a byte of a text in quotes.
    fn read_quoted(
        &mut self,
        at: usize,
        byte: u8,
        start: usize,
        quote: u8,
        threefold: bool,
    ) -> Result<(), AllocError> {
        if byte == b'\\' && quote == b'"' {
            self.next = at.saturating_add(2);
            return Ok(());
        }
        if byte != quote || (threefold && !self.ends_threefold(at, quote)) {
            return Ok(());
        }
        self.next = at.saturating_add(if threefold { 3 } else { 1 });
        self.inside = Inside::Nothing;
        self.add_word(start, self.next)
    }

    /// Whether the last three of some quotes in a row begin here.
    fn ends_threefold(&self, at: usize, quote: u8) -> bool {
        self.has_two(at.saturating_add(1), quote)
            && self.bytes.get(at.saturating_add(3)) != Some(&quote)
    }

    /// Whether two such bytes stand here.
    fn has_two(&self, at: usize, byte: u8) -> bool {
        self.bytes.get(at) == Some(&byte) && self.bytes.get(at.saturating_add(1)) == Some(&byte)
    }

    /// A word without quotes begins here, where none is read.
    fn begin_word(&mut self, at: usize) {
        if let Inside::Nothing = self.inside {
            self.inside = Inside::Word(at);
        }
    }

    /// The word without quotes, or the comment, that is read ends before this place.
    fn end_word(&mut self, end: usize) -> Result<(), AllocError> {
        let inside = self.inside;
        self.inside = Inside::Nothing;
        match inside {
            Inside::Word(start) => self.add_word(start, end),
            _ => Ok(()),
        }
    }

    /// Adds the word from one place to another.
    fn add_word(&mut self, start: usize, end: usize) -> Result<(), AllocError> {
        let word = self.bytes.get(start..end).unwrap_or(&[]);
        self.add(start, Kind::Word(word))
    }

    /// Adds a piece.
    fn add(&mut self, at: usize, kind: Kind<'a>) -> Result<(), AllocError> {
        self.pieces.push(Piece { at, kind })?;
        Ok(())
    }
}
