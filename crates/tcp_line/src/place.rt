//! Where the bytes of a gate stand in its frames (PROTOCOL.md, "Frames").

/// A place in a frame, which is its length in two bytes, the highest first, and then as many bytes.
#[derive(Clone, Copy, Debug, PartialEq, Eq)]
pub(crate) enum Place {
    /// Between two frames.
    Between,
    /// Behind this first byte of a length.
    Length(u8),
    /// So many bytes before the frame's end.
    Body(u16),
}

impl Place {
    /// The place behind one more byte.
    fn behind(self, byte: u8) -> Place {
        match self {
            Place::Between => Place::Length(byte),
            Place::Length(high) => Place::before(u16::from_be_bytes([high, byte])),
            Place::Body(left) => Place::before(left.saturating_sub(1)),
        }
    }

    /// The place before the last bytes of a frame.
    fn before(left: u16) -> Place {
        match left {
            0 => Place::Between,
            left => Place::Body(left),
        }
    }

    /// The place behind these bytes, and whether the frame that it is in began among them.
    pub(crate) fn pass(self, bytes: &[u8]) -> (Place, bool) {
        let mut place = self;
        let mut begins = false;
        for byte in bytes {
            begins = begins || place == Place::Between;
            place = place.behind(*byte);
        }
        (place, begins)
    }
}
