//! What a door reads when a touch comes: two clocks, and whether the history has the touch.

/// What the clocks show.
#[derive(Clone, Copy, Debug, PartialEq, Eq)]
pub struct Clocks {
    /// The server's clock: seconds since 1970-01-01 00:00:00 UTC.
    pub seconds: u64,
    /// A clock that nobody sets, in milliseconds from any beginning: `TICKS_PER_SECOND` a second.
    pub ticks: u64,
}

/// Whether a touch is new.
#[derive(Clone, Copy, Debug, PartialEq, Eq)]
pub enum Standing {
    /// The history has this very touch: it is a repeat, and takes no room.
    Repeat,
    /// The history doesn't have this touch. A touch whose gate and number another touch has is new
    /// here: where it is allowed, the clerk answers it by its own fault.
    New {
        /// How many new touches the history still takes: `u32::MAX` where it has no limit.
        room: u32,
    },
}
