//! Why a connection gets no place.

/// Why a connection gets no place.
#[derive(Clone, Copy, Debug, PartialEq, Eq)]
pub enum ShutOut {
    /// The door has neither a rule of its name nor one of `*`.
    NoRule,
    /// All connections that its rule allows are open.
    Connections {
        /// The rule's place in `StationDoor::rules`, from 0.
        place: usize,
    },
}
