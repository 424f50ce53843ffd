//! The limits of a station, its server and the clients of its door.

/// The most cards of a station.
pub const CARDS_LIMIT: u32 = 100_000;
/// The most touches of a history, and so the largest capacity of a journal.
pub const HISTORY_LIMIT: u32 = 1_000_000;
/// The most lines of a server, and so the most seats of an office.
pub const LINES_LIMIT: u32 = 64;
/// The most bytes of a certificate's name: X.509's limit of a common name.
pub const CERTIFICATE_NAME_LIMIT: usize = 64;
