//! Moments, and the stamps that are wanted of them.
use money_time::{Stamp, Window};

/// A moment, and its fare day, its minute of the day and its window.
pub(super) type Moment = (u32, i32, u16, Window);

/// The stamp that is wanted of a moment.
pub(super) fn stamp_of(row: &Moment) -> Stamp {
    let (moment, day, minute, window) = *row;
    Stamp {
        moment,
        day,
        minute,
        window,
    }
}
