//! What a commit answers, and what a seat keeps of it.
ghost use Rattle.std.specs.Prelude.{◌≡◌, ◌<◌, ◌+◌, ◌-◌, ◌^◌, true, false};
ghost use Rattle.tap_desk.specs.LogPoints.{logged_at};
ghost use Rattle.tap_office.specs.Receipt.{filed_of};

use crate::name::Named;
use oyster_account::{Reply, Touch};
use tap_desk::LogPoint;

/// What a seat keeps of a touch that it committed: its place in the history, counted from 0, with
/// the touch and its reply.
#[derive(Clone, Copy, Debug, PartialEq, Eq)]
pub struct Filed {
    pub place: u32,
    pub touch: Touch,
    pub reply: Reply,
}

/// The answer to a touch that stands in the history.
///
/// A desk can learn it (`Desk::learn`), and then answers of no less than there was here.
#[derive(Drop)]
pub struct Receipt<N: Named> {
    /// The touch's place in the history, counted from 0.
    pub place: u32,
    /// How many entries were published when this was answered: more than the place.
    pub front: u32,
    /// The touch that was handed in.
    pub touch: Touch,
    /// Its reply, which is the first one where the touch is a repeat.
    pub reply: Reply,
    /// Whether the touch is new: it isn't where it is a repeat.
    pub fresh: bool,
    /// What was published then.
    pub(crate) point: LogPoint<N>,
}

impl<N: Named> Receipt<N> {
    /// What a seat keeps of it.
    pub(crate) fn filed(&self) -> Filed
        ensures { result ≡ filed_of self.now }
    {
        Filed {
            place: self.place,
            touch: self.touch,
            reply: self.reply,
        }
    }

    /// The receipt of a new touch at the end of the history, which the log point is of.
    pub(crate) fn first(filed: Filed, point: LogPoint<N>) -> Receipt<N>
        requires { filed.place < 2 ^ 32 - 1 }
        ensures place { result.place ≡ filed.place }
        ensures front { result.front ≡ filed.place + 1 }
        ensures touch { result.touch ≡ filed.touch }
        ensures reply { result.reply ≡ filed.reply }
        ensures fresh { result.fresh ≡ true }
        ensures point { logged_at result.point ≡ logged_at point }
    {
        Receipt {
            place: filed.place,
            front: filed.place + 1,
            touch: filed.touch,
            reply: filed.reply,
            fresh: true,
            point,
        }
    }

    /// The receipt of a repeat, where the history has this front.
    pub(crate) fn again(filed: Filed, front: u32, point: LogPoint<N>) -> Receipt<N>
        ensures place { result.place ≡ filed.place }
        ensures front { result.front ≡ front }
        ensures touch { result.touch ≡ filed.touch }
        ensures reply { result.reply ≡ filed.reply }
        ensures fresh { result.fresh ≡ false }
        ensures point { logged_at result.point ≡ logged_at point }
    {
        Receipt {
            place: filed.place,
            front,
            touch: filed.touch,
            reply: filed.reply,
            fresh: false,
            point,
        }
    }
}
