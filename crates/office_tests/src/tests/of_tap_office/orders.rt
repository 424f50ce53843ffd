//! Offices one of whose desks learns receipts in another order than that of their log points.
ghost use Rattle.tap_office.specs.Name.{IsNameOf};
ghost use Rattle.tap_office.specs.Opening.{opened_of};

use super::*;
use std::marker::Brand;
use std::sync::Wait;
use tap_office::Named;

/// Which desks an office of two is closed against.
#[derive(Clone, Copy, Debug, PartialEq, Eq)]
enum Shown {
    Both,
    /// The one that learnt nothing.
    Second,
}

/// Makes an office of two seats, commits the issue and the top-up, and has the first desk learn the
/// second receipt before the first one. What that desk was answered of card 1, and how the office
/// ended.
fn closed_after<N: Named, R: Wait + Abort>(
    rt: &R,
    alloc: Global,
    opening: Opening<MemoryDisk>,
    shown: Shown,
) -> Option<(Option<Enquiry>, End)>
    requires { IsNameOf N.opened N.name N.parts N.commit_log N.table (opened_of opening) }
{
    let (office, mut seats, mut desks) = opening.office::<N, R>(rt, alloc).ok()?;
    let seat = seats.first_mut()?;
    let first = office.submit(rt, seat, ISSUE).ok()?;
    let second = office.submit(rt, seat, TOP_UP).ok()?;
    let desk = desks.first_mut()?;
    desk.learn(second);
    desk.learn(first);
    let asked = desk.enquire(1);
    let last = desks.pop()?;
    let closed = match shown {
        Shown::Both => {
            desks.push(last).ok()?;
            office.close(rt, seats, &desks)
        }
        Shown::Second => office.close(rt, seats, &[last]),
    };
    Some((asked, end_of(closed).0))
}

/// The same by a name of its own.
fn try_closed<R: Wait + Abort>(
    rt: &R,
    alloc: Global,
    opening: Opening<MemoryDisk>,
    shown: Shown,
) -> Option<(Option<Enquiry>, End)> {
    closed_after::<Brand, R>(rt, alloc, opening, shown)
}

#[test]
fn a_desk_that_learnt_receipts_out_of_order_answers_and_is_told_at_closing(rt: HostRuntime) {
    let alloc = rt.alloc();
    for (shown, cause) in [
        (Shown::Both, Some(CloseCause::DeskMismatch)),
        (Shown::Second, None),
    ] {
        let disk = disk_of(&rt, alloc, 5, &[]);
        let opening = read(&rt, alloc, disk, CARDS, 2)
            .ok()
            .expect(&rt, "the disk wasn't opened");
        let end = End {
            cause,
            halted: false,
            entries: 2,
        };
        let want = Some((outside(2000, 2), end));
        assert_same_at(&rt, try_closed(&rt, alloc, opening, shown), want, shown);
    }
}
