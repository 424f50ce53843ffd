//! An opening as steps of a station.
ghost use Rattle.std.specs.Prelude.{◌≡◌, [], IfOk};
ghost use Rattle.fare_schedule.specs.Schedule.{revisions_of};
ghost use Rattle.reply_book.specs.Tables.{tables_in};
ghost use Rattle.tap_office.specs.Name.{IsNameOf};
ghost use Rattle.tap_office.specs.Opening.{IsOpeningOf, opened_of};
ghost use Rattle.gate_law.specs.Whole.{Whole};
ghost use Rattle.station_calls.specs.Shown.{IsShownBy};
ghost use Rattle.station_calls.specs.Openings.{IsReopening, found_in};

use fare_schedule::Schedule;
use reply_book::NameHashing;
use std::alloc::Global;
use std::sync::Wait;
use tap_disk::Disk;
use tap_journal::OpenFault;
use tap_office::{Desk, Keeper, Named, Opening, Seat, the_lock_keeps};

/// Opens what a crash or an end has left of a disk, as `Opening::read` does: that is a run of steps
/// of the station, from any state whose crash may leave this to the one that was found.
///
/// The station stops, and is opened: with what its history had, or with one touch more, which was
/// in flight. One journal and Same tables are proved here, from the disk's bytes and from the files
/// of the tables.
///
/// Each fault comes as `Opening::read` says, with the disk.
pub fn read_in_steps<D: Disk>(
    alloc: Global,
    hashing: NameHashing,
    disk: D,
    schedule: Schedule,
    cards: u32,
    seats: u16,
) -> Result<Opening<D>, OpenFault<D>>
    requires unrevised { revisions_of schedule ≡ [] }
    ensures opening { IfOk result (IsOpeningOf (tables_in schedule) cards seats) }
    ensures steps { IfOk result (λ o. D.honest o.disk → IsReopening (D.content disk) o) }
{
    Opening::read(alloc, hashing, disk, schedule, cards, seats)
}

/// Makes the keeper of an opening, as `Opening::keeper` does: it shows the station that the opening
/// found.
///
/// `Memory` and `NoDesk` come as `Opening::keeper` says, with the disk.
pub fn keeper_in_steps<N: Named, D: Disk, R: Wait>(
    rt: &R,
    alloc: Global,
    opening: Opening<D>,
) -> Result<(Keeper<N, D>, Vec<Seat<N>>, Vec<Desk<N>>), OpenFault<D>>
    requires { IsNameOf N.opened N.name N.parts N.commit_log N.table (opened_of opening) }
    ensures { (whole : Whole) → IfOk result (λ r.
        IsShownBy D.honest D.outcome N.opened r.0 (found_in whole opening)) }
{
    let made = opening.keeper::<N, R>(rt, alloc)?;
    the_lock_keeps(&made.0);
    Ok(made)
}
