//! Why a journal's file isn't had, or an address isn't listened on.

ghost use Rattle.std.specs.Prelude.{◌≡◌};
ghost use Rattle.console.specs.declared.detail.Detail.{Detail};
ghost use Rattle.door_check.specs.Doors.{told_door};
ghost use Rattle.journal_audit.specs.Told.{told_fault};
ghost use Rattle.console.specs.declared.fault.TrialFault.TheVariants.{File as FileFault};

use crate::standby::refused_journal;
use console::{Detail, SystemRefusal, open_refusal};
use door_check::NoDoor;
use journal_audit::CommandFault;
use std::alloc::Global;
use std::io;
use std::rt::Files;
use tap_disk::DiskFault;

/// The fault of an address that isn't listened on, by the error of the listening. One without a
/// number is of the address's text.
pub(crate) fn listen_fault(alloc: Global, address: &str, error: &io::Error) -> CommandFault
    ensures { (detail : Detail) × (result ≡ CommandFault.Listen detail) }
{
    let refusal = match error.raw_os_error() {
        Some(_) => SystemRefusal::of(error),
        None => SystemRefusal::NoAddress,
    };
    CommandFault::Listen(Detail::of(alloc, address, &refusal))
}

/// The fault of a door that isn't had.
pub(crate) fn door_fault(fault: NoDoor) -> CommandFault
    ensures { told_fault result ≡ told_door fault }
{
    match fault {
        NoDoor::Trial(fault) => CommandFault::Trial(fault),
        NoDoor::Refused(fault, detail) => CommandFault::Door(fault, detail),
    }
}

/// The fault of a journal's file that isn't had, by what its opening found.
pub(crate) fn journal_fault<R: AllocGlobal + Files>(
    rt: &R,
    path: &str,
    fault: DiskFault,
) -> CommandFault
    ensures { (detail : Detail) × (result ≡ CommandFault.Trial (FileFault detail)) }
{
    refused_journal(rt.alloc(), path, journal_refusal(rt, path, fault))
}

/// Why a journal's file isn't had, by what its opening found. An error without a number is for want
/// of memory.
pub(crate) fn journal_refusal<R: Files>(rt: &R, path: &str, fault: DiskFault) -> SystemRefusal {
    match fault {
        DiskFault::System(error) if error.raw_os_error().is_some() => {
            open_refusal(rt, path, &error)
        }
        DiskFault::System(_) => SystemRefusal::Memory,
        DiskFault::NotRegular => SystemRefusal::Device,
        DiskFault::Locked => SystemRefusal::Locked,
        DiskFault::GivenUp | DiskFault::Replaced => SystemRefusal::Passed,
    }
}
