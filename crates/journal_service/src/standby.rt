//! A journal's file that is taken for a server, and waited for by one on standby.

ghost use Rattle.std.specs.Prelude.{◌≡◌, true, IfErr};
ghost use Rattle.console.specs.declared.detail.Detail.{Detail};
ghost use Rattle.console.specs.declared.refusal.SystemRefusal.TheVariants.{Locked};

use console::{Detail, SystemRefusal, TrialFault};
use journal_audit::CommandFault;
use std::alloc::Global;
use tap_disk::Disk;

/// The file of a journal, which one server at a time can have.
pub(crate) trait JournalLock<D: Disk> {
    /// Takes the file, and its lock with it, or says why it isn't had: `Locked` where another
    /// server or run has the lock.
    fn take(&mut self) -> Result<D, SystemRefusal>;

    /// Waits a while before the next try.
    fn wait(&mut self);
}

/// Takes a journal's file. A server on standby waits as long as another one has it, and is never
/// refused for that; any other server is refused at once.
///
/// On standby `Passed` is tried again too: the path was given up, or to another file, while it was
/// opened.
pub(crate) fn take_journal<D: Disk, J: JournalLock<D>>(
    file: &mut J,
    is_standby: bool,
) -> Result<D, SystemRefusal>
    ensures patient { is_standby ≡ true → IfErr result (λ refusal. refusal ≡ Locked → ⊥) }
{
    for _ in 0..u64::MAX {
        match file.take() {
            Ok(disk) => return Ok(disk),
            Err(refusal) => {
                if !is_awaited(is_standby, refusal) {
                    return Err(refusal);
                }
            }
        }
        file.wait();
    }
    Err(SystemRefusal::Passed)
}

/// Whether a file that was refused so is tried again.
fn is_awaited(is_standby: bool, refusal: SystemRefusal) -> bool
    ensures { is_standby ≡ true → refusal ≡ Locked → result ≡ true }
{
    is_standby && matches!(refusal, SystemRefusal::Locked | SystemRefusal::Passed)
}

/// The fault of a journal's file that isn't had, for this reason.
pub(crate) fn refused_journal(alloc: Global, path: &str, refusal: SystemRefusal) -> CommandFault
    ensures { (detail : Detail) × (result ≡ CommandFault.Trial (TrialFault.File detail)) }
{
    CommandFault::Trial(TrialFault::File(Detail::of(alloc, path, &refusal)))
}
