//! A law of the audit, the contract of a call that does nothing.

ghost use Rattle.journal_audit.specs.Laws.{HasNoCauseAlone};

/// A sound journal has no cause for which [`audit_journal`](crate::audit_journal) refuses it: where
/// the bytes are a journal, of the first table where tables are named, its touches can be entered,
/// its header says what is expected of it, and it still begins with the touches of the seal, they
/// are refused for want of memory alone.
pub fn a_journal_has_no_cause_alone()
    ensures { HasNoCauseAlone }
{}
