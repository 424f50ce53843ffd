//! Which table is in force, in a reader's words, as the contract of a call that does nothing.

ghost use Rattle.fare_schedule.specs.Laws.{IsLastInForce, IsFirstInForce, HasItsDigest};

/// On a fare day the table in force is that of the last revision whose day is at most it. Before
/// the days of all revisions it is the first table. The table of a revision has the revision's
/// digest.
pub fn last_revision_counts()
    ensures last { IsLastInForce }
    ensures first { IsFirstInForce }
    ensures digest { HasItsDigest }
{}
