//! Laws over the answers of a desk and the turns of a station, each the contract of a call that
//! does nothing.
ghost use Rattle.clerk_calls.specs.Answered.{DoSessionsFollow};
ghost use Rattle.clerk_calls.specs.Schedules.{AreSchedulesRuns, DoesServerAgree};

/// What a desk said in one session, and then in another one, it said one after the other: so there
/// is one list of all that a desk said.
pub fn sessions_follow_one_another()
    ensures { DoSessionsFollow }
{}

/// The turns of a station, each right by a legal log when it comes, are one run of the steps of all
/// gates and their station (`gate_law`), whatever the gates do between them: the station has the
/// whole log after it, and has written the answers of the turns.
///
/// That each touch was sent before the station enters or refuses it is the premise Line. The other
/// steps of the gates are any run that leaves the station alone.
pub fn schedules_are_runs()
    ensures runs { AreSchedulesRuns }

    // So all gates agree with the station after it, as after every run (`every_gate_agrees`).
    ensures agree { DoesServerAgree }
{}
