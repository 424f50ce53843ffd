//! Laws over a gate and its station, each the contract of a call that does nothing.

ghost use Rattle.std.specs.Prelude.{ℕ};
ghost use Rattle.reply_book.specs.Tables.{Tables};
ghost use Rattle.gate_session.specs.declared.request.Request.{Request};
ghost use Rattle.gate_session.specs.declared.answer.Answer.{Answer};
ghost use Rattle.gate_law.specs.Joint.{Joint};
ghost use Rattle.gate_law.specs.Agreement.{DoGateAndStationAgree};
ghost use Rattle.gate_law.specs.GivenUp.{IsGivenUpForGood};
ghost use Rattle.gate_law.specs.Lines.{DoLinesBringRequests, DoLinesBringAnswers, AreByLine};
ghost use Rattle.gate_law.specs.Weaker.{AsksOutOfTurn, AsksByAnyNumber, AsksForAnother};
ghost use Rattle.gate_law.specs.Weaker.{GivesUpAgain, GivesUpAnother, OpensIdle, OpensAgain};
ghost use Rattle.gate_law.specs.Weaker.{HearsAnyNumber, HearsAnyGate, HearsUnasked};
ghost use Rattle.gate_law.specs.Weaker.{EntersUnsent, HearsUnwritten, AnybodySends};
ghost use Rattle.gate_law.specs.Weaker.{OpensAnother};
ghost use Rattle.gate_law.specs.Weaker.{RestartsAnother, RestartsByOthers, EntersUnjudged};
ghost use Rattle.gate_law.specs.Weaker.{AreUnlike, AreWeaker, DoesBreak, DoesComeBack};

/// Whatever a gate and its station do, in whatever order, and whatever is lost between them or by
/// a crash of either: what the gate keeps, what its caller was told and what stands in the
/// station's history agree.
///
/// It is a law over steps. What it rests on beside them stands in `specs/Premises.antt`, by name.
pub fn gate_and_station_agree()
    ensures { DoGateAndStationAgree }
{}

/// What the gate has given up is left alone, whatever happens then: it stays given up, no more of
/// it is told to the caller, and the gate doesn't send it again. The station may have read it
/// before, and may read an earlier copy of it later: at most once (`gate_and_station_agree`).
pub fn a_gate_leaves_what_it_gave_up()
    ensures { IsGivenUpForGood }
{}

/// Each condition under which the gate keeps a touch, gives it up or takes a reply is needed, and
/// so is each premise: with a step beside the others that lacks it, some run ends where gate and
/// station don't agree, or where what was given up was told. That is so by any fare tables; of an
/// opening with others, where those judge two touches of a gate otherwise.
pub fn none_is_idle()
    // Each of these steps is a step of the law, but for what it lacks.
    ensures weaker { (gate cards : ℕ) (old new : Joint) → AreWeaker gate cards old new }

    // What the gate does.
    ensures out_of_turn { (tables : Tables) → DoesBreak tables (λ gate cards. AsksOutOfTurn gate) }
    ensures any_number { (tables : Tables) → DoesBreak tables (λ gate cards. AsksByAnyNumber gate) }
    ensures for_another { (tables : Tables) → DoesBreak tables (λ gate cards. AsksForAnother) }
    ensures gives_up_again { (tables : Tables) → DoesBreak tables (λ gate cards. GivesUpAgain) }
    ensures gives_up_another { (tables : Tables) → DoesBreak tables (λ gate cards. GivesUpAnother) }
    ensures opens_idle { (tables : Tables) → DoesBreak tables (λ gate cards. OpensIdle) }
    ensures opens_again { (tables : Tables) → DoesComeBack tables (λ gate cards. OpensAgain) }
    ensures another_number { (tables : Tables) → DoesBreak tables (λ gate cards. HearsAnyNumber) }
    ensures another_gate { (tables : Tables) → DoesBreak tables (λ gate cards. HearsAnyGate) }
    ensures unasked { (tables : Tables) → DoesBreak tables (λ gate cards. HearsUnasked) }

    // The premises.
    ensures line_to_station { (tables : Tables)
        → DoesBreak tables (λ gate cards. EntersUnsent cards) }
    ensures line_to_gate { (tables : Tables) → DoesBreak tables (λ gate cards. HearsUnwritten) }
    ensures alone { (tables : Tables) → DoesBreak tables (λ gate cards. AnybodySends) }
    ensures gates_journal { (tables : Tables) → DoesBreak tables (λ gate cards. OpensAnother) }
    ensures stations_journal { (tables : Tables)
        → DoesBreak tables (λ gate cards. RestartsAnother cards) }
    ensures same_tables { (tables others : Tables) → AreUnlike tables others
        → DoesBreak tables (λ gate cards. RestartsByOthers cards) }
    ensures lock { (tables : Tables) → DoesBreak tables (λ gate cards. EntersUnjudged) }
{}

/// Where one side of a line reads a beginning of the bytes that the other wrote, whole frames of
/// which the last may be cut off: what it read is the first of what was written, as many as it
/// read. So each was written before, which is the premise Line.
pub fn lines_bring_the_first()
    ensures requests { DoLinesBringRequests }
    ensures answers { DoLinesBringAnswers }
    ensures line_of_requests { AreByLine Request }
    ensures line_of_answers { AreByLine Answer }
{}
