//! Laws over a station and all its gates, each the contract of a call that does nothing.
ghost use Rattle.std.specs.Prelude.{ℕ, Bool};
ghost use Rattle.reply_book.specs.Tables.{Tables};
ghost use Rattle.gate_law.specs.Whole.{Whole};
ghost use Rattle.gate_law.specs.WholeAgreement.{DoAllAgree, IsEachARun};
ghost use Rattle.gate_law.specs.GivenUp.{IsEachGivenUpForGood};
ghost use Rattle.gate_law.specs.WholeWeaker.{AnybodySends, EntersUnsynced, RefusesForNothing};
ghost use Rattle.gate_law.specs.WholeWeaker.{TellsAnything, HearsUnwrittenFault, GateLoses};
ghost use Rattle.gate_law.specs.WholeWeaker.{GateOpensIdle, GateOpensAgain, StationLoses};
ghost use Rattle.gate_law.specs.WholeWeaker.{StationOpensAnother, AreWeaker, DoesBreak};
ghost use Rattle.gate_law.specs.WholeWeaker.{DoesComeBack};
ghost use Rattle.gate_law.specs.Machine.{IsEachStepAtomic, IsEachRunOfMachine};

/// Whatever gates and their station do, in whatever order, and whatever is lost between them or by
/// crashes: each gate that has its number to itself agrees with the station, the station's journal
/// has each touch of which the gate's caller was told that it is done, and the caller is never told
/// a conflict.
///
/// It is a law over steps. What it rests on beside them is in `specs/Premises.antt`, by name.
pub fn every_gate_agrees()
    ensures { DoAllAgree }
{}

/// What a gate and its station do in a run of all gates is a run of the law over one gate
/// (`gate_and_station_agree`): what the other gates do is there what somebody else sends, or
/// nothing.
pub fn each_gate_is_a_run()
    ensures { IsEachARun }
{}

/// What a gate that has its number to itself has given up is left alone, whatever gates and station
/// do then: it stays given up through each crash, no more of it is told to the caller, neither a
/// reply nor a fault, and the gate doesn't send it again.
pub fn gates_leave_what_they_gave_up()
    ensures { IsEachGivenUpForGood }
{}

/// Gates and their station are one account machine, which is asked one touch at a time and gives
/// its reply at once.
///
/// Each step is one `ask(gate, touch) → reply` of that machine, or changes nothing of it. So after
/// every run the history is the machine's: each touch with the account's judgement after the
/// touches before it. What a gate's caller was told is a part of the replies that the machine gave
/// to that gate, and these reply to the touches in the gate's file in their order, to all of them
/// or to all but the last, which waits. To a touch that the gate has given up the machine gave a
/// reply or none, at any place.
pub fn one_machine_answers()
    ensures atomic { IsEachStepAtomic }
    ensures runs { IsEachRunOfMachine }
{}

/// Each condition of a step that the law over one gate doesn't have is needed: with a step beside
/// the others that lacks it, some run ends where not all agree, or where a fault was told of what
/// was given up. That is so by any fare tables. `none_is_idle` has the conditions that both laws
/// have.
pub fn no_condition_is_idle()
    // Each of these steps is a step of the law, but for what it lacks.
    ensures weaker { (alone : ℕ → Bool) (cards : ℕ) (old new : Whole)
        → AreWeaker alone cards old new }

    // What a crash leaves.
    ensures gate_loses { (tables : Tables) → DoesBreak tables (λ cards. GateLoses) }
    ensures station_loses { (tables : Tables) → DoesBreak tables (λ cards. StationLoses) }
    ensures unsynced { (tables : Tables) → DoesBreak tables EntersUnsynced }
    ensures opens_idle { (tables : Tables) → DoesBreak tables (λ cards. GateOpensIdle) }
    ensures opens_again { (tables : Tables) → DoesComeBack tables (λ cards. GateOpensAgain) }
    ensures another_journal { (tables : Tables) → DoesBreak tables StationOpensAnother }

    // That each fault has its cause, and was written.
    ensures for_nothing { (tables : Tables) → DoesBreak tables (λ cards. RefusesForNothing) }
    ensures anything { (tables : Tables) → DoesBreak tables (λ cards. TellsAnything) }
    ensures unwritten { (tables : Tables) → DoesBreak tables (λ cards. HearsUnwrittenFault) }

    // That a gate has its number to itself.
    ensures alone { (tables : Tables) → DoesBreak tables (λ cards. AnybodySends) }
{}
