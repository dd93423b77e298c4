//! Laws of the machine.

ghost use Rattle.aea_machine.specs.Closings.{ClosedArePlaced, ClosingsGoOn, ClosedRecordsJoin};
ghost use Rattle.aea_machine.specs.Holding.{UploadsHold, NoneHold, ClosedAreHeld, ClosedAreRead};
ghost use Rattle.aea_machine.specs.Runs.{RunsAreLongest};
ghost use Rattle.aea_machine.specs.Solo.{RefusalsStay, AsksStay, SlotsStay, SlotsStandAlone};
ghost use Rattle.aea_machine.specs.Sound.{NamesStayOwn, LimitsStay, StoredStay, NoneHaveNames};

/// A refusal leaves the state.
pub fn refusals_stay()
    ensures { RefusalsStay }
{}

/// A message whose answer asks for blocks leaves the state, whatever they are.
pub fn asks_stay()
    ensures { AsksStay }
{}

/// There are as many slots after each message.
pub fn slots_stay()
    ensures { SlotsStay }
{}

/// What a slot holds after messages is what its own make of it, whatever stands between them.
pub fn slots_stand_alone()
    ensures { SlotsStandAlone }
{}

/// At the beginning no slot has a name.
pub fn none_have_names()
    ensures { NoneHaveNames }
{}

/// The uploads have names of their own after each message.
pub fn names_stay_own()
    ensures { NamesStayOwn }
{}

/// The limits are kept by each message.
pub fn limits_stay()
    ensures { LimitsStay }
{}

/// No message takes away what is stored.
pub fn stored_stay()
    ensures { StoredStay }
{}

/// The blocks of each upload stand at its nodes, after each message.
pub fn uploads_hold()
    ensures { UploadsHold }
{}

/// At the beginning there is no upload whose blocks are to stand anywhere.
pub fn none_hold()
    ensures { NoneHold }
{}

/// The parts of an object are the longest runs of its nodes, and have as many.
pub fn runs_are_longest()
    ensures { RunsAreLongest }
{}

/// An object that is closed stands in its parts.
pub fn closed_are_held()
    ensures { ClosedAreHeld }
{}

/// What is read under the name of an upload that is closed are its bytes.
pub fn closed_are_read()
    ensures { ClosedAreRead }
{}

/// What the catalogue keeps of an upload that is closed is what the machine keeps.
pub fn closed_are_placed()
    ensures { ClosedArePlaced }
{}

/// The closes of messages and of one more are those of the messages, and that of the last.
pub fn closings_go_on()
    ensures { ClosingsGoOn }
{}

/// Records of closes, and of closes behind them, are those of all.
pub fn closed_records_join()
    ensures { ClosedRecordsJoin }
{}
