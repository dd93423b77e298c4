//! What follows of the definitions.

ghost use Rattle.aea_uploads.specs.Laws.{RunsAreParts, KeepsMore, KeptAreHeld, FilledAreTheMachines, LastIsTheMachines, FilledAreCounted, ClosedAreParts, ClosedAreNext};

/// The longest runs of nodes are the parts of an object.
pub fn runs_are_parts()
    ensures { RunsAreParts }
{}

/// A slot keeps what it kept where blocks are woven after those that there are.
pub fn kept_with_more()
    ensures { KeepsMore }
{}

/// The blocks of an upload that a slot keeps are where the machine has them.
pub fn kept_are_held()
    ensures { KeptAreHeld }
{}

/// The blocks that a chunk fills are those of the machine.
pub fn filled_are_the_machines()
    ensures { FilledAreTheMachines }
{}

/// The last block of an upload is that of the machine.
pub fn last_is_the_machines()
    ensures { LastIsTheMachines }
{}

/// How many blocks a chunk fills, and whether there is a last one, follows from the number of bytes in the rest.
pub fn filled_are_counted()
    ensures { FilledAreCounted }
{}

/// The parts of an upload that is closed are those that a ledger takes.
pub fn closed_are_parts()
    ensures { ClosedAreParts }
{}

/// The record of an upload that is closed is the next one of a ledger.
pub fn closed_are_next()
    ensures { ClosedAreNext }
{}
