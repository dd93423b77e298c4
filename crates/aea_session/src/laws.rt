//! Laws of sessions.

ghost use Rattle.aea_session.specs.Traces.{ServedAreAfter, ServedInTwo, ServedAsOne};

use aea_disk::Disk;

/// After messages that were taken the session keeps the state of the machine after these messages.
pub fn served_are_after<D: Disk>()
    ensures { ServedAreAfter D.reveals D.state }
{}

/// Messages that were taken were taken in two parts.
pub fn served_in_two<D: Disk>()
    ensures { ServedInTwo D.reveals D.state }
{}

/// Messages that were taken in two parts were taken as one.
pub fn served_as_one<D: Disk>()
    ensures { ServedAsOne D.reveals D.state }
{}
