//! The failures that the faults of a session are.

ghost use Rattle.std.specs.Prelude.{◌≡◌};
ghost use Rattle.aea_command_session.specs.Failures.{begin_failure, take_failure, stop_failure};

use aea_command::{Failure, Refusal};
use aea_session::{BeginFault, Stop, TakeFault};

/// The failure where no session was begun.
pub(crate) fn failure_of_begin(fault: BeginFault) -> Failure
    ensures { result ≡ begin_failure fault }
{
    match fault {
        BeginFault::NotUpgraded => Failure::Refused {
            why: Refusal::NotUpgraded,
        },
        BeginFault::HeadDamaged { block } => Failure::Refused {
            why: Refusal::HeadDamaged { block },
        },
        BeginFault::DiskFault => Failure::Disk,
        BeginFault::NoMemory => Failure::Memory,
    }
}

// The failure where a message was not taken.
fn failure_of_take(fault: TakeFault) -> Failure
    ensures { result ≡ take_failure fault }
{
    match fault {
        TakeFault::Damaged { block } => Failure::Refused {
            why: Refusal::Damaged { block },
        },
        TakeFault::DiskFault => Failure::Disk,
        TakeFault::WriteFault => Failure::Output,
        TakeFault::NoMemory => Failure::Memory,
    }
}

/// The failure where the messages ended before the input did.
pub(crate) fn failure_of_stop(stop: Stop) -> Failure
    ensures { result ≡ stop_failure stop }
{
    match stop {
        Stop::BadMessage { at } => Failure::Refused {
            why: Refusal::BadMessage { at },
        },
        Stop::BadStream { at } => Failure::Refused {
            why: Refusal::BadStream { at },
        },
        Stop::TooManyMessages => Failure::Refused {
            why: Refusal::TooManyMessages,
        },
        Stop::Input => Failure::Input,
        Stop::Memory => Failure::Memory,
        Stop::Taken { fault } => failure_of_take(fault),
    }
}
