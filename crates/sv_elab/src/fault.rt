//! The faults of the walk, among all faults of a design.

ghost use Rattle.std.specs.Prelude.{◌≡◌, true};
ghost use Rattle.sv_elab.specs.Faults.{is_of_walk};

use elab_parts::{Counted, Stop};
use sv_names::DesignFault;
use vs_base::Kind;

/// The fault that elaboration tells.
pub fn told(stop: Stop) -> DesignFault
    ensures { is_of_walk result ≡ true }
{
    match stop {
        Stop::TooWide(at) => DesignFault::TooWide(at),
        Stop::BadRange(at) => DesignFault::BadRange(at),
        Stop::BadEvent(at, name) => DesignFault::BadEvent(at, name),
        Stop::LoopTurns(at) => DesignFault::LoopTurns(at),
        Stop::TooMany(Counted::Instances) => DesignFault::TooMany(Kind::Instances),
        Stop::TooMany(Counted::Processes) => DesignFault::TooMany(Kind::Processes),
        Stop::TooMany(Counted::Terms) => DesignFault::TooMany(Kind::Terms),
        Stop::TooMany(Counted::Calls) => DesignFault::TooMany(Kind::Calls),
        Stop::NoMemory => DesignFault::NoMemory,
    }
}
