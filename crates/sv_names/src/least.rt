ghost use Rattle.std.specs.Prelude.{◌≡◌, true};
ghost use Rattle.sv_names.specs.Cause.{is_walked, is_none_or_walked};

use crate::fault::DesignFault;

/// The least fault so far: of the lowest kind, and of a kind the one that was met first. It is one of those that the walk
/// over all modules tells.
#[derive(Clone, Copy)]
pub struct Least {
    fault: Option<DesignFault>,
    ghost walked: { is_none_or_walked fault ≡ true },
}

impl Least {
    /// No fault yet.
    pub fn new() -> Least {
        Least { fault: None }
    }

    /// A fault is met.
    pub fn offer(&mut self, fault: DesignFault)
        requires { is_walked fault ≡ true }
    {
        if let Some(kept) = self.fault
            && rank(kept) <= rank(fault)
        {
            return;
        }
        self.fault = Some(fault);
    }

    /// The least of all that were met.
    pub fn get(&self) -> Option<DesignFault>
        ensures { is_none_or_walked result ≡ true }
    {
        self.fault
    }
}

/// The place of a kind of fault among all. Want of memory ends a walk before anything that it may have missed.
fn rank(fault: DesignFault) -> u8 {
    match fault {
        DesignFault::NoMemory => 0,
        DesignFault::NoTop => 1,
        DesignFault::ManyTops => 2,
        DesignFault::Duplicate(..) => 3,
        DesignFault::UnknownModule(..) => 4,
        DesignFault::SelfInstance(_) => 5,
        DesignFault::UnknownPort(_) => 6,
        DesignFault::UnknownParam(_) => 7,
        DesignFault::UnknownName(..) => 8,
        DesignFault::WrongUse(..) => 9,
        DesignFault::WrongAssign(_) => 10,
        DesignFault::NotConstant(_) => 11,
        DesignFault::BadImport(_) => 12,
        DesignFault::TooWide(_)
        | DesignFault::BadRange(_)
        | DesignFault::BadEvent(..)
        | DesignFault::LoopTurns(_)
        | DesignFault::TooMany(_) => 13,
    }
}
