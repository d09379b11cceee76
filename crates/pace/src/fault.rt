// What a pace refuses.
ghost use Rattle.pace.specs.declared.fault.QuantumFault.TheVariants as quantum;
ghost use Rattle.std.specs.Prelude.{◌≡◌};
ghost use Rattle.pace.specs.declared.fault.StepFault.TheVariants as step;
ghost use Rattle.pace.specs.Refusals.{quantum_fault_code, step_fault_code};

use source::fault::OutOfRange;
pub use source::fault::UnknownClass;
use source::refusal::{Code, Refused};

// Why a quantum was not set: its class is above 7, or it is not from 1 to 1,000,000.
#[derive(Clone, Copy, PartialEq, Eq, Debug)]
pub enum QuantumFault {
    Class(UnknownClass),
    Range,
}

// Written out, as are those below, so that contracts know which fault `?` makes.
impl From<UnknownClass> for QuantumFault {
    ghost from_gives = { λ u r. r ≡ quantum.Class u };

    fn from(fault: UnknownClass) -> QuantumFault {
        QuantumFault::Class(fault)
    }
}

impl From<OutOfRange> for QuantumFault {
    ghost from_gives = { λ _ r. r ≡ quantum.Range };

    fn from(_fault: OutOfRange) -> QuantumFault {
        Self::Range
    }
}

impl Refused for QuantumFault {
    ghost refusal = { quantum_fault_code };

    fn code(&self) -> Code {
        match self {
            QuantumFault::Class(unknown) => unknown.code(),
            QuantumFault::Range => Code::Range,
        }
    }
}

// Why a step was not added: its class is above 7; the first wait of a class is not from 1 to 1,000,000, or a later
// one passes the horizon; or it is the seventeenth of its class, below the first doubled as often as its epoch says,
// or not for the next epoch.
#[derive(Clone, Copy, PartialEq, Eq, Debug)]
pub enum StepFault {
    Class(UnknownClass),
    Range,
    Order,
}

impl From<UnknownClass> for StepFault {
    ghost from_gives = { λ u r. r ≡ step.Class u };

    fn from(fault: UnknownClass) -> StepFault {
        StepFault::Class(fault)
    }
}

impl Refused for StepFault {
    ghost refusal = { step_fault_code };

    fn code(&self) -> Code {
        match self {
            StepFault::Class(unknown) => unknown.code(),
            StepFault::Range => Code::Range,
            StepFault::Order => Code::Step,
        }
    }
}
