//! Why the program gives up.
ghost use Rattle.std.specs.Prelude.{◌≡◌};
ghost use Rattle.rds_names.specs.declared.fault.Fault.TheVariants.{Memory};
ghost use Rattle.rds_lines.specs.declared.refusal.Refusal.TheVariants.{Refused};

use rds_names::Fault;
use std::alloc::AllocError;
use thiserror::Error;

/// A fault on its way to the output.
#[derive(Debug, Drop, Error)]
pub enum Refusal {
    #[error("fault {}: {}", .0.number(), .0.name())]
    Refused(Fault),
}

impl Refusal {
    ghost use Rattle.rds_lines.specs.Refusal.{refusal_fault};

    /// The fault.
    pub fn fault(&self) -> Fault
        ensures { result ≡ refusal_fault self.now }
    {
        match self {
            Refusal::Refused(fault) => *fault,
        }
    }
}

impl From<Fault> for Refusal {
    ghost from_gives = { λ fault e. e ≡ Refused fault };

    fn from(fault: Fault) -> Refusal {
        Refusal::Refused(fault)
    }
}

impl From<AllocError> for Refusal {
    ghost from_gives = { λ _ e. e ≡ Refused Memory };

    fn from(_error: AllocError) -> Refusal {
        Refusal::Refused(Fault::Memory)
    }
}
