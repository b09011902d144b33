//! Why a call of a bank is refused.

use std::error::Error;
use std::fmt;
use supply::Fault;

/// The reasons, in the order in which they are checked.
#[derive(Clone, Copy, PartialEq, Eq, Debug)]
pub enum Refusal {
    /// There is no such caller.
    Caller,
    /// The tables do not fit together, or are not of the bank's size.
    Tables,
    /// The supply is of another size than the tables, or a number is out.
    Supply,
    /// There is no such place.
    Place,
    /// What stands in the place does not allow the call.
    Kind,
    /// The tables, the register or the supply are not in good form.
    Breach,
    /// More nodes are needed than the supply allows.
    Short { needed: u16, allowance: u16 },
}

impl Refusal {
    ghost use Rattle.std.specs.Prelude.{◌≡◌};
    ghost use Rattle.calls.specs.Refusals.{code};

    /// The number that stands for it.
    pub fn number(self) -> u16
        ensures { result ≡ (code self).0 }
    {
        match self {
            Refusal::Caller => 10,
            Refusal::Tables => 1,
            Refusal::Supply => 2,
            Refusal::Place => 3,
            Refusal::Kind => 4,
            Refusal::Breach => 5,
            Refusal::Short { .. } => 6,
        }
    }
}

impl From<Fault> for Refusal {
    ghost use Rattle.std.specs.Prelude.{◌≡◌};
    ghost use Rattle.calls.specs.Refusals.{code};
    ghost use Rattle.calls.specs.Faults.{fault_code};

    ghost from_gives = { λ f e. code e ≡ fault_code f };

    fn from(fault: Fault) -> Refusal {
        match fault {
            Fault::Breach => Refusal::Breach,
            Fault::Short { needed, allowance } => Refusal::Short { needed, allowance },
        }
    }
}

impl fmt::Display for Refusal {
    fn fmt<W: fmt::Write>(&self, f: &mut fmt::Formatter<W>) -> fmt::Result {
        write!(f, "refused {}", self.number())?;
        match self {
            Refusal::Short { needed, allowance } => write!(f, " {needed} {allowance}"),
            _ => Ok(()),
        }
    }
}

impl Error for Refusal {}
