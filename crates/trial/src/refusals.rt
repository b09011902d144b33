//! Why a list is refused.

ghost use Rattle.std.specs.Prelude.{◌≡◌};

use std::error::Error;
use std::fmt;

/// The list is not each number below its length once, or is too long.
#[derive(Clone, Copy, PartialEq, Eq, Debug)]
pub struct WrongOrder;

impl WrongOrder {
    /// The number that stands for it, in one row with the refusals of a bank.
    pub fn number(self) -> u16
        ensures { result ≡ 12 }
    {
        12
    }
}

impl fmt::Display for WrongOrder {
    fn fmt<W: fmt::Write>(&self, f: &mut fmt::Formatter<W>) -> fmt::Result {
        write!(f, "refused {}", self.number())
    }
}

impl Error for WrongOrder {}
