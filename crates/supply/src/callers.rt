//! The callers of a shared supply.

/// One of two callers.
#[derive(Clone, Copy, PartialEq, Eq, Debug)]
pub enum Caller {
    First,
    Second,
}

impl Caller {
    ghost use Rattle.std.specs.Prelude.{◌≡◌};
    ghost use Rattle.supply.specs.Callers.{caller_number, Numbered};

    /// The caller with this number, if there is one.
    pub fn numbered(number: u16) -> Option<Caller>
        ensures { Numbered number result }
    {
        match number {
            0 => Some(Caller::First),
            1 => Some(Caller::Second),
            _ => None,
        }
    }

    /// The number of the caller.
    pub fn number(self) -> u16
        ensures { result ≡ caller_number self }
    {
        match self {
            Caller::First => 0,
            Caller::Second => 1,
        }
    }
}
