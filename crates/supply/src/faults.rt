//! The one error type of every call.

use std::fmt;

/// Why a call was not carried out.
#[derive(Clone, Copy, PartialEq, Eq, Debug)]
pub enum Fault {
    /// The tables, the register or the supply are not in good form.
    Breach,
    /// More nodes are needed than the supply allows.
    Short { needed: u16, allowance: u16 },
}

impl Fault {
    /// One number is asked for, and none may be taken.
    pub const NONE_LEFT: Fault = Fault::Short {
        needed: 1,
        allowance: 0,
    };
}

impl fmt::Display for Fault {
    fn fmt<W: fmt::Write>(&self, f: &mut fmt::Formatter<W>) -> fmt::Result {
        match self {
            Fault::Breach => write!(f, "breach of good form"),
            Fault::Short { needed, allowance } => write!(f, "{needed} needed, {allowance} allowed"),
        }
    }
}
