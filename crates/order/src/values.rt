//! What is kept under a key.

use crate::blend::BlendNumber;
use std::fmt;

/// A batch: its blend, its weight and the hopper that it went into.
#[derive(Clone, Copy, PartialEq, Eq, Debug)]
pub struct BatchRecord {
    pub blend: BlendNumber,
    pub grams: u32,
    pub hopper: u8,
}

/// How much of a lot goes into a blend.
#[derive(Clone, Copy, PartialEq, Debug)]
pub enum Dose {
    Kilograms(f64),
    Share(f64),
    Chests(u64),
}

impl fmt::Display for BatchRecord {
    fn fmt<W: fmt::Write>(&self, f: &mut fmt::Formatter<W>) -> fmt::Result {
        write!(
            f,
            "blend {}, {} g, hopper {}",
            self.blend, self.grams, self.hopper
        )
    }
}

impl fmt::Display for Dose {
    fn fmt<W: fmt::Write>(&self, f: &mut fmt::Formatter<W>) -> fmt::Result {
        match self {
            Dose::Kilograms(weight) => write!(f, "{weight} kg"),
            Dose::Share(share) => write!(f, "share {share}"),
            Dose::Chests(count) => write!(f, "{count} chests"),
        }
    }
}
