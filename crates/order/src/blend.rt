//! The number of a blend.
ghost use Rattle.std.specs.Prelude.{◌≡◌};
ghost use Rattle.std.specs.Ordering.{nat_cmp};
ghost use Rattle.std.specs.Cmp.{nat_cmp_total, on_total};
ghost use Rattle.order.specs.Among.{from_total};

use crate::keys::KeyOrder;
use std::cmp::Ordering;
use std::fmt;

#[repr(C)]
#[derive(Clone, Copy, PartialEq, Eq, PartialOrd, Ord, Debug)]
pub struct BlendNumber {
    pub number: u32,
}

impl KeyOrder for BlendNumber {
    ghost compares = { λ a b. nat_cmp a.number b.number };

    ghost ordered = { from_total (on_total (λ b. b.number) nat_cmp_total) };

    fn compare(&self, other: &Self) -> Ordering {
        self.cmp(other)
    }
}

impl From<u32> for BlendNumber {
    ghost from_gives = { λ number blend. blend.number ≡ number };

    fn from(number: u32) -> BlendNumber {
        BlendNumber { number }
    }
}

impl fmt::Display for BlendNumber {
    fn fmt<W: fmt::Write>(&self, f: &mut fmt::Formatter<W>) -> fmt::Result {
        write!(f, "{}", self.number)
    }
}
