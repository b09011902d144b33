//! The stamp of a batch: the day, and then the number within the day.

ghost use Rattle.std.specs.Prelude.{◌≡◌};
ghost use Rattle.std.specs.Ordering.{ordering_then, nat_cmp};
ghost use Rattle.std.specs.Cmp.{nat_cmp_total, on_total, then_total};
ghost use Rattle.order.specs.Among.{from_total};

use crate::keys::KeyOrder;
use std::cmp::Ordering;
use std::fmt;

#[derive(Clone, Copy, PartialEq, Eq, PartialOrd, Ord, Debug)]
pub struct BatchStamp {
    pub day: u32,
    pub number: u16,
}

impl KeyOrder for BatchStamp {
    ghost compares = { λ a b. ordering_then (nat_cmp a.day b.day) (nat_cmp a.number b.number) };

    ghost ordered = { from_total (then_total (on_total (λ s. s.day) nat_cmp_total) (on_total (λ s. s.number) nat_cmp_total)) };

    fn compare(&self, other: &Self) -> Ordering {
        self.cmp(other)
    }
}

impl From<(u32, u16)> for BatchStamp {
    ghost from_gives = { λ p stamp. (stamp.day ≡ p.0) × (stamp.number ≡ p.1) };

    fn from((day, number): (u32, u16)) -> BatchStamp {
        BatchStamp { day, number }
    }
}

impl fmt::Display for BatchStamp {
    fn fmt<W: fmt::Write>(&self, f: &mut fmt::Formatter<W>) -> fmt::Result {
        write!(f, "{}/{}", self.day, self.number)
    }
}
