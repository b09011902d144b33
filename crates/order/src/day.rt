//! A day, by which the batches of that day are looked for.

ghost use Rattle.std.specs.Prelude.{◌≡◌};
ghost use Rattle.std.specs.Ordering.{nat_cmp};
ghost use Rattle.std.specs.Cmp.{nat_cmp_total};
ghost use Rattle.order.specs.Among.{from_total, led_placed, then_leads};
ghost use Rattle.order.specs.Wide.{Wide, DaysWorked};

use crate::keys::{KeyOrder, Placing, Query};
use crate::stamp::BatchStamp;
use std::cmp::Ordering;
use std::fmt;

/// A day. Every stamp of it compares as the same, and stamps of one day may differ, so it does not stand at one place among stamps.
#[derive(Clone, Copy, PartialEq, Eq, Debug)]
pub struct Day {
    pub day: u32,
}

impl Placing<BatchStamp> for Day {
    ghost places = { λ q k. nat_cmp q.day k.day };

    fn place(&self, key: &BatchStamp) -> Ordering {
        self.day.cmp(&key.day)
    }
}

impl Query<BatchStamp> for Day {
    ghost placed = { led_placed (from_total nat_cmp_total) (λ q. q.day) (λ k. k.day) (λ a b. then_leads (nat_cmp a.day b.day) (nat_cmp a.number b.number)) };
}

impl From<u32> for Day {
    ghost from_gives = { λ number day. day.day ≡ number };

    fn from(number: u32) -> Day {
        Day { day: number }
    }
}

impl fmt::Display for Day {
    fn fmt<W: fmt::Write>(&self, f: &mut fmt::Formatter<W>) -> fmt::Result {
        write!(f, "day {}", self.day)
    }
}

/// With a day just the stamps of that day compare as the same, and some two of them differ, so it does not stand at one place. A worked search finds the first stamp of a day.
pub fn day_stands()
    ensures wide { Wide ⟦<BatchStamp as KeyOrder>⟧.compares ⟦<Day as Placing<BatchStamp>>⟧.places (λ q k. k.day ≡ q.day) }
    ensures worked { DaysWorked ⟦<Day as Placing<BatchStamp>>⟧.places }
{}
