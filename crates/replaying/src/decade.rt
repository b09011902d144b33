//! A decade of numbers. Among blends it is what a day is among batches: the same as each of the numbers that it begins.

ghost use Rattle.std.specs.Prelude.{◌≡◌, ◌/◌};
ghost use Rattle.std.specs.Ordering.{nat_cmp};
ghost use Rattle.std.specs.Cmp.{nat_cmp_total};
ghost use Rattle.order.specs.Among.{from_total, led_placed};
ghost use Rattle.order.specs.Wide.{Wide};
ghost use Rattle.replaying.specs.Decades.{tens_lead};

use order::blend::BlendNumber;
use order::keys::{KeyOrder, Placing, Query};
use std::cmp::Ordering;

/// Ten numbers in a row, of which the first is ten times `tens`.
#[derive(Clone, Copy, PartialEq, Eq, Debug)]
pub struct Decade {
    pub tens: u32,
}

impl Placing<BlendNumber> for Decade {
    ghost places = { λ q k. nat_cmp q.tens (k.number / 10) };

    fn place(&self, key: &BlendNumber) -> Ordering {
        self.tens.cmp(&(key.number / 10))
    }
}

impl Query<BlendNumber> for Decade {
    ghost placed = { led_placed (from_total nat_cmp_total) (λ q. q.tens) (λ k. k.number / 10) (λ a b. tens_lead a.number b.number) };
}

/// A decade is the same as each number that it begins and as no other, so it does not stand at one place.
pub fn decade_stands()
    ensures { Wide ⟦<BlendNumber as KeyOrder>⟧.compares ⟦<Decade as Placing<BlendNumber>>⟧.places (λ q k. k.number / 10 ≡ q.tens) }
{}
