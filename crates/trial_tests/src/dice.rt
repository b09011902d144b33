//! Numbers that come by no order, the same in each run, and calls made of them.

use crate::desk::{Ask, close, count, cut, insert, lookup, next, next_back, open, release};

/// A generator of numbers (xorshift).
#[derive(Drop)]
pub struct Dice {
    state: u32,
}

impl Dice {
    ghost use Rattle.std.specs.Prelude.{◌<◌};

    pub fn new() -> Dice {
        Dice { state: 0x9E37_79B9 }
    }

    /// A number below `n`; 0 where `n` is 0.
    pub fn below(&mut self, n: u32) -> u32
        ensures { 0 < n → result < n }
    {
        let mut x = self.state;
        x ^= x << 13;
        x ^= x >> 17;
        x ^= x << 5;
        self.state = x;
        if n == 0 {
            return 0;
        }
        (x >> 8) % n
    }

    /// Any call on one of four places.
    pub fn call(&mut self) -> Ask {
        let place = self.below(4) as usize;
        let key = self.below(400);
        match self.below(100) {
            0 | 1 => cut(place, self.below(4) as usize, key),
            2 => release(place),
            3 => open(place),
            4 | 5 | 6 | 7 | 8 | 9 => close(place),
            10 | 11 => lookup(place, key),
            12 => count(place),
            13 | 14 | 15 => next(place),
            16 | 17 | 18 => next_back(place),
            _ => insert(place, key),
        }
    }
}
