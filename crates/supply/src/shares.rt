//! A supply shared by two callers, each with a limit of its own, who are served by turns.

ghost use Rattle.std.specs.Prelude.{◌≡◌, ◌≤◌, length, take};
ghost use Rattle.supply.specs.Stocks.{size_of, kept_size, marked};
ghost use Rattle.supply.specs.Shares.{BelowSize, Lent, Divided};

use crate::callers::Caller;
use crate::{Fault, MOST, Supply, kept_size};

/// What one caller may have out and has: a limit, how many numbers, and which.
#[derive(Clone, Copy)]
pub struct Share {
    pub limit: u16,
    pub out: u16,
    pub marks: [bool; MOST as usize],
}

impl Share {
    ghost use Rattle.std.specs.Prelude.{◌≡◌, false, replicate};

    /// A share of which nothing is out.
    fn unused(limit: u16) -> Share
        ensures limit { result.limit ≡ limit }
        ensures out { result.out ≡ 0 }
        ensures marks { result.marks ≡ replicate 4096 false }
    {
        Share {
            limit,
            out: 0,
            marks: [false; MOST as usize],
        }
    }
}

/// A supply of which one caller is served at a time. What is out is then that caller's.
#[derive(Drop)]
pub struct Shares<S: Supply> {
    below: S,
    size: u16,
    caller: Caller,
    served: Share,
    other: Share,
    ghost sized: { size ≡ kept_size (size_of (S.stock below)) },
    ghost served_low: { BelowSize size served.marks },
    ghost served_lent: { Lent (S.stock below) served.marks },
    ghost served_count: { served.out ≡ marked (take size served.marks) },
    ghost served_few: { served.out ≤ served.limit },
    ghost other_low: { BelowSize size other.marks },
    ghost other_lent: { Lent (S.stock below) other.marks },
    ghost other_count: { other.out ≡ marked (take size other.marks) },
    ghost other_few: { other.out ≤ other.limit },
    ghost served_wide: { length served.marks ≡ 4096 },
    ghost other_wide: { length other.marks ≡ 4096 },
    ghost divided: { Divided served.marks other.marks },
}

impl<S: Supply> Shares<S> {
    ghost use Rattle.std.specs.Prelude.{ℕ, ◌<◌};
    ghost use Rattle.supply.specs.Callers.{caller_number};
    ghost use Rattle.supply.specs.Shares.{share_stock, share_for, unshared};
    ghost use Rattle.supply.specs.declared.callers.Caller.TheVariants as Caller;

    /// Two callers with these limits over a supply, the first of them served. Nothing is out of either share. Over a supply of more
    /// than `MOST` numbers the size and the allowance are 0.
    pub fn new(below: S, first: u16, second: u16) -> Shares<S>
        ensures below { result.below ≡ below }
        ensures caller { result.caller ≡ Caller.First }
        ensures first { share_stock (S.stock result.below) result.size 0 result.served.limit result.served.marks result.other.limit result.other.marks ≡ unshared (S.stock below) 0 first second }
        ensures second { share_stock (S.stock result.below) result.size 1 result.other.limit result.other.marks result.served.limit result.served.marks ≡ unshared (S.stock below) 1 second first }
    {
        let size = kept_size(below.size());
        Shares {
            below,
            size,
            caller: Caller::First,
            served: Share::unused(first),
            other: Share::unused(second),
        }
    }

    /// The caller that is served.
    pub fn caller(&self) -> Caller
        ensures { result ≡ self.now.caller }
    {
        self.caller
    }

    /// Serves this caller. What is out of either share stays, and so does the supply below.
    pub fn turn(&mut self, caller: Caller)
        ensures caller { self.new.caller ≡ caller }
        ensures below { self.new.below ≡ self.old.below }
        ensures kept { let s = self.old in let t = self.new in (n : ℕ) → n < 2 → share_for (S.stock t.below) t.size (caller_number t.caller) t.served.limit t.served.marks t.other.limit t.other.marks n ≡ share_for (S.stock s.below) s.size (caller_number s.caller) s.served.limit s.served.marks s.other.limit s.other.marks n }
    {
        if self.caller != caller {
            let share = self.served;
            self.served = self.other;
            self.other = share;
            self.caller = caller;
        }
    }
}

impl<S: Supply> Supply for Shares<S> {
    ghost use Rattle.std.specs.Prelude.{◌≡◌, MatchResult};
    ghost use Rattle.supply.specs.Stocks.{Taken, GivenBack, Given, Returned};
    ghost use Rattle.supply.specs.Shares.{share_stock};
    ghost use Rattle.supply.specs.ShareLaws.{shares_sound};
    ghost use Rattle.supply.specs.Callers.{caller_number};

    ghost stock = { λ s. share_stock (S.stock s.below) s.size (caller_number s.caller) s.served.limit s.served.marks s.other.limit s.other.marks };

    ghost sound = { λ s. shares_sound (S.stock s.below) s.size (caller_number s.caller) s.served.limit s.served.marks s.other.limit s.other.marks (S.sound s.below) s.sized s.served_lent s.other_lent s.divided s.served_wide };

    /// Takes a number from the supply below, for the caller that is served.
    fn take(&mut self) -> Result<u16, Fault>
        ensures taken { let s = self.old in let t = self.new in Taken (share_stock (S.stock s.below) s.size (caller_number s.caller) s.served.limit s.served.marks s.other.limit s.other.marks) (share_stock (S.stock t.below) t.size (caller_number t.caller) t.served.limit t.served.marks t.other.limit t.other.marks) result }
        ensures below { MatchResult result (Given (S.stock self.old.below) (S.stock self.new.below)) (λ _. self.new ≡ self.old) }
    {
        if self.allowance() == 0 {
            return Err(Fault::NONE_LEFT);
        }
        let node = self.below.take()?;
        self.served.marks[node as usize] = true;
        self.served.out += 1;
        Ok(node)
    }

    /// Gives a number back to the supply below. Refuses, with nothing changed there either, a number that the caller that is served has not out.
    fn give_back(&mut self, node: u16) -> Result<(), Fault>
        ensures given { let s = self.old in let t = self.new in GivenBack (share_stock (S.stock s.below) s.size (caller_number s.caller) s.served.limit s.served.marks s.other.limit s.other.marks) (share_stock (S.stock t.below) t.size (caller_number t.caller) t.served.limit t.served.marks t.other.limit t.other.marks) node result }
        ensures below { MatchResult result (λ _. Returned (S.stock self.old.below) (S.stock self.new.below) node) (λ _. self.new ≡ self.old) }
    {
        if !self.is_out(node) {
            return Err(Fault::Breach);
        }
        self.below.give_back(node)?;
        self.served.marks[node as usize] = false;
        self.served.out -= 1;
        Ok(())
    }

    fn size(&self) -> u16 {
        self.size
    }

    fn allowance(&self) -> u16 {
        if self.size == 0 {
            return 0;
        }
        (self.served.limit - self.served.out).min(self.below.allowance())
    }

    fn is_out(&self, node: u16) -> bool {
        node < self.size && self.served.marks[node as usize]
    }

    fn out_count(&self) -> u16 {
        self.served.out
    }
}
