//! A supply for trials, which gives unused numbers in the order of a list that its user writes.
#![tactic(auto)]

ghost use Rattle.std.specs.Prelude.{◌≡◌, ◌-◌, ◌<◌, ◌≤◌, false, Decides, ◌++◌, length, replicate, MatchOption, slice_index_or};
ghost use Rattle.supply.specs.Stocks.{Taken, GivenBack};
ghost use Rattle.trial.specs.Orders.{EachOnce, Written, Next, TookNext, order_of, trial_stock};
ghost use Rattle.trial.specs.TrialLaws.{trial_sound};

pub mod refusals;

use crate::refusals::WrongOrder;
use supply::{Fault, MOST, Supply};

/// A number is given where it is the first of the list that is not out: after each take the search begins anew at the head.
#[derive(Drop)]
pub struct Trial {
    size: u16,
    order: [u16; MOST as usize],
    out: [bool; MOST as usize],
    ghost fits: { size ≤ 4096 },
    ghost each: { EachOnce (order_of size order) },
}

/// Whether each number below the length stands in the list, and stands there once.
fn is_each_once(list: &[u16]) -> bool
    requires { length list.now ≤ 4096 }
    ensures { Decides result (EachOnce list.now) }
{
    let mut seen = [false; MOST as usize];
    for node in list {
        let at = *node as usize;
        if at >= list.len() || seen[at] {
            return false;
        }
        seen[at] = true;
    }
    true
}

/// The list, followed by zeros.
fn with_zeros(list: &[u16]) -> [u16; MOST as usize]
    requires { length list.now ≤ 4096 }
    ensures { result ≡ list.now ++ replicate (4096 - length list.now) 0 }
{
    let mut cells = [0; MOST as usize];
    cells[..list.len()].copy_from_slice(list);
    cells
}

impl Trial {
    ghost use Rattle.supply.specs.Stocks.{fresh};

    /// No numbers: a list is to be written first.
    pub fn new() -> Trial
        ensures { trial_stock result.size result.out ≡ fresh 0 }
    {
        Trial {
            size: 0,
            order: [0; MOST as usize],
            out: [false; MOST as usize],
        }
    }

    /// The numbers of a list, none of them out.
    fn begun(list: &[u16]) -> Trial
        requires short { length list.now ≤ 4096 }
        requires each { EachOnce list.now }
        ensures order { order_of result.size result.order ≡ list.now }
        ensures unused { trial_stock result.size result.out ≡ fresh (length list.now) }
    {
        Trial {
            size: list.len() as u16,
            order: with_zeros(list),
            out: [false; MOST as usize],
        }
    }

    /// Begins anew with the numbers of a list, none of them out, to be given in its order. Refuses a list that is not each number
    /// below its length once, or that is longer than `MOST`: then there are no numbers.
    pub fn write(&mut self, list: &[u16]) -> Result<(), WrongOrder>
        ensures { let t = self.new in Written list.now (order_of t.size t.order) (trial_stock t.size t.out) result }
    {
        if list.len() > MOST as usize || !is_each_once(list) {
            *self = Trial::new();
            return Err(WrongOrder);
        }
        *self = Trial::begun(list);
        Ok(())
    }

    /// The first number of the list that is not out.
    fn first_unused(&self) -> Option<u16>
        ensures first { let s = self.now in MatchOption result ((trial_stock s.size s.out).allowance ≡ 0) (Next (order_of s.size s.order) (trial_stock s.size s.out)) }
        ensures unused { let s = self.now in MatchOption result (Unit {0}) (λ n. (n < s.size) × (slice_index_or s.out n false ≡ false)) }
    {
        for node in &self.order[..self.size as usize] {
            if !self.out[*node as usize] {
                return Some(*node);
            }
        }
        None
    }
}

impl Supply for Trial {
    ghost stock = { λ s. trial_stock s.size s.out };

    ghost sound = { λ s. trial_sound s.size s.out s.fits };

    /// The first number of the list that is not out.
    fn take(&mut self) -> Result<u16, Fault>
        ensures taken { let s = self.old in let t = self.new in Taken (trial_stock s.size s.out) (trial_stock t.size t.out) result }
        ensures next { let s = self.old in TookNext (order_of s.size s.order) (trial_stock s.size s.out) result }
        ensures order { let s = self.old in let t = self.new in order_of t.size t.order ≡ order_of s.size s.order }
    {
        let Some(node) = self.first_unused() else {
            return Err(Fault::NONE_LEFT);
        };
        self.out[node as usize] = true;
        Ok(node)
    }

    fn give_back(&mut self, node: u16) -> Result<(), Fault>
        ensures given { let s = self.old in let t = self.new in GivenBack (trial_stock s.size s.out) (trial_stock t.size t.out) node result }
        ensures order { let s = self.old in let t = self.new in order_of t.size t.order ≡ order_of s.size s.order }
    {
        if !self.is_out(node) {
            return Err(Fault::Breach);
        }
        self.out[node as usize] = false;
        Ok(())
    }

    fn size(&self) -> u16 {
        self.size
    }

    fn allowance(&self) -> u16 {
        self.size - self.out_count()
    }

    fn is_out(&self, node: u16) -> bool {
        node < self.size && self.out[node as usize]
    }

    fn out_count(&self) -> u16 {
        let out = &self.out[..self.size as usize];
        out.iter().filter(|out| **out).count() as u16
    }
}
