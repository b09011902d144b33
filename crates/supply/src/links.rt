//! A supply with its unused numbers in a linked row.

ghost use Rattle.std.specs.Prelude.{◌≡◌, ◌+◌, ◌<◌, ◌≤◌, Decides, MatchOption, length, count_by, nat_eq};
ghost use Rattle.std.specs.List.{range_with_len};
ghost use Rattle.supply.specs.Stocks.{Taken, GivenBack, fresh, kept_size, marked};
ghost use Rattle.supply.specs.Rows.{Below, Unused, Apart, Rising, TookFirst, PutFirst, row_of, link_marks, link_stock, IsRow, Chained};
ghost use Rattle.supply.specs.StockLaws.{links_sound};

use crate::{Fault, MOST, Supply, kept_size};
use std::array;

/// The link of a number that is out.
const OUT: u16 = 65535;

/// The unused numbers in a row that begins at `head`: the link of each leads to the next. What was returned last comes first.
#[derive(Drop)]
pub struct Chain {
    size: u16,
    left: u16,
    head: u16,
    links: [u16; MOST as usize],
    ghost fits: { size ≤ 4096 },
    ghost counts: { left + marked (link_marks size links) ≡ size },
    ghost inner: { head < 65535 },
    ghost below: { Below size (row_of links head left) },
    ghost unused: { Unused links (row_of links head left) },
    ghost apart: { Apart (row_of links head left) },
}

/// The fields of a chain, which may also hold anything else.
#[repr(C)]
#[derive(Clone, Copy, PartialEq, Eq, Debug)]
pub struct ChainParts {
    pub size: u16,
    pub left: u16,
    pub head: u16,
    pub links: [u16; MOST as usize],
}

impl ChainParts {
    /// Whether the row keeps below the size, and has no number that is out and none twice.
    fn is_row(&self) -> bool
        requires { self.now.size ≤ 4096 }
        ensures { let p = self.now in Decides result (IsRow p.size p.links (row_of p.links p.head p.left)) }
    {
        let links = &self.links[..self.size as usize];
        let mut seen = [false; MOST as usize];
        let mut node = self.head as usize;
        for _ in 0..self.left {
            if node >= links.len() || links[node] == OUT || seen[node] {
                return false;
            }
            seen[node] = true;
            node = links[node] as usize;
        }
        true
    }

    /// Whether these are the fields of a chain.
    fn is_chain(&self) -> bool
        ensures { let p = self.now in Decides result (Chained p.size p.left p.head p.links) }
    {
        if self.size > MOST || self.head == OUT {
            return false;
        }
        let out = outs(&self.links[..self.size as usize]);
        self.left as usize + out == self.size as usize && self.is_row()
    }
}

/// How many of the links are those of a number that is out.
fn outs(links: &[u16]) -> usize
    ensures { result ≡ count_by (λ x. nat_eq x 65535) links.now }
{
    links.iter().filter(|link| **link == OUT).count()
}

/// Each number with a link to the next.
fn rising() -> [u16; MOST as usize]
    ensures { Rising result 4096 }
{
    array::from_fn(|i| i as u16 + 1)
}

impl Chain {
    /// `size` numbers, none out, in a row from 0 up; or no numbers, where `size` is above `MOST`.
    pub fn new(size: u16) -> Chain
        ensures stock { link_stock result.size result.links ≡ fresh (kept_size size) }
        ensures row { row_of result.links result.head result.left ≡ range_with_len 0 (kept_size size) }
    {
        let size = kept_size(size);
        let links = rising();
        Chain {
            size,
            left: size,
            head: 0,
            links,
        }
    }

    /// The chain with these fields, or none where they are not those of a chain.
    pub fn from_parts(parts: &ChainParts) -> Option<Chain>
        ensures { let p = parts.now in MatchOption result (Chained p.size p.left p.head p.links → ⊥) (λ c. (c.size ≡ p.size) × (c.left ≡ p.left) × (c.head ≡ p.head) × (c.links ≡ p.links)) }
    {
        if !parts.is_chain() {
            return None;
        }
        let ChainParts {
            size,
            left,
            head,
            links,
        } = *parts;
        Some(Chain {
            size,
            left,
            head,
            links,
        })
    }

    /// The fields of the chain.
    pub fn into_parts(self) -> ChainParts
        ensures same { (result.size ≡ self.size) × (result.left ≡ self.left) × (result.head ≡ self.head) × (result.links ≡ self.links) }
        ensures chained { Chained result.size result.left result.head result.links }
    {
        let links = self.links;
        ChainParts {
            size: self.size,
            left: self.left,
            head: self.head,
            links,
        }
    }
}

impl Supply for Chain {
    ghost stock = { λ s. link_stock s.size s.links };

    ghost sound = { λ s. links_sound s.size s.links s.fits };

    /// The first number of the row.
    fn take(&mut self) -> Result<u16, Fault>
        ensures taken { let s = self.old in let t = self.new in Taken (link_stock s.size s.links) (link_stock t.size t.links) result }
        ensures row { let s = self.old in let t = self.new in TookFirst (row_of s.links s.head s.left) (row_of t.links t.head t.left) result }
    {
        if self.left == 0 {
            return Err(Fault::NONE_LEFT);
        }
        let node = self.head;
        self.head = self.links[node as usize];
        self.links[node as usize] = OUT;
        self.left -= 1;
        Ok(node)
    }

    /// Puts `node` first in the row.
    fn give_back(&mut self, node: u16) -> Result<(), Fault>
        ensures given { let s = self.old in let t = self.new in GivenBack (link_stock s.size s.links) (link_stock t.size t.links) node result }
        ensures row { let s = self.old in let t = self.new in PutFirst (row_of s.links s.head s.left) (row_of t.links t.head t.left) node result }
    {
        if !self.is_out(node) {
            return Err(Fault::Breach);
        }
        self.links[node as usize] = self.head;
        self.head = node;
        self.left += 1;
        Ok(())
    }

    fn size(&self) -> u16 {
        self.size
    }

    fn allowance(&self) -> u16 {
        self.left
    }

    fn is_out(&self, node: u16) -> bool {
        node < self.size && self.links[node as usize] == OUT
    }

    fn out_count(&self) -> u16 {
        self.size - self.left
    }
}
