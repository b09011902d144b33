//! The caller's three tables, which go together in every call.

use crate::count::len_at;
use crate::head::{CAPACITY, Head};
use std::marker::Model;
use supply::Fault;

/// The most nodes in the tables.
pub const MOST: usize = supply::MOST as usize;

/// The tables, lent to be read.
#[derive(Drop)]
pub struct Tables<'a, K, V> {
    pub heads: &'a [Head],
    pub keys: &'a [K],
    pub values: &'a [V],
}

impl<'a, K, V> Model for Tables<'a, K, V> {
    ghost use Rattle.node.specs.Store.{Tables as Held, tables};

    ghost Value = { Held K V };

    ghost view = { λ t. tables t.heads.now t.keys.now t.values.now };
}

impl<K, V> Tables<'_, K, V> {
    ghost use Rattle.std.specs.Prelude.{◌≡◌, MatchResult};
    ghost use Rattle.node.specs.Operations.{Lies, Strange};

    /// How many entries `node` has, where it lies in tables that fit together; else `Breach`.
    pub fn len_in(&self, node: u16) -> Result<usize, Fault>
        ensures { MatchResult result (λ n. Lies self.now node n) (λ f. (f ≡ Fault.Breach) × Strange self.now node) }
    {
        let count = self.heads.len();
        let cells = CAPACITY * count;
        if count > MOST || self.keys.len() != cells || self.values.len() != cells {
            return Err(Fault::Breach);
        }
        len_at(self.heads, node)
    }
}
