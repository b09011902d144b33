//! The tables of a desk, and what stands in them.

ghost use Rattle.std.specs.Prelude.{◌≡◌, ◌<◌, ◌≤◌, MatchResult};
ghost use Rattle.calls.specs.declared.refusals.Refusal.TheVariants as Refusal;

use crate::path::Ends;
use crate::reply::Reply;
use crate::shape::Shape;
use bank::bank::Bank;
use books::places::Place;
use calls::refusals::Refusal;
use node::head::{CAPACITY, Head};
use node::nodes::NodeRef;
use order::blend::BlendNumber;
use std::alloc::Global;
use supply::Supply;
use walk::walks::Walk;

const FREE: Head = Head {
    parent: 9,
    place: 9,
    len: 9,
    edges: [9; 12],
};

/// Heads, keys and values, with anything in what is free.
#[derive(Drop)]
pub struct DeskTables {
    pub heads: Vec<Head>,
    pub keys: Vec<BlendNumber>,
    pub values: Vec<u32>,
}

impl DeskTables {
    /// The tables of `size` nodes.
    pub fn new(heap: Global, size: u16) -> anyhow::Result<DeskTables> {
        let cells = CAPACITY * size as usize;
        let heads = vec![in heap; FREE; size as usize]?;
        let keys = vec![in heap; BlendNumber::from(9); cells]?;
        let values = vec![in heap; 9; cells]?;
        Ok(DeskTables {
            heads,
            keys,
            values,
        })
    }

    /// A tree as it is written.
    pub fn tree_shape(&self, root: NodeRef) -> Shape<'_> {
        Shape {
            heads: self.heads.as_slice(),
            keys: self.keys.as_slice(),
            root,
            ends: None,
        }
    }

    /// What is left of a tree between the ends of a walk, if the walk has nodes.
    pub fn walk_shape(&self, walk: Walk) -> Option<Shape<'_>> {
        let heads = self.heads.as_slice();
        let ends = Ends::of(heads, walk);
        Some(Shape {
            heads,
            keys: self.keys.as_slice(),
            root: ends.root()?,
            ends: Some(ends),
        })
    }

    /// What stands in a place of a bank with these tables. Refusal 3 where there is no such place.
    pub fn shape<S: Supply>(&self, bank: &Bank<S>, place: usize) -> Result<Reply<'_>, Refusal>
        ensures { MatchResult result (λ _. place < 16) (λ e. (e ≡ Refusal.Place) × (16 ≤ place)) }
    {
        Ok(match bank.place(place).ok_or(Refusal::Place)? {
            Place::Bare => Reply::Bare,
            Place::Tree { root, .. } => Reply::Tree { tables: self, root },
            Place::Walk(walk) => Reply::Walk { tables: self, walk },
        })
    }
}
