//! What is done with two neighbours at the border of a tree, by how many entries each of them has.

ghost use Rattle.std.specs.Prelude.{◌≡◌};
ghost use Rattle.node.specs.Rules.{choice, ChoiceAt};

use crate::ends::Side;
use crate::head::{B, CAPACITY};

/// What is done with two neighbours, of which one stands at the border.
#[derive(Clone, Copy, PartialEq, Eq, Debug)]
pub enum Choice {
    /// Both, and the entry between them, go into the left one.
    Merge,
    /// So many entries go over to the one at the border, through the entry between.
    Move(usize),
    /// Both stay as they are.
    Leave,
}

impl Choice {
    /// The choice for two neighbours of `left_len` and `right_len` entries, of which the one at `side` stands at the border. They merge where
    /// they fit into one node with the entry between them. Else a border one of fewer than `B` entries is raised to `B`, and one of `B` or
    /// more is left. Nothing but these two numbers is asked, and no number is too large.
    pub fn of(side: Side, left_len: usize, right_len: usize) -> Choice
        ensures rule { result ≡ choice side left_len right_len }
        ensures meant { ChoiceAt side left_len right_len result }
    {
        if left_len.saturating_add(right_len).saturating_add(1) <= CAPACITY {
            return Choice::Merge;
        }
        let border_len = match side {
            Side::First => left_len,
            Side::Last => right_len,
        };
        if border_len < B {
            Choice::Move(B - border_len)
        } else {
            Choice::Leave
        }
    }
}
