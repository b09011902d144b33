//! The top of a tree: a new root, a root put above another, or taken off again.

ghost use Rattle.std.specs.Prelude.{◌≡◌, ◌-◌, ◌<◌, ◌≤◌, length, MatchResult, ◌≢◌, slice_index};
ghost use Rattle.node.specs.Store.{head_in};
ghost use Rattle.node.specs.Levels.{new_leaf, push_level, pop_level};

use crate::edges::{edge_at, with_first_edge};
use crate::head::{Head, NULL};
use crate::nodes::{Internal, NodeRef};
use supply::Fault;

/// Makes `node` a root leaf without entries. Refuses with `Breach` where it is no node of the table.
pub fn new_leaf(heads: &mut [Head], node: u16) -> Result<(), Fault>
    ensures { MatchResult result (λ _. (node < length heads.old) × (heads.new ≡ new_leaf heads.old node)) (λ f. (f ≡ Fault.Breach) × (length heads.old ≤ node)) }
{
    let at = node as usize;
    if at >= heads.len() {
        return Err(Fault::Breach);
    }
    heads[at] = Head {
        parent: NULL,
        place: 0,
        len: 0,
        ..heads[at]
    };
    Ok(())
}

/// Makes `node` a root without entries, whose only child is the root `child`. Refuses with `Breach` where they are not two nodes of the table.
pub fn push_level(heads: &mut [Head], child: u16, node: u16) -> Result<(), Fault>
    ensures { MatchResult result (λ _. (node < length heads.old) × (child < length heads.old) × (node ≢ child) × (0 < length (head_in heads.old node).edges) × (heads.new ≡ push_level heads.old child node)) (λ f. (f ≡ Fault.Breach) × (node < length heads.old → child < length heads.old → (node ≢ child) → ⊥)) }
{
    let m = node as usize;
    let c = child as usize;
    if m >= heads.len() || c >= heads.len() || node == child {
        return Err(Fault::Breach);
    }
    heads[m] = Head {
        parent: NULL,
        place: 0,
        len: 0,
        edges: with_first_edge(&heads[m].edges, child),
    };
    heads[c] = Head {
        parent: node,
        place: 0,
        ..heads[c]
    };
    Ok(())
}

impl Internal {
    /// Makes the first child of a root the root. Refuses with `Breach` where one of them is no node of the table.
    pub fn pop_level(self, heads: &mut [Head]) -> Result<NodeRef, Fault>
        ensures { MatchResult result (λ n. (n.node ≡ slice_index (head_in heads.old self.node).edges 0) × (n.height ≡ self.height - 1) × (heads.new ≡ pop_level heads.old n.node)) (λ f. (f ≡ Fault.Breach) × (self.node < length heads.old → slice_index (head_in heads.old self.node).edges 0 < length heads.old → ⊥)) }
    {
        let m = self.node as usize;
        if m >= heads.len() {
            return Err(Fault::Breach);
        }
        let child = edge_at(&heads[m].edges, 0);
        if child as usize >= heads.len() {
            return Err(Fault::Breach);
        }
        heads[child as usize].parent = NULL;
        Ok(self.child(child))
    }
}
