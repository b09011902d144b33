//! The first and the last leaf of a tree.

ghost use Rattle.std.specs.Prelude.{◌≡◌, ◌≤◌, IfOk, Ok, MatchResult};
ghost use Rattle.node.specs.Breaches.{Breached};
ghost use Rattle.node.specs.Ends.{end_index, Chain, end_edge};

use crate::count::{MAX_HEIGHT, len_at};
use crate::edges::edge_at;
use crate::head::Head;
use crate::nodes::{ForceResult, NodeRef};
use supply::Fault;

/// A leaf, and the index of one of its edges: the gap before the entry of that index.
#[derive(Clone, Copy, PartialEq, Eq, Debug)]
pub struct Handle {
    pub node: u16,
    pub idx: u16,
}

/// One of the two ends of a row.
#[derive(Clone, Copy, PartialEq, Eq, Debug)]
pub enum Side {
    First,
    Last,
}

impl Side {
    /// The index of the edge at this end of a node of `len` entries.
    fn index(self, len: usize) -> usize
        ensures { result ≡ end_index self len }
    {
        match self {
            Side::First => 0,
            Side::Last => len,
        }
    }
}

/// The edge at one end of the leaves under `node`, at any height.
fn descend(heads: &[Head], side: Side, node: NodeRef) -> Result<Handle, Fault>
    ensures { MatchResult result (λ e. Chain side heads.now node.height node.node × (e ≡ end_edge side heads.now node.height node.node)) (λ f. (f ≡ Fault.Breach) × (Chain side heads.now node.height node.node → ⊥)) }
{
    let len = len_at(heads, node.node)?;
    let idx = side.index(len);
    match node.force() {
        ForceResult::Leaf(leaf) => Ok(Handle {
            node: leaf.node,
            idx: idx as u16,
        }),
        ForceResult::Internal(inner) => {
            let child = edge_at(&heads[inner.node as usize].edges, idx);
            descend(heads, side, inner.child(child))
        }
    }
}

/// The edge at one end of the leaves under `node`: the first edge of the first leaf, or the last edge of the last.
/// There is an answer for each tree of at most `MAX_HEIGHT` levels above its leaves. Else it refuses with `Breach`.
pub fn leaf_edge(heads: &[Head], side: Side, node: NodeRef) -> Result<Handle, Fault>
    ensures fault { Breached result }
    ensures leads { IfOk result (λ e. (node.height ≤ 5) × Chain side heads.now node.height node.node × (e ≡ end_edge side heads.now node.height node.node)) }
    ensures whole { node.height ≤ 5 → Chain side heads.now node.height node.node → result ≡ Ok (end_edge side heads.now node.height node.node) }
{
    if node.height > MAX_HEIGHT {
        return Err(Fault::Breach);
    }
    descend(heads, side, node)
}
