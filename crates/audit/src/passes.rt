//! A pass over the nodes under one, as a tree shows it between two edges.

ghost use Rattle.std.specs.Prelude.{◌≡◌, ◌<◌, ◌≤◌, length, ◌-◌, ◌*◌, ◌+◌, MatchOption, slice_index};
ghost use Rattle.node.specs.Store.{head_in, head_at};
ghost use Rattle.walk.specs.Climbs.{up_from};
ghost use Rattle.walk.specs.Window.{bounds};
ghost use Rattle.audit.specs.Passes.{Climbable, Under, index_in, begins, ends, Fits, Led, trail, part, Passable, pass as passed};
ghost use Rattle.audit.specs.Runs.{Notes, noted};
ghost use Rattle.node.specs.Cells.{span};
ghost use Rattle.node.specs.Links.{edge};

use crate::marks::Met;
use crate::runs::Run;
use node::ends::Handle;
use node::head::{B, CAPACITY, Head};
use node::nodes::NodeRef;
use node::tables::Tables;
use order::keys::KeyOrder;

/// The least number of entries in a node below a root.
const LEAST: usize = B - 2;

/// A node of at least `least` entries, of which is shown what stands between two edges of leaves below it.
#[derive(Clone, Copy)]
pub(crate) struct Part {
    pub node: NodeRef,
    pub least: usize,
    pub front: Option<Handle>,
    pub back: Option<Handle>,
}

/// The edge that is `levels` above `edge`, where the nodes up to there lie in the table.
fn above(heads: &[Head], edge: Handle, levels: u16) -> Option<Handle>
    ensures { MatchOption result (Climbable heads.now levels edge → ⊥) (λ e. Climbable heads.now levels edge × (e ≡ up_from heads.now levels edge)) }
{
    if levels == 0 {
        return Some(edge);
    }
    let head = heads.get(edge.node as usize)?;
    let next = Handle {
        node: head.parent,
        idx: head.place,
    };
    above(heads, next, levels - 1)
}

/// The index of the edge of `node` that leads to `edge`, or `other` where there is no such edge.
fn index_under(heads: &[Head], node: NodeRef, edge: Option<Handle>, other: usize) -> Option<usize>
    ensures { MatchOption result (Under heads.now node.height node.node edge → ⊥) (λ i. Under heads.now node.height node.node edge × (i ≡ index_in heads.now node.height edge other)) }
{
    let Some(edge) = edge else {
        return Some(other);
    };
    let here = above(heads, edge, node.height)?;
    if here.node != node.node {
        return None;
    }
    Some(here.idx as usize)
}

/// The child that edge `idx` leads to, where it names this node as its parent, and that place.
fn child_at(heads: &[Head], node: u16, edges: &[u16; 12], idx: usize) -> Option<u16>
    requires { idx < 12 }
    ensures wide { length edges.now ≡ 12 }
    ensures child { let c = slice_index edges.now idx in MatchOption result (c < length heads.now → (head_in heads.now c).parent ≡ node → (head_in heads.now c).place ≡ idx → ⊥) (λ x. (x ≡ c) × (c < length heads.now) × ((head_in heads.now c).parent ≡ node) × ((head_in heads.now c).place ≡ idx)) }
{
    let child = edges[idx];
    let head = heads.get(child as usize)?;
    if head.parent != node || head.place as usize != idx {
        return None;
    }
    Some(child)
}

impl Part {
    /// The indexes of the first and the last edge that are shown.
    fn stretch<K, V>(self, tables: &Tables<'_, K, V>) -> Option<(usize, usize)>
        ensures { let b = bounds self.front self.back in let n = self.node in MatchOption result (Fits tables.now self.least b n.height n.node → ⊥) (λ p. Fits tables.now self.least b n.height n.node × (p.0 ≡ begins tables.now.heads n.height b) × (p.1 ≡ ends tables.now.heads n.height b n.node)) }
    {
        let len = tables.len_in(self.node.node).ok()?;
        let from = index_under(tables.heads, self.node, self.front, 0)?;
        let to = index_under(tables.heads, self.node, self.back, len)?;
        if len < self.least || to < from || len < to {
            return None;
        }
        Some((from, to))
    }

    /// The child at edge `idx`, of which is shown what stands between these edges.
    fn child<K, V>(
        self,
        tables: &Tables<'_, K, V>,
        idx: usize,
        front: Option<Handle>,
        back: Option<Handle>,
    ) -> Option<Part>
        requires inside { self.node.node < length tables.now.heads }
        requires few { (head_at tables.now self.node.node).len ≤ 11 }
        requires low { idx < 12 }
        requires inner { 0 < self.node.height }
        ensures { let n = self.node in MatchOption result (Led tables.now n.node idx → ⊥) (λ p. Led tables.now n.node idx × (p ≡ part (edge tables.now.heads n.node idx) (n.height - 1) 4 front back)) }
    {
        let head = tables.heads[self.node.node as usize];
        let node = child_at(tables.heads, self.node.node, &head.edges, idx)?;
        Some(Part {
            node: NodeRef {
                node,
                height: self.node.height - 1,
            },
            least: LEAST,
            front,
            back,
        })
    }
}

/// Takes `count` keys of `node`, from index `from` on.
fn take_keys<K: KeyOrder, V>(
    tables: &Tables<'_, K, V>,
    run: &mut Run<K>,
    node: u16,
    from: usize,
    count: usize,
) -> Option<()>
    requires { 11 * node + from + count ≤ length tables.now.keys }
    ensures { let ks = span tables.now.keys (11 * node + from) count in MatchOption result (Notes K.KeyOrder.compares ks run.old → ⊥) (λ _. Notes K.KeyOrder.compares ks run.old × (run.new ≡ noted ks run.old)) }
{
    let Tables { keys, .. } = tables;
    let at = CAPACITY * node as usize + from;
    run.note_all(&keys[at..at + count])
}

/// Passes over the nodes of `part`, none of which was met, and takes its keys. They are met afterwards.
pub(crate) fn pass<K: KeyOrder, V>(
    tables: &Tables<'_, K, V>,
    met: &mut Met,
    run: &mut Run<K>,
    part: Part,
) -> Option<()>
    ensures { let s = trail met.old run.old in let b = bounds part.front part.back in let n = part.node in MatchOption result (Passable K.KeyOrder.compares tables.now part.least b n.height n.node s → ⊥) (λ _. Passable K.KeyOrder.compares tables.now part.least b n.height n.node s × (trail met.new run.new ≡ passed tables.now b n.height n.node s)) }
{
    let (from, to) = part.stretch(tables)?;
    let node = part.node.node;
    met.meet(node)?;
    if part.node.height == 0 {
        return take_keys(tables, run, node, from, to - from);
    }
    let mut front = part.front;
    for idx in from..to {
        let child = part.child(tables, idx, front.take(), None)?;
        pass(tables, met, run, child)?;
        take_keys(tables, run, node, idx, 1)?;
    }
    let child = part.child(tables, to, front, part.back)?;
    pass(tables, met, run, child)
}
