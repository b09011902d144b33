//! The way from the edge of a leaf up to the next entry, and down again.

ghost use Rattle.std.specs.Prelude.{◌≡◌, ℕ, ◌+◌, ◌<◌, ◌≤◌, length, IfOk, IfSome, Ok, MatchResult};
ghost use Rattle.node.specs.Breaches.{Breached};
ghost use Rattle.node.specs.Store.{head_in};
ghost use Rattle.walk.specs.Leaving.{Leaves, Clears};
ghost use Rattle.walk.specs.Climbs.{beside, Edged, Finds, Leads, Tops};

use node::count::{MAX_HEIGHT, len_at};
use node::ends::{Handle, Side, leaf_edge};
use node::head::{Head, NULL};
use node::nodes::NodeRef;
use supply::{Fault, Supply};

/// An entry: its node, its index there, and how far above the leaves it stands.
#[derive(Clone, Copy, PartialEq, Eq, Debug)]
pub struct Spot {
    pub node: u16,
    pub idx: u16,
    pub level: u16,
}

/// How many entries the node of an edge has, where it stands in the table.
fn edged(heads: &[Head], at: Handle) -> Result<u16, Fault>
    ensures { MatchResult result (λ n. Edged heads.now at × (n ≡ (head_in heads.now at.node).len)) (λ f. (f ≡ Fault.Breach) × (Edged heads.now at → ⊥)) }
{
    let len = len_at(heads, at.node)?;
    if at.idx as usize > len {
        return Err(Fault::Breach);
    }
    Ok(len as u16)
}

/// The index of the entry beside an edge, on the way from this side.
fn entry_beside(side: Side, len: u16, idx: u16) -> Option<u16>
    ensures { result ≡ beside side len idx }
{
    match side {
        Side::First => (idx < len).then_some(idx),
        Side::Last => idx.checked_sub(1),
    }
}

/// The first node with an entry beside the edge, from `at` on upwards.
#[inline]
pub(crate) fn find(heads: &[Head], side: Side, at: Handle, level: u16) -> Result<Spot, Fault>
    requires { level ≤ 5 }
    ensures lies { IfOk result (λ w. (w.node < length heads.now) × (w.idx < 11) × (w.level ≤ 5)) }
    ensures fault { Breached result }
    ensures whole { Finds side heads.now level at result }
{
    let len = edged(heads, at)?;
    if let Some(idx) = entry_beside(side, len, at.idx) {
        return Ok(Spot {
            node: at.node,
            idx,
            level,
        });
    }
    if level == MAX_HEIGHT {
        return Err(Fault::Breach);
    }
    let above = Handle {
        node: heads[at.node as usize].parent,
        idx: heads[at.node as usize].place,
    };
    find(heads, side, above, level + 1)
}

/// The entry beside an edge, where it stands in the leaf itself, as most do.
#[inline(always)]
pub(crate) fn find_in_leaf(heads: &[Head], side: Side, at: Handle) -> Option<Spot>
    ensures lies { IfSome result (λ w. (w.node < length heads.now) × (w.idx < 11) × (w.level ≤ 5)) }
    ensures first { IfSome result (λ w. Finds side heads.now 0 at (Ok w)) }
{
    let Ok(len) = edged(heads, at) else {
        return None;
    };
    let idx = entry_beside(side, len, at.idx)?;
    Some(Spot {
        node: at.node,
        idx,
        level: 0,
    })
}

/// The edge of a leaf that comes after the entry, on the way from this side.
#[inline(always)]
pub(crate) fn next_edge(heads: &[Head], side: Side, spot: Spot) -> Result<Handle, Fault>
    requires inside { spot.node < length heads.now }
    requires low { spot.idx < 11 }
    ensures { Leads side heads.now spot result }
{
    let idx = match side {
        Side::First => spot.idx + 1,
        Side::Last => spot.idx,
    };
    if spot.level == 0 {
        return Ok(Handle {
            node: spot.node,
            idx,
        });
    }
    let under = NodeRef {
        node: heads[spot.node as usize].edges[idx as usize],
        height: spot.level - 1,
    };
    leaf_edge(heads, side, under)
}

/// Gives back `count` nodes: `node`, its parent and so on.
#[inline]
pub(crate) fn leave<S: Supply>(
    heads: &[Head],
    supply: &mut S,
    node: u16,
    count: u16,
) -> Result<(), Fault>
    ensures { Leaves (S.stock supply.old) (S.stock supply.new) heads.now count node result }
{
    if count == 0 {
        return Ok(());
    }
    if node as usize >= heads.len() {
        return Err(Fault::Breach);
    }
    supply.give_back(node)?;
    leave(heads, supply, heads[node as usize].parent, count - 1)
}

/// How many levels `node` stands below the node without a parent.
fn depth(heads: &[Head], node: u16, level: u16) -> Result<u16, Fault>
    requires { level ≤ 5 }
    ensures fault { Breached result }
    ensures low { IfOk result (λ n. n ≤ 5) }
    ensures whole { (n : ℕ) → level + n ≤ 5 → Tops heads.now n node → result ≡ Ok (level + n) }
{
    if node as usize >= heads.len() {
        return Err(Fault::Breach);
    }
    let parent = heads[node as usize].parent;
    if parent == NULL {
        return Ok(level);
    }
    if level == MAX_HEIGHT {
        return Err(Fault::Breach);
    }
    depth(heads, parent, level + 1)
}

/// Gives back `node` and all nodes above it, where it is a node.
pub(crate) fn clear<S: Supply>(heads: &[Head], supply: &mut S, node: u16) -> Result<(), Fault>
    ensures { Clears (S.stock supply.old) (S.stock supply.new) heads.now node result }
{
    if node == NULL {
        return Ok(());
    }
    let levels = depth(heads, node, 0)?;
    leave(heads, supply, node, levels + 1)
}
