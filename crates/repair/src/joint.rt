//! Two neighbours among the children of a node: merged where they fit into one, else the one at the border raised to six entries, or left.

ghost use Rattle.std.specs.Prelude.{◌≡◌, ◌<◌, length, MatchResult};
ghost use Rattle.node.specs.Links.{edge};
ghost use Rattle.node.specs.Store.{tables};
ghost use Rattle.repair.specs.Joint.{Joins};

use node::ends::Side;
use node::head::{CAPACITY, Head};
use node::nodes::Internal;
use supply::{Fault, Supply};

/// The edge of `node` at `idx`; `Breach` where it has none.
pub fn edge_of(heads: &[Head], node: u16, idx: usize) -> Result<u16, Fault>
    ensures { MatchResult result (λ c. c ≡ edge heads.now node idx) (λ f. (f ≡ Fault.Breach) × (node < length heads.now → idx < 12 → ⊥)) }
{
    let at = node as usize;
    if at >= heads.len() || idx > CAPACITY {
        return Err(Fault::Breach);
    }
    Ok(heads[at].edges[idx])
}

/// Joins the children of `parent` beside its entry at `idx`, of which the one at `side` stands at the border, as their lengths choose, and
/// gives back the one that is left over where they were merged. Answers the border child.
pub(crate) fn join<K: Copy, V: Copy, S: Supply>(
    heads: &mut [Head],
    keys: &mut [K],
    values: &mut [V],
    supply: &mut S,
    side: Side,
    parent: Internal,
    idx: usize,
) -> Result<u16, Fault>
    ensures { Joins side (tables heads.old keys.old values.old) (tables heads.new keys.new values.new) (S.stock supply.old) (S.stock supply.new) parent.height parent.node idx result }
{
    let (child, left_over) = parent.join_children(heads, keys, values, side, idx)?;
    if let Some(node) = left_over {
        supply.give_back(node)?;
    }
    Ok(child)
}
