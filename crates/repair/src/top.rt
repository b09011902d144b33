//! The top of a tree: roots without entries are taken off.

ghost use Rattle.std.specs.Prelude.{List};
ghost use Rattle.node.specs.Store.{tables};
ghost use Rattle.repair.specs.Repair.{FixesTop};

use node::count::{MAX_HEIGHT, len_at};
use node::head::Head;
use node::nodes::{ForceResult, NodeRef};
use supply::{Fault, Supply};

/// While the root is above the leaves and has no entries, its first child becomes the root, and the old one is given back. The contract
/// holds of whatever keys and values stand beside the heads, which is all that `K` and `V` are for.
pub fn fix_top<K, V, S: Supply>(
    heads: &mut [Head],
    supply: &mut S,
    root: NodeRef,
) -> Result<NodeRef, Fault>
    ensures { (ks : List K) (vs : List V) → FixesTop (tables heads.old ks vs) (tables heads.new ks vs) (S.stock supply.old) (S.stock supply.new) root.height root.node result }
{
    if root.height > MAX_HEIGHT {
        return Err(Fault::Breach);
    }
    let ForceResult::Internal(top) = root.force() else {
        return Ok(root);
    };
    let len = len_at(heads, top.node)?;
    if len > 0 {
        return Ok(root);
    }
    let below = top.pop_level(heads)?;
    supply.give_back(top.node)?;
    fix_top::<K, V, S>(heads, supply, below)
}
