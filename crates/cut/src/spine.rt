//! The nodes that a cut fills: one for each height, without entries.

ghost use Rattle.std.specs.Prelude.{◌≤◌};
ghost use Rattle.cut.specs.Spine.{TakesSpine};

use node::head::Head;
use node::level::{new_leaf, push_level};
use supply::{Fault, Supply};

/// Takes a spine of this height from the supply: an empty leaf, and above it empty nodes with one child each. Answers its top. The
/// contract holds of whatever keys and values stand beside the heads, which is all that `K` and `V` are for.
pub(crate) fn take_spine<K, V, S: Supply>(
    heads: &mut [Head],
    supply: &mut S,
    height: u16,
) -> Result<u16, Fault>
    ensures { TakesSpine K V heads.old heads.new (S.stock supply.old) (S.stock supply.new) height result }
{
    if height == 0 {
        let leaf = supply.take()?;
        new_leaf(heads, leaf)?;
        return Ok(leaf);
    }
    let child = take_spine::<K, V, S>(heads, supply, height - 1)?;
    let node = supply.take()?;
    push_level(heads, child, node)?;
    Ok(node)
}
