//! The border of a tree: its nodes at one side, merged with their neighbours or raised to six entries, from the top down.

ghost use Rattle.std.specs.Prelude.{◌≡◌, ◌<◌, MatchResult};
ghost use Rattle.node.specs.declared.ends.Side.TheVariants.{First, Last};
ghost use Rattle.node.specs.Store.{tables};
ghost use Rattle.parts.specs.Rules.{beside};
ghost use Rattle.node.specs.Operations.{Strange};
ghost use Rattle.repair.specs.Repair.{Mends, Repairs, Strays};

use crate::joint::join;
use crate::top::fix_top;
use node::ends::Side;
use node::head::Head;
use node::nodes::{ForceResult, NodeRef};
use node::tables::Tables;
use supply::{Fault, Supply};

/// The index of the entry beside the border child, in a node of `len` entries.
fn border_entry(side: Side, len: usize) -> usize
    requires { 0 < len }
    ensures { result ≡ beside side len }
{
    match side {
        Side::First => 0,
        Side::Last => len - 1,
    }
}

/// Mends the border under `node`: the border child is merged with its neighbour or raised to six entries, and so on in the border child.
fn mend<K: Copy, V: Copy, S: Supply>(
    heads: &mut [Head],
    keys: &mut [K],
    values: &mut [V],
    supply: &mut S,
    side: Side,
    node: NodeRef,
) -> Result<(), Fault>
    ensures { Mends side (tables heads.old keys.old values.old) (tables heads.new keys.new values.new) (S.stock supply.old) (S.stock supply.new) node.height node.node result }
{
    let ForceResult::Internal(parent) = node.force() else {
        return Ok(());
    };
    let shown = Tables {
        heads,
        keys,
        values,
    };
    let len = shown.len_in(parent.node)?;
    if len == 0 {
        return Ok(());
    }
    let idx = border_entry(side, len);
    let child = join(heads, keys, values, supply, side, parent, idx)?;
    mend(heads, keys, values, supply, side, parent.child(child))
}

/// Refuses a root above the leaves that does not lie in the tables, or tables that do not fit together.
fn check_root<K, V>(tables: &Tables<'_, K, V>, root: NodeRef) -> Result<(), Fault>
    ensures { MatchResult result (λ _. 0 < root.height → Strange tables.now root.node → ⊥) (λ f. (f ≡ Fault.Breach) × (0 < root.height) × Strange tables.now root.node) }
{
    if let ForceResult::Internal(top) = root.force() {
        tables.len_in(top.node)?;
    }
    Ok(())
}

/// Takes roots without entries off, mends the border at `side`, and takes roots without entries off again.
fn fix_border<K: Copy, V: Copy, S: Supply>(
    heads: &mut [Head],
    keys: &mut [K],
    values: &mut [V],
    supply: &mut S,
    side: Side,
    root: NodeRef,
) -> Result<NodeRef, Fault>
    ensures repairs { Repairs side (tables heads.old keys.old values.old) (tables heads.new keys.new values.new) (S.stock supply.old) (S.stock supply.new) root.height root.node result }
    ensures strays { Strays (tables heads.old keys.old values.old) (tables heads.new keys.new values.new) (S.stock supply.old) (S.stock supply.new) root.height root.node result }
{
    let shown = Tables {
        heads,
        keys,
        values,
    };
    check_root(&shown, root)?;
    let top = fix_top::<K, V, S>(heads, supply, root)?;
    mend(heads, keys, values, supply, side, top)?;
    fix_top::<K, V, S>(heads, supply, top)
}

/// Repairs the right border of a tree whose right part was cut off, and answers its root.
pub fn fix_right_border<K: Copy, V: Copy, S: Supply>(
    heads: &mut [Head],
    keys: &mut [K],
    values: &mut [V],
    supply: &mut S,
    root: NodeRef,
) -> Result<NodeRef, Fault>
    ensures repairs { Repairs Last (tables heads.old keys.old values.old) (tables heads.new keys.new values.new) (S.stock supply.old) (S.stock supply.new) root.height root.node result }
    ensures strays { Strays (tables heads.old keys.old values.old) (tables heads.new keys.new values.new) (S.stock supply.old) (S.stock supply.new) root.height root.node result }
{
    fix_border(heads, keys, values, supply, Side::Last, root)
}

/// Repairs the left border of a tree whose left part was cut off, and answers its root.
pub fn fix_left_border<K: Copy, V: Copy, S: Supply>(
    heads: &mut [Head],
    keys: &mut [K],
    values: &mut [V],
    supply: &mut S,
    root: NodeRef,
) -> Result<NodeRef, Fault>
    ensures repairs { Repairs First (tables heads.old keys.old values.old) (tables heads.new keys.new values.new) (S.stock supply.old) (S.stock supply.new) root.height root.node result }
    ensures strays { Strays (tables heads.old keys.old values.old) (tables heads.new keys.new values.new) (S.stock supply.old) (S.stock supply.new) root.height root.node result }
{
    fix_border(heads, keys, values, supply, Side::First, root)
}
