//! Insertion into a whole tree, which may get a new root, or into an empty place.

ghost use Rattle.std.specs.Prelude.{◌≡◌, ◌≤◌};
ghost use Rattle.node.specs.Store.{tables};
ghost use Rattle.insertion.specs.Roots.{Begins, Crowns, Enters};

use crate::descent::{InsertResult, Way};
use map::insert::insert_fit;
use node::count::MAX_HEIGHT;
use node::head::Head;
use node::level::{new_leaf, push_level};
use node::nodes::NodeRef;
use order::keys::KeyOrder;
use supply::{Fault, Supply};

/// Makes a tree of one entry in an empty place: it takes one node.
pub fn insert_first<K: Copy, V: Copy, S: Supply>(
    heads: &mut [Head],
    keys: &mut [K],
    values: &mut [V],
    supply: &mut S,
    key: K,
    val: V,
) -> Result<NodeRef, Fault>
    ensures { Begins (tables heads.old keys.old values.old) (tables heads.new keys.new values.new) (S.stock supply.old) (S.stock supply.new) (key, val) result }
{
    let node = supply.take()?;
    new_leaf(heads, node)?;
    let leaf = NodeRef { node, height: 0 };
    insert_fit(heads, keys, values, leaf, 0, key, val, 0)?;
    Ok(leaf)
}

/// Puts a new root above `root`, with an entry and the tree at `right` behind it.
fn grow_root<K: Copy, V: Copy, S: Supply>(
    heads: &mut [Head],
    keys: &mut [K],
    values: &mut [V],
    supply: &mut S,
    root: NodeRef,
    key: K,
    val: V,
    right: u16,
) -> Result<NodeRef, Fault>
    requires { root.height ≤ 5 }
    ensures { Crowns (tables heads.old keys.old values.old) (tables heads.new keys.new values.new) (S.stock supply.old) (S.stock supply.new) root.height root.node (key, val) right result }
{
    let node = supply.take()?;
    push_level(heads, root.node, node)?;
    let top = NodeRef {
        node,
        height: root.height + 1,
    };
    insert_fit(heads, keys, values, top, 0, key, val, right)?;
    Ok(top)
}

/// Puts an entry into the tree under `root`. Answers its root afterwards, and the old value where the key was there. Where more nodes are needed than
/// may be taken, it refuses before anything has changed.
pub fn try_insert<K: KeyOrder, V: Copy, S: Supply>(
    heads: &mut [Head],
    keys: &mut [K],
    values: &mut [V],
    supply: &mut S,
    root: NodeRef,
    key: K,
    val: V,
) -> Result<(NodeRef, Option<V>), Fault>
    ensures { Enters (K.KeyOrder.compares key) (tables heads.old keys.old values.old) (tables heads.new keys.new values.new) (S.stock supply.old) (S.stock supply.new) root.height root.node (key, val) result }
{
    if root.height > MAX_HEIGHT {
        return Err(Fault::Breach);
    }
    let way = Way {
        node: root,
        above: 1,
    };
    let done = way.insert_under(heads, keys, values, supply, key, val)?;
    match done {
        InsertResult::Replaced(old) => Ok((root, Some(old))),
        InsertResult::Fit => Ok((root, None)),
        InsertResult::Split(k, v, right) => {
            let top = grow_root(heads, keys, values, supply, root, k, v, right)?;
            Ok((top, None))
        }
    }
}
