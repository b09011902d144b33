//! Insertion into one node, which is split where it is full, and replacement of a value.

ghost use Rattle.std.specs.Prelude.{◌≡◌};
ghost use Rattle.node.specs.Breaches.{Breached};
ghost use Rattle.node.specs.Store.{tables};
ghost use Rattle.map.specs.Inserts.{InsertsIn, InsertsLeft, InsertsRight, Replaces};

use node::head::{B, CAPACITY, Head};
use node::nodes::{ForceResult, NodeRef};
use node::tables::Tables;
use supply::Fault;

/// Puts an entry at `idx` into a node that has room, and above the leaves an edge behind it. Refuses with `Breach`; what the tables hold
/// afterwards is free then.
#[inline(always)]
pub fn insert_fit<K: Copy, V: Copy>(
    heads: &mut [Head],
    keys: &mut [K],
    values: &mut [V],
    node: NodeRef,
    idx: usize,
    key: K,
    val: V,
    edge: u16,
) -> Result<(), Fault>
    ensures fault { Breached result }
    ensures inserts { InsertsIn (tables heads.old keys.old values.old) (tables heads.new keys.new values.new) node.height node.node idx (key, val) edge result }
{
    match node.force() {
        ForceResult::Leaf(leaf) => leaf.insert_fit(heads, keys, values, idx, key, val),
        ForceResult::Internal(inner) => inner.insert_fit(heads, keys, values, idx, key, val, edge),
    }
}

/// Splits a full node at `B` into itself and the unused node `right`, and puts the entry into the half where it belongs.
/// Answers the entry between the halves. Refuses with `Breach`; what the tables hold afterwards is free then.
pub fn insert_full<K: Copy, V: Copy>(
    heads: &mut [Head],
    keys: &mut [K],
    values: &mut [V],
    node: NodeRef,
    idx: usize,
    key: K,
    val: V,
    edge: u16,
    right: u16,
) -> Result<(K, V), Fault>
    ensures fault { Breached result }
    ensures left { InsertsLeft (tables heads.old keys.old values.old) (tables heads.new keys.new values.new) node.height node.node idx (key, val) edge right result }
    ensures right { InsertsRight (tables heads.old keys.old values.old) (tables heads.new keys.new values.new) node.height node.node idx (key, val) edge right result }
{
    let entry = node.split(heads, keys, values, B, right)?;
    if idx <= B {
        insert_fit(heads, keys, values, node, idx, key, val, edge)?;
        return Ok(entry);
    }
    let half = NodeRef {
        node: right,
        height: node.height,
    };
    insert_fit(heads, keys, values, half, idx - (B + 1), key, val, edge)?;
    Ok(entry)
}

/// Replaces the value beside the key at `idx`; answers the old one. Refuses with `Breach`.
pub fn replace_value<K, V: Copy>(
    heads: &[Head],
    keys: &[K],
    values: &mut [V],
    node: u16,
    idx: usize,
    val: V,
) -> Result<V, Fault>
    ensures fault { Breached result }
    ensures replaces { Replaces (tables heads.now keys.now values.old) (tables heads.now keys.now values.new) node idx val result }
{
    let shown = Tables {
        heads,
        keys,
        values,
    };
    let len = shown.len_in(node)?;
    if idx >= len {
        return Err(Fault::Breach);
    }
    let at = CAPACITY * node as usize + idx;
    let old = values[at];
    values[at] = val;
    Ok(old)
}
