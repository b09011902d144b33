//! How many entries a tree has, counted node by node.

ghost use Rattle.std.specs.Prelude.{◌≡◌, ℕ, ◌<◌, ◌≤◌, length, IfOk, Ok, MatchResult};
ghost use Rattle.node.specs.Store.{head_in};
ghost use Rattle.node.specs.Counts.{Stands, Reached, Counted};
ghost use Rattle.node.specs.Breaches.{Breached};

use crate::head::{CAPACITY, Head};
use crate::nodes::NodeRef;
use supply::Fault;

/// The most levels above the leaves: a higher tree has more nodes than the tables.
pub const MAX_HEIGHT: u16 = 5;

/// How many entries `node` has, where it lies in the table with at most eleven; else `Breach`.
pub fn len_at(heads: &[Head], node: u16) -> Result<usize, Fault>
    ensures { MatchResult result (λ n. Stands heads.now node × (n ≡ (head_in heads.now node).len)) (λ f. (f ≡ Fault.Breach) × (Stands heads.now node → ⊥)) }
{
    if node as usize >= heads.len() {
        return Err(Fault::Breach);
    }
    let len = heads[node as usize].len as usize;
    if len > CAPACITY {
        return Err(Fault::Breach);
    }
    Ok(len)
}

/// Counts the entries under `node`, by a descent through every child.
#[cycle(dfs)]
#[inline(always)]
fn dfs(heads: &[Head], height: u16, node: u16) -> Result<usize, Fault>
    requires { height ≤ 5 }
    ensures { MatchResult result (λ n. Counted heads.now height node n) (λ f. (f ≡ Fault.Breach) × (Reached heads.now height node → ⊥)) }
{
    let len = len_at(heads, node)?;
    if height == 0 {
        return Ok(len);
    }
    dfs_below(heads, height, node, len)
}

/// Counts the `len` entries of `node`, which stands above the leaves, and those under each child.
#[cycle(dfs)]
fn dfs_below(heads: &[Head], height: u16, node: u16, len: usize) -> Result<usize, Fault>
    requires low { height ≤ 5 }
    requires above { 0 < height }
    requires stands { Stands heads.now node }
    requires long { len ≡ (head_in heads.now node).len }
    ensures { MatchResult result (λ n. Counted heads.now height node n) (λ f. (f ≡ Fault.Breach) × (Reached heads.now height node → ⊥)) }
{
    let head = heads[node as usize];
    let mut sum = len;
    for child in &head.edges[0..len + 1] {
        sum += dfs(heads, height - 1, *child)?;
    }
    Ok(sum)
}

/// How many entries the tree under `node` has: an answer is their number, and there is one for each tree of at most `MAX_HEIGHT` levels above
/// its leaves. Else it refuses with `Breach`.
pub fn recalc_length(heads: &[Head], node: NodeRef) -> Result<usize, Fault>
    ensures fault { Breached result }
    ensures counts { IfOk result (λ n. (node.height ≤ 5) × Counted heads.now node.height node.node n) }
    ensures whole { (n : ℕ) → Counted heads.now node.height node.node n → node.height ≤ 5 → result ≡ Ok n }
{
    if node.height > MAX_HEIGHT {
        return Err(Fault::Breach);
    }
    dfs(heads, node.height, node.node)
}
