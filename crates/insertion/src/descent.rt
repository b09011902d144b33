//! Insertion from a node down to a leaf, and the splits on the way back.

ghost use Rattle.std.specs.Prelude.{◌≡◌, ◌+◌, ◌<◌, ◌≤◌, true};
ghost use Rattle.node.specs.Store.{head_in};

use map::insert::{insert_fit, insert_full, replace_value};
use map::search::search_in;
use node::head::{CAPACITY, Head};
use node::nodes::{ForceResult, Internal, NodeRef};
use node::tables::Tables;
use order::keys::KeyOrder;
use order::search::SearchResult;
use supply::{Fault, Supply, spare};

/// What came of an insertion under a node: a value replaced, room found, or a split with the entry that rises and the new right node.
#[derive(Clone, Copy, PartialEq, Eq, Debug)]
pub enum InsertResult<K, V> {
    Replaced(V),
    Fit,
    Split(K, V, u16),
}

/// A node on the way down, and how many more nodes its ancestors take if it is split.
#[derive(Clone, Copy)]
pub(crate) struct Way {
    pub(crate) node: NodeRef,
    pub(crate) above: u16,
    ghost low: { above + node.height ≤ 6 },
}

/// Whether `node` lies in the table and has room for an entry.
fn has_room(heads: &[Head], node: u16) -> bool
    ensures { result ≡ true → (head_in heads.now node).len < 11 }
{
    match heads.get(node as usize) {
        Some(head) => (head.len as usize) < CAPACITY,
        None => false,
    }
}

impl Way {
    ghost use Rattle.std.specs.Prelude.{◌≡◌, ℕ, ◌+◌, MatchResult};
    ghost use Rattle.order.specs.declared.search.SearchResult.TheVariants.{GoDown};
    ghost use Rattle.node.specs.declared.nodes.ForceResult.TheVariants as ForceResult;
    ghost use Rattle.node.specs.Kinds.{forced};
    ghost use Rattle.map.specs.Lookup.{SearchedIn};
    ghost use Rattle.node.specs.Store.{tables};
    ghost use Rattle.insertion.specs.Descent.{TookFor, Settles, Lowered, Bare, Descends, above_child};

    /// How many nodes the ancestors of a child take if it is split, where this node has `len` entries.
    fn above_child(self, len: u16) -> u16
        ensures { result ≡ above_child len self.above }
    {
        if (len as usize) < CAPACITY {
            0
        } else {
            self.above + 1
        }
    }

    /// A number, where one may be taken for the node and each ancestor that is split with it.
    fn take<S: Supply>(self, supply: &mut S) -> Result<u16, Fault>
        ensures { TookFor (S.stock supply.old) (S.stock supply.new) (self.above + 1) result }
    {
        spare(supply, self.above + 1)?;
        supply.take()
    }

    /// Splits the node, which is full, and puts an entry at `idx` into the half where it belongs.
    fn settle_full<K: Copy, V: Copy, S: Supply>(
        self,
        heads: &mut [Head],
        keys: &mut [K],
        values: &mut [V],
        supply: &mut S,
        idx: usize,
        key: K,
        val: V,
        edge: u16,
    ) -> Result<InsertResult<K, V>, Fault>
        requires { 11 ≤ (head_in heads.old self.node.node).len }
        ensures { Settles (tables heads.old keys.old values.old) (tables heads.new keys.new values.new) (S.stock supply.old) (S.stock supply.new) self.node.height self.node.node idx (key, val) edge self.above result }
    {
        let right = self.take(supply)?;
        let (k, v) = insert_full(heads, keys, values, self.node, idx, key, val, edge, right)?;
        Ok(InsertResult::Split(k, v, right))
    }

    /// Puts an entry at `idx` into the node, which is split where it is full. Above the leaves `edge` goes behind the entry.
    /// With fewer numbers left than this node and its ancestors take nothing is done.
    #[inline(always)]
    fn settle<K: Copy, V: Copy, S: Supply>(
        self,
        heads: &mut [Head],
        keys: &mut [K],
        values: &mut [V],
        supply: &mut S,
        idx: usize,
        key: K,
        val: V,
        edge: u16,
    ) -> Result<InsertResult<K, V>, Fault>
        ensures { Settles (tables heads.old keys.old values.old) (tables heads.new keys.new values.new) (S.stock supply.old) (S.stock supply.new) self.node.height self.node.node idx (key, val) edge self.above result }
    {
        let shown = Tables {
            heads,
            keys,
            values,
        };
        let len = shown.len_in(self.node.node)?;
        if len < CAPACITY {
            insert_fit(heads, keys, values, self.node, idx, key, val, edge)?;
            return Ok(InsertResult::Fit);
        }
        self.settle_full(heads, keys, values, supply, idx, key, val, edge)
    }

    /// Goes down by the search as long as the next node has room: what is put in there changes no node above. Answers the last such node
    /// with the result of the search in it.
    #[inline(always)]
    fn lower<K: KeyOrder, V>(
        self,
        tables: &Tables<'_, K, V>,
        key: &K,
    ) -> Result<(Way, SearchResult), Fault>
        ensures { MatchResult result (λ p. Lowered (K.KeyOrder.compares key.now) tables.now self.node self.above p.0.node p.0.above p.1) (λ _. Bare tables.now self.node) }
    {
        let mut way = self;
        loop {
            let (found, _) = search_in(tables, way.node.node, key)?;
            let SearchResult::GoDown(idx) = found else {
                return Ok((way, found));
            };
            let ForceResult::Internal(inner) = way.node.force() else {
                return Ok((way, found));
            };
            let node = inner.child(tables.heads[inner.node as usize].edges[idx]);
            if !has_room(tables.heads, node.node) {
                return Ok((way, found));
            }
            way = Way {
                node,
                above: way.above_child(tables.heads[inner.node as usize].len),
            };
        }
    }

    /// Puts an entry in under the child at `idx`, where the search stopped, and then into the node what rises out of a split of that child.
    #[cycle(insert)]
    fn insert_below<K: KeyOrder, V: Copy, S: Supply>(
        self,
        heads: &mut [Head],
        keys: &mut [K],
        values: &mut [V],
        supply: &mut S,
        inner: Internal,
        idx: usize,
        key: K,
        val: V,
    ) -> Result<InsertResult<K, V>, Fault>
        requires kind { ForceResult.Internal inner ≡ forced self.node }
        requires searched { (made : ℕ) × SearchedIn (K.KeyOrder.compares key) (tables heads.old keys.old values.old) self.node.node (GoDown idx) made }
        ensures { Descends (K.KeyOrder.compares key) (tables heads.old keys.old values.old) (tables heads.new keys.new values.new) (S.stock supply.old) (S.stock supply.new) self.node.height self.node.node (key, val) self.above result }
    {
        let next = Way {
            node: inner.child(heads[inner.node as usize].edges[idx]),
            above: self.above_child(heads[inner.node as usize].len),
        };
        let below = next.insert_under(heads, keys, values, supply, key, val)?;
        let InsertResult::Split(k, v, right) = below else {
            return Ok(below);
        };
        self.settle(heads, keys, values, supply, idx, k, v, right)
    }

    /// Puts an entry in under the node: at the key that is the same as `key` its value is replaced, else the entry goes into the leaf where it
    /// belongs, and nodes that are full are split on the way back.
    #[cycle(insert)]
    #[inline(always)]
    pub(crate) fn insert_under<K: KeyOrder, V: Copy, S: Supply>(
        self,
        heads: &mut [Head],
        keys: &mut [K],
        values: &mut [V],
        supply: &mut S,
        key: K,
        val: V,
    ) -> Result<InsertResult<K, V>, Fault>
        ensures { Descends (K.KeyOrder.compares key) (tables heads.old keys.old values.old) (tables heads.new keys.new values.new) (S.stock supply.old) (S.stock supply.new) self.node.height self.node.node (key, val) self.above result }
    {
        let shown = Tables {
            heads,
            keys,
            values,
        };
        let (way, found) = self.lower(&shown, &key)?;
        match found {
            SearchResult::Found(idx) => {
                let old = replace_value(heads, keys, values, way.node.node, idx, val)?;
                Ok(InsertResult::Replaced(old))
            }
            SearchResult::GoDown(idx) => match way.node.force() {
                ForceResult::Leaf(_) => way.settle(heads, keys, values, supply, idx, key, val, 0),
                ForceResult::Internal(inner) => {
                    way.insert_below(heads, keys, values, supply, inner, idx, key, val)
                }
            },
        }
    }
}
