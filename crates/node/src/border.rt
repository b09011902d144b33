//! A parent and two neighbours among its children: merged, or evened out through the entry between them.

ghost use Rattle.std.specs.Prelude.{◌≡◌, ℕ, ◌+◌, ◌-◌, ◌*◌, ◌<◌, ◌≤◌, List, length, IfOk, Ok, MatchResult};
ghost use Rattle.node.specs.Breaches.{Breached};
ghost use Rattle.node.specs.Store.{tables, Sized, Node};
ghost use Rattle.node.specs.Operations.{Pairs, Lies, CanMerge, Merges, StealsLeft, StealsRight};
ghost use Rattle.node.specs.Neighbours.{Paired, PairedOf, Steals, JoinsChildren};
ghost use Rattle.node.specs.Rules.{choice};
ghost use Rattle.node.specs.declared.choice.Choice.TheVariants.{Move};

use crate::choice::Choice;
use crate::edges::{edge_at, move_edges, with_edges_of, without_edge};
use crate::ends::Side;
use crate::head::{CAPACITY, Head};
use crate::links::correct_childrens_parent_links;
use crate::nodes::{Internal, NodeRef};
use crate::rows::Pair;
use crate::tables::Tables;
use supply::Fault;

/// Refuses where `count` entries, at least one, cannot go from a node with `source` entries to one with `dest`.
fn check_count(count: usize, source: usize, dest: usize) -> Result<(), Fault>
    ensures { MatchResult result (λ _. (0 < count) × (count ≤ source) × (count + dest ≤ 11)) (λ f. (f ≡ Fault.Breach) × (0 < count → count ≤ source → count + dest ≤ 11 → ⊥)) }
{
    if count == 0 || count > source {
        return Err(Fault::Breach);
    }
    if dest > CAPACITY || count > CAPACITY - dest {
        return Err(Fault::Breach);
    }
    Ok(())
}

impl Internal {
    /// A child, which is one level lower.
    pub fn child(self, node: u16) -> NodeRef
        ensures { (result.node ≡ node) × (result.height ≡ self.height - 1) }
    {
        NodeRef {
            node,
            height: self.height.saturating_sub(1),
        }
    }

    /// The two children beside the entry at `idx`, each a node of its own.
    fn pair<K, V>(self, tables: &Tables<'_, K, V>, idx: usize) -> Result<Pair, Fault>
        ensures fault { Breached result }
        ensures lies { IfOk result (λ q. Paired tables.now self.node idx q) }
        ensures held { PairedOf tables.now self.node idx result }
    {
        let len = tables.len_in(self.node)?;
        if idx >= len {
            return Err(Fault::Breach);
        }
        let edges = &tables.heads[self.node as usize].edges;
        let left = edge_at(edges, idx);
        let right = edge_at(edges, idx + 1);
        if left == self.node || right == self.node || left == right {
            return Err(Fault::Breach);
        }
        let left_len = tables.len_in(left)?;
        let right_len = tables.len_in(right)?;
        Ok(Pair {
            node: self.node,
            idx,
            len,
            left,
            left_len,
            right,
            right_len,
        })
    }

    /// Whether both children beside the entry at `idx`, and that entry, fit into one node. Refuses with `Breach` where the tables hold no such
    /// parent and children.
    pub fn can_merge<K, V>(self, tables: &Tables<'_, K, V>, idx: usize) -> Result<bool, Fault>
        ensures fault { Breached result }
        ensures fits { CanMerge tables.now self.node idx result }
    {
        let pair = self.pair(tables, idx)?;
        Ok(pair.left_len + pair.right_len + 1 <= CAPACITY)
    }

    /// Merges the children beside the entry at `idx`, and that entry, into the left one. Answers both: the right one is left over.
    /// Refuses with `Breach`; what the tables hold afterwards is free then.
    pub fn merge<K: Copy, V: Copy>(
        self,
        heads: &mut [Head],
        keys: &mut [K],
        values: &mut [V],
        idx: usize,
    ) -> Result<(u16, u16), Fault>
        ensures fault { Breached result }
        ensures merges { Merges (tables heads.old keys.old values.old) (tables heads.new keys.new values.new) self.height self.node idx result }
    {
        let shown = Tables {
            heads,
            keys,
            values,
        };
        let pair = self.pair(&shown, idx)?;
        if pair.left_len + pair.right_len + 1 > CAPACITY {
            return Err(Fault::Breach);
        }
        self.merge_pair(heads, keys, values, pair)
    }

    /// Merges the two of `pair`, which fit together, and the entry between them into the left one.
    fn merge_pair<K: Copy, V: Copy>(
        self,
        heads: &mut [Head],
        keys: &mut [K],
        values: &mut [V],
        pair: Pair,
    ) -> Result<(u16, u16), Fault>
        requires lies { Paired (tables heads.old keys.old values.old) self.node pair.idx pair }
        requires held { PairedOf (tables heads.old keys.old values.old) self.node pair.idx (Ok pair) }
        requires fits { pair.left_len + pair.right_len + 1 ≤ 11 }
        ensures fault { Breached result }
        ensures merges { Merges (tables heads.old keys.old values.old) (tables heads.new keys.new values.new) self.height self.node pair.idx result }
    {
        pair.merge_row(keys);
        pair.merge_row(values);
        let count = self.child(pair.right).edge_count(pair.right_len);
        let first = pair.left_len + 1;
        let below = move_edges(heads, pair.right, 0, pair.left, first, count);
        let own = without_edge(
            &heads[self.node as usize].edges,
            pair.idx + 1,
            pair.len - pair.idx - 1,
        );
        heads[self.node as usize] = Head {
            len: (pair.len - 1) as u16,
            edges: own,
            ..heads[self.node as usize]
        };
        heads[pair.left as usize] = Head {
            len: (first + pair.right_len) as u16,
            edges: below,
            ..heads[pair.left as usize]
        };
        correct_childrens_parent_links(heads, self.node, pair.idx + 1, pair.len)?;
        correct_childrens_parent_links(heads, pair.left, first, first + count)?;
        Ok((pair.left, pair.right))
    }

    /// Moves `count` entries from the left child beside the entry at `idx` to the right one, through that entry.
    /// Refuses with `Breach`; what the tables hold afterwards is free then.
    pub fn bulk_steal_left<K: Copy, V: Copy>(
        self,
        heads: &mut [Head],
        keys: &mut [K],
        values: &mut [V],
        idx: usize,
        count: usize,
    ) -> Result<(), Fault>
        ensures fault { Breached result }
        ensures steals { StealsLeft (tables heads.old keys.old values.old) (tables heads.new keys.new values.new) self.height self.node idx count result }
    {
        let shown = Tables {
            heads,
            keys,
            values,
        };
        let pair = self.pair(&shown, idx)?;
        check_count(count, pair.left_len, pair.right_len)?;
        self.steal_left_pair(heads, keys, values, pair, count)
    }

    /// Moves `count` entries of `pair` from the left one to the right one, which has room.
    fn steal_left_pair<K: Copy, V: Copy>(
        self,
        heads: &mut [Head],
        keys: &mut [K],
        values: &mut [V],
        pair: Pair,
        count: usize,
    ) -> Result<(), Fault>
        requires lies { Paired (tables heads.old keys.old values.old) self.node pair.idx pair }
        requires held { PairedOf (tables heads.old keys.old values.old) self.node pair.idx (Ok pair) }
        requires some { 0 < count }
        requires enough { count ≤ pair.left_len }
        requires fits { count + pair.right_len ≤ 11 }
        ensures fault { Breached result }
        ensures steals { StealsLeft (tables heads.old keys.old values.old) (tables heads.new keys.new values.new) self.height self.node pair.idx count result }
    {
        pair.steal_left_row(keys, count - 1);
        pair.steal_left_row(values, count - 1);
        let keep = pair.left_len - count;
        let moved = self.child(pair.left).edge_count(count - 1);
        let rest = self.child(pair.right).edge_count(pair.right_len);
        let room = move_edges(heads, pair.right, 0, pair.right, moved, rest);
        let edges = with_edges_of(&heads[pair.left as usize].edges, keep + 1, &room, 0, moved);
        heads[pair.left as usize].len = keep as u16;
        heads[pair.right as usize] = Head {
            len: (pair.right_len + count) as u16,
            edges,
            ..heads[pair.right as usize]
        };
        correct_childrens_parent_links(heads, pair.right, 0, moved + rest)
    }

    /// Moves `count` entries from the right child beside the entry at `idx` to the left one, through that entry.
    /// Refuses with `Breach`; what the tables hold afterwards is free then.
    pub fn bulk_steal_right<K: Copy, V: Copy>(
        self,
        heads: &mut [Head],
        keys: &mut [K],
        values: &mut [V],
        idx: usize,
        count: usize,
    ) -> Result<(), Fault>
        ensures fault { Breached result }
        ensures steals { StealsRight (tables heads.old keys.old values.old) (tables heads.new keys.new values.new) self.height self.node idx count result }
    {
        let shown = Tables {
            heads,
            keys,
            values,
        };
        let pair = self.pair(&shown, idx)?;
        check_count(count, pair.right_len, pair.left_len)?;
        self.steal_right_pair(heads, keys, values, pair, count)
    }

    /// Moves `count` entries of `pair` from the right one to the left one, which has room.
    fn steal_right_pair<K: Copy, V: Copy>(
        self,
        heads: &mut [Head],
        keys: &mut [K],
        values: &mut [V],
        pair: Pair,
        count: usize,
    ) -> Result<(), Fault>
        requires lies { Paired (tables heads.old keys.old values.old) self.node pair.idx pair }
        requires held { PairedOf (tables heads.old keys.old values.old) self.node pair.idx (Ok pair) }
        requires some { 0 < count }
        requires enough { count ≤ pair.right_len }
        requires fits { count + pair.left_len ≤ 11 }
        ensures fault { Breached result }
        ensures steals { StealsRight (tables heads.old keys.old values.old) (tables heads.new keys.new values.new) self.height self.node pair.idx count result }
    {
        pair.steal_right_row(keys, count - 1);
        pair.steal_right_row(values, count - 1);
        let keep = pair.right_len - count;
        let moved = self.child(pair.left).edge_count(count - 1);
        let rest = self.child(pair.right).edge_count(keep);
        let first = pair.left_len + 1;
        let below = move_edges(heads, pair.right, 0, pair.left, first, moved);
        let edges = move_edges(heads, pair.right, moved, pair.right, 0, rest);
        heads[pair.left as usize] = Head {
            len: (pair.left_len + count) as u16,
            edges: below,
            ..heads[pair.left as usize]
        };
        heads[pair.right as usize] = Head {
            len: keep as u16,
            edges,
            ..heads[pair.right as usize]
        };
        correct_childrens_parent_links(heads, pair.left, first, first + moved)?;
        correct_childrens_parent_links(heads, pair.right, 0, rest)
    }

    /// Moves `count` entries of `pair` to the one at `side`, as was chosen for it.
    fn steal_pair<K: Copy, V: Copy>(
        self,
        heads: &mut [Head],
        keys: &mut [K],
        values: &mut [V],
        side: Side,
        pair: Pair,
        count: usize,
    ) -> Result<(), Fault>
        requires lies { Paired (tables heads.old keys.old values.old) self.node pair.idx pair }
        requires held { PairedOf (tables heads.old keys.old values.old) self.node pair.idx (Ok pair) }
        requires chosen { choice side pair.left_len pair.right_len ≡ Move count }
        ensures fault { Breached result }
        ensures steals { Steals side (tables heads.old keys.old values.old) (tables heads.new keys.new values.new) self.height self.node pair.idx count result }
    {
        match side {
            Side::First => self.steal_right_pair(heads, keys, values, pair, count),
            Side::Last => self.steal_left_pair(heads, keys, values, pair, count),
        }
    }

    /// Merges the children beside the entry at `idx`, or raises the one at `side`, which stands at the border, or leaves both, as their
    /// lengths choose. Each of the two lengths is looked up once, and what is done is given both.
    /// Answers the border child, and the right one as left over where they were merged. Refuses with `Breach` where the tables hold no such
    /// parent and children; what they hold afterwards is free then.
    pub fn join_children<K: Copy, V: Copy>(
        self,
        heads: &mut [Head],
        keys: &mut [K],
        values: &mut [V],
        side: Side,
        idx: usize,
    ) -> Result<(u16, Option<u16>), Fault>
        ensures fault { Breached result }
        ensures joins { JoinsChildren side (tables heads.old keys.old values.old) (tables heads.new keys.new values.new) self.height self.node idx result }
    {
        let shown = Tables {
            heads,
            keys,
            values,
        };
        let pair = self.pair(&shown, idx)?;
        match Choice::of(side, pair.left_len, pair.right_len) {
            Choice::Merge => {
                let (left, right) = self.merge_pair(heads, keys, values, pair)?;
                Ok((left, Some(right)))
            }
            Choice::Move(count) => {
                self.steal_pair(heads, keys, values, side, pair, count)?;
                Ok((pair.child_at(side), None))
            }
            Choice::Leave => Ok((pair.child_at(side), None)),
        }
    }
}
