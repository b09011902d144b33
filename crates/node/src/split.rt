//! The back part of a node moved to another.

ghost use Rattle.std.specs.Prelude.{◌≡◌, ◌+◌, ◌-◌, ◌*◌, ◌<◌, ◌≤◌, length, MatchResult, ◌≢◌};
ghost use Rattle.node.specs.Breaches.{Breached};
ghost use Rattle.node.specs.Store.{tables, head_at};
ghost use Rattle.node.specs.Operations.{Lies, MovesTail, Splits, MovesSuffix};

use crate::cells::move_cells;
use crate::edges::move_edges;
use crate::head::{CAPACITY, Head};
use crate::links::correct_childrens_parent_links;
use crate::nodes::NodeRef;
use crate::tables::Tables;
use supply::Fault;

impl NodeRef {
    /// Refuses where `right` is not another node of the table.
    fn check_beside(self, heads: &[Head], right: u16) -> Result<(), Fault>
        ensures { MatchResult result (λ _. (right < length heads.now) × (right ≢ self.node)) (λ f. (f ≡ Fault.Breach) × (right < length heads.now → (right ≢ self.node) → ⊥)) }
    {
        if right as usize >= heads.len() || right == self.node {
            return Err(Fault::Breach);
        }
        Ok(())
    }

    /// Keeps `keep` entries of `len`, passes over `skip`, and moves those behind them to `right`, with their edges.
    fn move_tail<K: Copy, V: Copy>(
        self,
        heads: &mut [Head],
        keys: &mut [K],
        values: &mut [V],
        len: usize,
        keep: usize,
        skip: usize,
        right: u16,
    ) -> Result<(), Fault>
        requires lies { Lies (tables heads.old keys.old values.old) self.node len }
        requires within { keep + skip ≤ len }
        requires one { skip ≤ 1 }
        requires right { right < length heads.old }
        requires other { right ≢ self.node }
        ensures fault { Breached result }
        ensures moves { MovesTail (tables heads.old keys.old values.old) (tables heads.new keys.new values.new) self.height self.node keep skip right result }
    {
        let m = self.node as usize;
        let n = right as usize;
        let count = len - keep - skip;
        move_cells(keys, CAPACITY * m + keep + skip, CAPACITY * n, count);
        move_cells(values, CAPACITY * m + keep + skip, CAPACITY * n, count);
        let first = 1 - skip;
        let last = self.edge_count(count).max(first);
        let edges = move_edges(heads, self.node, keep + 1, right, first, last - first);
        heads[m].len = keep as u16;
        heads[n] = Head {
            len: count as u16,
            edges,
            ..heads[n]
        };
        correct_childrens_parent_links(heads, right, first, last)
    }

    /// Gives up the entry at `idx`; what is behind it goes to the unused node `right`. Refuses with `Breach`; what the tables hold afterwards is
    /// free then.
    pub fn split<K: Copy, V: Copy>(
        self,
        heads: &mut [Head],
        keys: &mut [K],
        values: &mut [V],
        idx: usize,
        right: u16,
    ) -> Result<(K, V), Fault>
        ensures fault { Breached result }
        ensures splits { Splits (tables heads.old keys.old values.old) (tables heads.new keys.new values.new) self.height self.node idx right result }
    {
        let shown = Tables {
            heads,
            keys,
            values,
        };
        let len = shown.len_in(self.node)?;
        if idx >= len {
            return Err(Fault::Breach);
        }
        self.check_beside(heads, right)?;
        let at = CAPACITY * self.node as usize + idx;
        let entry = (keys[at], values[at]);
        self.move_tail(heads, keys, values, len, idx, 1, right)?;
        Ok(entry)
    }

    /// Moves the entries from `idx` on to the empty node `right`, and their edges behind its first edge. Refuses with `Breach`; what the tables
    /// hold afterwards is free then.
    pub fn move_suffix<K: Copy, V: Copy>(
        self,
        heads: &mut [Head],
        keys: &mut [K],
        values: &mut [V],
        idx: usize,
        right: u16,
    ) -> Result<(), Fault>
        ensures fault { Breached result }
        ensures moves { MovesSuffix (tables heads.old keys.old values.old) (tables heads.new keys.new values.new) self.height self.node idx right result }
    {
        let shown = Tables {
            heads,
            keys,
            values,
        };
        let len = shown.len_in(self.node)?;
        if idx > len {
            return Err(Fault::Breach);
        }
        self.check_beside(heads, right)?;
        self.move_tail(heads, keys, values, len, idx, 0, right)
    }
}
