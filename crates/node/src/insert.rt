//! Entries put into a node that has room.

ghost use Rattle.std.specs.Prelude.{◌≡◌, ◌+◌, ◌-◌, ◌*◌, ◌<◌, ◌≤◌, ◌∷◌, length, MatchResult};
ghost use Rattle.node.specs.Breaches.{Breached};
ghost use Rattle.node.specs.Cells.{span, Put};
ghost use Rattle.node.specs.Store.{tables, Sized, head_at};
ghost use Rattle.node.specs.Operations.{Lies, InsertsFit, InsertsEdge};

use crate::cells::slice_insert;
use crate::edges::with_edge;
use crate::head::{CAPACITY, Head};
use crate::links::correct_childrens_parent_links;
use crate::nodes::{Internal, Leaf};
use crate::tables::Tables;
use supply::Fault;

/// How many entries `node` has, where it has room for one at `idx`.
#[inline(always)]
fn room_in<K, V>(tables: &Tables<'_, K, V>, node: u16, idx: usize) -> Result<usize, Fault>
    ensures { MatchResult result (λ n. Lies tables.now node n × (n < 11) × (idx ≤ n)) (λ f. (f ≡ Fault.Breach) × (Sized tables.now → node < length tables.now.heads → (head_at tables.now node).len < 11 → idx ≤ (head_at tables.now node).len → ⊥)) }
{
    let len = tables.len_in(node)?;
    if len >= CAPACITY || idx > len {
        return Err(Fault::Breach);
    }
    Ok(len)
}

impl Leaf {
    /// Puts an entry at `idx` into a node that has room; its edges stay. Refuses with `Breach`.
    #[inline(always)]
    pub fn insert_fit<K: Copy, V: Copy>(
        self,
        heads: &mut [Head],
        keys: &mut [K],
        values: &mut [V],
        idx: usize,
        key: K,
        val: V,
    ) -> Result<(), Fault>
        ensures fault { Breached result }
        ensures inserts { InsertsFit (tables heads.old keys.old values.old) (tables heads.new keys.new values.new) self.node idx (key, val) result }
    {
        let shown = Tables {
            heads,
            keys,
            values,
        };
        let len = room_in(&shown, self.node, idx)?;
        let m = self.node as usize;
        slice_insert(keys, CAPACITY * m + idx, len - idx, key);
        slice_insert(values, CAPACITY * m + idx, len - idx, val);
        heads[m].len = (len + 1) as u16;
        Ok(())
    }
}

impl Internal {
    /// Puts an entry at `idx` into a node that has room, and an edge behind it. Refuses with `Breach`; what the tables hold afterwards is free
    /// then.
    pub fn insert_fit<K: Copy, V: Copy>(
        self,
        heads: &mut [Head],
        keys: &mut [K],
        values: &mut [V],
        idx: usize,
        key: K,
        val: V,
        edge: u16,
    ) -> Result<(), Fault>
        ensures fault { Breached result }
        ensures inserts { InsertsEdge (tables heads.old keys.old values.old) (tables heads.new keys.new values.new) self.node idx (key, val) edge result }
    {
        let shown = Tables {
            heads,
            keys,
            values,
        };
        let len = room_in(&shown, self.node, idx)?;
        let m = self.node as usize;
        slice_insert(keys, CAPACITY * m + idx, len - idx, key);
        slice_insert(values, CAPACITY * m + idx, len - idx, val);
        let edges = with_edge(&heads[m].edges, idx + 1, len - idx, edge);
        heads[m] = Head {
            len: (len + 1) as u16,
            edges,
            ..heads[m]
        };
        correct_childrens_parent_links(heads, self.node, idx + 1, len + 2)
    }
}
