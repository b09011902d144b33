//! Walks over the entries of a tree, from both ends.

ghost use Rattle.std.specs.Prelude.{◌≡◌, ◌*◌, ◌<◌, ◌≤◌, true, length, Ok};
ghost use Rattle.node.specs.Breaches.{Breached};
ghost use Rattle.walk.specs.Climbs.{Finds};
ghost use Rattle.walk.specs.Leaving.{GivesBack};
ghost use Rattle.walk.specs.Walks.{end_of, moved, Opens, Stepped, StandsAt, Emptied, Closes, Releases};

use crate::climb::{Spot, clear, find, find_in_leaf, leave, next_edge};
use node::count::{MAX_HEIGHT, len_at};
use node::ends::{Handle, Side, leaf_edge};
use node::head::{CAPACITY, Head, NULL};
use node::nodes::NodeRef;
use node::tables::{MOST, Tables};
use supply::{Fault, Supply};

/// The entries between two edges of leaves, and how many they are.
#[derive(Clone, Copy, PartialEq, Eq, Debug)]
pub struct Walk {
    pub front: Handle,
    pub back: Handle,
    pub left: usize,
}

/// The edge at both ends of a walk without nodes.
const NO_EDGE: Handle = Handle { node: NULL, idx: 0 };

/// The entry at a place of the tables.
#[inline(always)]
fn entry_at<K: Copy, V: Copy>(tables: &Tables<'_, K, V>, spot: Spot) -> Result<(K, V), Fault>
    requires { spot.idx < 11 }
    ensures fault { Breached result }
    ensures entry { StandsAt tables.now spot result }
{
    tables.len_in(spot.node)?;
    let at = CAPACITY * spot.node as usize + spot.idx as usize;
    let Tables { keys, values, .. } = tables;
    Ok((keys[at], values[at]))
}

/// Whether so many entries can stand in tables of so many nodes.
fn fit(left: usize, nodes: usize) -> bool
    ensures none { left ≡ 0 → result ≡ true }
    ensures held { nodes ≤ 4096 → left ≤ 11 * nodes → result ≡ true }
    ensures few { result ≡ true → left ≤ 11 * nodes }
{
    left == 0 || (nodes <= MOST && left <= CAPACITY * nodes)
}

impl Walk {
    /// The edge at one end.
    #[inline(always)]
    fn end(self, side: Side) -> Handle
        ensures { result ≡ end_of side self }
    {
        match side {
            Side::First => self.front,
            Side::Last => self.back,
        }
    }

    /// The walk with another edge at one end, and one entry less.
    #[inline(always)]
    fn with_end(self, side: Side, edge: Handle) -> Walk
        requires { 0 < self.left }
        ensures { result ≡ moved side edge self }
    {
        let left = self.left - 1;
        match side {
            Side::First => Walk {
                front: edge,
                left,
                ..self
            },
            Side::Last => Walk {
                back: edge,
                left,
                ..self
            },
        }
    }

    /// Hands out the entry at `spot`, the first one beside the edge at this end, and gives back the nodes between the two.
    #[inline(always)]
    fn hand_out<K: Copy, V: Copy, S: Supply>(
        &mut self,
        tables: &Tables<'_, K, V>,
        supply: &mut S,
        side: Side,
        spot: Spot,
    ) -> Result<Option<(K, V)>, Fault>
        requires left { 0 < self.old.left }
        requires inside { spot.node < length tables.now.heads }
        requires low { spot.idx < 11 }
        ensures { Finds side tables.now.heads 0 (end_of side self.old) (Ok spot) → Stepped side tables.now (S.stock supply.old) (S.stock supply.new) self.old self.new result }
    {
        let entry = entry_at(tables, spot)?;
        let edge = next_edge(tables.heads, side, spot)?;
        leave(tables.heads, supply, self.end(side).node, spot.level)?;
        *self = self.with_end(side, edge);
        Ok(Some(entry))
    }

    /// Hands out the entry at one end, and gives back the nodes that it leaves behind.
    #[inline(always)]
    pub fn step<K: Copy, V: Copy, S: Supply>(
        &mut self,
        tables: &Tables<'_, K, V>,
        supply: &mut S,
        side: Side,
    ) -> Result<Option<(K, V)>, Fault>
        ensures { Stepped side tables.now (S.stock supply.old) (S.stock supply.new) self.old self.new result }
    {
        if self.left == 0 {
            return Ok(None);
        }
        let at = self.end(side);
        if let Some(spot) = find_in_leaf(tables.heads, side, at) {
            return self.hand_out(tables, supply, side, spot);
        }
        let spot = find(tables.heads, side, at, 0)?;
        self.hand_out(tables, supply, side, spot)
    }

    /// Hands out the least entry left, or none where none is left. A node that is left behind goes back to the supply.
    pub fn next<K: Copy, V: Copy, S: Supply>(
        &mut self,
        tables: &Tables<'_, K, V>,
        supply: &mut S,
    ) -> Result<Option<(K, V)>, Fault>
        ensures { Stepped Side.First tables.now (S.stock supply.old) (S.stock supply.new) self.old self.new result }
    {
        self.step(tables, supply, Side::First)
    }

    /// Hands out the greatest entry left, or none where none is left. A node that is left behind goes back to the supply.
    pub fn next_back<K: Copy, V: Copy, S: Supply>(
        &mut self,
        tables: &Tables<'_, K, V>,
        supply: &mut S,
    ) -> Result<Option<(K, V)>, Fault>
        ensures { Stepped Side.Last tables.now (S.stock supply.old) (S.stock supply.new) self.old self.new result }
    {
        self.step(tables, supply, Side::Last)
    }

    /// A walk over all entries of the tree under `root`, which are `count`; over none where there is no root.
    pub fn open<K, V>(
        tables: &Tables<'_, K, V>,
        root: Option<NodeRef>,
        count: usize,
    ) -> Result<Walk, Fault>
        ensures { Opens tables.now root count result }
    {
        let Some(root) = root else {
            return Ok(Walk {
                front: NO_EDGE,
                back: NO_EDGE,
                left: 0,
            });
        };
        tables.len_in(root.node)?;
        Ok(Walk {
            front: leaf_edge(tables.heads, Side::First, root)?,
            back: leaf_edge(tables.heads, Side::Last, root)?,
            left: count,
        })
    }

    /// Steps until none is left, and says how many entries that were.
    fn empty<K: Copy, V: Copy, S: Supply>(
        &mut self,
        tables: &Tables<'_, K, V>,
        supply: &mut S,
    ) -> Result<usize, Fault>
        ensures { Emptied tables.now (S.stock supply.old) (S.stock supply.new) self.old self.new result }
    {
        let dropped = self.left;
        while let Some(_) = self.next(tables, supply)? {}
        Ok(dropped)
    }

    /// Drops the entries that are left, and gives back all nodes of the walk. Answers how many entries were dropped.
    pub fn close<K: Copy, V: Copy, S: Supply>(
        self,
        tables: &Tables<'_, K, V>,
        supply: &mut S,
    ) -> Result<usize, Fault>
        ensures { Closes tables.now (S.stock supply.old) (S.stock supply.new) self result }
    {
        if !fit(self.left, tables.heads.len()) {
            return Err(Fault::Breach);
        }
        let mut walk = self;
        let dropped = walk.empty(tables, supply)?;
        clear(tables.heads, supply, walk.front.node)?;
        Ok(dropped)
    }
}

/// Gives back `node`, and then all nodes under it; one that is reached again is refused.
fn give_back_under<S: Supply>(
    heads: &[Head],
    supply: &mut S,
    height: u16,
    node: u16,
) -> Result<(), Fault>
    requires { height ≤ 5 }
    ensures { GivesBack (S.stock supply.old) (S.stock supply.new) heads.now height node result }
{
    let len = len_at(heads, node)?;
    supply.give_back(node)?;
    if height == 0 {
        return Ok(());
    }
    let head = heads[node as usize];
    for child in &head.edges[0..len + 1] {
        give_back_under(heads, supply, height - 1, *child)?;
    }
    Ok(())
}

/// Drops the entries of the tree under `root`, which are `count`, and gives back its nodes. Answers how many entries were dropped.
pub fn release<K, V, S: Supply>(
    tables: &Tables<'_, K, V>,
    supply: &mut S,
    root: Option<NodeRef>,
    count: usize,
) -> Result<usize, Fault>
    ensures { Releases tables.now (S.stock supply.old) (S.stock supply.new) root count result }
{
    let Some(root) = root else {
        return Ok(0);
    };
    if root.height > MAX_HEIGHT {
        return Err(Fault::Breach);
    }
    give_back_under(tables.heads, supply, root.height, root.node)?;
    Ok(count)
}
