//! The rows of a parent and two of its children, in a table of keys or of values.

use crate::cells::{move_cells, slice_remove};
use crate::ends::Side;
use crate::head::CAPACITY;

/// A parent, an entry of it, and the two children beside that entry, each with its number of entries.
#[derive(Clone, Copy, PartialEq, Eq, Debug)]
pub(crate) struct Pair {
    pub(crate) node: u16,
    pub(crate) idx: usize,
    pub(crate) len: usize,
    pub(crate) left: u16,
    pub(crate) left_len: usize,
    pub(crate) right: u16,
    pub(crate) right_len: usize,
}

impl Pair {
    ghost use Rattle.std.specs.Prelude.{◌≡◌, ◌+◌, ◌-◌, ◌*◌, ◌<◌, ◌≤◌, length};
    ghost use Rattle.node.specs.Rows.{MergedRow, StolenLeft, StolenRight};
    ghost use Rattle.node.specs.Neighbours.{HasRows};
    ghost use Rattle.node.specs.Rules.{at_side};

    /// The child at `side` of the entry.
    pub(crate) fn child_at(self, side: Side) -> u16
        ensures { result ≡ at_side side self.left self.right }
    {
        match side {
            Side::First => self.left,
            Side::Last => self.right,
        }
    }

    /// Moves the parent's cell and the right row behind the left row.
    pub(crate) fn merge_row<T: Copy>(self, cells: &mut [T])
        requires rows { HasRows cells.old self }
        requires room { length cells.old ≤ 11 * 4096 }
        requires fits { self.left_len + self.right_len + 1 ≤ 11 }
        ensures { MergedRow cells.old cells.new self.node self.idx self.len self.left self.left_len self.right self.right_len }
    {
        let node = CAPACITY * self.node as usize;
        let left = CAPACITY * self.left as usize;
        let right = CAPACITY * self.right as usize;
        let between = slice_remove(cells, node + self.idx, self.len - self.idx - 1);
        cells[left + self.left_len] = between;
        move_cells(cells, right, left + self.left_len + 1, self.right_len);
    }

    /// Moves the last `count` + 1 cells of the left row over, through the parent's cell.
    pub(crate) fn steal_left_row<T: Copy>(self, cells: &mut [T], count: usize)
        requires rows { HasRows cells.old self }
        requires enough { count < self.left_len }
        requires fits { count + 1 + self.right_len ≤ 11 }
        ensures { StolenLeft cells.old cells.new self.node self.idx self.left (self.left_len - 1 - count) count self.right self.right_len }
    {
        let node = CAPACITY * self.node as usize + self.idx;
        let keep = CAPACITY * self.left as usize + (self.left_len - 1 - count);
        let right = CAPACITY * self.right as usize;
        move_cells(cells, right, right + count + 1, self.right_len);
        move_cells(cells, keep + 1, right, count);
        cells[right + count] = cells[node];
        cells[node] = cells[keep];
    }

    /// Moves the first `count` + 1 cells of the right row over, through the parent's cell.
    pub(crate) fn steal_right_row<T: Copy>(self, cells: &mut [T], count: usize)
        requires rows { HasRows cells.old self }
        requires enough { count < self.right_len }
        requires fits { self.left_len + 1 + count ≤ 11 }
        ensures { StolenRight cells.old cells.new self.node self.idx self.left self.left_len count self.right (self.right_len - 1 - count) }
    {
        let node = CAPACITY * self.node as usize + self.idx;
        let left = CAPACITY * self.left as usize + self.left_len;
        let right = CAPACITY * self.right as usize;
        cells[left] = cells[node];
        move_cells(cells, right, left + 1, count);
        cells[node] = cells[right + count];
        move_cells(cells, right + count + 1, right, self.right_len - 1 - count);
    }
}
