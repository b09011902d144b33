//! Moves of cells within a table, the same for keys, values and edges.

ghost use Rattle.std.specs.Prelude.{◌≡◌, ◌+◌, ◌<◌, ◌≤◌, [], ◌∷◌, length};
ghost use Rattle.node.specs.Cells.{span, Put};

/// Copies `count` cells from `from` on to those from `to` on.
#[inline(always)]
pub(crate) fn move_cells<T: Copy>(cells: &mut [T], from: usize, to: usize, count: usize)
    requires source { from + count ≤ length cells.old }
    requires target { to + count ≤ length cells.old }
    ensures { Put cells.old cells.new to (span cells.old from count) }
{
    cells.copy_within(from..from + count, to);
}

/// Puts `val` at `at`, and the `behind` cells that stood from there on behind it.
#[inline(always)]
pub(crate) fn slice_insert<T: Copy>(cells: &mut [T], at: usize, behind: usize, val: T)
    requires { at + behind < length cells.old }
    ensures { Put cells.old cells.new at (val ∷ span cells.old at behind) }
{
    move_cells(cells, at, at + 1, behind);
    cells[at] = val;
}

/// Takes out the cell at `at`, and moves the `behind` cells behind it forward.
pub(crate) fn slice_remove<T: Copy>(cells: &mut [T], at: usize, behind: usize) -> T
    requires { at + behind < length cells.old }
    ensures value { span cells.old at 1 ≡ result ∷ [] }
    ensures after { Put cells.old cells.new at (span cells.old (at + 1) behind) }
{
    let val = cells[at];
    move_cells(cells, at + 1, at, behind);
    val
}
