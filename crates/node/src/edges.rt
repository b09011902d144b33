//! The twelve edges of a node.

ghost use Rattle.std.specs.Prelude.{◌≡◌, ◌+◌, ◌<◌, ◌≤◌, ◌∷◌, length, slice_index, slice_set};
ghost use Rattle.node.specs.Cells.{span, Put};
ghost use Rattle.node.specs.Store.{head_in};

use crate::cells::{slice_insert, slice_remove};
use crate::head::Head;

/// The edge at `index`.
pub(crate) fn edge_at(edges: &[u16; 12], index: usize) -> u16
    requires { index < 12 }
    ensures value { result ≡ slice_index edges.now index }
    ensures wide { length edges.now ≡ 12 }
{
    edges[index]
}

/// `edges` with `edge` in the first place.
pub(crate) fn with_first_edge(edges: &[u16; 12], edge: u16) -> [u16; 12]
    ensures value { result ≡ slice_set edges.now 0 edge }
    ensures wide { length edges.now ≡ 12 }
{
    let mut all = *edges;
    all[0] = edge;
    all
}

/// `edges` with `edge` at `at`, and the `behind` edges that stood from there on behind it.
pub(crate) fn with_edge(edges: &[u16; 12], at: usize, behind: usize, edge: u16) -> [u16; 12]
    requires { at + behind < 12 }
    ensures { Put edges.now result at (edge ∷ span edges.now at behind) }
{
    let mut all = *edges;
    slice_insert(&mut all, at, behind, edge);
    all
}

/// `edges` without the one at `at`, with the `behind` edges behind it moved forward.
pub(crate) fn without_edge(edges: &[u16; 12], at: usize, behind: usize) -> [u16; 12]
    requires { at + behind < 12 }
    ensures { Put edges.now result at (span edges.now (at + 1) behind) }
{
    let mut all = *edges;
    slice_remove(&mut all, at, behind);
    all
}

/// `to` with `count` edges of `source` from `at` on in the place of its own from `dest` on.
pub(crate) fn with_edges_of(
    source: &[u16; 12],
    at: usize,
    to: &[u16; 12],
    dest: usize,
    count: usize,
) -> [u16; 12]
    requires source { at + count ≤ 12 }
    requires target { dest + count ≤ 12 }
    ensures { Put to.now result dest (span source.now at count) }
{
    let mut all = *to;
    all[dest..dest + count].copy_from_slice(&source[at..at + count]);
    all
}

/// The edges of `dest` with `count` edges of `source` from `source_offset` on in the place of its own from `dest_offset` on.
pub(crate) fn move_edges(
    heads: &[Head],
    source: u16,
    source_offset: usize,
    dest: u16,
    dest_offset: usize,
    count: usize,
) -> [u16; 12]
    requires source_in { source < length heads.now }
    requires dest_in { dest < length heads.now }
    requires source { source_offset + count ≤ 12 }
    requires target { dest_offset + count ≤ 12 }
    ensures { Put (head_in heads.now dest).edges result dest_offset (span (head_in heads.now source).edges source_offset count) }
{
    with_edges_of(
        &heads[source as usize].edges,
        source_offset,
        &heads[dest as usize].edges,
        dest_offset,
        count,
    )
}
