//! The nodes above the two edges between which a walk has its entries.

use node::count::MAX_HEIGHT;
use node::ends::Handle;
use node::head::{Head, NULL};
use node::nodes::NodeRef;
use walk::walks::Walk;

/// How many levels a tree has at most.
const LEVELS: usize = MAX_HEIGHT as usize + 1;

/// An edge of a leaf, and above it the edges that lead there from the root, by level. Above the root they are at no node.
#[derive(Clone, Copy)]
struct Path {
    edges: [Handle; LEVELS],
}

/// The edge that leads to the node of this one: at no node where that has no parent, or lies outside the table.
fn above(heads: &[Head], edge: Handle) -> Handle {
    match heads.get(edge.node as usize) {
        Some(head) => Handle {
            node: head.parent,
            idx: head.place,
        },
        None => Handle { node: NULL, idx: 0 },
    }
}

impl Path {
    /// The path to the edge of a leaf.
    fn to(heads: &[Head], leaf: Handle) -> Path {
        let mut edges = [leaf; LEVELS];
        for level in 1..LEVELS {
            edges[level] = above(heads, edges[level - 1]);
        }
        Path { edges }
    }

    /// The highest node of the path, if it has one.
    fn root(&self) -> Option<NodeRef> {
        let mut root = None;
        for (height, edge) in (0u16..).zip(&self.edges) {
            if edge.node != NULL {
                root = Some(NodeRef {
                    node: edge.node,
                    height,
                });
            }
        }
        root
    }

    /// The index of the path's edge in a node, if it goes through it.
    fn index_in(&self, node: NodeRef) -> Option<usize> {
        let edge = self.edges.get(node.height as usize)?;
        (edge.node == node.node).then_some(edge.idx as usize)
    }
}

/// The paths to both edges of a walk.
#[derive(Clone, Copy)]
pub struct Ends {
    front: Path,
    back: Path,
}

/// The part of a node between two of its edges.
#[derive(Clone, Copy)]
pub struct Span {
    pub first: usize,
    pub last: usize,
}

impl Ends {
    /// The ends of a walk.
    pub fn of(heads: &[Head], walk: Walk) -> Ends {
        Ends {
            front: Path::to(heads, walk.front),
            back: Path::to(heads, walk.back),
        }
    }

    /// The root above the front, if the walk has nodes.
    pub fn root(&self) -> Option<NodeRef> {
        self.front.root()
    }

    /// What lies between the ends of a node with `len` entries: all of it where neither path goes through.
    pub fn span(&self, node: NodeRef, len: usize) -> Span {
        Span {
            first: self.front.index_in(node).unwrap_or(0),
            last: self.back.index_in(node).unwrap_or(len),
        }
    }
}
