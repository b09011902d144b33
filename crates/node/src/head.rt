//! What a table keeps of a node beside its keys and values.

/// A node at a fixed place of the tables: its parent, its place among the parent's edges, how many entries it has, and its edges.
#[repr(C)]
#[derive(Clone, Copy, PartialEq, Eq, Debug)]
pub struct Head {
    pub parent: u16,
    pub place: u16,
    pub len: u16,
    pub edges: [u16; 12],
}

/// Half of the branching of a node: a full node gives up its entry at this index.
pub const B: usize = 6;

/// The most entries in a node.
pub const CAPACITY: usize = 2 * B - 1;

/// No node.
pub const NULL: u16 = 65535;
