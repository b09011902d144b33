//! Leaves and inner nodes.

ghost use Rattle.std.specs.Prelude.{◌≡◌, ◌≤◌};
ghost use Rattle.node.specs.Operations.{Fan};
ghost use Rattle.node.specs.Kinds.{forced};

/// A node with its height above the leaves.
#[derive(Clone, Copy, PartialEq, Eq, Debug)]
pub struct NodeRef {
    pub node: u16,
    pub height: u16,
}

/// A node at the lowest level.
#[derive(Clone, Copy, PartialEq, Eq, Debug)]
pub struct Leaf {
    pub node: u16,
}

/// A node above the leaves.
#[derive(Clone, Copy, PartialEq, Eq, Debug)]
pub struct Internal {
    pub node: u16,
    pub height: u16,
}

/// A node by its kind.
#[derive(Clone, Copy, PartialEq, Eq, Debug)]
pub enum ForceResult {
    Leaf(Leaf),
    Internal(Internal),
}

impl NodeRef {
    /// Whether the node is a leaf or an inner node.
    pub fn force(self) -> ForceResult
        ensures { result ≡ forced self }
    {
        if self.height == 0 {
            ForceResult::Leaf(Leaf { node: self.node })
        } else {
            ForceResult::Internal(Internal {
                node: self.node,
                height: self.height,
            })
        }
    }

    /// How many edges the node has where it has `len` entries.
    pub(crate) fn edge_count(self, len: usize) -> usize
        requires { len ≤ 11 }
        ensures { Fan self.height len result }
    {
        match self.force() {
            ForceResult::Leaf(_) => 0,
            ForceResult::Internal(_) => len + 1,
        }
    }
}
