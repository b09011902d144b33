//! Marks on nodes.

use node::tables::MOST;

/// The nodes that an audit has met.
#[derive(Clone, Copy)]
pub struct Met {
    nodes: [bool; MOST],
}

impl Met {
    ghost use Rattle.std.specs.Prelude.{◌≡◌, ℕ, Decides, MatchOption, false, replicate, slice_index_or};
    ghost use Rattle.audit.specs.Marks.{weight, Unmet, with_mark};

    /// None met.
    pub fn new() -> Met
        ensures { (x : ℕ) → weight result x ≡ 0 }
    {
        Met {
            nodes: [false; MOST],
        }
    }

    /// Whether `node` was met.
    pub fn has(&self, node: u16) -> bool
        ensures { result ≡ slice_index_or self.now.nodes node false }
    {
        self.nodes.get(node as usize).copied().unwrap_or(false)
    }

    /// Marks `node`, where it is one of the nodes and was not met.
    pub(crate) fn meet(&mut self, node: u16) -> Option<()>
        ensures { MatchOption result (Unmet self.old node → ⊥) (λ _. Unmet self.old node × (self.new ≡ with_mark self.old node)) }
    {
        if node as usize >= MOST || self.nodes[node as usize] {
            return None;
        }
        self.nodes[node as usize] = true;
        Some(())
    }
}
