//! Links from children to their parent.

ghost use Rattle.std.specs.Prelude.{◌≡◌, ℕ, ◌+◌, ◌-◌, ◌<◌, ◌≤◌, true, length, is_ok, All, MatchResult, OnOk};
ghost use Rattle.node.specs.Store.{head_in};
ghost use Rattle.node.specs.Breaches.{Breached};
ghost use Rattle.node.specs.Cells.{span};
ghost use Rattle.node.specs.Links.{Adopted, edge as nodeEdge, relink};

use crate::edges::edge_at;
use crate::head::Head;
use supply::Fault;

/// Makes `node` the parent of its child at `edge`.
pub(crate) fn correct_parent_link(heads: &mut [Head], node: u16, edge: usize) -> Result<(), Fault>
    requires node { node < length heads.old }
    requires few { edge < 12 }
    ensures wide { length (head_in heads.old node).edges ≡ 12 }
    ensures cases { MatchResult result (λ _. (nodeEdge heads.old node edge < length heads.old) × (heads.new ≡ relink heads.old node edge (nodeEdge heads.old node edge))) (λ f. (f ≡ Fault.Breach) × (length heads.old ≤ nodeEdge heads.old node edge)) }
{
    let child = edge_at(&heads[node as usize].edges, edge) as usize;
    if child >= heads.len() {
        return Err(Fault::Breach);
    }
    heads[child] = Head {
        parent: node,
        place: edge as u16,
        ..heads[child]
    };
    Ok(())
}

/// Makes `node` the parent of its children from edge `first` to before `after_last`.
pub(crate) fn correct_childrens_parent_links(
    heads: &mut [Head],
    node: u16,
    first: usize,
    after_last: usize,
) -> Result<(), Fault>
    requires node { node < length heads.old }
    requires forward { first ≤ after_last }
    requires few { after_last ≤ 12 }
    ensures fault { Breached result }
    ensures done { OnOk result (Adopted heads.old heads.new node first (span (head_in heads.old node).edges first (after_last - first))) }
    ensures total { All (λ c. c < length heads.old) (span (head_in heads.old node).edges first (after_last - first)) → is_ok result ≡ true }
{
    for edge in first..after_last {
        correct_parent_link(heads, node, edge)?;
    }
    Ok(())
}
