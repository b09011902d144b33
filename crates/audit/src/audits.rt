//! The audit of a bank: whether each place holds its book, and the numbers that are out are those of the books.

ghost use Rattle.std.specs.Prelude.{◌≡◌, ℕ, ◌+◌, ◌<◌, ◌≤◌, length, true, Decides, IfSome, Some};
ghost use Rattle.node.specs.Balance.{mark};
ghost use Rattle.node.specs.Shape.{root_least};
ghost use Rattle.node.specs.Store.{Sized, head_in};
ghost use Rattle.walk.specs.Climbs.{Tops};
ghost use Rattle.walk.specs.Walks.{Nodeless};
ghost use Rattle.walk.specs.Window.{bounds};
ghost use Rattle.books.specs.States.{GoodForm};
ghost use Rattle.audit.specs.Marks.{weight};
ghost use Rattle.books.specs.declared.places.Place.TheVariants as Kind;
ghost use Rattle.audit.specs.Audits.{Agrees, Leads, TreeSound, TreeWhole, PlaceSound, PlaceWhole, PlacesSound, PlacesWhole};

use crate::marks::Met;
use crate::passes::{Part, pass};
use crate::runs::Run;
use books::places::{Place, Register};
use node::count::MAX_HEIGHT;
use node::ends::Handle;
use node::head::{CAPACITY, Head, NULL};
use node::nodes::NodeRef;
use node::tables::{MOST, Tables};
use order::keys::KeyOrder;
use supply::Supply;
use walk::walks::Walk;

/// Whether the tables fit together.
fn fit<K, V>(tables: &Tables<'_, K, V>) -> bool
    ensures { Decides result (Sized tables.now) }
{
    let count = tables.heads.len();
    let cells = CAPACITY * count;
    count <= MOST && tables.keys.len() == cells && tables.values.len() == cells
}

/// The node without a parent above `node`, which is `level` levels above the leaves.
fn top(heads: &[Head], node: u16, level: u16) -> Option<NodeRef>
    requires { level ≤ 5 }
    ensures sound { IfSome result (λ r. (r.height ≤ 5) × ((head_in heads.now r.node).parent ≡ 65535)) }
    ensures whole { (n : ℕ) → level + n ≤ 5 → Tops heads.now n node → Leads heads.now n node (level + n) result }
{
    let head = heads.get(node as usize)?;
    if head.parent == NULL {
        return Some(NodeRef {
            node,
            height: level,
        });
    }
    if level == MAX_HEIGHT {
        return None;
    }
    top(heads, head.parent, level + 1)
}

/// Whether nothing is left of a walk, not even a node.
fn is_idle(walk: Walk) -> bool
    ensures { Decides result (Nodeless walk) }
{
    walk.left == 0 && walk.front.node == NULL && walk.back.node == NULL
}

/// The least number of entries in a root.
fn least_at(height: u16) -> usize
    ensures { result ≡ root_least height }
{
    if height == 0 { 0 } else { 1 }
}

/// Whether a tree of `count` entries is shown under `root`, between these edges, in the order of their keys, of nodes that were not met.
/// They are met afterwards.
fn shows<K: KeyOrder, V>(
    tables: &Tables<'_, K, V>,
    met: &mut Met,
    root: NodeRef,
    front: Option<Handle>,
    back: Option<Handle>,
    count: usize,
) -> bool
    ensures sound { result ≡ true → TreeSound K.KeyOrder.compares tables.now (bounds front back) root count met.old met.new }
    ensures whole { TreeWhole K.KeyOrder.compares tables.now (bounds front back) root count met.old met.new result }
{
    let part = Part {
        node: root,
        least: least_at(root.height),
        front,
        back,
    };
    let mut run = Run {
        last: None,
        left: count,
    };
    match pass(tables, met, &mut run, part) {
        Some(()) => run.left == 0,
        None => false,
    }
}

/// Whether `root` lies in the table, at most `MAX_HEIGHT` levels above the leaves, and has no parent.
fn is_root(heads: &[Head], root: NodeRef) -> bool
    ensures { Decides result ((root.height ≤ 5) × (root.node < length heads.now) × ((head_in heads.now root.node).parent ≡ 65535)) }
{
    root.height <= MAX_HEIGHT
        && (root.node as usize) < heads.len()
        && heads[root.node as usize].parent == NULL
}

/// Whether `root` is the root of a tree of `count` entries, in tables that fit together.
fn audit_tree<K: KeyOrder, V>(
    tables: &Tables<'_, K, V>,
    met: &mut Met,
    root: NodeRef,
    count: usize,
) -> bool
    ensures sound { result ≡ true → Sized tables.now → PlaceSound K.KeyOrder.compares tables.now (Kind.Tree root count) met.old met.new }
    ensures whole { PlaceWhole K.KeyOrder.compares tables.now (Kind.Tree root count) met.old met.new result }
{
    is_root(tables.heads, root) && shows(tables, met, root, None, None, count)
}

/// Whether `walk` is a walk over the entries of a tree, or over none, in tables that fit together.
fn audit_walk<K: KeyOrder, V>(tables: &Tables<'_, K, V>, met: &mut Met, walk: Walk) -> bool
    ensures sound { result ≡ true → Sized tables.now → PlaceSound K.KeyOrder.compares tables.now (Kind.Walk walk) met.old met.new }
    ensures whole { PlaceWhole K.KeyOrder.compares tables.now (Kind.Walk walk) met.old met.new result }
{
    if is_idle(walk) {
        return true;
    }
    match top(tables.heads, walk.front.node, 0) {
        Some(root) => shows(
            tables,
            met,
            root,
            Some(walk.front),
            Some(walk.back),
            walk.left,
        ),
        None => false,
    }
}

/// Whether `place` holds a book in the tables, of nodes that were not met before. They are met afterwards.
pub fn audit_place<K: KeyOrder, V>(tables: &Tables<'_, K, V>, met: &mut Met, place: Place) -> bool
    ensures sound { result ≡ true → PlaceSound K.KeyOrder.compares tables.now place met.old met.new }
    ensures whole { PlaceWhole K.KeyOrder.compares tables.now place met.old met.new result }
{
    if !fit(tables) {
        return false;
    }
    match place {
        Place::Bare => true,
        Place::Tree { root, count } => audit_tree(tables, met, root, count),
        Place::Walk(walk) => audit_walk(tables, met, walk),
    }
}

/// Whether each of `places` holds a book in the tables, of nodes that were not met before. They are met afterwards.
fn audit_places<K: KeyOrder, V>(tables: &Tables<'_, K, V>, met: &mut Met, places: &[Place]) -> bool
    ensures sound { result ≡ true → PlacesSound K.KeyOrder.compares tables.now places.now met.old met.new }
    ensures whole { PlacesWhole K.KeyOrder.compares tables.now places.now met.old met.new result }
{
    for place in places {
        if !audit_place(tables, met, *place) {
            return false;
        }
    }
    true
}

/// The same of the places of a register, which are sixteen.
fn audit_register<K: KeyOrder, V>(
    tables: &Tables<'_, K, V>,
    met: &mut Met,
    register: &Register,
) -> bool
    ensures sound { result ≡ true → PlacesSound K.KeyOrder.compares tables.now register.now.places met.old met.new }
    ensures whole { PlacesWhole K.KeyOrder.compares tables.now register.now.places met.old met.new result }
    ensures sixteen { length register.now.places ≡ 16 }
{
    audit_places(tables, met, register.places())
}

/// Whether the tables fit together, have `size` nodes, and the supply as many numbers if there are any.
fn agree<K, V, S: Supply>(tables: &Tables<'_, K, V>, size: usize, supply: &S) -> bool
    ensures { Decides result (Agrees tables.now size (S.stock supply.now)) }
{
    fit(tables) && size == tables.heads.len() && (size == 0 || supply.size() as usize == size)
}

impl Met {
    /// Whether exactly the numbers that are out were met.
    fn are_out<S: Supply>(&self, supply: &S) -> bool
        ensures { Decides result ((x : ℕ) → weight self.now x ≡ mark (S.stock supply.now) x) }
    {
        let size = supply.size().max(supply::MOST);
        for node in 0..size {
            if self.has(node) != supply.is_out(node) {
                return false;
            }
        }
        true
    }
}

/// Whether the bank is in good form.
pub fn audit<K: KeyOrder, V, S: Supply>(
    tables: &Tables<'_, K, V>,
    size: usize,
    register: &Register,
    supply: &S,
) -> bool
    ensures { Decides result (GoodForm K.KeyOrder.compares (record { tables = tables.now; size = size; places = register.now.places; stock = S.stock supply.now })) }
{
    if !agree(tables, size, supply) {
        return false;
    }
    let mut met = Met::new();
    if !audit_register(tables, &mut met, register) {
        return false;
    }
    met.are_out(supply)
}
