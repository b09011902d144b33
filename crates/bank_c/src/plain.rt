//! A bank as plain fields, which a caller may hold, and the bank that they spell.

ghost use Rattle.std.specs.Prelude.{◌≡◌, ◌≤◌, Decides, All, map};
ghost use Rattle.bank_c.specs.Plain.{place_of};

use bank::bank::Bank;
use books::places::{PLACES, Place, Register};
use node::ends::Handle;
use node::nodes::NodeRef;
use supply::links::{Chain, ChainParts};
use walk::walks::Walk;

/// What `kind` of a place says.
const BARE: u16 = 0;

const TREE: u16 = 1;

const WALK: u16 = 2;

/// What stands in a place. A tree has a root, its height and the number of its entries; a walk has a leaf and an edge of it at each end, and
/// the number of the entries that are left.
#[repr(C)]
#[derive(Clone, Copy)]
pub struct PlainPlace {
    pub kind: u16,
    pub root: u16,
    pub height: u16,
    pub front_node: u16,
    pub front_edge: u16,
    pub back_node: u16,
    pub back_edge: u16,
    pub count: usize,
}

impl PlainPlace {
    /// The place with these fields.
    fn place(&self) -> Place
        ensures { result ≡ place_of self.now }
    {
        match self.kind {
            TREE => Place::Tree {
                root: NodeRef {
                    node: self.root,
                    height: self.height,
                },
                count: self.count,
            },
            WALK => Place::Walk(Walk {
                front: Handle {
                    node: self.front_node,
                    idx: self.front_edge,
                },
                back: Handle {
                    node: self.back_node,
                    idx: self.back_edge,
                },
                left: self.count,
            }),
            _ => Place::Bare,
        }
    }

    /// The fields of a place.
    fn of(place: Place) -> PlainPlace
        ensures same { place_of result ≡ place }
        ensures known { result.kind ≤ 2 }
    {
        let bare = PlainPlace {
            kind: BARE,
            root: 0,
            height: 0,
            front_node: 0,
            front_edge: 0,
            back_node: 0,
            back_edge: 0,
            count: 0,
        };
        match place {
            Place::Bare => bare,
            Place::Tree { root, count } => PlainPlace {
                kind: TREE,
                root: root.node,
                height: root.height,
                count,
                ..bare
            },
            Place::Walk(walk) => PlainPlace {
                kind: WALK,
                front_node: walk.front.node,
                front_edge: walk.front.idx,
                back_node: walk.back.node,
                back_edge: walk.back.idx,
                count: walk.left,
                ..bare
            },
        }
    }
}

/// The register with these places.
fn register_of(places: [PlainPlace; PLACES]) -> Register
    ensures { result.places ≡ map place_of places }
{
    let places = places.map(|place| place.place());
    Register::of(places)
}

/// The fields of the places.
fn places_of(register: Register) -> [PlainPlace; PLACES]
    ensures same { map place_of result ≡ register.places }
    ensures known { All (λ p. p.kind ≤ 2) result }
{
    register.into_places().map(|place| PlainPlace::of(place))
}

/// The fields of a bank, which may also hold anything else.
#[repr(C)]
#[derive(Clone, Copy)]
pub struct PlainBank {
    pub nodes: usize,
    pub places: [PlainPlace; PLACES],
    pub supply: ChainParts,
}

impl PlainBank {
    ghost use Rattle.std.specs.Prelude.{MatchOption};
    ghost use Rattle.supply.specs.Rows.{link_stock};
    ghost use Rattle.bank_c.specs.Plain.{IsBank, Spells};

    /// Whether each place is of a kind that there is.
    fn known(&self) -> bool
        ensures { Decides result (All (λ p. p.kind ≤ 2) self.now.places) }
    {
        self.places.iter().all(|place| place.kind <= WALK)
    }

    /// The bank that the fields spell, or none where they spell none.
    pub(crate) fn to_bank(&self) -> Option<Bank<Chain>>
        ensures { MatchOption result (IsBank self.now → ⊥) (λ b. Spells self.now b.size b.register.places (link_stock b.supply.size b.supply.links)) }
    {
        if !self.known() {
            return None;
        }
        let supply = Chain::from_parts(&self.supply)?;
        Some(Bank::from_parts(self.nodes, register_of(self.places), supply))
    }

    /// The fields of a bank.
    pub(crate) fn of(bank: Bank<Chain>) -> PlainBank
        ensures { Spells result bank.size bank.register.places (link_stock bank.supply.size bank.supply.links) }
    {
        let (nodes, register, supply) = bank.into_parts();
        let places = places_of(register);
        let supply = supply.into_parts();
        PlainBank {
            nodes,
            places,
            supply,
        }
    }
}
