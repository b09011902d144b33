//! The places of a bank, and the register that keeps them.

use node::nodes::NodeRef;
use walk::walks::Walk;

/// How many places a register has.
pub const PLACES: usize = 16;

/// What stands in a place: nothing, a tree with the number of its entries, or a walk over the entries of one.
#[derive(Clone, Copy, PartialEq, Eq, Debug)]
pub enum Place {
    Bare,
    Tree { root: NodeRef, count: usize },
    Walk(Walk),
}

/// The kinds of calls on a place, and on the second of two.
#[derive(Clone, Copy, PartialEq, Eq, Debug)]
pub enum CallKind {
    Insert,
    Lookup,
    Least,
    Count,
    Cut,
    /// The second place of a cut, to which what is not below the query goes.
    CutTo,
    Open,
    Step,
    Close,
    Release,
}

impl Place {
    ghost use Rattle.std.specs.Prelude.{◌≡◌};
    ghost use Rattle.books.specs.Kinds.{kind_at, allowed, HoldsTree};

    /// Whether what stands here allows a call of this kind.
    pub fn allows(self, call: CallKind) -> bool
        ensures { result ≡ allowed call (kind_at self) }
    {
        match self {
            Place::Bare => match call {
                CallKind::Insert
                | CallKind::Lookup
                | CallKind::Least
                | CallKind::Count
                | CallKind::Cut
                | CallKind::CutTo
                | CallKind::Open
                | CallKind::Release => true,
                CallKind::Step | CallKind::Close => false,
            },
            Place::Tree { .. } => match call {
                CallKind::Insert
                | CallKind::Lookup
                | CallKind::Least
                | CallKind::Count
                | CallKind::Cut
                | CallKind::Open
                | CallKind::Release => true,
                CallKind::CutTo | CallKind::Step | CallKind::Close => false,
            },
            Place::Walk(_) => match call {
                CallKind::Count | CallKind::Step | CallKind::Close => true,
                CallKind::Insert
                | CallKind::Lookup
                | CallKind::Least
                | CallKind::Cut
                | CallKind::CutTo
                | CallKind::Open
                | CallKind::Release => false,
            },
        }
    }

    /// The root and the number of entries of the tree that stands here; none in a bare place or a walk.
    #[inline(always)]
    pub fn tree(self) -> Option<(NodeRef, usize)>
        ensures { HoldsTree self result }
    {
        match self {
            Place::Bare => None,
            Place::Tree { root, count } => Some((root, count)),
            Place::Walk(_) => None,
        }
    }
}

/// The places, by number.
#[derive(Clone, Copy, PartialEq, Eq, Debug)]
pub struct Register {
    places: [Place; PLACES],
}

impl Register {
    ghost use Rattle.std.specs.Prelude.{◌≡◌, replicate, slice_set};
    ghost use Rattle.books.specs.Places.{NamedPlace};
    ghost use Rattle.books.specs.declared.places.Place.TheVariants.{Bare};

    /// Sixteen bare places.
    pub fn bare() -> Register
        ensures { result.places ≡ replicate 16 Bare }
    {
        Register {
            places: [Place::Bare; PLACES],
        }
    }

    /// The register of these places.
    pub fn of(places: [Place; PLACES]) -> Register
        ensures { result.places ≡ places }
    {
        Register { places }
    }

    /// The places, by number.
    pub fn places(&self) -> &[Place; PLACES]
        ensures { result.now ≡ self.now.places }
    {
        &self.places
    }

    /// The places themselves.
    pub fn into_places(self) -> [Place; PLACES]
        ensures { result ≡ self.places }
    {
        self.places
    }

    /// What stands in a place, if there is such a one.
    pub fn place(&self, at: usize) -> Option<Place>
        ensures { NamedPlace self.now.places at result }
    {
        self.places.get(at).copied()
    }

    /// Puts `place` where it is told, if there is such a place.
    pub fn set(&mut self, at: usize, place: Place)
        ensures { self.new.places ≡ slice_set self.old.places at place }
    {
        if at < PLACES {
            self.places[at] = place;
        }
    }
}
