//! How keys are ordered, and where queries are placed among them.

ghost use Rattle.std.specs.Prelude.{◌≡◌};
ghost use Rattle.std.specs.declared.cmp.Ordering.{Ordering};
ghost use Rattle.order.specs.Laws.{Ordered, Placed, Pointed};
ghost use Rattle.order.specs.Among.{key_placed, key_pointed};

use std::cmp::Ordering;

/// A type of keys with an order that is total up to sameness: two keys that compare `Equal` need not be equal values.
pub trait KeyOrder: Copy {
    ghost compares: { Self → Self → Ordering };

    fn compare(&self, other: &Self) -> Ordering
        ensures { result ≡ compares self.now other.now };

    ghost ordered: { Ordered compares };
}

/// What can be compared with the keys of a type.
pub trait Placing<K> {
    ghost places: { Self → K → Ordering };

    /// `Less` where the query is below the key.
    fn place(&self, key: &K) -> Ordering
        ensures { result ≡ places self.now key.now };
}

/// What can be looked for among the keys of a type: its places go with the order of the keys. It may be the same as several
/// keys that differ.
pub trait Query<K: KeyOrder>: Placing<K> {
    ghost placed: { Placed K.KeyOrder.compares Self.Placing.places };
}

/// A query that stands at one place of the order: any two keys to which it compares as the same compare as the same with one another.
pub trait PointQuery<K: KeyOrder>: Query<K> {
    ghost pointed: { Pointed K.KeyOrder.compares Self.Placing.places };
}

/// A key is a query of its own type.
impl<K: KeyOrder> Placing<K> for K {
    ghost places = { K.KeyOrder.compares };

    fn place(&self, key: &K) -> Ordering {
        self.compare(key)
    }
}

impl<K: KeyOrder> Query<K> for K {
    ghost placed = { key_placed K.KeyOrder.ordered };
}

impl<K: KeyOrder> PointQuery<K> for K {
    ghost pointed = { key_pointed K.KeyOrder.ordered };
}
