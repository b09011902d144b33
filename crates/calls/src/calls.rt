//! The calls of a bank as values, and what they answer.

use node::ends::Side;

/// A call on a place, or the audit. A lookup is by a query of type `P`, a cut and the least entry by one of type `Q`.
#[derive(Clone, Copy, PartialEq, Eq, Debug)]
pub enum Call<K, V, P, Q> {
    Insert {
        place: usize,
        key: K,
        value: V,
    },
    Lookup {
        place: usize,
        query: P,
    },
    Least {
        place: usize,
        query: Q,
    },
    Count {
        place: usize,
    },
    Cut {
        place: usize,
        other: usize,
        query: Q,
    },
    Open {
        place: usize,
    },
    Step {
        place: usize,
        side: Side,
    },
    Close {
        place: usize,
    },
    Release {
        place: usize,
    },
    Audit,
}

/// What a call answers.
#[derive(Clone, Copy, PartialEq, Eq, Debug)]
pub enum Answer<K, V> {
    /// The old value, where the key was there.
    Inserted(Option<V>),
    /// The value under the key, if there is one, and the comparisons made.
    Found(Option<V>, usize),
    /// The least entry that is the same as the query, if there is one.
    Least(Option<(K, V)>),
    /// How many entries there are.
    Counted(usize),
    /// The entries left, the entries right, and the comparisons made.
    Parted(usize, usize, usize),
    Opened,
    /// The entry at the end of the walk, if one was left.
    Handed(Option<(K, V)>),
    /// How many entries were dropped.
    Dropped(usize),
    /// Whether the bank is in good form.
    Audited(bool),
}
