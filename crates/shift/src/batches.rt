//! Rows of entries, and lookups in them.

ghost use Rattle.std.specs.Prelude.{◌≡◌};
ghost use Rattle.order.specs.Found.{first_not_below, found_at, comparisons};
ghost use Rattle.shift.specs.Lookups.{Beside};

use order::keys::{KeyOrder, Placing, Query};
use order::rows::rises;
use order::search::{SearchResult, search_node};
use std::{fmt, io};

/// Keys, each with a value beside it.
#[derive(Clone, Copy, PartialEq, Eq, Debug)]
pub struct Row<K, V, const N: usize> {
    pub keys: [K; N],
    pub values: [V; N],
}

/// What a lookup answers: where the search stopped, the value there if that key is the same as the query, and the
/// comparisons made.
#[derive(Clone, Copy, PartialEq, Eq, Debug)]
pub struct Lookup<V> {
    pub index: usize,
    pub value: Option<V>,
    pub comparisons: usize,
}

impl<K: KeyOrder, V: Copy, const N: usize> Row<K, V, N> {
    /// The value beside the key that is the same as `query`, if there is one.
    pub fn look_up<Q: Query<K>>(&self, query: &Q) -> Lookup<V>
        ensures index { result.index ≡ first_not_below (Q.Placing.places query.now) self.now.keys }
        ensures value { Beside (found_at (Q.Placing.places query.now) self.now.keys) self.now.values result.index result.value }
        ensures made { result.comparisons ≡ comparisons (Q.Placing.places query.now) self.now.keys }
    {
        let (result, comparisons) = search_node(&self.keys, query);
        match result {
            SearchResult::Found(index) => Lookup {
                index,
                value: Some(self.values[index]),
                comparisons,
            },
            SearchResult::GoDown(index) => Lookup {
                index,
                value: None,
                comparisons,
            },
        }
    }
}

/// Prints the row's title and order, and what the lookup of each query answers.
pub fn print_lookups<
    K: KeyOrder,
    V: Copy + fmt::Display,
    const N: usize,
    Q: Query<K> + fmt::Display,
>(rt: &impl Print, title: &str, row: &Row<K, V, N>, queries: &[Q]) -> io::Result<()> {
    let order = if rises(&row.keys) {
        "rising"
    } else {
        "out of order"
    };
    println!(rt; "{title}, {} keys {order}", row.keys.len())?;
    for query in queries {
        println!(rt; "  {query}: {}", row.look_up(query))?;
    }
    Ok(())
}

impl<V: fmt::Display> fmt::Display for Lookup<V> {
    fn fmt<W: fmt::Write>(&self, f: &mut fmt::Formatter<W>) -> fmt::Result {
        write!(
            f,
            "index {}, comparisons {}, ",
            self.index, self.comparisons
        )?;
        match &self.value {
            Some(value) => write!(f, "found {value}"),
            None => write!(f, "not found"),
        }
    }
}
