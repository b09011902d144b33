//! An entry put into the book of a place.

ghost use Rattle.node.specs.Store.{tables};
ghost use Rattle.acts.specs.Acts.{Counts, InsertsIn};

use books::places::Place;
use insertion::root::{insert_first, try_insert};
use node::head::Head;
use order::keys::KeyOrder;
use supply::{Fault, Supply};

/// How many entries a tree of `count` has with one put in, which answered `old`.
fn count_with<V: Copy>(count: usize, old: Option<V>) -> usize
    ensures { Counts count old result }
{
    match old {
        Some(_) => count,
        None => count.saturating_add(1),
    }
}

/// Puts an entry into a bare place or a tree. Answers what stands there then, and the old value where the key was there.
pub fn insert_in<K: KeyOrder, V: Copy, S: Supply>(
    heads: &mut [Head],
    keys: &mut [K],
    values: &mut [V],
    supply: &mut S,
    here: Place,
    key: K,
    val: V,
) -> Result<(Place, Option<V>), Fault>
    ensures { InsertsIn K.KeyOrder.compares (tables heads.old keys.old values.old) (tables heads.new keys.new values.new) (S.stock supply.old) (S.stock supply.new) here (key, val) result }
{
    let Some((root, count)) = here.tree() else {
        let root = insert_first(heads, keys, values, supply, key, val)?;
        return Ok((Place::Tree { root, count: 1 }, None));
    };
    let (root, old) = try_insert(heads, keys, values, supply, root, key, val)?;
    let count = count_with(count, old);
    Ok((Place::Tree { root, count }, old))
}
