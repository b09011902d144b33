//! Walks over the book of a place, and its release.

ghost use Rattle.acts.specs.Acts.{OpensIn, StepsIn, ClosesIn, ReleasesIn};

use books::places::Place;
use node::ends::Side;
use node::tables::Tables;
use order::keys::KeyOrder;
use supply::{Fault, Supply};
use walk::walks::{Walk, release};

/// A walk over all entries of a bare place or a tree.
pub fn open_in<K: KeyOrder, V, S: Supply>(
    tables: &Tables<'_, K, V>,
    supply: &S,
    here: Place,
) -> Result<Place, Fault>
    ensures { OpensIn K.KeyOrder.compares tables.now (S.stock supply.now) here result }
{
    let walk = match here.tree() {
        Some((root, count)) => Walk::open(tables, Some(root), count)?,
        None => Walk::open(tables, None, 0)?,
    };
    Ok(Place::Walk(walk))
}

/// A step of a walk, at one of its ends. Answers what stands there then, and the entry handed out, if one was left.
pub fn step_in<K: KeyOrder, V: Copy, S: Supply>(
    tables: &Tables<'_, K, V>,
    supply: &mut S,
    walk: Walk,
    side: Side,
) -> Result<(Place, Option<(K, V)>), Fault>
    ensures { StepsIn K.KeyOrder.compares tables.now (S.stock supply.old) (S.stock supply.new) walk side result }
{
    let mut walk = walk;
    let handed = walk.step(tables, supply, side)?;
    Ok((Place::Walk(walk), handed))
}

/// Drops the entries that a walk has left, and gives back its nodes. Answers how many entries were dropped.
pub fn close_in<K: KeyOrder, V: Copy, S: Supply>(
    tables: &Tables<'_, K, V>,
    supply: &mut S,
    walk: Walk,
) -> Result<usize, Fault>
    ensures { ClosesIn K.KeyOrder.compares tables.now (S.stock supply.old) (S.stock supply.new) walk result }
{
    walk.close(tables, supply)
}

/// Drops the entries of a bare place or a tree, and gives back its nodes. Answers how many entries were dropped.
pub fn release_in<K: KeyOrder, V: Copy, S: Supply>(
    tables: &Tables<'_, K, V>,
    supply: &mut S,
    here: Place,
) -> Result<usize, Fault>
    ensures { ReleasesIn K.KeyOrder.compares tables.now (S.stock supply.old) (S.stock supply.new) here result }
{
    match here.tree() {
        Some((root, count)) => release(tables, supply, Some(root), count),
        None => release(tables, supply, None, 0),
    }
}
