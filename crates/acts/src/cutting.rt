//! The book of a place cut in two.

ghost use Rattle.node.specs.Store.{tables};
ghost use Rattle.acts.specs.Acts.{CutsIn};

use books::places::Place;
use cut::split::split_off;
use node::head::Head;
use order::keys::{KeyOrder, Placing, Query};
use supply::{Fault, Supply};

/// Cuts a bare place or a tree at a query. Answers what stands in both places then, and the entries left, the entries right and the
/// comparisons made.
pub fn cut_in<K: KeyOrder, V: Copy, Q: Query<K>, S: Supply>(
    heads: &mut [Head],
    keys: &mut [K],
    values: &mut [V],
    supply: &mut S,
    here: Place,
    query: &Q,
) -> Result<(Place, Place, (usize, usize, usize)), Fault>
    ensures { CutsIn K.KeyOrder.compares (tables heads.old keys.old values.old) (tables heads.new keys.new values.new) (S.stock supply.old) (S.stock supply.new) here (Q.Placing.places query.now) result }
{
    let Some((root, count)) = here.tree() else {
        return Ok((here, Place::Bare, (0, 0, 0)));
    };
    let cut = split_off(heads, keys, values, supply, root, count, query)?;
    let (left, right, _) = cut.counts;
    match cut.parts {
        None => Ok((here, Place::Bare, cut.counts)),
        Some((first, second)) => {
            let stays = Place::Tree {
                root: first,
                count: left,
            };
            let goes = Place::Tree {
                root: second,
                count: right,
            };
            Ok((stays, goes, cut.counts))
        }
    }
}
