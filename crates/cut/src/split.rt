//! A tree cut in two at a query: what is below it stays, and the rest becomes a tree of its own.

ghost use Rattle.std.specs.Prelude.{◌≡◌, ◌+◌, ◌<◌, MatchResult};
ghost use Rattle.node.specs.Store.{tables};
ghost use Rattle.cut.specs.Split.{CountsBoth, Halves, SplitsOff};

use crate::descent::cut_under;
use crate::spine::take_spine;
use node::count::{MAX_HEIGHT, recalc_length};
use node::head::Head;
use node::nodes::NodeRef;
use order::keys::{KeyOrder, Placing, Query};
use repair::border::{fix_left_border, fix_right_border};
use supply::{Fault, Supply, spare};

/// What a cut made: the roots of both parts, none where there was nothing to cut, and how many entries are left, how many right, and how
/// many keys were compared.
#[derive(Clone, Copy, PartialEq, Eq, Debug)]
pub struct Cut {
    pub parts: Option<(NodeRef, NodeRef)>,
    pub counts: (usize, usize, usize),
}

/// How many of `count` are left besides `len`.
fn rest_of(count: usize, len: usize) -> Result<usize, Fault>
    ensures { MatchResult result (λ n. n + len ≡ count) (λ _. count < len) }
{
    if len > count {
        return Err(Fault::Breach);
    }
    Ok(count - len)
}

/// How many entries both parts have, of `count` together: the lower one is counted.
fn count_both(
    heads: &[Head],
    left: NodeRef,
    right: NodeRef,
    count: usize,
) -> Result<(usize, usize), Fault>
    ensures { CountsBoth heads.now left right count result }
{
    if left.height < right.height {
        let len = recalc_length(heads, left)?;
        let rest = rest_of(count, len)?;
        return Ok((len, rest));
    }
    let len = recalc_length(heads, right)?;
    let rest = rest_of(count, len)?;
    Ok((rest, len))
}

/// Cuts a tree in two, and repairs both borders. Answers both roots and the comparisons made.
fn halve<K: KeyOrder, V: Copy, Q: Query<K>, S: Supply>(
    heads: &mut [Head],
    keys: &mut [K],
    values: &mut [V],
    supply: &mut S,
    root: NodeRef,
    query: &Q,
) -> Result<(NodeRef, NodeRef, usize), Fault>
    ensures { Halves (Q.Placing.places query.now) (tables heads.old keys.old values.old) (tables heads.new keys.new values.new) (S.stock supply.old) (S.stock supply.new) root.height root.node result }
{
    if root.height > MAX_HEIGHT {
        return Err(Fault::Breach);
    }
    spare(supply, root.height + 1)?;
    let top = take_spine::<K, V, S>(heads, supply, root.height)?;
    let made = cut_under(heads, keys, values, root, top, query)?;
    let left = fix_right_border(heads, keys, values, supply, root)?;
    let other = NodeRef {
        node: top,
        height: root.height,
    };
    let right = fix_left_border(heads, keys, values, supply, other)?;
    Ok((left, right, made))
}

/// Cuts a tree of `count` entries in two: those below the query stay under `root`, the others go to a new tree. With fewer numbers left
/// than one for each level nothing is done.
pub fn split_off<K: KeyOrder, V: Copy, Q: Query<K>, S: Supply>(
    heads: &mut [Head],
    keys: &mut [K],
    values: &mut [V],
    supply: &mut S,
    root: NodeRef,
    count: usize,
    query: &Q,
) -> Result<Cut, Fault>
    ensures { SplitsOff (Q.Placing.places query.now) (tables heads.old keys.old values.old) (tables heads.new keys.new values.new) (S.stock supply.old) (S.stock supply.new) root.height root.node count result }
{
    if count == 0 {
        return Ok(Cut {
            parts: None,
            counts: (0, 0, 0),
        });
    }
    let (left, right, made) = halve(heads, keys, values, supply, root, query)?;
    let (before, after) = count_both(heads, left, right, count)?;
    Ok(Cut {
        parts: Some((left, right)),
        counts: (before, after, made),
    })
}
