//! Operations on nodes, by hand on small tables.

use node::count::recalc_length;
use node::ends::{Handle, Side, leaf_edge};
use node::head::Head;
use node::level::{new_leaf, push_level};
use node::nodes::{Internal, Leaf, NodeRef};
use node::tables::Tables;
use std::process::Abort;
use std::test::Fail;

const FREE: Head = Head {
    parent: 7,
    place: 7,
    len: 7,
    edges: [7; 12],
};

const LEAF: Leaf = Leaf { node: 0 };

const RIGHT_LEAF: Leaf = Leaf { node: 1 };

const ROOT: Internal = Internal { node: 2, height: 1 };

const TOP: NodeRef = NodeRef { node: 2, height: 1 };

/// The even keys from 2 to 22 in the leaf 0, each with ten times itself.
fn evens(heads: &mut [Head], keys: &mut [u32], values: &mut [u32]) -> Result<(), Fail> {
    new_leaf(heads, 0)?;
    for idx in 0..11usize {
        let key = idx as u32 * 2 + 2;
        LEAF.insert_fit(heads, keys, values, idx, key, key * 10)?;
    }
    Ok(())
}

/// The full leaf split at 6, with its entry in the root 2 over both halves.
fn two_leaves(
    rt: &impl Abort,
    heads: &mut [Head],
    keys: &mut [u32],
    values: &mut [u32],
) -> Result<(), Fail> {
    evens(heads, keys, values)?;
    let (key, value) = NodeRef { node: 0, height: 0 }.split(heads, keys, values, 6, 1)?;
    assert_eq!(rt; (key, value), (14, 140));
    push_level(heads, 0, 2)?;
    ROOT.insert_fit(heads, keys, values, 0, key, value, 1)?;
    Ok(())
}

#[test]
fn split_keeps_six_and_moves_four(rt: HostRuntime) -> Result<(), Fail> {
    let mut heads = [FREE; 3];
    let mut keys = [0u32; 33];
    two_leaves(&rt, &mut heads, &mut keys, &mut [0u32; 33])?;
    assert_eq!(rt; (heads[0].len, heads[1].len, heads[2].len), (6, 4, 1));
    assert_eq!(rt; (keys[5], keys[11], keys[14], keys[22]), (12, 16, 22, 14));
    assert_eq!(rt;
        (heads[2].parent, heads[1].parent, heads[1].place),
        (65535, 2, 1)
    );
    assert_eq!(rt; recalc_length(&heads, TOP)?, 11);
    assert_eq!(rt;
        leaf_edge(&heads, Side::First, TOP)?,
        Handle { node: 0, idx: 0 }
    );
    assert_eq!(rt;
        leaf_edge(&heads, Side::Last, TOP)?,
        Handle { node: 1, idx: 4 }
    );
    Ok(())
}

#[test]
fn neighbours_even_out(rt: HostRuntime) -> Result<(), Fail> {
    let mut heads = [FREE; 3];
    let mut keys = [0u32; 33];
    let mut values = [0u32; 33];
    two_leaves(&rt, &mut heads, &mut keys, &mut values)?;
    ROOT.bulk_steal_left(&mut heads, &mut keys, &mut values, 0, 2)?;
    assert_eq!(rt; (heads[0].len, heads[1].len), (4, 6));
    assert_eq!(rt; (keys[22], keys[11], keys[12]), (10, 12, 14));
    ROOT.bulk_steal_right(&mut heads, &mut keys, &mut values, 0, 3)?;
    assert_eq!(rt; (heads[0].len, heads[1].len), (7, 3));
    assert_eq!(rt; (keys[22], keys[6], keys[11]), (16, 14, 18));
    Ok(())
}

#[test]
fn neighbours_merge(rt: HostRuntime) -> Result<(), Fail> {
    let mut heads = [FREE; 3];
    let mut keys = [0u32; 33];
    let mut values = [0u32; 33];
    two_leaves(&rt, &mut heads, &mut keys, &mut values)?;
    let tables = Tables {
        heads: &heads,
        keys: &keys,
        values: &values,
    };
    assert_eq!(rt; ROOT.can_merge(&tables, 0)?, true);
    assert_eq!(rt; ROOT.merge(&mut heads, &mut keys, &mut values, 0)?, (0, 1));
    assert_eq!(rt; (heads[0].len, heads[2].len), (11, 0));
    assert_eq!(rt; (keys[6], keys[7], values[10]), (14, 16, 220));
    assert_eq!(rt; ROOT.pop_level(&mut heads)?, NodeRef { node: 0, height: 0 });
    assert_eq!(rt; heads[0].parent, 65535);
    Ok(())
}

/// Children of 6 and 5 entries have no room in one node: both stay, or the one of five is raised to six. Of 6 and 4 they have.
#[test]
fn neighbours_join_as_their_lengths_choose(rt: HostRuntime) -> Result<(), Fail> {
    let mut heads = [FREE; 3];
    let mut keys = [0u32; 33];
    let mut values = [0u32; 33];
    two_leaves(&rt, &mut heads, &mut keys, &mut values)?;
    RIGHT_LEAF.insert_fit(&mut heads, &mut keys, &mut values, 4, 24, 240)?;
    let kept = ROOT.join_children(&mut heads, &mut keys, &mut values, Side::First, 0)?;
    assert_eq!(rt;
        (kept, heads[0].len, heads[1].len, keys[22]),
        ((0, None), 6, 5, 14)
    );
    let raised = ROOT.join_children(&mut heads, &mut keys, &mut values, Side::Last, 0)?;
    assert_eq!(rt;
        (raised, heads[0].len, heads[1].len, keys[22]),
        ((1, None), 5, 6, 12)
    );
    assert_eq!(rt;
        (keys[4], keys[11], values[11], keys[16]),
        (10, 14, 140, 24)
    );
    let raised = ROOT.join_children(&mut heads, &mut keys, &mut values, Side::First, 0)?;
    assert_eq!(rt;
        (raised, heads[0].len, heads[1].len, keys[22]),
        ((0, None), 6, 5, 14)
    );
    heads[1].len = 4;
    let merged = ROOT.join_children(&mut heads, &mut keys, &mut values, Side::Last, 0)?;
    assert_eq!(rt; (merged, heads[0].len, heads[2].len), ((0, Some(1)), 11, 0));
    assert_eq!(rt; (keys[6], keys[7], values[10]), (14, 16, 220));
    Ok(())
}

#[test]
fn strange_tables_are_refused(rt: HostRuntime) {
    let mut heads = [FREE; 3];
    let mut keys = [0u32; 33];
    let mut values = [0u32; 33];
    assert!(rt;
        LEAF.insert_fit(&mut heads, &mut keys, &mut [0u32; 32], 0, 1, 1)
            .is_err()
    );
    assert!(rt;
        Leaf { node: 3 }
            .insert_fit(&mut heads, &mut keys, &mut values, 0, 1, 1)
            .is_err()
    );
    heads[0].len = 12;
    assert!(rt;
        LEAF.insert_fit(&mut heads, &mut keys, &mut values, 0, 1, 1)
            .is_err()
    );
    assert!(rt; ROOT.merge(&mut heads, &mut keys, &mut values, 0).is_err());
    assert!(rt;
        ROOT.join_children(&mut heads, &mut keys, &mut values, Side::First, 0)
            .is_err()
    );
    assert!(rt; recalc_length(&heads, NodeRef { node: 0, height: 1 }).is_err());
    assert!(rt; recalc_length(&heads, NodeRef { node: 1, height: 6 }).is_err());
}
