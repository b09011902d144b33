//! Lookup and replacement in a tree made by one split. The original map, version 0.4.9, was given the same keys, 2 to 22 by twos and then 13,
//! with ten times the key as value; its nodes, its answers and the comparisons that it made are those expected here.

use map::insert::{insert_full, replace_value};
use map::search::search_tree;
use node::head::Head;
use node::level::{new_leaf, push_level};
use node::nodes::{Internal, Leaf, NodeRef};
use node::tables::Tables;
use order::blend::BlendNumber;
use std::test::Fail;

const FREE: Head = Head {
    parent: 7,
    place: 7,
    len: 7,
    edges: [7; 12],
};

const TOP: NodeRef = NodeRef { node: 2, height: 1 };

/// The tree, with its root in node 2 and the leaves in 0 and 1.
fn tree(heads: &mut [Head], keys: &mut [BlendNumber], values: &mut [u32]) -> Result<(), Fail> {
    new_leaf(heads, 0)?;
    for idx in 0..11usize {
        let key = idx as u32 * 2 + 2;
        Leaf { node: 0 }.insert_fit(heads, keys, values, idx, BlendNumber::from(key), key * 10)?;
    }
    let leaf = NodeRef { node: 0, height: 0 };
    let (key, value) = insert_full(
        heads,
        keys,
        values,
        leaf,
        6,
        BlendNumber::from(13),
        130,
        0,
        1,
    )?;
    push_level(heads, 0, 2)?;
    Internal { node: 2, height: 1 }.insert_fit(heads, keys, values, 0, key, value, 1)?;
    Ok(())
}

#[test]
fn answers_and_comparisons_are_the_originals(rt: HostRuntime) -> Result<(), Fail> {
    let mut heads = [FREE; 3];
    let mut keys = [BlendNumber::from(0); 33];
    let mut values = [0u32; 33];
    tree(&mut heads, &mut keys, &mut values)?;
    assert_eq!(rt; (heads[2].len, heads[0].len, heads[1].len), (1, 7, 4));
    let tables = Tables {
        heads: &heads,
        keys: &keys,
        values: &values,
    };
    let expected = [
        (1, None, 2),
        (2, Some(20), 2),
        (3, None, 3),
        (12, Some(120), 7),
        (13, Some(130), 8),
        (14, Some(140), 1),
        (15, None, 2),
        (16, Some(160), 2),
        (22, Some(220), 5),
        (23, None, 5),
    ];
    for (key, value, count) in expected {
        assert_eq!(rt;
            search_tree(&tables, TOP, &BlendNumber::from(key))?,
            (value, count)
        );
    }
    Ok(())
}

#[test]
fn a_value_is_replaced(rt: HostRuntime) -> Result<(), Fail> {
    let mut heads = [FREE; 3];
    let mut keys = [BlendNumber::from(0); 33];
    let mut values = [0u32; 33];
    tree(&mut heads, &mut keys, &mut values)?;
    assert_eq!(rt; replace_value(&heads, &keys, &mut values, 0, 6, 7)?, 130);
    let tables = Tables {
        heads: &heads,
        keys: &keys,
        values: &values,
    };
    assert_eq!(rt;
        search_tree(&tables, TOP, &BlendNumber::from(13))?,
        (Some(7), 8)
    );
    assert!(rt; replace_value(&heads, &keys, &mut values, 0, 7, 7).is_err());
    assert!(rt; replace_value(&heads, &keys, &mut values, 3, 0, 7).is_err());
    Ok(())
}

#[test]
fn strange_tables_end_a_lookup(rt: HostRuntime) {
    let heads = [FREE; 3];
    let keys = [BlendNumber::from(0); 33];
    let values = [0u32; 33];
    let short = Tables {
        heads: &heads,
        keys: &keys,
        values: &values[..32],
    };
    let tables = Tables {
        heads: &heads,
        keys: &keys,
        values: &values,
    };
    assert!(rt; search_tree(&short, TOP, &BlendNumber::from(1)).is_err());
    assert!(rt; search_tree(&tables, TOP, &BlendNumber::from(1)).is_err());
    let high = NodeRef { node: 0, height: 6 };
    assert!(rt; search_tree(&tables, high, &BlendNumber::from(1)).is_err());
}
