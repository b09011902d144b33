//! The audit of a bank of three nodes, whose tree is made by one split.

use audit::audits::audit;
use books::places::{Place, Register};
use node::ends::Handle;
use node::head::{Head, NULL};
use node::level::{new_leaf, push_level};
use node::nodes::{Internal, Leaf, NodeRef};
use node::tables::Tables;
use order::blend::BlendNumber;
use std::test::Fail;
use supply::Supply;
use supply::bits::Bitmap;
use walk::walks::Walk;

const FREE: Head = Head {
    parent: 7,
    place: 7,
    len: 7,
    edges: [7; 12],
};

const TOP: NodeRef = NodeRef { node: 2, height: 1 };

/// Ten keys in the leaves 0 and 1, and one in the root 2 over both.
fn tree(heads: &mut [Head], keys: &mut [BlendNumber], values: &mut [u32]) -> Result<(), Fail> {
    new_leaf(heads, 0)?;
    for idx in 0..11usize {
        let key = idx as u32 * 2 + 2;
        Leaf { node: 0 }.insert_fit(heads, keys, values, idx, BlendNumber::from(key), key * 10)?;
    }
    let leaf = NodeRef { node: 0, height: 0 };
    let (key, value) = leaf.split(heads, keys, values, 6, 1)?;
    push_level(heads, 0, 2)?;
    Internal { node: 2, height: 1 }.insert_fit(heads, keys, values, 0, key, value, 1)?;
    Ok(())
}

/// A supply of three numbers that are all out.
fn all_out() -> Result<Bitmap, Fail> {
    let mut supply = Bitmap::new(3);
    supply.take()?;
    supply.take()?;
    supply.take()?;
    Ok(supply)
}

/// A register with one place that is not bare.
fn with(place: Place) -> Register {
    let mut register = Register::bare();
    register.set(4, place);
    register
}

#[test]
fn a_tree_is_in_form(rt: HostRuntime) -> Result<(), Fail> {
    let mut heads = [FREE; 3];
    let mut keys = [BlendNumber::from(0); 33];
    let mut values = [0u32; 33];
    tree(&mut heads, &mut keys, &mut values)?;
    let mut supply = all_out()?;
    let tables = Tables {
        heads: &heads,
        keys: &keys,
        values: &values,
    };
    let right = with(Place::Tree {
        root: TOP,
        count: 11,
    });
    let short = with(Place::Tree {
        root: TOP,
        count: 10,
    });
    let low = with(Place::Tree {
        root: NodeRef { node: 0, height: 0 },
        count: 6,
    });
    let mut twice = with(Place::Tree {
        root: TOP,
        count: 11,
    });
    twice.set(
        5,
        Place::Tree {
            root: TOP,
            count: 11,
        },
    );
    assert!(rt; audit(&tables, 3, &right, &supply));
    assert!(rt; !audit(&tables, 2, &right, &supply));
    assert!(rt; !audit(&tables, 3, &short, &supply));
    assert!(rt; !audit(&tables, 3, &low, &supply));
    assert!(rt; !audit(&tables, 3, &twice, &supply));
    assert!(rt; !audit(&tables, 3, &Register::bare(), &supply));
    supply.give_back(1)?;
    assert!(rt; !audit(&tables, 3, &right, &supply));
    Ok(())
}

#[test]
fn keys_out_of_order_are_not(rt: HostRuntime) -> Result<(), Fail> {
    let mut heads = [FREE; 3];
    let mut keys = [BlendNumber::from(0); 33];
    let mut values = [0u32; 33];
    tree(&mut heads, &mut keys, &mut values)?;
    let supply = all_out()?;
    keys[22] = BlendNumber::from(12);
    let tables = Tables {
        heads: &heads,
        keys: &keys,
        values: &values,
    };
    let right = with(Place::Tree {
        root: TOP,
        count: 11,
    });
    assert!(rt; !audit(&tables, 3, &right, &supply));
    Ok(())
}

#[test]
fn a_node_that_leads_to_itself_is_not(rt: HostRuntime) -> Result<(), Fail> {
    let mut heads = [FREE; 3];
    let mut keys = [BlendNumber::from(0); 33];
    let mut values = [0u32; 33];
    tree(&mut heads, &mut keys, &mut values)?;
    let supply = all_out()?;
    heads[2].edges[1] = 2;
    let tables = Tables {
        heads: &heads,
        keys: &keys,
        values: &values,
    };
    let right = with(Place::Tree {
        root: TOP,
        count: 11,
    });
    assert!(rt; !audit(&tables, 3, &right, &supply));
    Ok(())
}

#[test]
fn a_walk_is_in_form_at_each_step(rt: HostRuntime) -> Result<(), Fail> {
    let mut heads = [FREE; 3];
    let mut keys = [BlendNumber::from(0); 33];
    let mut values = [0u32; 33];
    tree(&mut heads, &mut keys, &mut values)?;
    let mut supply = all_out()?;
    let tables = Tables {
        heads: &heads,
        keys: &keys,
        values: &values,
    };
    let mut walk = Walk::open(&tables, Some(TOP), 11)?;
    assert!(rt; audit(&tables, 3, &with(Place::Walk(walk)), &supply));
    for _ in 0..7u8 {
        walk.next(&tables, &mut supply)?;
        assert!(rt; audit(&tables, 3, &with(Place::Walk(walk)), &supply));
    }
    assert!(rt; !supply.is_out(0));
    let more = Walk { left: 5, ..walk };
    assert!(rt; !audit(&tables, 3, &with(Place::Walk(more)), &supply));
    let other = Walk {
        front: walk.back,
        back: walk.front,
        ..walk
    };
    assert!(rt; !audit(&tables, 3, &with(Place::Walk(other)), &supply));
    Ok(())
}

#[test]
fn a_walk_without_nodes_is(rt: HostRuntime) -> Result<(), Fail> {
    let tables = Tables {
        heads: &[FREE; 3],
        keys: &[BlendNumber::from(0); 33],
        values: &[0u32; 33],
    };
    let supply = Bitmap::new(3);
    let front = Handle { node: NULL, idx: 0 };
    let back = Handle { node: NULL, idx: 7 };
    let emptied = Walk {
        front,
        back,
        left: 0,
    };
    let more = Walk { left: 1, ..emptied };
    let half = Walk {
        back: Handle { node: 0, idx: 0 },
        ..emptied
    };
    assert!(rt; audit(&tables, 3, &with(Place::Walk(emptied)), &supply));
    assert!(rt; !audit(&tables, 3, &with(Place::Walk(more)), &supply));
    assert!(rt; !audit(&tables, 3, &with(Place::Walk(half)), &supply));
    Ok(())
}
