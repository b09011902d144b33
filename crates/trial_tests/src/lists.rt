//! Which lists are taken, and the order in which numbers come.

use crate::orders::in_order;
use std::array;
use std::process::Abort;
use std::test::Fail;
use supply::{Fault, MOST, Supply};
use trial::Trial;
use trial::refusals::WrongOrder;

/// There are no numbers: none may be taken, and none is taken back.
fn has_none(rt: &impl Abort, supply: &mut Trial) {
    let counts = (supply.size(), supply.allowance(), supply.out_count());
    assert_eq!(rt; counts, (0, 0, 0));
    assert_eq!(rt; supply.take(), Err(Fault::NONE_LEFT));
    assert_eq!(rt; supply.give_back(0), Err(Fault::Breach));
    assert!(rt; !supply.is_out(0));
}

/// Takes the numbers of the list in its order, and then no more.
fn gives_all(rt: &impl Abort, supply: &mut Trial, list: &[u16]) {
    for node in list {
        assert_eq!(rt; supply.take(), Ok(*node));
    }
    assert_eq!(rt; supply.take(), Err(Fault::NONE_LEFT));
    let counts = (supply.allowance(), supply.out_count());
    assert_eq!(rt; counts, (0, supply.size()));
}

#[test]
fn a_new_supply_has_no_numbers(rt: HostRuntime) {
    has_none(&rt, &mut Trial::new());
}

#[test]
fn a_list_with_each_number_once_is_the_order(rt: HostRuntime) -> Result<(), Fail> {
    let downward: [u16; MOST as usize] = array::from_fn(|i| MOST - 1 - i as u16);
    let halves: [u16; MOST as usize] = array::from_fn(|i| (i / 2 + (i % 2) * 2048) as u16);
    let lists: [&[u16]; 7] = [
        &[],
        &[0],
        &[1, 0],
        &[5, 0, 3, 1, 4, 2],
        &[2, 4, 1, 3, 0, 5],
        &downward,
        &halves,
    ];
    for list in lists {
        let mut supply = in_order(list)?;
        let counts = (
            supply.size() as usize,
            supply.allowance() as usize,
            supply.out_count(),
        );
        assert_eq!(rt; counts, (list.len(), list.len(), 0));
        gives_all(&rt, &mut supply, list);
    }
    Ok(())
}

#[test]
fn another_list_is_refused_and_leaves_no_numbers(rt: HostRuntime) -> Result<(), Fail> {
    let long: [u16; 4097] = array::from_fn(|i| i as u16);
    let mut twice: [u16; MOST as usize] = array::from_fn(|i| i as u16);
    twice[4095] = 0;
    let mut high: [u16; MOST as usize] = array::from_fn(|i| i as u16);
    high[0] = MOST;
    let lists: [&[u16]; 10] = [
        &[1],
        &[65535],
        &[0, 0],
        &[1, 1],
        &[0, 2],
        &[0, 1, 1],
        &[3, 0, 1, 2, 0],
        &long,
        &twice,
        &high,
    ];
    for list in lists {
        let mut supply = Trial::new();
        assert_eq!(rt; supply.write(list), Err(WrongOrder));
        has_none(&rt, &mut supply);
        let mut supply = in_order(&[1, 0, 2])?;
        assert_eq!(rt; supply.take(), Ok(1));
        assert_eq!(rt; supply.write(list), Err(WrongOrder));
        has_none(&rt, &mut supply);
    }
    assert_eq!(rt; WrongOrder.number(), 12);
    assert_eq!(rt;
        format!(in rt.alloc(); "{}", WrongOrder)?.as_str(),
        "refused 12"
    );
    Ok(())
}

#[test]
fn each_take_begins_at_the_head_again(rt: HostRuntime) -> Result<(), Fail> {
    let mut list = [5u16, 0, 3, 1, 4, 2];
    let mut supply = in_order(&list)?;
    list = [0; 6];
    assert_eq!(rt; list[0], 0);
    for node in [5u16, 0, 3] {
        assert_eq!(rt; supply.take(), Ok(node));
    }
    assert_eq!(rt; supply.give_back(0), Ok(()));
    assert_eq!(rt; supply.give_back(0), Err(Fault::Breach));
    assert_eq!(rt; supply.give_back(6), Err(Fault::Breach));
    for node in [0u16, 1] {
        assert_eq!(rt; supply.take(), Ok(node));
    }
    for node in [3u16, 1, 5] {
        assert_eq!(rt; supply.give_back(node), Ok(()));
    }
    assert!(rt; supply.is_out(0) && !supply.is_out(3) && !supply.is_out(2) && !supply.is_out(6));
    assert_eq!(rt;
        (supply.size(), supply.allowance(), supply.out_count()),
        (6, 5, 1)
    );
    gives_all(&rt, &mut supply, &[5, 3, 1, 4, 2]);
    Ok(())
}

#[test]
fn a_list_written_again_begins_anew(rt: HostRuntime) -> Result<(), Fail> {
    let mut supply = in_order(&[2, 1, 0])?;
    assert_eq!(rt; supply.take(), Ok(2));
    supply.write(&[1, 3, 2, 0])?;
    assert_eq!(rt;
        (supply.size(), supply.allowance(), supply.out_count()),
        (4, 4, 0)
    );
    gives_all(&rt, &mut supply, &[1, 3, 2, 0]);
    supply.write(&[])?;
    has_none(&rt, &mut supply);
    Ok(())
}
