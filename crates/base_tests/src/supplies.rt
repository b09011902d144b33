//! Both supplies at their limits.

use std::process::Abort;
use std::test::Fail;
use supply::bits::Bitmap;
use supply::links::Chain;
use supply::{Fault, Supply, drain, spare, take_two};

/// A new supply of `size` numbers is taken from until it refuses.
fn exhaust<S: Supply>(rt: &impl Abort, supply: &mut S, size: u16) -> Result<(), Fail> {
    assert_eq!(rt; supply.size(), size);
    assert_eq!(rt; supply.allowance(), size);
    assert_eq!(rt; supply.out_count(), 0);
    for _ in 0..size {
        supply.take()?;
    }
    assert_eq!(rt; supply.allowance(), 0);
    assert_eq!(rt; supply.out_count(), size);
    assert_eq!(rt; supply.take(), Err(Fault::NONE_LEFT));
    assert_eq!(rt; supply.out_count(), size);
    assert_eq!(rt; supply.is_out(size), false);
    assert_eq!(rt; supply.give_back(size), Err(Fault::Breach));
    assert_eq!(rt; supply.give_back(65535), Err(Fault::Breach));
    Ok(())
}

#[test]
fn sizes(rt: HostRuntime) -> Result<(), Fail> {
    for size in [0, 1, 64, 65, 4096] {
        exhaust(&rt, &mut Chain::new(size), size)?;
        exhaust(&rt, &mut Bitmap::new(size), size)?;
    }
    exhaust(&rt, &mut Chain::new(4097), 0)?;
    exhaust(&rt, &mut Bitmap::new(4097), 0)
}

/// The last of 65 numbers goes back once, and not twice.
fn give_back_twice<S: Supply>(rt: &impl Abort, supply: &mut S) {
    assert_eq!(rt; supply.give_back(64), Err(Fault::Breach));
    assert_eq!(rt; drain(supply), 65);
    assert_eq!(rt; supply.is_out(64), true);
    assert_eq!(rt; supply.give_back(64), Ok(()));
    assert_eq!(rt; supply.is_out(64), false);
    assert_eq!(rt; supply.give_back(64), Err(Fault::Breach));
    assert_eq!(rt; supply.allowance(), 1);
    assert_eq!(rt; supply.take(), Ok(64));
    assert_eq!(rt; supply.take(), Err(Fault::NONE_LEFT));
}

#[test]
fn back_twice(rt: HostRuntime) {
    give_back_twice(&rt, &mut Chain::new(65));
    give_back_twice(&rt, &mut Bitmap::new(65));
}

/// Of three numbers two are taken at once, and then the third is not.
fn two_of_three<S: Supply>(rt: &impl Abort, supply: &mut S) {
    assert_eq!(rt; take_two(supply), Ok((0, 1)));
    let short = Fault::Short {
        needed: 2,
        allowance: 1,
    };
    assert_eq!(rt; take_two(supply), Err(short));
    assert_eq!(rt; spare(supply, 2), Err(short));
    assert_eq!(rt; spare(supply, 1), Ok(()));
    assert_eq!(rt; supply.out_count(), 2);
    assert_eq!(rt; supply.take(), Ok(2));
}

#[test]
fn two(rt: HostRuntime) {
    two_of_three(&rt, &mut Chain::new(3));
    two_of_three(&rt, &mut Bitmap::new(3));
}

#[test]
fn chain_gives_last_returned_first(rt: HostRuntime) {
    let mut chain = Chain::new(4);
    assert_eq!(rt; take_two(&mut chain), Ok((0, 1)));
    assert_eq!(rt; chain.take(), Ok(2));
    for node in [2, 0, 1] {
        assert_eq!(rt; chain.give_back(node), Ok(()));
    }
    for node in [1, 0, 2, 3] {
        assert_eq!(rt; chain.take(), Ok(node));
    }
}

#[test]
fn bitmap_gives_lowest(rt: HostRuntime) {
    let mut bitmap = Bitmap::new(66);
    assert_eq!(rt; drain(&mut bitmap), 66);
    for node in [63, 65, 0, 64] {
        assert_eq!(rt; bitmap.give_back(node), Ok(()));
    }
    for node in [0, 63, 64, 65] {
        assert_eq!(rt; bitmap.take(), Ok(node));
    }
}
