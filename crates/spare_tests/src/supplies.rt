//! The check over each supply, with numbers out.

use crate::checks::{answers, offers};
use spares::{Spare, spare_check};
use std::process::Abort;
use std::test::Fail;
use supply::Supply;
use supply::bits::Bitmap;
use supply::callers::Caller;
use supply::links::Chain;
use supply::shares::Shares;
use trial::Trial;

/// Takes the numbers wanted, which come in this order.
fn takes<S: Supply>(rt: &impl Abort, supply: &mut S, wanted: &[u16]) {
    for node in wanted {
        assert_eq!(rt; supply.take(), Ok(*node));
    }
}

/// Gives the numbers back, in this order.
fn gives<S: Supply>(rt: &impl Abort, supply: &mut S, nodes: &[u16]) {
    for node in nodes {
        assert_eq!(rt; supply.give_back(*node), Ok(()));
    }
}

/// A check leaves the chain's row as it was, too, since the last number taken goes back first.
#[test]
fn a_chain_is_asked(rt: HostRuntime) {
    let mut chain = Chain::new(6);
    answers(&rt, &mut chain, 6);
    takes(&rt, &mut chain, &[0, 1, 2]);
    gives(&rt, &mut chain, &[2]);
    answers(&rt, &mut chain, 4);
    offers(&rt, &mut chain, &[2, 3, 4, 5]);
    takes(&rt, &mut chain, &[2, 3, 4, 5]);
    answers(&rt, &mut chain, 0);
}

#[test]
fn a_bitmap_is_asked(rt: HostRuntime) {
    let mut bitmap = Bitmap::new(6);
    answers(&rt, &mut bitmap, 6);
    takes(&rt, &mut bitmap, &[0, 1, 2]);
    gives(&rt, &mut bitmap, &[1]);
    answers(&rt, &mut bitmap, 4);
    offers(&rt, &mut bitmap, &[1, 3, 4, 5]);
    takes(&rt, &mut bitmap, &[1, 3, 4, 5]);
    answers(&rt, &mut bitmap, 0);
}

#[test]
fn a_supply_for_trials_is_asked(rt: HostRuntime) -> Result<(), Fail> {
    let mut trial = Trial::new();
    answers(&rt, &mut trial, 0);
    trial.write(&[5, 0, 3, 1, 4, 2])?;
    answers(&rt, &mut trial, 6);
    takes(&rt, &mut trial, &[5, 0, 3]);
    gives(&rt, &mut trial, &[0]);
    answers(&rt, &mut trial, 4);
    offers(&rt, &mut trial, &[0, 1, 4, 2]);
    takes(&rt, &mut trial, &[0, 1, 4, 2]);
    answers(&rt, &mut trial, 0);
    Ok(())
}

/// What one caller has is barred for the other; each is allowed what its limit leaves, as far as there are numbers below.
#[test]
fn two_callers_are_asked(rt: HostRuntime) {
    let mut shares = Shares::new(Chain::new(8), 6, 3);
    answers(&rt, &mut shares, 6);
    takes(&rt, &mut shares, &[0, 1, 2]);
    gives(&rt, &mut shares, &[0]);
    answers(&rt, &mut shares, 4);
    offers(&rt, &mut shares, &[0, 3, 4, 5]);
    shares.turn(Caller::Second);
    answers(&rt, &mut shares, 3);
    offers(&rt, &mut shares, &[0, 3, 4]);
    takes(&rt, &mut shares, &[0]);
    answers(&rt, &mut shares, 2);
    offers(&rt, &mut shares, &[3, 4]);
    shares.turn(Caller::First);
    offers(&rt, &mut shares, &[3, 4, 5, 6]);
    takes(&rt, &mut shares, &[3, 4, 5, 6]);
    answers(&rt, &mut shares, 0);
    shares.turn(Caller::Second);
    answers(&rt, &mut shares, 1);
    offers(&rt, &mut shares, &[7]);
}

/// Limits over a supply for trials: the list decides which numbers either caller is offered.
#[test]
fn two_callers_over_a_list_are_asked(rt: HostRuntime) -> Result<(), Fail> {
    let mut trial = Trial::new();
    trial.write(&[5, 0, 3, 1, 4, 2])?;
    let mut shares = Shares::new(trial, 4, 2);
    offers(&rt, &mut shares, &[5, 0, 3, 1]);
    takes(&rt, &mut shares, &[5, 0]);
    shares.turn(Caller::Second);
    answers(&rt, &mut shares, 2);
    offers(&rt, &mut shares, &[3, 1]);
    Ok(())
}

#[test]
fn supplies_without_numbers_are_asked(rt: HostRuntime) {
    answers(&rt, &mut Chain::new(0), 0);
    answers(&rt, &mut Bitmap::new(4097), 0);
    answers(&rt, &mut Shares::new(Chain::new(5), 0, 5), 0);
}

#[test]
fn all_numbers_of_the_largest_supply_are_spare(rt: HostRuntime) {
    let mut bitmap = Bitmap::new(4096);
    let mut list = [9u16; 4096];
    assert_eq!(rt; spare_check(&mut bitmap, 4096, &mut list), Spare::Yes);
    assert_eq!(rt; (list[0], list[4095]), (0, 4095));
    assert_eq!(rt; spare_check(&mut bitmap, 4097, &mut list), Spare::NoList);
    takes(&rt, &mut bitmap, &[0]);
    assert_eq!(rt; spare_check(&mut bitmap, 4096, &mut list), Spare::No);
    assert_eq!(rt; bitmap.allowance(), 4095);
}
