//! The supply with two limits.

use crate::wide::Wide;
use std::process::Abort;
use std::test::Fail;
use supply::bits::Bitmap;
use supply::callers::Caller;
use supply::links::Chain;
use supply::shares::Shares;
use supply::{Fault, Supply, drain};

/// How many numbers are out and may be taken, of the caller that is served.
fn counts<S: Supply + Drop>(shares: &Shares<S>) -> (u16, u16) {
    (shares.out_count(), shares.allowance())
}

#[test]
fn callers_have_numbers(rt: HostRuntime) {
    assert_eq!(rt; Caller::numbered(0), Some(Caller::First));
    assert_eq!(rt; Caller::numbered(1), Some(Caller::Second));
    assert_eq!(rt; Caller::numbered(2), None);
    assert_eq!(rt; Caller::numbered(65535), None);
    assert_eq!(rt; (Caller::First.number(), Caller::Second.number()), (0, 1));
}

/// Limits 4 and 3 over ten numbers: each caller is declined at its own.
fn limits_decide<S: Supply + Drop>(rt: &impl Abort, below: S) {
    let mut shares = Shares::new(below, 4, 3);
    assert_eq!(rt; (shares.caller(), shares.size()), (Caller::First, 10));
    assert_eq!(rt; counts(&shares), (0, 4));
    assert_eq!(rt; drain(&mut shares), 4);
    assert_eq!(rt; shares.take(), Err(Fault::NONE_LEFT));
    shares.turn(Caller::Second);
    assert_eq!(rt; counts(&shares), (0, 3));
    assert_eq!(rt; drain(&mut shares), 3);
    assert_eq!(rt; shares.take(), Err(Fault::NONE_LEFT));
    shares.turn(Caller::Second);
    assert_eq!(rt;
        (shares.caller(), counts(&shares)),
        (Caller::Second, (3, 0))
    );
    shares.turn(Caller::First);
    assert_eq!(rt; counts(&shares), (4, 0));
}

/// Limits 10 and 10 over twelve numbers: eight are of one caller, so four are left for the other.
fn the_supply_below_decides<S: Supply + Drop>(rt: &impl Abort, below: S) -> Result<(), Fail> {
    let mut shares = Shares::new(below, 10, 10);
    for left in 0..8u16 {
        assert_eq!(rt; counts(&shares), (left, 10 - left));
        shares.take()?;
    }
    assert_eq!(rt; counts(&shares), (8, 2));
    shares.turn(Caller::Second);
    assert_eq!(rt; counts(&shares), (0, 4));
    assert_eq!(rt; drain(&mut shares), 4);
    assert_eq!(rt; shares.take(), Err(Fault::NONE_LEFT));
    shares.turn(Caller::First);
    assert_eq!(rt; counts(&shares), (8, 0));
    assert_eq!(rt; shares.take(), Err(Fault::NONE_LEFT));
    Ok(())
}

/// A number of the other is not taken back, here or below, and one's own is.
fn the_others_stay<S: Supply + Drop>(rt: &impl Abort, below: S) -> Result<(), Fail> {
    let mut shares = Shares::new(below, 3, 3);
    let first = shares.take()?;
    shares.turn(Caller::Second);
    let second = shares.take()?;
    assert!(rt; first != second);
    assert_eq!(rt;
        (shares.is_out(first), shares.is_out(second)),
        (false, true)
    );
    assert_eq!(rt; shares.give_back(first), Err(Fault::Breach));
    assert_eq!(rt; counts(&shares), (1, 1));
    shares.turn(Caller::First);
    assert_eq!(rt;
        (shares.is_out(first), shares.is_out(second)),
        (true, false)
    );
    assert_eq!(rt; shares.give_back(second), Err(Fault::Breach));
    assert_eq!(rt; counts(&shares), (1, 1));
    assert_eq!(rt; shares.give_back(first), Ok(()));
    assert_eq!(rt; shares.give_back(first), Err(Fault::Breach));
    assert_eq!(rt; counts(&shares), (0, 2));
    shares.turn(Caller::Second);
    assert_eq!(rt; (shares.is_out(second), counts(&shares)), (true, (1, 2)));
    Ok(())
}

#[test]
fn over_a_chain(rt: HostRuntime) -> Result<(), Fail> {
    limits_decide(&rt, Chain::new(10));
    the_supply_below_decides(&rt, Chain::new(12))?;
    the_others_stay(&rt, Chain::new(3))
}

#[test]
fn over_a_bitmap(rt: HostRuntime) -> Result<(), Fail> {
    limits_decide(&rt, Bitmap::new(10));
    the_supply_below_decides(&rt, Bitmap::new(12))?;
    the_others_stay(&rt, Bitmap::new(3))
}

#[test]
fn over_itself(rt: HostRuntime) -> Result<(), Fail> {
    limits_decide(&rt, Shares::new(Chain::new(10), 9, 1));
    the_supply_below_decides(&rt, Shares::new(Bitmap::new(20), 12, 9))?;
    the_others_stay(&rt, Shares::new(Chain::new(3), 3, 0))
}

/// What the other caller of the supply below has is neither out nor given.
#[test]
fn barred_below_is_barred(rt: HostRuntime) -> Result<(), Fail> {
    let mut below = Shares::new(Chain::new(5), 2, 5);
    let barred = (below.take()?, below.take()?);
    below.turn(Caller::Second);
    let mut shares = Shares::new(below, 2, 5);
    for caller in [Caller::First, Caller::Second] {
        shares.turn(caller);
        for _ in 0..5u16 {
            if let Ok(node) = shares.take() {
                assert!(rt; node != barred.0 && node != barred.1);
            }
        }
        for node in [barred.0, barred.1] {
            assert_eq!(rt; shares.is_out(node), false);
            assert_eq!(rt; shares.give_back(node), Err(Fault::Breach));
        }
    }
    assert_eq!(rt; (shares.size(), counts(&shares)), (5, (1, 0)));
    Ok(())
}

/// Over more numbers than a bank can have, of which one may be taken.
#[test]
fn over_too_many(rt: HostRuntime) -> Result<(), Fail> {
    let wide = Wide { out: false };
    assert_eq!(rt; (wide.size(), wide.allowance()), (5000, 1));
    let mut shares = Shares::new(wide, 4000, 96);
    for caller in [Caller::First, Caller::Second] {
        shares.turn(caller);
        assert_eq!(rt; (shares.size(), counts(&shares)), (0, (0, 0)));
        assert_eq!(rt; shares.take(), Err(Fault::NONE_LEFT));
        assert_eq!(rt; shares.is_out(0), false);
        assert_eq!(rt; shares.give_back(0), Err(Fault::Breach));
    }
    Ok(())
}
