//! Turns and layings out.

use crate::desk::{Desk, FREE, NONE, handed, insert, lookup, next, next_back, none_left};
use calls::calls::{Answer, Call};
use calls::refusals::Refusal;
use std::alloc::Global;
use std::process::Abort;
use std::test::Fail;
use supply::Supply;
use supply::bits::Bitmap;
use supply::links::Chain;
use supply::shares::Shares;

#[test]
fn there_are_two_callers(rt: HostRuntime) -> Result<(), Fail> {
    let mut desk = Desk::new(rt.alloc(), Chain::new(4), 4, 4)?;
    for (caller, told) in [
        (0u16, Refusal::Tables),
        (1, Refusal::Tables),
        (2, Refusal::Caller),
        (65535, Refusal::Caller),
    ] {
        assert_eq!(rt; desk.turn(caller), Err(told), "to {caller}");
    }
    assert_eq!(rt; (Refusal::Caller.number(), desk.bank.caller()), (10, 0));
    desk.lay_out()?;
    for (caller, told, served) in [
        (1u16, Ok(()), 1u16),
        (2, Err(Refusal::Caller), 1),
        (1, Ok(()), 1),
        (0, Ok(()), 0),
        (65535, Err(Refusal::Caller), 0),
    ] {
        assert_eq!(rt; desk.turn(caller), told, "to {caller}");
        assert_eq!(rt; desk.bank.caller(), served);
    }
    for (caller, told) in [(1u16, Refusal::Tables), (2, Refusal::Caller)] {
        let turned = desk.bank.turn(&[FREE; 3], &desk.keys, &desk.values, caller);
        assert_eq!(rt; turned, Err(told), "to {caller}");
    }
    assert_eq!(rt; desk.bank.caller(), 0);
    Ok(())
}

/// Caller 1 lays out while caller 0 has a tree and a walk; caller 0 may not do so again.
#[test]
fn each_lays_out_for_itself(rt: HostRuntime) -> Result<(), Fail> {
    let mut desk = Desk::new(rt.alloc(), Bitmap::new(6), 6, 6)?;
    desk.lay_out()?;
    desk.fill(&rt, 0, &[1, 2, 3]);
    desk.fill(&rt, 5, &[4]);
    desk.plays(&rt, &[(Call::Open { place: 5 }, Ok(Answer::Opened))]);
    desk.turn(1)?;
    assert_eq!(rt; desk.lay_out(), Ok(()));
    desk.plays(
        &rt,
        &[
            (Call::Count { place: 0 }, Ok(Answer::Counted(0))),
            (next(5), Err(Refusal::Kind)),
            (insert(5, 9), Ok(Answer::Inserted(None))),
        ],
    );
    assert_eq!(rt; desk.lay_out(), Err(Refusal::Supply));
    assert_eq!(rt; desk.nodes(), (1, 3));
    desk.audited(&rt)?;
    desk.turn(0)?;
    assert_eq!(rt; desk.lay_out(), Err(Refusal::Supply));
    assert_eq!(rt; desk.nodes(), (2, 3));
    desk.plays(
        &rt,
        &[
            (lookup(0, 2), Ok(Answer::Found(Some(20), 2))),
            (next(5), handed(4)),
            (Call::Close { place: 5 }, Ok(Answer::Dropped(0))),
            (Call::Release { place: 0 }, Ok(Answer::Dropped(3))),
        ],
    );
    assert_eq!(rt; desk.lay_out(), Ok(()));
    desk.turn(1)?;
    desk.plays(&rt, &[(lookup(5, 9), Ok(Answer::Found(Some(90), 1)))]);
    desk.audited(&rt)
}

/// Both callers walk in place 3, a step each in turn.
#[test]
fn turns_in_the_middle_of_a_walk(rt: HostRuntime) -> Result<(), Fail> {
    let mut desk = Desk::laid_out(rt.alloc(), Chain::new(8), 4, 4)?;
    desk.fill(&rt, 3, &[1, 2, 3, 4, 5, 6, 7, 8, 9, 10, 11, 12]);
    desk.plays(&rt, &[(Call::Open { place: 3 }, Ok(Answer::Opened))]);
    desk.turn(1)?;
    desk.fill(&rt, 3, &[21, 22, 23, 24, 25, 26, 27, 28, 29, 30, 31, 32]);
    desk.plays(&rt, &[(Call::Open { place: 3 }, Ok(Answer::Opened))]);
    for key in 1..13u32 {
        desk.turn(0)?;
        desk.plays(&rt, &[(next(3), handed(key))]);
        desk.turn(1)?;
        desk.plays(&rt, &[(next_back(3), handed(33 - key))]);
        desk.audited(&rt)?;
    }
    for caller in [0u16, 1] {
        desk.turn(caller)?;
        desk.plays(
            &rt,
            &[
                (next(3), none_left()),
                (Call::Close { place: 3 }, Ok(Answer::Dropped(0))),
            ],
        );
        assert_eq!(rt; desk.nodes(), (0, 4));
    }
    Ok(())
}

/// Caller 1 is declined its 97th node, and caller 0 goes on.
fn ninety_seven<S: Supply + Drop>(rt: &impl Abort, heap: Global, supply: S) -> Result<(), Fail> {
    let mut desk = Desk::laid_out(heap, supply, 4000, 96)?;
    desk.turn(1)?;
    for key in 0..700u32 {
        let _ = desk.ask(insert(0, key));
    }
    for place in 1..4usize {
        let _ = desk.ask(insert(place, 1));
    }
    assert_eq!(rt; desk.nodes(), (96, 0));
    desk.plays(rt, &[(insert(4, 1), Err(NONE)), (insert(4, 1), Err(NONE))]);
    desk.turn(0)?;
    assert_eq!(rt; desk.nodes(), (0, 4000));
    for key in 0..2000u32 {
        assert_eq!(rt; desk.ask(insert(0, key)), Ok(Answer::Inserted(None)));
    }
    let (out, allowance) = desk.nodes();
    assert!(rt; out > 96 && allowance < 4000);
    assert_eq!(rt; allowance, 4000 - out.min(4000));
    desk.audited(rt)?;
    desk.turn(1)?;
    assert_eq!(rt; desk.nodes(), (96, 0));
    Ok(())
}

#[test]
fn the_97th_node_is_declined(rt: HostRuntime) -> Result<(), Fail> {
    ninety_seven(&rt, rt.alloc(), Chain::new(4096))?;
    ninety_seven(&rt, rt.alloc(), Bitmap::new(4096))?;
    ninety_seven(&rt, rt.alloc(), Shares::new(Chain::new(4096), 4096, 0))
}
